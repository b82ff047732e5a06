ghost use Rattle.std.specs.Prelude.{◌≡◌, ◌≢◌, [], ◌∷◌, length, IfOk, IfSome, IfNone};
ghost use Rattle.dialogue.specs.Told.{Told};
ghost use Rattle.j_overload.specs.Choices.{Chosen};
ghost use Rattle.j_overload.specs.Rules.{choice_in, choice_of};

use crate::applicable::applicable_ones;
use crate::argument::ArgType;
use crate::choice::Choice;
use crate::phase::Phase;
use crate::specific::{first_of_equals, most_specific_ones};
use jtypes::{Asks, Classes, MethodSig};
use rw_base::Mem;
use std::alloc::Global;

/// The place of a list of one.
fn only_place(places: &[usize]) -> Option<usize>
    ensures only { IfSome result (λ place. places.now ≡ place ∷ []) }
    ensures others { IfNone result (length places.now ≢ 1) }
{
    match places {
        [place] => Some(*place),
        _ => None,
    }
}

/// The choice of a phase, if it has applicable candidates. A lone one isn't tested against itself.
fn choice_in<C: Classes>(
    alloc: Global,
    phase: Phase,
    args: &[ArgType],
    candidates: &[MethodSig],
    c: &C,
    asks: &mut Asks,
) -> Mem<Option<Choice>>
    ensures { IfOk result (λ choice.
        Told (choice_in phase args.now candidates.now) (C.world c.now) asks.old asks.new choice) }
{
    let places = applicable_ones(alloc, phase, args, candidates, c, asks)?;
    if places.is_empty() {
        return Ok(None);
    }
    if let Some(place) = only_place(places.as_slice()) {
        return Ok(Some(Choice::Method(place)));
    }
    let count = args.len();
    let best = most_specific_ones(alloc, phase, count, candidates, places.as_slice(), c, asks)?;
    Ok(Some(first_of_equals(candidates, best.as_slice())))
}

/// Chooses the method that a call with these arguments means (JLS 15.12.2), with the questions
/// of all its tests put to `asks`.
pub fn choose_asking<C: Classes>(
    alloc: Global,
    candidates: &[MethodSig],
    args: &[ArgType],
    c: &C,
    asks: &mut Asks,
) -> Mem<Choice>
    ensures { IfOk result (λ choice.
        Told (choice_of candidates.now args.now) (C.world c.now) asks.old asks.new choice) }
{
    if let Some(choice) = choice_in(alloc, Phase::Strict, args, candidates, c, asks)? {
        return Ok(choice);
    }
    if let Some(choice) = choice_in(alloc, Phase::Loose, args, candidates, c, asks)? {
        return Ok(choice);
    }
    if let Some(choice) = choice_in(alloc, Phase::Variable, args, candidates, c, asks)? {
        return Ok(choice);
    }
    Ok(Choice::None)
}

/// Chooses the method that a call with these arguments means: among the candidates that are
/// applicable in the first phase that has any, the one that is more specific than all others
/// (JLS 15.12.2.2 to 15.12.2.5).
pub fn choose<C: Classes>(
    alloc: Global,
    candidates: &[MethodSig],
    args: &[ArgType],
    c: &C,
) -> Mem<Choice>
    ensures { IfOk result (λ choice. Chosen (C.world c.now) candidates.now args.now choice) }
{
    let mut asks = Asks::new(alloc);
    let choice = choose_asking(alloc, candidates, args, c, &mut asks)?;
    Ok(choice)
}
