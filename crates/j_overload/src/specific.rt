// The most specific among applicable candidates.
ghost use Rattle.std.specs.Prelude.{◌≡◌, ◌<◌, length, IsTrue, IfOk, All};
ghost use Rattle.std.specs.List.{list_all};
ghost use Rattle.dialogue.specs.Told.{Told};
ghost use Rattle.j_overload.specs.TestEach.{all_of};
ghost use Rattle.j_overload.specs.Parameters.{takes_number};
ghost use Rattle.j_overload.specs.Picked.{candidates_at, TakesAt};
ghost use Rattle.j_overload.specs.Rules.{first_of_equals, more_specific, most_specific_ones, types_eq};

use crate::choice::Choice;
use crate::parameters::{compared_count, parameter_type};
use crate::phase::Phase;
use jtypes::{Asks, Classes, MethodSig, are_same_types, is_subtype_asking};
use rw_base::Mem;
use sqlite_items::Items;
use std::alloc::Global;

/// Whether a method is more specific than another for so many arguments. Each pair of types is
/// tested.
fn is_more_specific<C: Classes>(
    alloc: Global,
    phase: Phase,
    count: usize,
    m: &MethodSig,
    n: &MethodSig,
    c: &C,
    asks: &mut Asks,
) -> Mem<bool>
    requires first { IsTrue (takes_number phase m.now count) }
    requires second { IsTrue (takes_number phase n.now count) }
    ensures { IfOk result (λ r. Told (more_specific phase count m.now n.now) (C.world c.now) asks.old asks.new r) }
{
    let mut all = true;
    for at in 0..compared_count(count, n) {
        let t = parameter_type(phase, m, at);
        let u = parameter_type(phase, n, at);
        let more = is_subtype_asking(alloc, t, u, c, asks)?;
        all &= more;
    }
    Ok(all)
}

/// Whether a method is more specific than each candidate at these positions, each of which is
/// tested.
fn is_above_all<C: Classes>(
    alloc: Global,
    phase: Phase,
    count: usize,
    m: &MethodSig,
    candidates: &[MethodSig],
    places: &[usize],
    c: &C,
    asks: &mut Asks,
) -> Mem<bool>
    requires first { IsTrue (takes_number phase m.now count) }
    requires others { All (TakesAt candidates.now phase count) places.now }
    ensures { IfOk result (λ r.
        let others = candidates_at candidates.now places.now in
        Told (all_of (λ d. more_specific phase count m.now d.1) others) (C.world c.now) asks.old asks.new r) }
{
    let mut above = true;
    for place in places {
        let more = is_more_specific(alloc, phase, count, m, &candidates[*place], c, asks)?;
        above &= more;
    }
    Ok(above)
}

/// The positions of the most specific candidates.
pub(crate) fn most_specific_ones<C: Classes>(
    alloc: Global,
    phase: Phase,
    count: usize,
    candidates: &[MethodSig],
    places: &[usize],
    c: &C,
    asks: &mut Asks,
) -> Mem<Items<usize>>
    requires { All (TakesAt candidates.now phase count) places.now }
    ensures told { IfOk result (λ best.
        let ones = candidates_at candidates.now places.now in
        let most_specific = candidates_at candidates.now best in
        Told (most_specific_ones phase count ones) (C.world c.now) asks.old asks.new most_specific) }
    ensures take { IfOk result (λ best. All (TakesAt candidates.now phase count) best) }
{
    let mut best = Items::new(alloc);
    for place in places {
        let m = &candidates[*place];
        if is_above_all(alloc, phase, count, m, candidates, places, c, asks)? {
            best.push(*place)?;
        }
    }
    Ok(best)
}

/// Whether a method has the parameters of each candidate at these positions.
fn has_parameters_of_all(m: &MethodSig, candidates: &[MethodSig], places: &[usize]) -> bool
    requires { All (λ i. i < length candidates.now) places.now }
    ensures { result ≡ list_all (λ d. types_eq m.now.params d.1.params) (candidates_at candidates.now places.now) }
{
    for place in places {
        if !are_same_types(m.params.as_slice(), candidates[*place].params.as_slice()) {
            return false;
        }
    }
    true
}

/// The first of the most specific candidates, where all of them have equal parameters.
pub(crate) fn first_of_equals(candidates: &[MethodSig], best: &[usize]) -> Choice
    requires { All (λ i. i < length candidates.now) best.now }
    ensures { result ≡ first_of_equals (candidates_at candidates.now best.now) }
{
    match best {
        [] => Choice::Ambiguous,
        [first, others @ ..] => {
            let m = &candidates[*first];
            if has_parameters_of_all(m, candidates, others) {
                Choice::Method(*first)
            } else {
                Choice::Ambiguous
            }
        }
    }
}
