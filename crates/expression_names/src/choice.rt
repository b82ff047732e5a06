// The method that arguments choose.
ghost use Rattle.std.specs.Prelude.{◌≡◌, IfOk};
ghost use Rattle.dialogue.specs.Told.{Told};
ghost use Rattle.expression_names.specs.Calls.{method_at, chosen_of, chosen};

use j_names::candidates;
use j_overload::{ArgType, Choice, choose_asking};
use jtypes::{Asks, Classes, MethodSig};
use rw_base::Mem;
use std::alloc::Global;

/// The method at the place of a choice.
fn method_at(methods: &[MethodSig], choice: Choice) -> Mem<Option<MethodSig>>
    ensures { IfOk result (λ m. m ≡ method_at methods.now choice) }
{
    let Choice::Method(place) = choice else {
        return Ok(None);
    };
    match methods.get(place) {
        Some(m) => Ok(Some(m.copy()?)),
        None => Ok(None),
    }
}

/// The method that arguments choose among some candidates.
fn chosen_of<C: Classes>(
    alloc: Global,
    methods: &[MethodSig],
    args: &[ArgType],
    c: &C,
    asks: &mut Asks,
) -> Mem<Option<MethodSig>>
    ensures { IfOk result (λ m.
        Told (chosen_of methods.now args.now) (C.world c.now) asks.old asks.new m) }
{
    let choice = choose_asking(alloc, methods, args, c, asks)?;
    let method = method_at(methods, choice)?;
    Ok(method)
}

/// The method that arguments choose among those of a name, without the hidden ones.
#[tactic(auto, unfolding(crate::specs::Calls::chosen))]
pub(crate) fn chosen<C: Classes>(
    alloc: Global,
    methods: &[MethodSig],
    args: &[ArgType],
    c: &C,
    asks: &mut Asks,
) -> Mem<Option<MethodSig>>
    ensures { IfOk result (λ m.
        Told (chosen methods.now args.now) (C.world c.now) asks.old asks.new m) }
{
    let all = candidates(alloc, methods)?;
    let method = chosen_of(alloc, all.as_slice(), args, c, asks)?;
    Ok(method)
}
