// The applicable candidates of a phase.
ghost use Rattle.std.specs.Prelude.{◌≡◌, length, IsTrue, IfOk, All};
ghost use Rattle.std.specs.List.{zip};
ghost use Rattle.dialogue.specs.Told.{Told};
ghost use Rattle.j_overload.specs.TestEach.{all_of};
ghost use Rattle.j_overload.specs.Parameters.{parameter_types, takes_number};
ghost use Rattle.j_overload.specs.Picked.{candidates_at, TakesAt};
ghost use Rattle.j_overload.specs.Rules.{applicable, applicable_ones, argument_fit, function_fit, is_interface};

use crate::argument::ArgType;
use crate::parameters::{parameter_type, takes_number};
use crate::phase::Phase;
use jtypes::{
    Asks, ClassKind, Classes, JType, MethodSig, ask_class, fits_loosely_asking,
    fits_strictly_asking,
};
use rw_base::Mem;
use sqlite_items::Items;
use std::alloc::Global;

fn is_interface(kind: ClassKind) -> bool
    ensures { result ≡ is_interface kind }
{
    matches!(kind, ClassKind::Interface)
}

/// Whether a lambda or a method reference fits a parameter.
fn function_fits<C: Classes>(t: &JType, c: &C, asks: &mut Asks) -> Mem<bool>
    ensures { IfOk result (λ r. Told (function_fit t.now) (C.world c.now) asks.old asks.new r) }
{
    match t {
        JType::Class(name) => match ask_class(name, c, asks)? {
            Some(header) => Ok(is_interface(header.kind)),
            None => Ok(true),
        },
        JType::Unknown => Ok(true),
        _ => Ok(false),
    }
}

/// Whether an argument fits a parameter in a phase.
fn argument_fits<C: Classes>(
    alloc: Global,
    phase: Phase,
    argument: &ArgType,
    t: &JType,
    c: &C,
    asks: &mut Asks,
) -> Mem<bool>
    ensures { IfOk result (λ r. Told (argument_fit phase argument.now t.now) (C.world c.now) asks.old asks.new r) }
{
    match argument {
        ArgType::Known(a) => match phase {
            Phase::Strict => {
                let fits = fits_strictly_asking(alloc, a, t, c, asks)?;
                Ok(fits)
            }
            Phase::Loose | Phase::Variable => {
                let fits = fits_loosely_asking(alloc, a, t, c, asks)?;
                Ok(fits)
            }
        },
        ArgType::Function => {
            let fits = function_fits(t, c, asks)?;
            Ok(fits)
        }
    }
}

/// Whether all arguments fit, each of which is tested.
fn arguments_fit<C: Classes>(
    alloc: Global,
    phase: Phase,
    args: &[ArgType],
    m: &MethodSig,
    c: &C,
    asks: &mut Asks,
) -> Mem<bool>
    requires { IsTrue (takes_number phase m.now (length args.now)) }
    ensures { IfOk result (λ r.
        let types = parameter_types phase m.now (length args.now) in
        Told (all_of (λ t. argument_fit phase t.0 t.1) (zip args.now types)) (C.world c.now) asks.old asks.new r) }
{
    let mut all = true;
    for (at, argument) in args.iter().enumerate() {
        let t = parameter_type(phase, m, at);
        let fits = argument_fits(alloc, phase, argument, t, c, asks)?;
        all &= fits;
    }
    Ok(all)
}

/// Whether a candidate is applicable in a phase.
fn is_applicable<C: Classes>(
    alloc: Global,
    phase: Phase,
    args: &[ArgType],
    m: &MethodSig,
    c: &C,
    asks: &mut Asks,
) -> Mem<bool>
    ensures { IfOk result (λ r. Told (applicable phase args.now m.now) (C.world c.now) asks.old asks.new r) }
{
    if !takes_number(phase, m, args.len()) {
        return Ok(false);
    }
    let fit = arguments_fit(alloc, phase, args, m, c, asks)?;
    Ok(fit)
}

/// The positions of the candidates that are applicable in a phase.
pub(crate) fn applicable_ones<C: Classes>(
    alloc: Global,
    phase: Phase,
    args: &[ArgType],
    candidates: &[MethodSig],
    c: &C,
    asks: &mut Asks,
) -> Mem<Items<usize>>
    ensures told { IfOk result (λ places.
        let ones = candidates_at candidates.now places in
        Told (applicable_ones phase args.now candidates.now) (C.world c.now) asks.old asks.new ones) }
    ensures take { IfOk result (λ places. All (TakesAt candidates.now phase (length args.now)) places) }
{
    let mut places = Items::new(alloc);
    for (place, m) in candidates.iter().enumerate() {
        if is_applicable(alloc, phase, args, m, c, asks)? {
            places.push(place)?;
        }
    }
    Ok(places)
}
