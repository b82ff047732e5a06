// Names of annotation elements.
ghost use Rattle.std.specs.Prelude.{◌≡◌, IfOk, OnOk, Some};
ghost use Rattle.std.specs.Option.{option_copied};
ghost use Rattle.dialogue.specs.Told.{Told};
ghost use Rattle.j_names.specs.Calls.{candidates};
ghost use Rattle.j_names.specs.Members.{methods_of};
ghost use Rattle.j_names.specs.Names.{top_around};
ghost use Rattle.judging.specs.Judging.{Judged};
ghost use Rattle.declared_names.specs.Declarations.{or_unknown};
ghost use Rattle.declared_names.specs.Elements.{method_at, chosen_element, element_meant, element};

use crate::noting::noted;
use j_names::{UnitContext, candidates, methods_of_asking};
use j_overload::{Choice, choose_asking};
use jtypes::{Asks, Classes, MethodSig, Name, Symbol};
use judging::Log;
use rw_base::Mem;
use sqlite_items::Items;
use std::alloc::Global;

/// The method at the place of a choice.
fn method_at(methods: &[MethodSig], choice: Choice) -> Mem<Symbol>
    ensures { IfOk result (λ s. s ≡ or_unknown Symbol.Method (method_at methods.now choice)) }
{
    let Choice::Method(place) = choice else {
        return Ok(Symbol::Unknown);
    };
    match methods.get(place) {
        Some(method) => Ok(Symbol::Method(method.copy()?)),
        None => Ok(Symbol::Unknown),
    }
}

/// The candidate that a call without arguments means.
fn chosen_element<C: Classes>(
    alloc: Global,
    methods: &[MethodSig],
    c: &C,
    asks: &mut Asks,
) -> Mem<Symbol>
    ensures { IfOk result (λ s.
        Told (chosen_element methods.now) (C.world c.now) asks.old asks.new s) }
{
    let choice = choose_asking(alloc, methods, &[], c, asks)?;
    let element = method_at(methods, choice)?;
    Ok(element)
}

/// The candidates among the methods of a name that an annotation's type has.
fn element_of<C: Classes>(
    alloc: Global,
    cx: &UnitContext,
    annotation: &Name,
    name: &Name,
    c: &C,
    asks: &mut Asks,
) -> Mem<Symbol>
    ensures { IfOk result (λ s.
        Told (element_meant cx.now (Some annotation.now) name.now) (C.world c.now) asks.old asks.new s) }
{
    let methods = methods_of_asking(alloc, cx, annotation, name, c, asks)?;
    let candidates = candidates(alloc, methods.as_slice())?;
    let element = chosen_element(alloc, candidates.as_slice(), c, asks)?;
    Ok(element)
}

fn element_meant<C: Classes>(
    alloc: Global,
    cx: &UnitContext,
    annotation: Option<&Name>,
    name: &Name,
    c: &C,
    asks: &mut Asks,
) -> Mem<Symbol>
    ensures { IfOk result (λ s.
        Told (element_meant cx.now (option_copied annotation.entry) name.now) (C.world c.now) asks.old asks.new s) }
{
    match annotation {
        Some(annotation) => {
            let element = element_of(alloc, cx, annotation, name, c, asks)?;
            Ok(element)
        }
        None => Ok(Symbol::Unknown),
    }
}

/// Notes what the name of an annotation element means (JLS 9.7.1): the method of the annotation's type that a call of
/// that name without arguments would mean, or Unknown where there is none or where the type isn't known.
pub fn element<C: Classes>(
    alloc: Global,
    cx: &UnitContext,
    annotation: Option<&Name>,
    leaf: u32,
    name: &Name,
    c: &C,
    log: &mut Log,
) -> Mem<()>
    ensures judged { OnOk result (
        Judged (element cx.now (option_copied annotation.entry) leaf name.now)
        (C.world c.now) log.old log.new (record {})) }
{
    let symbol = element_meant(alloc, cx, annotation, name, c, &mut log.asks)?;
    noted(leaf, symbol, log)?;
    Ok(())
}
