// Constructors and superclasses.
ghost use Rattle.std.specs.Prelude.{◌≡◌, IfOk, filter};
ghost use Rattle.std.specs.Option.{option_copied};
ghost use Rattle.dialogue.specs.Told.{Told};
ghost use Rattle.j_names.specs.Calls.{constructor_name, constructors_of, is_class, where_class, first_class};
ghost use Rattle.j_names.specs.Calls.{superclass_of, super_of};
ghost use Rattle.j_names.specs.Members.{counts};
ghost use Rattle.j_names.specs.Names.{top_around};

use crate::context::UnitContext;
use crate::members::counts;
use crate::places::top_around;
use crate::walk::is_interface;
use jtypes::{Asks, ClassKind, Classes, Header, MethodSig, Name, ask_class, ask_methods};
use rw_base::Mem;
use sqlite_items::Items;
use std::alloc::Global;

#[tactic(auto, unfolding(crate::specs::Calls::constructor_name))]
fn constructor_name(alloc: Global) -> Mem<Name>
    ensures { IfOk result (λ name. name ≡ constructor_name) }
{
    Name::new(alloc, b"<constructor>")
}

/// Those of some constructors of a class that count.
fn counting(
    alloc: Global,
    top: Option<&Name>,
    header: &Header,
    methods: &[MethodSig],
) -> Mem<Items<MethodSig>>
    ensures { IfOk result (λ all.
        all ≡ filter (λ m. counts (option_copied top.entry) header.now m.is_private) methods.now) }
{
    let mut all = Items::new(alloc);
    for m in methods {
        if counts(top, header, m.is_private) {
            all.push(m.copy()?)?;
        }
    }
    Ok(all)
}

/// The constructors of a class (JLS 15.9.3), which is visited alone, with its questions put to `asks`.
pub fn constructors_of_asking<C: Classes>(
    alloc: Global,
    cx: &UnitContext,
    class: &Name,
    c: &C,
    asks: &mut Asks,
) -> Mem<Items<MethodSig>>
    ensures told { IfOk result (λ ms.
        Told (constructors_of (top_around cx.now) class.now) (C.world c.now) asks.old asks.new ms) }
{
    let top = top_around(cx);
    let Some(header) = ask_class(class, c, asks)? else {
        return Ok(Items::new(alloc));
    };
    let name = constructor_name(alloc)?;
    let methods = ask_methods(class, &name, c, asks)?;
    let all = counting(alloc, top, header, methods)?;
    Ok(all)
}

fn is_class(kind: ClassKind) -> bool
    ensures { result ≡ is_class kind }
{
    matches!(kind, ClassKind::Class | ClassKind::Enum)
}

/// A class by its name, where it is there and is neither an interface nor an annotation type.
fn where_class(name: &Name, header: Option<&Header>) -> Mem<Option<Name>>
    ensures { IfOk result (λ s. s ≡ where_class name.now (option_copied header.entry)) }
{
    match header {
        Some(header) => {
            if is_class(header.kind) {
                Ok(Some(name.copy()?))
            } else {
                Ok(None)
            }
        }
        None => Ok(None),
    }
}

/// The first of some supertypes, where it is a class.
fn first_class<C: Classes>(supertypes: &[Name], c: &C, asks: &mut Asks) -> Mem<Option<Name>>
    ensures { IfOk result (λ s. Told (first_class supertypes.now) (C.world c.now) asks.old asks.new s) }
{
    let Some(name) = supertypes.first() else {
        return Ok(None);
    };
    let header = ask_class(name, c, asks)?;
    let class = where_class(name, header)?;
    Ok(class)
}

/// The superclass of a class (JLS 8.1.4) for `super` and `super(..)`, with its questions put to `asks`: the first of
/// its supertypes, where that is there and is neither an interface nor an annotation type.
pub fn superclass_of_asking<C: Classes>(class: &Name, c: &C, asks: &mut Asks) -> Mem<Option<Name>>
    ensures told { IfOk result (λ s.
        Told (superclass_of class.now) (C.world c.now) asks.old asks.new s) }
{
    let Some(header) = ask_class(class, c, asks)? else {
        return Ok(None);
    };
    let superclass = first_class(header.supertypes.as_slice(), c, asks)?;
    Ok(superclass)
}

/// The class of `T.super` (JLS 15.11.2, 15.12.1), with its questions put to `asks`: T where it is an interface, else
/// its superclass.
pub fn super_of_asking<C: Classes>(class: &Name, c: &C, asks: &mut Asks) -> Mem<Option<Name>>
    ensures told { IfOk result (λ s. Told (super_of class.now) (C.world c.now) asks.old asks.new s) }
{
    let Some(header) = ask_class(class, c, asks)? else {
        return Ok(None);
    };
    if is_interface(header.kind) {
        return Ok(Some(class.copy()?));
    }
    let superclass = first_class(header.supertypes.as_slice(), c, asks)?;
    Ok(superclass)
}
