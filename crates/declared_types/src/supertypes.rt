// The supertypes of a declared type.
ghost use Rattle.std.specs.Prelude.{◌≡◌, ◌∷◌, ◌++◌, [], IfOk, OnOk};
ghost use Rattle.dialogue.specs.Told.{Told};
ghost use Rattle.declared_types.specs.Supertypes.{class_of, class_written, extended, superclass, first_by_kind, known};
ghost use Rattle.declared_types.specs.Supertypes.{gathered, supertypes_of};

use crate::implicit_names::ImplicitNames;
use crate::resolving::{as_frames, name_meant};
use crate::written::{Base, DeclaredType, Written};
use j_names::{Frames, UnitContext};
use jtypes::{Asks, ClassKind, Classes, Name, SharedList, Symbol};
use rw_base::Mem;
use std::alloc::Global;

/// The class that a name means, where it means one.
fn class_of(meaning: Symbol) -> Option<Name>
    ensures { result ≡ class_of meaning }
{
    match meaning {
        Symbol::Kind(name) => Some(name),
        _ => None,
    }
}

/// The class that a written type names, where it names one.
fn class_written<C: Classes>(
    alloc: Global,
    cx: &UnitContext,
    frames: &Frames,
    w: &Written,
    c: &C,
    asks: &mut Asks,
) -> Mem<Option<Name>>
    ensures { IfOk result (λ found.
        Told (class_written cx.now frames.now w.now) (C.world c.now) asks.old asks.new found) }
{
    if w.dims != 0 {
        return Ok(None);
    }
    match &w.base {
        Base::Named(part, parts) => {
            let meaning = name_meant(alloc, cx, frames, part, parts.as_slice(), c, asks)?;
            Ok(class_of(meaning))
        }
        _ => Ok(None),
    }
}

/// What a class extends, by what it says.
fn extended<C: Classes>(
    alloc: Global,
    implicit: &ImplicitNames,
    d: &DeclaredType,
    frames: &Frames,
    c: &C,
    asks: &mut Asks,
) -> Mem<Option<Name>>
    ensures { IfOk result (λ found.
        Told (extended d.now.cx frames.now d.now.superclass) (C.world c.now) asks.old asks.new found) }
{
    match &d.superclass {
        Some(w) => {
            let found = class_written(alloc, &d.cx, frames, w, c, asks)?;
            Ok(found)
        }
        None => Ok(Some(implicit.object.copy()?)),
    }
}

/// The superclass of a class.
fn superclass<C: Classes>(
    alloc: Global,
    implicit: &ImplicitNames,
    d: &DeclaredType,
    frames: &Frames,
    c: &C,
    asks: &mut Asks,
) -> Mem<Option<Name>>
    ensures { IfOk result (λ found.
        Told (superclass d.now frames.now) (C.world c.now) asks.old asks.new found) }
{
    if d.name.as_slice() == implicit.object.as_slice() {
        return Ok(None);
    }
    let found = extended(alloc, implicit, d, frames, c, asks)?;
    Ok(found)
}

/// The first supertype of a declared type.
fn first_supertype<C: Classes>(
    alloc: Global,
    implicit: &ImplicitNames,
    d: &DeclaredType,
    frames: &Frames,
    c: &C,
    asks: &mut Asks,
) -> Mem<Option<Name>>
    ensures { IfOk result (λ found.
        Told (first_by_kind d.now frames.now d.now.kind) (C.world c.now) asks.old asks.new found) }
{
    match d.kind {
        ClassKind::Class => {
            let found = superclass(alloc, implicit, d, frames, c, asks)?;
            Ok(found)
        }
        ClassKind::Interface => Ok(None),
        ClassKind::Enum => Ok(Some(implicit.enumeration.copy()?)),
        ClassKind::Annotation => Ok(Some(implicit.annotation.copy()?)),
    }
}

/// Adds a class that was found.
fn put_found(found: Option<Name>, names: &mut Vec<Name>) -> Mem<()>
    ensures { OnOk result (names.new.items ≡ names.old.items ++ known (found ∷ [])) }
{
    if let Some(name) = found {
        names.push(name)?;
    }
    Ok(())
}

/// Adds the classes that some written types name.
fn put_classes<C: Classes>(
    alloc: Global,
    cx: &UnitContext,
    frames: &Frames,
    types: &[Written],
    c: &C,
    asks: &mut Asks,
    names: &mut Vec<Name>,
) -> Mem<()>
    ensures { OnOk result (Told (gathered (class_written cx.now frames.now) names.old.items types.now)
        (C.world c.now) asks.old asks.new names.new.items) }
{
    for w in types {
        let found = class_written(alloc, cx, frames, w, c, asks)?;
        put_found(found, names)?;
    }
    Ok(())
}

/// The supertypes of a declared type (JLS 8.1.4, 8.1.5, 8.9, 9.1.3, 9.6), with the questions that decide them put to
/// `asks`: the superclass, where the type has one that names a class, and then the superinterfaces that do, in order.
/// The names are resolved by the headers of the world.
pub fn supertypes_of_asking<C: Classes>(
    alloc: Global,
    implicit: &ImplicitNames,
    d: &DeclaredType,
    c: &C,
    asks: &mut Asks,
) -> Mem<SharedList<Name>>
    ensures told { IfOk result (λ ss. Told (supertypes_of d.now) (C.world c.now) asks.old asks.new ss) }
{
    let frames = as_frames(alloc, d.type_params.as_slice())?;
    let mut names = Vec::new(alloc);
    let first = first_supertype(alloc, implicit, d, &frames, c, asks)?;
    put_found(first, &mut names)?;
    put_classes(
        alloc,
        &d.cx,
        &frames,
        d.interfaces.as_slice(),
        c,
        asks,
        &mut names,
    )?;
    let supertypes = SharedList::new(alloc, names)?;
    Ok(supertypes)
}
