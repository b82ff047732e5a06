// What a simple name means as a type.
ghost use Rattle.std.specs.Prelude.{◌≡◌, ◌∷◌, [], IfOk, Option, Some, None, map, if◌then◌else◌};
ghost use Rattle.std.specs.Option.{option_copied};
ghost use Rattle.dialogue.specs.Dialogue.{run, first_found};
ghost use Rattle.dialogue.specs.Told.{Told};
ghost use Rattle.jtypes.specs.World.{name_eq};
ghost use Rattle.j_names.specs.Names.{type_in_frame, type_in_class, type_meant, type_named, last_part, outward};
ghost use Rattle.j_names.specs.Names.{inherited_type, or_else, type_or_package};

use crate::context::{EnclosingClass, Frame, UnitContext};
use crate::frames::Frames;
use crate::members::{joined, member_type_of, type_at};
use crate::on_demand::type_on_demand;
use crate::owners::has_last_part;
use crate::places::{is_among, is_name, top_around, type_imported};
use jtypes::{Asks, Classes, Name, Symbol};
use rw_base::Mem;
use std::alloc::Global;

/// A class by its own name.
fn own_type(name: &Name, n: &Name) -> Mem<Option<Symbol>>
    ensures { IfOk result (λ s.
        s ≡ (if name_eq (last_part name.now) n.now then Some (Symbol.Kind name.now) else None)) }
{
    if has_last_part(name, n) {
        return Ok(Some(Symbol::Kind(name.copy()?)));
    }
    Ok(None)
}

/// A type parameter of a name.
fn type_variable(is_there: bool, n: &Name) -> Mem<Option<Symbol>>
    ensures { IfOk result (λ s. s ≡ (if is_there then Some (Symbol.TypeVar n.now) else None)) }
{
    if is_there {
        return Ok(Some(Symbol::TypeVar(n.copy()?)));
    }
    Ok(None)
}

/// A local class, which isn't known.
fn local_class(is_there: bool) -> Option<Symbol>
    ensures { result ≡ (if is_there then Some Symbol.Unknown else None) }
{
    if is_there {
        return Some(Symbol::Unknown);
    }
    None
}

/// A type that the named supertype of a local or anonymous class has.
fn inherited_type<C: Classes>(
    alloc: Global,
    top: Option<&Name>,
    n: &Name,
    supertype: &Option<Name>,
    c: &C,
    asks: &mut Asks,
) -> Mem<Option<Symbol>>
    ensures { IfOk result (λ s. Told (inherited_type (option_copied top.entry) n.now supertype.now)
        (C.world c.now) asks.old asks.new s) }
{
    match supertype {
        Some(t) => {
            let found = member_type_of(alloc, top, n, t, c, asks)?;
            Ok(found)
        }
        None => Ok(None),
    }
}

/// A type in the body of a class.
fn type_in_body<C: Classes>(
    alloc: Global,
    top: Option<&Name>,
    n: &Name,
    name: &Name,
    c: &C,
    asks: &mut Asks,
) -> Mem<Option<Symbol>>
    ensures { IfOk result (λ s. Told (type_in_frame (option_copied top.entry) n.now (Frame.Class name.now))
        (C.world c.now) asks.old asks.new s) }
{
    if let Some(s) = member_type_of(alloc, top, n, name, c, asks)? {
        return Ok(Some(s));
    }
    let own = own_type(name, n)?;
    Ok(own)
}

fn type_in_frame<C: Classes>(
    alloc: Global,
    top: Option<&Name>,
    n: &Name,
    frame: &Frame,
    c: &C,
    asks: &mut Asks,
) -> Mem<Option<Symbol>>
    ensures { IfOk result (λ s. Told (type_in_frame (option_copied top.entry) n.now frame.now)
        (C.world c.now) asks.old asks.new s) }
{
    match frame {
        Frame::Local { .. } => Ok(None),
        Frame::TypeParam { name } => {
            let found = type_variable(is_name(name, n), n)?;
            Ok(found)
        }
        Frame::Class { name } => {
            let found = type_in_body(alloc, top, n, name, c, asks)?;
            Ok(found)
        }
        Frame::LocalBody { supertype, .. } => {
            let found = inherited_type(alloc, top, n, supertype, c, asks)?;
            Ok(found)
        }
        Frame::Declared { name } => Ok(local_class(is_name(name, n))),
    }
}

fn type_in_frames<C: Classes>(
    alloc: Global,
    top: Option<&Name>,
    n: &Name,
    frames: &Frames,
    c: &C,
    asks: &mut Asks,
) -> Mem<Option<Symbol>>
    ensures { IfOk result (λ s.
        Told (first_found (map (type_in_frame (option_copied top.entry) n.now) (outward frames.now)))
        (C.world c.now) asks.old asks.new s) }
{
    let mut end = frames.len();
    while let Some(at) = frames.last_before(n, end) {
        if let Some(s) = type_in_frame(alloc, top, n, &frames.as_slice()[at], c, asks)? {
            return Ok(Some(s));
        }
        end = at;
    }
    Ok(None)
}

fn type_in_class<C: Classes>(
    alloc: Global,
    top: Option<&Name>,
    n: &Name,
    e: &EnclosingClass,
    c: &C,
    asks: &mut Asks,
) -> Mem<Option<Symbol>>
    ensures { IfOk result (λ s. Told (type_in_class (option_copied top.entry) n.now e.now)
        (C.world c.now) asks.old asks.new s) }
{
    if let Some(s) = member_type_of(alloc, top, n, &e.name, c, asks)? {
        return Ok(Some(s));
    }
    if let Some(s) = type_variable(is_among(e.type_params.as_slice(), n), n)? {
        return Ok(Some(s));
    }
    let own = own_type(&e.name, n)?;
    Ok(own)
}

fn type_in_classes<C: Classes>(
    alloc: Global,
    top: Option<&Name>,
    n: &Name,
    classes: &[EnclosingClass],
    c: &C,
    asks: &mut Asks,
) -> Mem<Option<Symbol>>
    ensures { IfOk result (λ s.
        Told (first_found (map (type_in_class (option_copied top.entry) n.now) (outward classes.now)))
        (C.world c.now) asks.old asks.new s) }
{
    for i in (0..classes.len()).rev() {
        if let Some(s) = type_in_class(alloc, top, n, &classes[i], c, asks)? {
            return Ok(Some(s));
        }
    }
    Ok(None)
}

/// What a simple name means as a type (JLS 6.5.5.1), if any type has it.
pub(crate) fn type_meant<C: Classes>(
    alloc: Global,
    cx: &UnitContext,
    frames: &Frames,
    n: &Name,
    c: &C,
    asks: &mut Asks,
) -> Mem<Option<Symbol>>
    ensures { IfOk result (λ s.
        Told (type_meant cx.now frames.now n.now) (C.world c.now) asks.old asks.new s) }
{
    let top = top_around(cx);
    let rows = cx.imports.as_slice();
    if let Some(s) = type_in_frames(alloc, top, n, frames, c, asks)? {
        return Ok(Some(s));
    }
    if let Some(s) = type_in_classes(alloc, top, n, cx.enclosing.as_slice(), c, asks)? {
        return Ok(Some(s));
    }
    if let Some(s) = type_imported(rows, n)? {
        return Ok(Some(s));
    }
    let own = joined(alloc, &cx.package, n)?;
    if let Some(s) = type_at(top, own, c, asks)? {
        return Ok(Some(s));
    }
    let s = type_on_demand(alloc, top, rows, n, c, asks)?;
    Ok(s)
}

/// What is found, else a package.
pub(crate) fn or_package(found: Option<Symbol>, name: Name) -> Symbol
    ensures { result ≡ or_else (Symbol.Package name) found }
{
    match found {
        Some(s) => s,
        None => Symbol::Package(name),
    }
}

/// What is found, else Unknown.
pub(crate) fn or_unknown(found: Option<Symbol>) -> Symbol
    ensures { result ≡ or_else Symbol.Unknown found }
{
    match found {
        Some(s) => s,
        None => Symbol::Unknown,
    }
}

/// What a simple name means as a type (JLS 6.5.5.1), with the questions that decide it put to `asks`: Unknown where no
/// type has the name, or only a local class.
pub fn type_named_asking<C: Classes>(
    alloc: Global,
    cx: &UnitContext,
    frames: &Frames,
    name: &Name,
    c: &C,
    asks: &mut Asks,
) -> Mem<Symbol>
    ensures told { IfOk result (λ s.
        Told (type_named cx.now frames.now name.now) (C.world c.now) asks.old asks.new s) }
{
    let found = type_meant(alloc, cx, frames, name, c, asks)?;
    Ok(or_unknown(found))
}

/// What a simple name in front of a dot in a type position means (JLS 6.5.4.1), with the questions that decide it put to
/// `asks`: a type, else a package of one part.
pub fn type_or_package_asking<C: Classes>(
    alloc: Global,
    cx: &UnitContext,
    frames: &Frames,
    name: &Name,
    c: &C,
    asks: &mut Asks,
) -> Mem<Symbol>
    ensures told { IfOk result (λ s.
        Told (type_or_package cx.now frames.now name.now) (C.world c.now) asks.old asks.new s) }
{
    let package = name.copy()?;
    let found = type_meant(alloc, cx, frames, name, c, asks)?;
    Ok(or_package(found, package))
}

/// What a simple name means as a type (JLS 6.5.5.1): Unknown where no type has the name, or only a local class.
pub fn type_named<C: Classes>(
    alloc: Global,
    cx: &UnitContext,
    frames: &Frames,
    name: &Name,
    c: &C,
) -> Mem<Symbol>
    ensures gives { IfOk result (λ s. s ≡ run (type_named cx.now frames.now name.now) (C.world c.now)) }
{
    let mut asks = Asks::new(alloc);
    let meaning = type_named_asking(alloc, cx, frames, name, c, &mut asks)?;
    Ok(meaning)
}
