// What a simple name means as a variable.
ghost use Rattle.std.specs.Prelude.{◌≡◌, ◌∷◌, [], IfOk, Option, Some, None, map, if◌then◌else◌};
ghost use Rattle.std.specs.Option.{option_copied};
ghost use Rattle.dialogue.specs.Dialogue.{run, first_found};
ghost use Rattle.dialogue.specs.Told.{Told};
ghost use Rattle.jtypes.specs.World.{name_eq};
ghost use Rattle.j_names.specs.Members.{field_of};
ghost use Rattle.j_names.specs.Names.{declared_local, inherited_field, variable_in_frame, variable_meant};
ghost use Rattle.j_names.specs.Names.{variable_named, outward};

use crate::context::{EnclosingClass, Frame, LocalField, UnitContext};
use crate::frames::Frames;
use crate::members::field_of;
use crate::owners::static_owners;
use crate::places::{is_name, top_around};
use crate::types::or_unknown;
use jtypes::{Asks, Classes, JType, Name, Symbol};
use rw_base::Mem;
use std::alloc::Global;

/// A local of a type.
fn local(is_there: bool, ty: &JType) -> Mem<Option<Symbol>>
    ensures { IfOk result (λ s. s ≡ (if is_there then Some (Symbol.Local ty.now) else None)) }
{
    if is_there {
        return Ok(Some(Symbol::Local(ty.copy()?)));
    }
    Ok(None)
}

/// A field that a local or anonymous class declares.
fn declared_local(fields: &[LocalField], n: &Name) -> Mem<Option<Symbol>>
    ensures { IfOk result (λ s. s ≡ declared_local fields.now n.now) }
{
    for field in fields {
        if is_name(&field.name, n) {
            return Ok(Some(Symbol::Local(field.ty.copy()?)));
        }
    }
    Ok(None)
}

/// A field that the named supertype of a local or anonymous class has.
fn inherited_field<C: Classes>(
    alloc: Global,
    top: Option<&Name>,
    n: &Name,
    supertype: &Option<Name>,
    c: &C,
    asks: &mut Asks,
) -> Mem<Option<Symbol>>
    ensures { IfOk result (λ s. Told (inherited_field (option_copied top.entry) n.now supertype.now)
        (C.world c.now) asks.old asks.new s) }
{
    match supertype {
        Some(t) => {
            let found = field_of(alloc, top, n, t, c, asks)?;
            Ok(found)
        }
        None => Ok(None),
    }
}

fn variable_in_frame<C: Classes>(
    alloc: Global,
    top: Option<&Name>,
    n: &Name,
    frame: &Frame,
    c: &C,
    asks: &mut Asks,
) -> Mem<Option<Symbol>>
    ensures { IfOk result (λ s. Told (variable_in_frame (option_copied top.entry) n.now frame.now)
        (C.world c.now) asks.old asks.new s) }
{
    match frame {
        Frame::Local { name, ty } => {
            let found = local(is_name(name, n), ty)?;
            Ok(found)
        }
        Frame::TypeParam { .. } => Ok(None),
        Frame::Class { name } => {
            let found = field_of(alloc, top, n, name, c, asks)?;
            Ok(found)
        }
        Frame::LocalBody {
            supertype,
            fields,
            ..
        } => {
            if let Some(s) = declared_local(fields.as_slice(), n)? {
                return Ok(Some(s));
            }
            let found = inherited_field(alloc, top, n, supertype, c, asks)?;
            Ok(found)
        }
        Frame::Declared { .. } => Ok(None),
    }
}

fn variable_in_frames<C: Classes>(
    alloc: Global,
    top: Option<&Name>,
    n: &Name,
    frames: &Frames,
    c: &C,
    asks: &mut Asks,
) -> Mem<Option<Symbol>>
    ensures { IfOk result (λ s.
        Told (first_found (map (variable_in_frame (option_copied top.entry) n.now) (outward frames.now)))
        (C.world c.now) asks.old asks.new s) }
{
    let mut end = frames.len();
    while let Some(at) = frames.last_before(n, end) {
        if let Some(s) = variable_in_frame(alloc, top, n, &frames.as_slice()[at], c, asks)? {
            return Ok(Some(s));
        }
        end = at;
    }
    Ok(None)
}

fn field_in_class<C: Classes>(
    alloc: Global,
    top: Option<&Name>,
    n: &Name,
    e: &EnclosingClass,
    c: &C,
    asks: &mut Asks,
) -> Mem<Option<Symbol>>
    ensures { IfOk result (λ s. Told (field_of (option_copied top.entry) n.now e.now.name)
        (C.world c.now) asks.old asks.new s) }
{
    let found = field_of(alloc, top, n, &e.name, c, asks)?;
    Ok(found)
}

fn field_in_classes<C: Classes>(
    alloc: Global,
    top: Option<&Name>,
    n: &Name,
    classes: &[EnclosingClass],
    c: &C,
    asks: &mut Asks,
) -> Mem<Option<Symbol>>
    ensures { IfOk result (λ s.
        Told (first_found (map (λ e. field_of (option_copied top.entry) n.now e.name) (outward classes.now)))
        (C.world c.now) asks.old asks.new s) }
{
    for i in (0..classes.len()).rev() {
        if let Some(s) = field_in_class(alloc, top, n, &classes[i], c, asks)? {
            return Ok(Some(s));
        }
    }
    Ok(None)
}

/// The field of a name that the first of some classes has.
fn field_in_owners<C: Classes>(
    alloc: Global,
    top: Option<&Name>,
    n: &Name,
    owners: &[Name],
    c: &C,
    asks: &mut Asks,
) -> Mem<Option<Symbol>>
    ensures { IfOk result (λ s. Told (first_found (map (field_of (option_copied top.entry) n.now) owners.now))
        (C.world c.now) asks.old asks.new s) }
{
    for owner in owners {
        if let Some(s) = field_of(alloc, top, n, owner, c, asks)? {
            return Ok(Some(s));
        }
    }
    Ok(None)
}

/// What a simple name means as a variable (JLS 6.5.6.1), if any variable has it.
pub(crate) fn variable_meant<C: Classes>(
    alloc: Global,
    cx: &UnitContext,
    frames: &Frames,
    n: &Name,
    c: &C,
    asks: &mut Asks,
) -> Mem<Option<Symbol>>
    ensures { IfOk result (λ s.
        Told (variable_meant cx.now frames.now n.now) (C.world c.now) asks.old asks.new s) }
{
    let top = top_around(cx);
    if let Some(s) = variable_in_frames(alloc, top, n, frames, c, asks)? {
        return Ok(Some(s));
    }
    if let Some(s) = field_in_classes(alloc, top, n, cx.enclosing.as_slice(), c, asks)? {
        return Ok(Some(s));
    }
    let owners = static_owners(alloc, cx.imports.as_slice(), n)?;
    let s = field_in_owners(alloc, top, n, owners.as_slice(), c, asks)?;
    Ok(s)
}

/// What a simple name means as a variable (JLS 6.5.6.1), with the questions that decide it put to `asks`: a local, a
/// field, or Unknown where no variable has the name.
pub fn variable_named_asking<C: Classes>(
    alloc: Global,
    cx: &UnitContext,
    frames: &Frames,
    name: &Name,
    c: &C,
    asks: &mut Asks,
) -> Mem<Symbol>
    ensures told { IfOk result (λ s.
        Told (variable_named cx.now frames.now name.now) (C.world c.now) asks.old asks.new s) }
{
    let found = variable_meant(alloc, cx, frames, name, c, asks)?;
    Ok(or_unknown(found))
}

/// What a simple name means as a variable (JLS 6.5.6.1): a local, a field, or Unknown where no variable has the name.
pub fn variable_named<C: Classes>(
    alloc: Global,
    cx: &UnitContext,
    frames: &Frames,
    name: &Name,
    c: &C,
) -> Mem<Symbol>
    ensures gives { IfOk result (λ s. s ≡ run (variable_named cx.now frames.now name.now) (C.world c.now)) }
{
    let mut asks = Asks::new(alloc);
    let meaning = variable_named_asking(alloc, cx, frames, name, c, &mut asks)?;
    Ok(meaning)
}
