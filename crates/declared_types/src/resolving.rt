// What a written type names.
ghost use Rattle.std.specs.Prelude.{◌≡◌, IfOk};
ghost use Rattle.dialogue.specs.Dialogue.{in_turn};
ghost use Rattle.dialogue.specs.Told.{Told};
ghost use Rattle.declared_types.specs.Resolving.{as_frames, part_behind, name_meant};

use crate::written::{NamePart, WrittenParam};
use j_names::{
    Frame, Frames, UnitContext, type_behind_asking, type_named_asking, type_or_package_asking,
};
use jtypes::{Asks, Classes, Name, Symbol};
use rw_base::Mem;
use std::alloc::Global;

/// Type parameters as scopes.
pub(crate) fn as_frames(alloc: Global, params: &[WrittenParam]) -> Mem<Frames>
    ensures { IfOk result (λ frames. frames ≡ as_frames params.now) }
{
    let mut frames = Frames::new(alloc);
    for param in params {
        let name = param.name.copy()?;
        frames.push(Frame::TypeParam { name })?;
    }
    Ok(frames)
}

/// A name, which shares its bytes with that of the class that it names, so that names that were put together take no
/// memory of their own.
fn shared_name<C: Classes>(name: Name, c: &C) -> Mem<Name>
    ensures { IfOk result (λ n. n ≡ name) }
{
    match c.class(&name) {
        Some(header) => {
            if header.name.is(&name) {
                return header.name.copy();
            }
            Ok(name)
        }
        None => Ok(name),
    }
}

/// A meaning, with the bytes of the class that it names.
fn shared<C: Classes>(meaning: Symbol, c: &C) -> Mem<Symbol>
    ensures { IfOk result (λ s. s ≡ meaning) }
{
    match meaning {
        Symbol::Kind(name) => {
            let name = shared_name(name, c)?;
            Ok(Symbol::Kind(name))
        }
        other => Ok(other),
    }
}

/// What the last part of a name means, behind what stands in front of its first.
fn parts_behind<C: Classes>(
    alloc: Global,
    cx: &UnitContext,
    scope: Symbol,
    parts: &[NamePart],
    c: &C,
    asks: &mut Asks,
) -> Mem<Symbol>
    ensures { IfOk result (λ s.
        Told (in_turn (part_behind cx.now) scope parts.now) (C.world c.now) asks.old asks.new s) }
{
    let mut meaning = scope;
    for part in parts {
        meaning = type_behind_asking(alloc, cx, &meaning, &part.name, c, asks)?;
    }
    Ok(meaning)
}

/// What a name means in a type position, by its first part and those behind it.
pub(crate) fn name_meant<C: Classes>(
    alloc: Global,
    cx: &UnitContext,
    frames: &Frames,
    part: &NamePart,
    parts: &[NamePart],
    c: &C,
    asks: &mut Asks,
) -> Mem<Symbol>
    ensures { IfOk result (λ s.
        Told (name_meant cx.now frames.now part.now parts.now) (C.world c.now) asks.old asks.new s) }
{
    if parts.is_empty() {
        let found = type_named_asking(alloc, cx, frames, &part.name, c, asks)?;
        let meaning = shared(found, c)?;
        return Ok(meaning);
    }
    let scope = type_or_package_asking(alloc, cx, frames, &part.name, c, asks)?;
    let last = parts_behind(alloc, cx, scope, parts, c, asks)?;
    let meaning = shared(last, c)?;
    Ok(meaning)
}
