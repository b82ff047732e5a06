// Names in a type position.
ghost use Rattle.std.specs.Prelude.{IfOk};
ghost use Rattle.judging.specs.Judging.{Judged};
ghost use Rattle.type_positions.specs.TypeNames.{first_part, lone_name, part_behind, parts_behind, type_name};

use crate::names::NamedLeaf;
use crate::noting::noted;
use j_names::{Frames, UnitContext, type_behind_asking, type_named_asking, type_or_package_asking};
use jtypes::{Classes, Symbol};
use judging::Log;
use rw_base::Mem;
use std::alloc::Global;

/// A lone name, which is a type.
fn lone_name<C: Classes>(
    alloc: Global,
    cx: &UnitContext,
    frames: &Frames,
    part: &NamedLeaf,
    c: &C,
    log: &mut Log,
) -> Mem<Symbol>
    ensures { IfOk result (λ s.
        Judged (lone_name cx.now frames.now part.now) (C.world c.now) log.old log.new s) }
{
    let meaning = type_named_asking(alloc, cx, frames, &part.name, c, &mut log.asks)?;
    let symbol = noted(part.leaf, meaning, log)?;
    Ok(symbol)
}

/// The first part of a longer name, which is a type or a package.
fn first_part<C: Classes>(
    alloc: Global,
    cx: &UnitContext,
    frames: &Frames,
    part: &NamedLeaf,
    c: &C,
    log: &mut Log,
) -> Mem<Symbol>
    ensures { IfOk result (λ s.
        Judged (first_part cx.now frames.now part.now) (C.world c.now) log.old log.new s) }
{
    let meaning = type_or_package_asking(alloc, cx, frames, &part.name, c, &mut log.asks)?;
    let symbol = noted(part.leaf, meaning, log)?;
    Ok(symbol)
}

/// A part behind a dot.
fn part_behind<C: Classes>(
    alloc: Global,
    cx: &UnitContext,
    scope: &Symbol,
    part: &NamedLeaf,
    c: &C,
    log: &mut Log,
) -> Mem<Symbol>
    ensures { IfOk result (λ s.
        Judged (part_behind cx.now scope.now part.now) (C.world c.now) log.old log.new s) }
{
    let meaning = type_behind_asking(alloc, cx, scope, &part.name, c, &mut log.asks)?;
    let symbol = noted(part.leaf, meaning, log)?;
    Ok(symbol)
}

/// The parts behind what is known.
fn parts_behind<C: Classes>(
    alloc: Global,
    cx: &UnitContext,
    first: Symbol,
    parts: &[NamedLeaf],
    c: &C,
    log: &mut Log,
) -> Mem<Symbol>
    ensures { IfOk result (λ s.
        Judged (parts_behind cx.now first parts.now) (C.world c.now) log.old log.new s) }
{
    let mut symbol = first;
    for part in parts {
        symbol = part_behind(alloc, cx, &symbol, part, c, log)?;
    }
    Ok(symbol)
}

/// What a name in a type position means (JLS 6.5.5), with the meaning of each of its leaves noted: a lone name is a
/// type, and the first part of a longer one is a type or a package.
pub fn type_name<C: Classes>(
    alloc: Global,
    cx: &UnitContext,
    frames: &Frames,
    names: &[NamedLeaf],
    c: &C,
    log: &mut Log,
) -> Mem<Symbol>
    ensures judged { IfOk result (λ s.
        Judged (type_name cx.now frames.now names.now) (C.world c.now) log.old log.new s) }
{
    match names {
        [] => Ok(Symbol::Unknown),
        [lone] => {
            let symbol = lone_name(alloc, cx, frames, lone, c, log)?;
            Ok(symbol)
        }
        [first, further @ ..] => {
            let scope = first_part(alloc, cx, frames, first, c, log)?;
            let symbol = parts_behind(alloc, cx, scope, further, c, log)?;
            Ok(symbol)
        }
    }
}
