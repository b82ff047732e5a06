// The names in an import declaration.
ghost use Rattle.std.specs.Prelude.{◌≡◌, ◌+◌, ◌<◌, ◌&&◌, IfOk, drop, length};
ghost use Rattle.dialogue.specs.Told.{Told};
ghost use Rattle.judging.specs.Judging.{Judged};
ghost use Rattle.type_positions.specs.Declarations.{import_behind, import_part, import_parts, imported, is_end};

use crate::names::{ImportPart, NamedLeaf};
use crate::noting::noted;
use j_names::{UnitContext, behind_type_asking, type_behind_asking};
use jtypes::{Asks, Classes, Name, Symbol};
use judging::Log;
use rw_base::Mem;
use std::alloc::Global;

/// A name behind another: a type or a package, or at the end of a single static import a field.
fn import_behind<C: Classes>(
    alloc: Global,
    cx: &UnitContext,
    static_end: bool,
    scope: &Symbol,
    name: &Name,
    c: &C,
    asks: &mut Asks,
) -> Mem<Symbol>
    ensures { IfOk result (λ s.
        Told (import_behind cx.now static_end scope.now name.now) (C.world c.now) asks.old asks.new s) }
{
    match (static_end, scope) {
        (true, Symbol::Kind(owner)) => {
            let found = behind_type_asking(alloc, cx, owner, name, c, asks)?;
            Ok(found)
        }
        _ => {
            let found = type_behind_asking(alloc, cx, scope, name, c, asks)?;
            Ok(found)
        }
    }
}

/// What stands behind a dot.
fn import_part<C: Classes>(
    alloc: Global,
    cx: &UnitContext,
    static_end: bool,
    scope: &Symbol,
    part: &ImportPart,
    c: &C,
    log: &mut Log,
) -> Mem<Symbol>
    ensures { IfOk result (λ s.
        Judged (import_part cx.now static_end scope.now part.now) (C.world c.now) log.old log.new s) }
{
    match part {
        ImportPart::Name(p) => {
            let meaning = import_behind(alloc, cx, static_end, scope, &p.name, c, &mut log.asks)?;
            let symbol = noted(p.leaf, meaning, log)?;
            Ok(symbol)
        }
        ImportPart::All => Ok(Symbol::Unknown),
    }
}

/// Whether a part is the last one of a single static import.
fn ends_static(is_static: bool, parts: &[ImportPart], at: usize) -> bool
    requires { at < length parts.now }
    ensures { result ≡ (is_static && is_end (drop (at + 1) parts.now)) }
{
    is_static && at + 1 == parts.len()
}

/// What stands behind the first name.
fn import_parts<C: Classes>(
    alloc: Global,
    cx: &UnitContext,
    is_static: bool,
    first: Symbol,
    parts: &[ImportPart],
    c: &C,
    log: &mut Log,
) -> Mem<Symbol>
    ensures { IfOk result (λ s.
        Judged (import_parts cx.now is_static first parts.now) (C.world c.now) log.old log.new s) }
{
    let mut symbol = first;
    for (at, part) in parts.iter().enumerate() {
        let static_end = ends_static(is_static, parts, at);
        symbol = import_part(alloc, cx, static_end, &symbol, part, c, log)?;
    }
    Ok(symbol)
}

/// Notes what the leaves of an import declaration mean (JLS 7.5), and gives what the last of them means; Unknown behind
/// `*`. The first is a package, and further ones are types or packages; the last of a single static import may be a
/// field, too.
pub fn imported<C: Classes>(
    alloc: Global,
    cx: &UnitContext,
    is_static: bool,
    first: &NamedLeaf,
    parts: &[ImportPart],
    c: &C,
    log: &mut Log,
) -> Mem<Symbol>
    ensures judged { IfOk result (λ s.
        Judged (imported cx.now is_static first.now parts.now) (C.world c.now) log.old log.new s) }
{
    let package = Symbol::Package(first.name.copy()?);
    let scope = noted(first.leaf, package, log)?;
    let symbol = import_parts(alloc, cx, is_static, scope, parts, c, log)?;
    Ok(symbol)
}
