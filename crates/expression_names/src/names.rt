// Simple names, and names behind a dot.
ghost use Rattle.std.specs.Prelude.{IfOk};
ghost use Rattle.dialogue.specs.Told.{Told};
ghost use Rattle.jtypes.specs.World.{World};
ghost use Rattle.judging.specs.Judging.{Judged};
ghost use Rattle.expression_names.specs.Primaries.{named, meaning_behind, simple_name, name_behind};

use crate::denoted::{Denoted, denotes};
use j_names::{
    Frames, UnitContext, behind_package_asking, behind_type_asking, field_behind_asking,
    meaning_of_asking,
};
use jtypes::{Asks, Classes, Name, Symbol};
use judging::{Log, Note};
use rw_base::Mem;
use std::alloc::Global;

/// Notes what a name means.
fn note_meaning(leaf: u32, s: Symbol, log: &mut Log) -> Mem<Denoted>
    ensures { IfOk result (λ d. (w : World) → Judged (named leaf s) w log.old log.new d) }
{
    let denoted = denotes(&s)?;
    log.note(Note::Symbol(leaf, s))?;
    Ok(denoted)
}

/// Judges a simple name in an expression (JLS 6.5.2): a variable, else a type, else a package. Its meaning is noted at
/// its leaf.
pub fn simple_name<C: Classes>(
    alloc: Global,
    cx: &UnitContext,
    frames: &Frames,
    leaf: u32,
    name: &Name,
    c: &C,
    log: &mut Log,
) -> Mem<Denoted>
    ensures judged { IfOk result (λ d.
        Judged (simple_name cx.now frames.now leaf name.now) (C.world c.now) log.old log.new d) }
{
    let s = meaning_of_asking(alloc, cx, frames, name, c, &mut log.asks)?;
    let denoted = note_meaning(leaf, s, log)?;
    Ok(denoted)
}

/// What a name means behind what stands in front of its dot.
fn meaning_behind<C: Classes>(
    alloc: Global,
    cx: &UnitContext,
    before: &Denoted,
    name: &Name,
    c: &C,
    asks: &mut Asks,
) -> Mem<Symbol>
    ensures { IfOk result (λ s.
        Told (meaning_behind cx.now before.now name.now) (C.world c.now) asks.old asks.new s) }
{
    match before {
        Denoted::Package(package) => {
            let s = behind_package_asking(alloc, cx, package, name, c, asks)?;
            Ok(s)
        }
        Denoted::Class(class) => {
            let s = behind_type_asking(alloc, cx, class, name, c, asks)?;
            Ok(s)
        }
        Denoted::Expr(ty) => {
            let s = field_behind_asking(alloc, cx, ty, name, c, asks)?;
            Ok(s)
        }
    }
}

/// Judges a name behind a dot in an expression (JLS 6.5.6.2, 15.11): behind a package a type or a package, behind a
/// class a field or a member type, behind an expression a field of its type. Its meaning is noted at its leaf.
pub fn name_behind<C: Classes>(
    alloc: Global,
    cx: &UnitContext,
    before: &Denoted,
    leaf: u32,
    name: &Name,
    c: &C,
    log: &mut Log,
) -> Mem<Denoted>
    ensures judged { IfOk result (λ d.
        Judged (name_behind cx.now before.now leaf name.now) (C.world c.now) log.old log.new d) }
{
    let s = meaning_behind(alloc, cx, before, name, c, &mut log.asks)?;
    let denoted = note_meaning(leaf, s, log)?;
    Ok(denoted)
}
