// What a simple name means in an expression.
ghost use Rattle.std.specs.Prelude.{◌≡◌, IfOk};
ghost use Rattle.dialogue.specs.Dialogue.{run};
ghost use Rattle.dialogue.specs.Told.{Told};
ghost use Rattle.j_names.specs.Names.{meaning_of};

use crate::context::UnitContext;
use crate::frames::Frames;
use crate::types::type_meant;
use crate::variables::variable_meant;
use jtypes::{Asks, Classes, Name, Symbol};
use rw_base::Mem;
use std::alloc::Global;

/// What a simple name means in an expression (JLS 6.5.2), with the questions that decide it put to `asks`: a variable,
/// else a type, else a package of one part.
pub fn meaning_of_asking<C: Classes>(
    alloc: Global,
    cx: &UnitContext,
    frames: &Frames,
    name: &Name,
    c: &C,
    asks: &mut Asks,
) -> Mem<Symbol>
    ensures told { IfOk result (λ s.
        Told (meaning_of cx.now frames.now name.now) (C.world c.now) asks.old asks.new s) }
{
    if let Some(s) = variable_meant(alloc, cx, frames, name, c, asks)? {
        return Ok(s);
    }
    if let Some(s) = type_meant(alloc, cx, frames, name, c, asks)? {
        return Ok(s);
    }
    Ok(Symbol::Package(name.copy()?))
}

/// What a simple name means in an expression (JLS 6.5.2): a variable, else a type, else a package of one part.
pub fn meaning_of<C: Classes>(
    alloc: Global,
    cx: &UnitContext,
    frames: &Frames,
    name: &Name,
    c: &C,
) -> Mem<Symbol>
    ensures gives { IfOk result (λ s. s ≡ run (meaning_of cx.now frames.now name.now) (C.world c.now)) }
{
    let mut asks = Asks::new(alloc);
    let meaning = meaning_of_asking(alloc, cx, frames, name, c, &mut asks)?;
    Ok(meaning)
}
