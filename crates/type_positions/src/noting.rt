ghost use Rattle.std.specs.Prelude.{IfOk};
ghost use Rattle.jtypes.specs.World.{World};
ghost use Rattle.judging.specs.Judging.{Judged};
ghost use Rattle.type_positions.specs.TypeNames.{noted};

use jtypes::Symbol;
use judging::{Log, Note};
use rw_base::Mem;

/// Notes what a leaf means, and gives it back.
pub(crate) fn noted(leaf: u32, symbol: Symbol, log: &mut Log) -> Mem<Symbol>
    ensures { IfOk result (λ s. (w : World) → Judged (noted leaf symbol) w log.old log.new s) }
{
    let copy = symbol.copy()?;
    log.note(Note::Symbol(leaf, copy))?;
    Ok(symbol)
}
