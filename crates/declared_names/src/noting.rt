// Notes of declared names.
ghost use Rattle.std.specs.Prelude.{OnOk};
ghost use Rattle.jtypes.specs.World.{World};
ghost use Rattle.judging.specs.Judging.{Judged};
ghost use Rattle.declared_names.specs.Declarations.{noted};

use jtypes::Symbol;
use judging::{Log, Note};
use rw_base::Mem;

/// Notes what a leaf means.
pub(crate) fn noted(leaf: u32, symbol: Symbol, log: &mut Log) -> Mem<()>
    ensures { OnOk result ((w : World) → Judged (noted leaf symbol) w log.old log.new (record {})) }
{
    log.note(Note::Symbol(leaf, symbol))?;
    Ok(())
}
