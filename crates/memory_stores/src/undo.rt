// How to go back behind the calls of a store in memory.
ghost use Rattle.std.specs.Prelude.{◌≡◌, ◌≤◌, ◌<◌, ◌+◌, reverse, vec_len, vec_capacity};
ghost use Rattle.memory_stores.specs.Past.{with_undo};

use crate::state::FileState;

// How to go back behind one call: to the state that the row at this place had, to the number that its state had, to the
// rows without this one, or to the sync that was the last before.
#[derive(Debug, Drop)]
pub(crate) enum Undo {
    Changed(usize, FileState),
    Marked(usize, u32),
    Inserted(usize),
    Synced(u32),
}

// Notes how to go back behind a call, where there is something to go back to.
pub(crate) fn note(log: &mut Vec<Undo>, undo: Option<Undo>)
    requires room { vec_len log.old < vec_capacity log.old }
    ensures last { reverse log.new.items ≡ with_undo undo (reverse log.old.items) }
    ensures len { vec_len log.new ≤ vec_len log.old + 1 }
    ensures capacity { vec_capacity log.old ≤ vec_capacity log.new }
{
    if let Some(undo) = undo {
        let put = log.push(undo);
        prove!(put.is_ok());
    }
}
