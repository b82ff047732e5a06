// What a store in memory knows of a path.
ghost use Rattle.std.specs.Prelude.{◌≡◌};
ghost use Rattle.memory_stores.specs.States.{state_of_failed_removal, state_of_late_removal, state_of_removal};

use rw_base::Text;
use std::mem;

// The file that has the path now, whether there ever was one, the number of the last call that wrote or removed it, or
// 0, and whether a call from the stop on did so: the numbers of those aren't kept.
#[derive(Debug, Drop)]
pub(crate) struct FileState {
    pub(crate) now: Option<Text>,
    pub(crate) was_held: bool,
    pub(crate) changed: u32,
    pub(crate) late: bool,
}

impl FileState {
    // Notes a removal that failed. A path that was never held can't come back.
    pub(crate) fn mark(&mut self, call: u32)
        ensures { self.new ≡ state_of_failed_removal self.old call }
    {
        if self.was_held {
            self.changed = call;
        }
    }

    // Notes a removal from the stop on.
    pub(crate) fn mark_late(&mut self)
        ensures { self.new ≡ state_of_late_removal self.old }
    {
        if self.was_held {
            self.late = true;
        }
    }

    // Removes the file, and gives the state that it had.
    pub(crate) fn remove(&mut self, call: u32) -> FileState
        ensures old { result ≡ self.old }
        ensures new { self.new ≡ state_of_removal self.old call }
    {
        let was_held = self.was_held;
        let changed = if was_held { call } else { self.changed };
        let late = self.late;
        mem::replace(
            self,
            FileState {
                now: None,
                was_held,
                changed,
                late,
            },
        )
    }
}
