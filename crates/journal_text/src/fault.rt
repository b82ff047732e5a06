// Why bytes are no journal.
ghost use Rattle.std.specs.Prelude.{◌≡◌, ◌<◌, ◌^◌};
ghost use Rattle.journal_text.specs.declared.fault.JournalFault.TheVariants as kind;

use rw_base::NoMemory;
use std::alloc::{AllocError, AllocFailed};

/// Why reading a journal gave nothing.
#[derive(Clone, Copy, Debug, PartialEq, Eq)]
pub enum JournalFault {
    /// The bytes are no journal: the place where they stop being one.
    At(u32),
    /// The system refused memory.
    NoMemory,
}

impl From<NoMemory> for JournalFault {
    ghost from_gives = { λ _ fault. fault ≡ kind.NoMemory };

    fn from(_: NoMemory) -> Self {
        JournalFault::NoMemory
    }
}

impl From<AllocError> for JournalFault {
    ghost from_gives = { λ _ fault. fault ≡ kind.NoMemory };

    fn from(_: AllocError) -> Self {
        JournalFault::NoMemory
    }
}

impl<T: Drop> From<AllocFailed<T>> for JournalFault {
    ghost from_gives = { λ _ fault. fault ≡ kind.NoMemory };

    fn from(_: AllocFailed<T>) -> Self {
        JournalFault::NoMemory
    }
}

pub fn stop_at(place: usize) -> JournalFault
    requires { place < 2 ^ 32 }
    ensures { result ≡ JournalFault.At place }
{
    JournalFault::At(place as u32)
}
