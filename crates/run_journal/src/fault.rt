// Why a recovery didn't end.
use rw_host::Failed;

/// Why a recovery didn't end, or why the entries of an open journal aren't known.
#[derive(Clone, Copy, Debug, PartialEq, Eq)]
pub enum RecoverFault {
    /// A read of the store failed, or it made no room.
    ReadFailed,
    /// A write, a removal or a sync of the store failed.
    WriteFailed,
    /// The gate is open, and the journal has no reading: it can't go on at this byte.
    Damaged(u32),
    /// The system refused memory.
    NoMemory,
}

impl From<Failed> for RecoverFault {
    ghost use Rattle.std.specs.Prelude.{◌≡◌};
    ghost use Rattle.run_journal.specs.declared.fault.RecoverFault.TheVariants.{WriteFailed};

    ghost from_gives = { λ _ e. e ≡ WriteFailed };

    fn from(_: Failed) -> Self {
        RecoverFault::WriteFailed
    }
}
