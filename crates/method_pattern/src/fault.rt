// Why a text gives no method pattern.
ghost use Rattle.std.specs.Prelude.{◌≡◌, ℕ, ◌+◌, ◌<◌, ◌^◌};
ghost use Rattle.method_pattern.specs.Reading.{behind};
ghost use Rattle.method_pattern.specs.declared.fault.PatternFault.TheVariants as pattern_fault;

use rw_base::NoMemory;
use std::alloc::AllocFailed;

/// Why a text gives no method pattern.
#[derive(Clone, Copy, Debug, PartialEq, Eq)]
pub enum PatternFault {
    /// It is none: the byte behind its longest front that begins some method pattern.
    At(u32),
    NoMemory,
}

impl PatternFault {
    /// The same fault in a text in which so many bytes stand before.
    pub(crate) fn behind(self, by: usize) -> PatternFault
        requires { (n : ℕ) → self ≡ pattern_fault.At n → by + n < 2 ^ 32 }
        ensures { result ≡ behind by self }
    {
        match self {
            PatternFault::At(n) => PatternFault::At(by as u32 + n),
            PatternFault::NoMemory => PatternFault::NoMemory,
        }
    }
}

impl From<NoMemory> for PatternFault {
    ghost from_gives = { λ _ e. e ≡ pattern_fault.NoMemory };

    fn from(_: NoMemory) -> Self {
        PatternFault::NoMemory
    }
}

impl<T: Drop> From<AllocFailed<T>> for PatternFault {
    ghost from_gives = { λ _ e. e ≡ pattern_fault.NoMemory };

    fn from(_: AllocFailed<T>) -> Self {
        PatternFault::NoMemory
    }
}
