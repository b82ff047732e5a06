// Why a recipe file or a plan is refused.
ghost use Rattle.std.specs.Prelude.{◌≡◌, Some};
ghost use Rattle.recipe_yaml.specs.declared.fault.RecipeFault.TheVariants as fault;

use rw_base::{NoMemory, Place};
use std::alloc::{AllocError, AllocFailed};

/// A fault of a recipe file or of a plan.
#[derive(Clone, Copy, Debug, PartialEq, Eq)]
pub enum RecipeFault {
    /// The number of the fault, from 1 to 10, and where it is, if that is a place of the recipe file.
    Wrong { number: u8, place: Option<Place> },
    NoMemory,
}

impl From<NoMemory> for RecipeFault {
    ghost from_gives = { λ _ e. e ≡ fault.NoMemory };

    fn from(_: NoMemory) -> Self {
        RecipeFault::NoMemory
    }
}

impl From<AllocError> for RecipeFault {
    ghost from_gives = { λ _ e. e ≡ fault.NoMemory };

    fn from(_: AllocError) -> Self {
        RecipeFault::NoMemory
    }
}

impl<T: Drop> From<AllocFailed<T>> for RecipeFault {
    ghost from_gives = { λ _ e. e ≡ fault.NoMemory };

    fn from(_: AllocFailed<T>) -> Self {
        RecipeFault::NoMemory
    }
}

/// A fault at a place.
pub(crate) fn wrong(number: u8, place: Place) -> RecipeFault
    ensures { result ≡ fault.Wrong number (Some place) }
{
    RecipeFault::Wrong {
        number,
        place: Some(place),
    }
}
