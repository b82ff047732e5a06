// What a bound is erased to.
use jtypes::{JType, Name};

/// A type, or that of another type variable.
#[derive(Drop)]
pub(crate) enum Erased {
    To(JType),
    Next(Name),
}
