// What becomes of a file at an edit step.
use kept_files::KeptFile;
use rw_base::{Refused, Shared};

/// What becomes of a file.
#[derive(Drop)]
pub enum Fate {
    /// It stays as it is.
    Stays,
    /// It goes.
    Goes,
    /// Its new bytes are refused, so it stays as it is.
    Lost(Refused),
    /// Its new path isn't free, so it stays as it is.
    Taken,
    /// This file stands in its place.
    Becomes(Shared<KeptFile>),
}
