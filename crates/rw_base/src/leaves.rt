// The leaves of a file, up to the first bad place.
use crate::{Cause, Leaf};

/// The largest file that is read, in bytes: 2 MiB.
pub const MOST_BYTES: usize = 2_097_152;

/// The first byte of a file that is no part of a leaf or of what stands before one, and why.
#[derive(Clone, Copy, Debug, PartialEq, Eq)]
pub struct Bad {
    pub byte: u32,
    pub cause: Cause,
}

/// The leaves of a file up to its first bad place, and an end leaf there.
#[derive(Debug, Drop)]
pub struct Leaves {
    pub leaves: Vec<Leaf>,
    pub bad: Option<Bad>,
}
