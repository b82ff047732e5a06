// A file with what was read from it.
use crate::reading::Reading;
use rw_base::{Shared, Text};
use rw_host::PathText;

/// A file: its path, its bytes where they are known, and what it reads as.
#[derive(Debug, Drop)]
pub struct KeptFile {
    pub path: PathText,
    pub bytes: Option<Shared<Text>>,
    pub reading: Reading,
}
