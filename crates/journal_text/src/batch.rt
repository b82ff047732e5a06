// A batch of changes.
use rw_host::PathText;

/// A path, and the bytes that it gets, or none where it is removed.
#[derive(Debug, Drop)]
pub struct Entry {
    pub path: PathText,
    pub bytes: Option<Vec<u8>>,
}

/// Changes that are made together. In a batch that has a journal the paths strictly rise by their bytes, and none is
/// `.rewrite/gate` or `.rewrite/journal`.
#[derive(Debug, Drop)]
pub struct Batch {
    pub entries: Vec<Entry>,
}
