// Changes of files.
use rw_host::PathText;

/// A change of a file.
#[derive(Debug, Drop)]
pub enum Change {
    /// The file at this path gets these bytes, or comes with them.
    Put { path: PathText, bytes: Vec<u8> },
    /// The file at this path goes, where there is one.
    Remove { path: PathText },
}
