// Full paths of what lies below a root.
use std::alloc::{AllocError, Global};
use std::io;
use std::io::ErrorKind;

// The longest path that the system takes, in bytes.
pub(crate) const MOST_PATH: usize = 4095;

// The folder that holds what has this path, none for what has no `/`.
pub(crate) fn folder_of(path: &str) -> &str {
    match path.rsplit_once('/') {
        Some((folder, _)) => folder,
        None => "",
    }
}

// A root, and the full path of what was asked for last. Takes memory only where it is made.
#[derive(Drop)]
pub(crate) struct FullPath {
    root: String,
    text: String,
}

impl FullPath {
    pub(crate) fn new(alloc: Global, root: &str) -> Result<FullPath, AllocError> {
        Ok(FullPath {
            root: String::from_str(alloc, root)?,
            text: String::with_capacity(alloc, MOST_PATH)?,
        })
    }

    pub(crate) fn root(&self) -> &str {
        self.root.as_str()
    }

    // The full path of what has this path below the root, and of the root where it is empty. A path that is longer
    // than the system takes is refused, as the system does.
    pub(crate) fn of(&mut self, path: &str) -> io::Result<&str> {
        let len = self.root.len().saturating_add(path.len());
        if len >= MOST_PATH {
            return Err(io::Error::from(ErrorKind::InvalidFilename));
        }
        self.text.clear();
        self.text.push_str(self.root.as_str())?;
        if !path.is_empty() {
            self.text.push('/')?;
            self.text.push_str(path)?;
        }
        Ok(self.text.as_str())
    }
}
