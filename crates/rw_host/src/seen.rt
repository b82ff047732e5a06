// What stands at a path, which is seen before anything is opened there.
use crate::full::{FullPath, MOST_PATH, folder_of};
use std::alloc::{AllocError, Global};
use std::io::ErrorKind;
use std::rt::Files;
use std::{fs, io};

// The folder of the journal. Where a file has this name, none is below it.
pub(crate) const JOURNAL_FOLDER: &str = ".rewrite";

#[derive(Drop)]
enum Kind {
    Absent,
    File,
    Folder,
    // A link, which isn't followed, a pipe, a socket or a device.
    Other,
}

fn kind_at<R: Files>(rt: &R, full: &str) -> io::Result<Kind> {
    match fs::symlink_metadata(rt, full) {
        Ok(found) if found.is_file() => Ok(Kind::File),
        Ok(found) if found.is_dir() => Ok(Kind::Folder),
        Ok(_) => Ok(Kind::Other),
        Err(e) if e.kind() == ErrorKind::NotFound => Ok(Kind::Absent),
        Err(e) => Err(e),
    }
}

// The folder that was last seen to be one, with all above it, by its path from the root. Takes memory only where it is
// made.
#[derive(Drop)]
pub(crate) struct SeenFolder {
    path: String,
}

impl SeenFolder {
    pub(crate) fn new(alloc: Global) -> Result<SeenFolder, AllocError> {
        Ok(SeenFolder {
            path: String::with_capacity(alloc, MOST_PATH)?,
        })
    }

    // Whether the folder of what has this path is there. What isn't a folder where the path needs one is refused.
    pub(crate) fn has_folder<R: Files>(
        &mut self,
        rt: &R,
        full: &mut FullPath,
        path: &str,
    ) -> io::Result<bool> {
        let folder = folder_of(path);
        if folder.is_empty() || folder == self.path.as_str() {
            return Ok(true);
        }
        for (at, _) in path.match_indices('/') {
            let above = &path[..at];
            match kind_at(rt, full.of(above)?)? {
                Kind::Folder => {}
                Kind::Absent => return Ok(false),
                Kind::File if above == JOURNAL_FOLDER => return Ok(false),
                _ => return Err(io::Error::from(ErrorKind::NotADirectory)),
            }
        }
        self.path.clear();
        self.path.push_str(folder)?;
        Ok(true)
    }

    // Whether a file has this path. What is there and isn't a file is refused.
    pub(crate) fn has_file<R: Files>(
        &mut self,
        rt: &R,
        full: &mut FullPath,
        path: &str,
    ) -> io::Result<bool> {
        if !self.has_folder(rt, full, path)? {
            return Ok(false);
        }
        match kind_at(rt, full.of(path)?)? {
            Kind::File => Ok(true),
            Kind::Absent => Ok(false),
            _ => Err(io::Error::from(ErrorKind::InvalidInput)),
        }
    }
}
