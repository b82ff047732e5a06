// A store over a real folder.
ghost use Rattle.std.specs.Prelude.{◌≡◌, ◌≢◌, ◌+◌, ◌≤◌, false, IfOk, IfSome, OnErr, vec_len};
ghost use Rattle.std.specs.FinMap as map;
ghost use Rattle.rw_host.specs.Files.{Rose};
ghost use Rattle.rw_host.specs.Room.{room_of};

use crate::full::{FullPath, folder_of};
use crate::listing::list_below;
use crate::path::is_path;
use crate::seen::SeenFolder;
use crate::unsynced::Unsynced;
use crate::{Failed, PathText, Store, StoreFault};
use rw_base::Mem;
use std::alloc::{AllocError, Global};
use std::fs::{File, OpenFile, OpenOptions};
use std::io::{ErrorKind, Read, Seek, SeekFrom, Write};
use std::rt::Files;
use std::{fs, io};

// How many bytes the buffer for reads holds at first, and the most that it keeps between two reads.
const LEAST_BUFFER: usize = 64 * 1024;

const MOST_KEPT: usize = 4 * 1024 * 1024;

/// The real folder below a root. It tells no files, since others may change them.
///
/// - A text that isn't a path names no file: a read gives `None`, and a removal is `Ok`.
/// - A folder or a file that the system doesn't give is a fault. So is what isn't a file where one is read, written or
///   removed: a folder, a link, a pipe or a socket, which is never opened; and what isn't a folder where the path needs
///   one. Where a file has the name `.rewrite`, no file is below it.
/// - Where the system refuses memory, `list`, `read` and `reserve` answer `NoMemory`, and a write, a removal or a sync
///   fails.
/// - A write puts the new bytes in the place of the old ones, and makes the folders that it needs. It takes no memory:
///   `reserve` has made the room that it needs.
/// - `sync` asks the system to sync each file that was written and each folder in which one was written or removed
///   since the last sync that succeeded. Files stay open until then, 64 at most: a write beyond that syncs them first.
///   The first sync also asks for what an earlier process may have left: the files and folders of the journal. What
///   outlasts a loss of power is the system's to keep, and no clause speaks of it.
/// - Where a sync fails, the system may have lost what was to be synced. So each later write, removal and sync of the
///   store fails too.
#[derive(Drop)]
pub struct FolderStore<R: Files> {
    rt: R,
    alloc: Global,
    full: FullPath,
    // What a read puts the bytes into before it knows how many there are.
    buffer: Vec<u8>,
    seen: SeenFolder,
    unsynced: Unsynced<R>,
    // Whether something may be unsynced, by this process or by an earlier one.
    is_unsynced: bool,
    read_faults: u64,
    write_faults: u64,
}

impl<R: Files> FolderStore<R> {
    /// The store over the folder at `root`, which is the current folder where the text is empty.
    pub fn new(rt: R, alloc: Global, root: &str) -> Mem<FolderStore<R>>
    where
        R: Drop,
    {
        let root = if root.is_empty() { "." } else { root };
        Ok(FolderStore {
            rt,
            alloc,
            full: FullPath::new(alloc, root)?,
            buffer: Vec::new(alloc),
            seen: SeenFolder::new(alloc)?,
            unsynced: Unsynced::new(alloc)?,
            is_unsynced: true,
            read_faults: 0,
            write_faults: 0,
        })
    }
}

// The path of what has the name `path` in `folder`.
pub(crate) fn join_paths(alloc: Global, folder: &str, path: &str) -> Result<String, AllocError> {
    let len = folder.len().saturating_add(path.len()).saturating_add(1);
    let mut full = String::with_capacity(alloc, len)?;
    full.push_str(folder)?;
    full.push('/')?;
    full.push_str(path)?;
    Ok(full)
}

pub(crate) fn fault_of(e: &io::Error) -> StoreFault
    ensures { result ≢ StoreFault.TooMany }
{
    if e.kind() == ErrorKind::OutOfMemory {
        StoreFault::NoMemory
    } else {
        StoreFault::Failed
    }
}

// Whether the error says that no file has the path.
fn is_absent(e: &io::Error) -> bool {
    matches!(e.kind(), ErrorKind::NotFound | ErrorKind::NotADirectory)
}

// Reads into the front of the buffer up to the file's end, or until there are `most` bytes, and returns how many
// there are.
fn fill<F: Read>(file: &mut F, buffer: &mut Vec<u8>, most: usize) -> io::Result<usize>
    ensures { IfOk result (λ filled. filled ≤ vec_len buffer.new) }
{
    let mut filled = 0;
    for _ in 0..u64::MAX {
        if filled >= most {
            break;
        }
        if filled >= buffer.len() {
            buffer.resize(filled.saturating_mul(2).max(LEAST_BUFFER), 0)?;
        }
        match file.read(&mut buffer[filled..]) {
            Ok(0) => break,
            Ok(n) => filled += n,
            Err(e) if e.kind() == ErrorKind::Interrupted => {}
            Err(e) => return Err(e),
        }
    }
    Ok(filled)
}

// The first bytes of the file at this place, or `None` where there is none.
fn read_file<R: Files>(
    rt: &R,
    alloc: Global,
    buffer: &mut Vec<u8>,
    path: &str,
    most: u32,
) -> io::Result<Option<Vec<u8>>>
    ensures { IfOk result (λ found. IfSome found (λ v. vec_len v ≤ most)) }
{
    let mut file = match File::open(rt, path) {
        Ok(file) => file,
        Err(e) if is_absent(&e) => return Ok(None),
        Err(e) => return Err(e),
    };
    let most = most as usize;
    // One byte is asked for at least, since the system opens a folder and refuses to read it.
    let filled = fill(&mut file, buffer, most.max(1))?;
    let bytes = Vec::from_slice(alloc, &buffer[..filled.min(most)])?;
    Ok(Some(bytes))
}

// Opens a file for writing, or makes it and the folders that it needs where it is missing. Tells whether it has made
// any of those.
fn open_to_write<R: Files>(rt: &R, full: &str, is_there: bool) -> io::Result<(R::File, bool)> {
    if is_there {
        return Ok((OpenOptions::new().write(true).open(rt, full)?, false));
    }
    match File::create(rt, full) {
        Err(e) if e.kind() == ErrorKind::NotFound => {}
        made => return Ok((made?, false)),
    }
    fs::create_dir_all(rt, folder_of(full))?;
    Ok((File::create(rt, full)?, true))
}

// Puts these bytes in the place of a file's own.
fn overwrite<F: Write + Seek + OpenFile>(file: &mut F, bytes: &[u8]) -> io::Result<()> {
    file.write_all(bytes)?;
    let len = bytes.len() as u64;
    if file.seek(SeekFrom::End(0))? > len {
        file.set_len(len)?;
    }
    Ok(())
}

impl<R: Files> FolderStore<R> {
    // A file that is written in part is noted too.
    fn try_write(&mut self, path: PathText, bytes: &[u8]) -> io::Result<()>
        ensures room { room_of self.old.unsynced.written ≤ room_of self.new.unsynced.written + 1 }
        ensures reads { self.new.read_faults ≡ self.old.read_faults }
        ensures writes { self.new.write_faults ≡ self.old.write_faults }
    {
        self.unsynced.before_write()?;
        let is_there = self.seen.has_file(&self.rt, &mut self.full, path.as_str())?;
        let (mut file, made) = open_to_write(&self.rt, self.full.of(path.as_str())?, is_there)?;
        let done = overwrite(&mut file, bytes);
        self.unsynced.note_file(file, path, made)?;
        done
    }

    // The folder of a file that is gone already is synced too: an earlier process may have removed the file.
    fn try_remove(&mut self, path: &str) -> io::Result<()>
        ensures room { self.new.unsynced.written ≡ self.old.unsynced.written }
        ensures reads { self.new.read_faults ≡ self.old.read_faults }
        ensures writes { self.new.write_faults ≡ self.old.write_faults }
    {
        if !is_path(path) {
            return Ok(());
        }
        let is_there = self.seen.has_file(&self.rt, &mut self.full, path)?;
        let full = self.full.of(path)?;
        self.unsynced.note_removal(&self.rt, full)?;
        if !is_there {
            return Ok(());
        }
        match fs::remove_file(&self.rt, full) {
            Err(e) if is_absent(&e) => Ok(()),
            done => done,
        }
    }

    fn try_read(&mut self, alloc: Global, path: &str, most: u32) -> io::Result<Option<Vec<u8>>>
        ensures at_most { IfOk result (λ found. IfSome found (λ v. vec_len v ≤ most)) }
        ensures room { self.new.unsynced ≡ self.old.unsynced }
        ensures unsynced { self.new.is_unsynced ≡ self.old.is_unsynced }
        ensures reads { self.new.read_faults ≡ self.old.read_faults }
        ensures writes { self.new.write_faults ≡ self.old.write_faults }
    {
        if !self.seen.has_file(&self.rt, &mut self.full, path)? {
            return Ok(None);
        }
        let full = self.full.of(path)?;
        read_file(&self.rt, alloc, &mut self.buffer, full, most)
    }

    // Counts a call that failed.
    fn count_fault(&mut self, done: io::Result<()>) -> Result<(), Failed>
        ensures room { self.new.unsynced ≡ self.old.unsynced }
        ensures unsynced { self.new.is_unsynced ≡ self.old.is_unsynced }
        ensures reads { self.new.read_faults ≡ self.old.read_faults }
        ensures rose { OnErr result (Rose self.old.write_faults self.new.write_faults) }
        ensures count { self.old.write_faults ≤ self.new.write_faults }
    {
        match done {
            Ok(()) => Ok(()),
            Err(_) => {
                self.write_faults = self.write_faults.saturating_add(1);
                Err(Failed)
            }
        }
    }
}

impl<R: Files + AllocGlobal + Clone + Drop> Store for FolderStore<R> {
    ghost tells_files = { false };

    ghost files = { λ _. map.empty };

    ghost spare = { λ s. room_of s.unsynced.written };

    ghost read_faults = { λ s. s.read_faults };

    ghost write_faults = { λ s. s.write_faults };

    ghost is_unsynced = { λ s. s.is_unsynced };

    ghost tells_images = { false };

    ghost image = { λ _ _. Unit {0} };

    ghost moment = { λ _. 0 };

    ghost left_since = { λ _ _ _. Unit {0} };

    ghost told_together = { λ told. told };

    ghost reads_are_left = { λ _. tt };

    ghost only_now = { λ _ _ _. tt };

    ghost counts_now = { λ _ _ _ _ _. tt };

    fn list(&mut self, alloc: Global, most: u32) -> Result<Vec<PathText>, StoreFault> {
        let listed = list_below(&self.rt, alloc, self.full.root(), most);
        if let Err(StoreFault::Failed) = &listed {
            self.read_faults = self.read_faults.saturating_add(1);
        }
        listed
    }

    fn read(
        &mut self,
        alloc: Global,
        path: &str,
        most: u32,
    ) -> Result<Option<Vec<u8>>, StoreFault> {
        if !is_path(path) {
            return Ok(None);
        }
        let found = self.try_read(alloc, path, most);
        if self.buffer.len() > MOST_KEPT {
            self.buffer = Vec::new(self.alloc);
        }
        match found {
            Ok(found) => Ok(found),
            Err(e) => {
                let fault = fault_of(&e);
                if fault == StoreFault::Failed {
                    self.read_faults = self.read_faults.saturating_add(1);
                }
                Err(fault)
            }
        }
    }

    fn reserve(&mut self, paths: u32) -> Result<(), StoreFault> {
        self.unsynced.reserve(paths)?;
        Ok(())
    }

    fn write(&mut self, path: PathText, bytes: Vec<u8>) -> Result<(), Failed> {
        let done = self.try_write(path, &bytes);
        self.is_unsynced = true;
        self.count_fault(done)
    }

    fn remove(&mut self, path: &str) -> Result<(), Failed> {
        let done = self.try_remove(path);
        self.is_unsynced = true;
        self.count_fault(done)
    }

    fn sync(&mut self) -> Result<(), Failed> {
        let done = self.unsynced.sync(&self.rt, &mut self.full, &mut self.seen);
        self.count_fault(done)?;
        self.is_unsynced = false;
        Ok(())
    }
}
