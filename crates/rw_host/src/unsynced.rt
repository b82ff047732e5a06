// What has changed in a real folder since the last sync.
ghost use Rattle.std.specs.Prelude.{◌≡◌, ◌+◌, ◌≤◌, OnOk};
ghost use Rattle.rw_host.specs.Room.{room_of};

use crate::PathText;
use crate::full::{FullPath, MOST_PATH, folder_of};
use crate::seen::{JOURNAL_FOLDER, SeenFolder};
use std::alloc::{AllocError, Global};
use std::fs::{File, OpenFile};
use std::io;
use std::io::ErrorKind;
use std::rt::Files;

// How many files stay open at most until they are synced.
const MOST_OPEN: usize = 64;

// The files of the journal, which an earlier process may have left unsynced.
const JOURNAL_FILES: [&str; 2] = [".rewrite/gate", ".rewrite/journal"];

// Which syncs have succeeded. The first syncs what an earlier process may have left. Until the second it isn't known
// which folders that process made, as what is written between the two may be its journal's.
#[derive(Clone, Copy, PartialEq, Eq)]
enum Age {
    New,
    Opened,
    Settled,
}

// A file that was written, and whether the folders above its own are to be synced, since they may be new.
#[derive(Drop)]
struct Written {
    path: PathText,
    made: bool,
}

// The files that were written, and the folders in which a name came or went.
#[derive(Drop)]
pub(crate) struct Unsynced<R: Files> {
    // The files that were written last, by the handles that wrote them. Those before them are synced.
    files: Vec<R::File>,
    // Files that were written, at least one in each folder.
    written: Vec<Written>,
    // The full path of the folder in which a file was removed last. Those before it are synced.
    removal_folder: String,
    age: Age,
    // Whether a sync has failed.
    has_failed: bool,
}

impl<R: Files> Unsynced<R> {
    pub(crate) fn new(alloc: Global) -> Result<Unsynced<R>, AllocError> {
        Ok(Unsynced {
            files: Vec::new(alloc),
            written: Vec::new(alloc),
            removal_folder: String::with_capacity(alloc, MOST_PATH)?,
            age: Age::New,
            has_failed: false,
        })
    }

    // Makes room for this many writes.
    pub(crate) fn reserve(&mut self, writes: u32) -> Result<(), AllocError>
        ensures room { OnOk result (writes ≤ room_of self.new.written) }
        ensures spare { room_of self.old.written ≤ room_of self.new.written }
    {
        let open = MOST_OPEN.saturating_sub(self.files.len());
        self.files.reserve(open)?;
        self.written.reserve(writes as usize)
    }

    // Whether what was written can still be synced. Where a sync failed, the system may have dropped it.
    fn check(&self) -> io::Result<()> {
        if self.has_failed {
            Err(io::Error::from(ErrorKind::Other))
        } else {
            Ok(())
        }
    }

    // Syncs the files that are open, where there are as many as may be.
    pub(crate) fn before_write(&mut self) -> io::Result<()>
        ensures { self.new.written ≡ self.old.written }
    {
        self.check()?;
        if self.files.len() >= MOST_OPEN {
            let done = self.sync_files();
            self.has_failed = done.is_err();
            done?;
        }
        Ok(())
    }

    // Notes that the file with this path was written by this handle.
    pub(crate) fn note_file(
        &mut self,
        file: R::File,
        path: PathText,
        made: bool,
    ) -> Result<(), AllocError>
        ensures { room_of self.old.written ≤ room_of self.new.written + 1 }
    {
        self.files.push(file)?;
        let made = made || self.age != Age::Settled;
        if let Some(last) = self.written.last() {
            if (last.made || !made) && folder_of(last.path.as_str()) == folder_of(path.as_str()) {
                return Ok(());
            }
        }
        self.written.push(Written { path, made })?;
        Ok(())
    }

    // Notes that what has this full path is removed.
    pub(crate) fn note_removal(&mut self, rt: &R, full: &str) -> io::Result<()>
        ensures { self.new.written ≡ self.old.written }
    {
        self.check()?;
        let folder = folder_of(full);
        if self.removal_folder.as_str() != folder {
            let done = self.sync_removal_folder(rt);
            self.has_failed = done.is_err();
            done?;
            self.removal_folder.push_str(folder)?;
        }
        Ok(())
    }

    // Syncs each file and each folder, and forgets them where none fails.
    pub(crate) fn sync(
        &mut self,
        rt: &R,
        full: &mut FullPath,
        seen: &mut SeenFolder,
    ) -> io::Result<()>
        ensures { room_of self.old.written ≤ room_of self.new.written }
    {
        self.check()?;
        let done = self.sync_all(rt, full, seen);
        self.has_failed = done.is_err();
        done
    }

    fn sync_all(&mut self, rt: &R, full: &mut FullPath, seen: &mut SeenFolder) -> io::Result<()>
        ensures { room_of self.old.written ≤ room_of self.new.written }
    {
        self.sync_files()?;
        self.sync_removal_folder(rt)?;
        self.sync_folders(rt, full)?;
        self.written.clear();
        self.age = match self.age {
            Age::New => {
                sync_journal(rt, full, seen)?;
                Age::Opened
            }
            _ => Age::Settled,
        };
        Ok(())
    }

    fn sync_files(&mut self) -> io::Result<()>
        ensures { self.new.written ≡ self.old.written }
    {
        for file in &self.files {
            file.sync_data()?;
        }
        self.files.clear();
        Ok(())
    }

    fn sync_removal_folder(&mut self, rt: &R) -> io::Result<()>
        ensures { self.new.written ≡ self.old.written }
    {
        if !self.removal_folder.is_empty() {
            sync_entry(rt, self.removal_folder.as_str())?;
            self.removal_folder.clear();
        }
        Ok(())
    }

    // Syncs each folder in which a file was written once, and those above it where folders were made.
    fn sync_folders(&mut self, rt: &R, full: &mut FullPath) -> io::Result<()>
        ensures { room_of self.old.written ≤ room_of self.new.written }
    {
        self.written.sort_unstable_by(|one, other| {
            folder_of(one.path.as_str()).cmp(folder_of(other.path.as_str()))
        });
        let mut synced = None;
        let mut synced_above = None;
        for written in &self.written {
            let folder = folder_of(written.path.as_str());
            if synced != Some(folder) {
                sync_entry(rt, full.of(folder)?)?;
                synced = Some(folder);
            }
            if written.made && synced_above != Some(folder) {
                sync_above(rt, full, folder, synced_above)?;
                synced_above = Some(folder);
            }
        }
        Ok(())
    }
}

fn is_below(path: &str, folder: &str) -> bool {
    match path.strip_prefix(folder) {
        Some(rest) => rest.starts_with('/'),
        None => false,
    }
}

// Syncs each folder above this one, up to the root, but those above the one for which that was done last.
fn sync_above<R: Files>(
    rt: &R,
    full: &mut FullPath,
    folder: &str,
    done: Option<&str>,
) -> io::Result<()> {
    let done = done.unwrap_or("");
    for (at, _) in folder.match_indices('/') {
        let above = &folder[..at];
        if !is_below(done, above) {
            sync_entry(rt, full.of(above)?)?;
        }
    }
    if done.is_empty() {
        sync_entry(rt, full.root())?;
    }
    Ok(())
}

// Syncs the files of the journal, their folder and the root, as far as they are there.
fn sync_journal<R: Files>(rt: &R, full: &mut FullPath, seen: &mut SeenFolder) -> io::Result<()> {
    for path in JOURNAL_FILES {
        if seen.has_file(rt, full, path)? {
            sync_entry(rt, full.of(path)?)?;
        }
    }
    if seen.has_folder(rt, full, JOURNAL_FILES[0])? {
        sync_entry(rt, full.of(JOURNAL_FOLDER)?)?;
    }
    sync_entry(rt, full.root())
}

// Syncs a file or a folder. What is gone needs no sync.
fn sync_entry<R: Files>(rt: &R, full: &str) -> io::Result<()> {
    match File::open(rt, full) {
        Ok(file) => file.sync_all(),
        Err(e) if e.kind() == ErrorKind::NotFound => Ok(()),
        Err(e) => Err(e),
    }
}
