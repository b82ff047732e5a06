// Stores in memory over which batches are committed and recovered. Each line `given` names a file that a store begins
// with, by its path and its text.
use crate::stores::put_file;
use examples_base::{Answer, words_of};
use memory_stores::{MemoryStore, SteadyStore};
use rw_base::Mem;
use rw_host::{Store, StoreFault};
use std::alloc::Global;

const GATE: &str = ".rewrite/gate";

const JOURNAL: &str = ".rewrite/journal";

// By this number a crash leaves what reads give, at the first sixteen unsynced paths.
const AS_READ: u32 = 0x5555_5555;

/// Which calls of a store fail. They are counted behind the sync of the given files.
#[derive(Clone, Copy)]
pub enum Failing {
    Never,
    At(u32),
    From(u32),
}

/// A file of a store.
#[derive(PartialEq, Drop)]
pub struct File {
    path: String,
    bytes: Vec<u8>,
}

impl File {
    /// Whether it is the gate.
    pub fn is_gate(&self) -> bool {
        self.path.as_str() == GATE
    }

    /// Its bytes.
    pub fn bytes(&self) -> &[u8] {
        self.bytes.as_slice()
    }
}

// How many calls it takes to put the given files and to sync them.
fn calls_before(givens: &[String]) -> u32 {
    let files = u32::try_from(givens.len()).unwrap_or(u32::MAX);
    files.saturating_mul(2).saturating_add(1)
}

// A store without files, of which those calls fail that come so many calls later.
fn empty_store(alloc: Global, failing: Failing, before: u32) -> Mem<MemoryStore> {
    let mut fail = Vec::new(alloc);
    let mut stop = 0;
    match failing {
        Failing::Never => {}
        Failing::At(call) => fail.push(before.saturating_add(call))?,
        Failing::From(call) => stop = before.saturating_add(call),
    }
    MemoryStore::new(alloc, Vec::new(alloc), fail, stop)
}

// Puts the file of a line.
fn put_given<S: Store>(alloc: Global, store: &mut S, given: &str, out: &mut Answer) {
    let words = words_of(alloc, given, out);
    let text = words.text(alloc, 1, out);
    if put_file(alloc, store, words.plain(0, out), &text, out).is_err() {
        out.refuse("store");
    }
}

/// The store of the given files, all of them synced.
pub fn store_with(
    alloc: Global,
    givens: &[String],
    failing: Failing,
    out: &mut Answer,
) -> Option<MemoryStore> {
    let mut store = empty_store(alloc, failing, calls_before(givens)).ok()?;
    for given in givens {
        put_given(alloc, &mut store, given.as_str(), out);
    }
    store.sync().ok()?;
    Some(store)
}

/// The text of the journal among the given files.
pub fn given_journal(alloc: Global, givens: &[String], out: &mut Answer) -> Vec<u8> {
    for given in givens {
        let words = words_of(alloc, given.as_str(), out);
        if words.plain(0, out) == JOURNAL {
            return words.text(alloc, 1, out);
        }
    }
    Vec::new(alloc)
}

fn file_at(alloc: Global, store: &mut SteadyStore, path: &str) -> Result<File, StoreFault> {
    let Some(bytes) = store.read(alloc, path, u32::MAX)? else {
        return Err(StoreFault::Failed);
    };
    let path = String::from_str(alloc, path)?;
    Ok(File { path, bytes })
}

/// The files of a store in the order of their paths.
pub fn files_of(alloc: Global, store: &mut SteadyStore) -> Result<Vec<File>, StoreFault> {
    let paths = store.list(alloc, u32::MAX)?;
    let mut files = Vec::new(alloc);
    for path in paths.iter() {
        files.push(file_at(alloc, store, path.as_str())?)?;
    }
    Ok(files)
}

/// The files that reads of a store give. They are read in an image of it, so that no call of the store is made.
pub fn files_read(alloc: Global, store: &MemoryStore) -> Result<Vec<File>, StoreFault> {
    let mut image = store.crash(alloc, AS_READ)?;
    files_of(alloc, &mut image)
}

// Writes a file, with `same` in place of this journal.
fn put_one(file: &File, journal: &[u8], out: &mut Answer) {
    out.put_escaped(file.path.as_bytes());
    out.put(" ");
    if file.path.as_str() == JOURNAL && file.bytes() == journal {
        out.put("same");
    } else {
        out.put_text(file.bytes());
    }
}

/// Writes files, with `same` in place of this journal.
pub fn put_files(files: &[File], journal: &[u8], out: &mut Answer) {
    out.put("[");
    for (at, file) in files.iter().enumerate() {
        out.put_between(at, ", ");
        put_one(file, journal, out);
    }
    out.put("]");
}
