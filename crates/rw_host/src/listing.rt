// The paths of all files below a folder.
ghost use Rattle.std.specs.Prelude.{◌≡◌, ◌≢◌, ◌≤◌, IsTrue, IfOk, OnOk, vec_len};
ghost use Rattle.rw_host.specs.Files.{IsInOrder};

use crate::folder::{fault_of, join_paths};
use crate::path::is_path;
use crate::{PathText, StoreFault};
use std::alloc::{AllocError, Global};
use std::cmp::Ordering;
use std::fs::DirEntry;
use std::io::ErrorKind;
use std::rt::Files;
use std::{fs, io};

// How many names a listing meets at most, and how far below the root it goes.
const MOST_NAMES: u32 = 1_000_000;

const MOST_DEEP: u32 = 100;

// A folder that is still to be listed, by its path from the root, which has none itself.
#[derive(Drop)]
struct Waiting {
    path: String,
    depth: u32,
}

// What a listing has found so far, and how many names it has met.
#[derive(Drop)]
struct Listing {
    waiting: Vec<Waiting>,
    paths: Vec<PathText>,
    names: u32,
}

// The path from the root of what has this name in this folder.
fn below(alloc: Global, folder: &str, name: &str) -> Result<String, AllocError> {
    if folder.is_empty() {
        String::from_str(alloc, name)
    } else {
        join_paths(alloc, folder, name)
    }
}

fn is_hidden_folder(name: &str) -> bool {
    name.starts_with('.') && name != ".rewrite"
}

fn note_folder(
    alloc: Global,
    found: &mut Listing,
    at: &Waiting,
    name: &str,
) -> Result<(), StoreFault>
    ensures not_many { result ≢ Err StoreFault.TooMany }
    ensures paths { found.new.paths ≡ found.old.paths }
{
    if is_hidden_folder(name) {
        return Ok(());
    }
    if at.depth >= MOST_DEEP {
        return Err(StoreFault::Failed);
    }
    let path = below(alloc, at.path.as_str(), name)?;
    found.waiting.push(Waiting {
        path,
        depth: at.depth + 1,
    })?;
    Ok(())
}

fn note_file(
    alloc: Global,
    found: &mut Listing,
    at: &Waiting,
    name: &str,
    most: u32,
) -> Result<(), StoreFault>
    requires { vec_len found.old.paths ≤ most }
    ensures { OnOk result (vec_len found.new.paths ≤ most) }
{
    let path = below(alloc, at.path.as_str(), name)?;
    if let Some(path) = PathText::from_text(path) {
        if found.paths.len() >= most as usize {
            return Err(StoreFault::TooMany);
        }
        found.paths.push(path)?;
    }
    Ok(())
}

// Notes what stands behind one name of the folder. A name that isn't UTF-8, or no part of a path, is passed over,
// and so are symbolic links, sockets and pipes.
fn note_entry<R: Files + Drop>(
    alloc: Global,
    found: &mut Listing,
    at: &Waiting,
    entry: io::Result<DirEntry<R>>,
    most: u32,
) -> Result<(), StoreFault>
    requires { vec_len found.old.paths ≤ most }
    ensures { OnOk result (vec_len found.new.paths ≤ most) }
{
    let entry = match entry {
        Ok(entry) => entry,
        Err(e) if e.kind() == ErrorKind::InvalidFilename => return Ok(()),
        Err(e) => return Err(fault_of(&e)),
    };
    let name = entry.file_name();
    if !is_path(name) {
        return Ok(());
    }
    let kind = match entry.file_type() {
        Ok(kind) => kind,
        Err(e) => return Err(fault_of(&e)),
    };
    if kind.is_dir() {
        note_folder(alloc, found, at, name)
    } else if kind.is_file() {
        note_file(alloc, found, at, name, most)
    } else {
        Ok(())
    }
}

fn list_one<R: Files + AllocGlobal + Clone + Drop>(
    rt: &R,
    alloc: Global,
    root: &str,
    found: &mut Listing,
    at: &Waiting,
    most: u32,
) -> Result<(), StoreFault>
    requires { vec_len found.old.paths ≤ most }
    ensures { OnOk result (vec_len found.new.paths ≤ most) }
{
    let full = join_paths(alloc, root, at.path.as_str())?;
    let entries = match fs::read_dir(rt, full.as_str()) {
        Ok(entries) => entries,
        Err(e) => return Err(fault_of(&e)),
    };
    for entry in entries {
        if found.names >= MOST_NAMES {
            return Err(StoreFault::Failed);
        }
        found.names += 1;
        note_entry(alloc, found, at, entry, most)?;
    }
    Ok(())
}

fn list_all<R: Files + AllocGlobal + Clone + Drop>(
    rt: &R,
    alloc: Global,
    root: &str,
    most: u32,
) -> Result<Vec<PathText>, StoreFault>
    ensures { IfOk result (λ paths. vec_len paths ≤ most) }
{
    let mut found = Listing {
        waiting: Vec::new(alloc),
        paths: Vec::new(alloc),
        names: 0,
    };
    found.waiting.push(Waiting {
        path: String::new(alloc),
        depth: 0,
    })?;
    // Each folder but the root is a name that was met.
    for _ in 0..=MOST_NAMES {
        match found.waiting.pop() {
            None => break,
            Some(at) => list_one(rt, alloc, root, &mut found, &at, most)?,
        }
    }
    let Listing {
        waiting: _,
        mut paths,
        names: _,
    } = found;
    paths.sort_unstable_by(|one, other| one.as_str().cmp(other.as_str()));
    Ok(paths)
}

fn are_in_order(paths: &[PathText]) -> bool
    ensures { IsTrue result → IsInOrder paths.now }
{
    for i in 1..paths.len() {
        match paths[i - 1].as_str().cmp(paths[i].as_str()) {
            Ordering::Less => {}
            _ => return false,
        }
    }
    true
}

// The paths of all files below the root, in order. A system that gives a name twice in one folder is a fault.
pub(crate) fn list_below<R: Files + AllocGlobal + Clone + Drop>(
    rt: &R,
    alloc: Global,
    root: &str,
    most: u32,
) -> Result<Vec<PathText>, StoreFault>
    ensures in_order { IfOk result (λ paths. IsInOrder paths.items) }
    ensures at_most { IfOk result (λ paths. vec_len paths ≤ most) }
{
    let paths = list_all(rt, alloc, root, most)?;
    if are_in_order(&paths) {
        Ok(paths)
    } else {
        Err(StoreFault::Failed)
    }
}
