// Stores of all kinds. A store is made by its word: `steady` or `memory`, with two files or none; `failing`, with the
// call from which on all fail, two files, and the numbers of further calls that fail; or `folder`, with its name. The
// calls behind it are made on it.
ghost use Rattle.std.specs.Prelude.{◌≢◌, IfOk, IfSome};
ghost use Rattle.memory_stores.specs.Table.{IsEachOnce};

use crate::outside::put_outside;
use crate::stores::{path_in, put_call};
use examples_base::{Answer, Words};
use memory_stores::{MemoryStore, SteadyStore};
use rw_base::Mem;
use rw_host::{FolderStore, PathText};
use std::alloc::Global;
use std::fs;
use std::rt::Files;

/// A store of any kind.
#[derive(Drop)]
pub enum AnyStore<R: Files + AllocGlobal + Clone + Drop> {
    Steady(SteadyStore),
    Memory(MemoryStore),
    Folder(FolderStore<R>),
}

/// Files by their paths.
type Listed = Vec<(PathText, Vec<u8>)>;

// Two files, the first of them empty.
fn two_files(alloc: Global, one: PathText, other: PathText, text: &[u8]) -> Mem<Listed>
    requires { one ≢ other }
    ensures { IfOk result (λ files. IsEachOnce files.items) }
{
    let mut files = Vec::new(alloc);
    let bytes = Vec::from_slice(alloc, text)?;
    files.push((one, Vec::new(alloc)))?;
    files.push((other, bytes))?;
    Ok(files)
}

// The files of the words from a place on: none, or two paths and the text of the second.
fn files_from(alloc: Global, words: &Words, first: usize, out: &mut Answer) -> Option<Listed>
    ensures { IfSome result (λ files. IsEachOnce files.items) }
{
    if words.count() <= first {
        return Some(Vec::new(alloc));
    }
    let one = words.plain(first, out);
    let other = words.plain(first.saturating_add(1), out);
    let text = words.quoted(first.saturating_add(2), out);
    if one == other {
        return None;
    }
    let one = path_in(alloc, one, out)?;
    let other = path_in(alloc, other, out)?;
    two_files(alloc, one, other, text).ok()
}

// The numbers of the words from a place on.
fn numbers_from(alloc: Global, words: &Words, first: usize, out: &mut Answer) -> Vec<u32> {
    let mut numbers = Vec::new(alloc);
    for at in first..words.count() {
        if numbers.push(words.number(at, out)).is_err() {
            out.refuse("memory");
        }
    }
    numbers
}

fn steady(alloc: Global, words: &Words, out: &mut Answer) -> Option<SteadyStore> {
    let files = files_from(alloc, words, 1, out)?;
    SteadyStore::new(alloc, files).ok()
}

fn memory(alloc: Global, words: &Words, out: &mut Answer) -> Option<MemoryStore> {
    let files = files_from(alloc, words, 1, out)?;
    MemoryStore::new(alloc, files, Vec::new(alloc), 0).ok()
}

fn failing(alloc: Global, words: &Words, out: &mut Answer) -> Option<MemoryStore> {
    let stop = words.number(1, out);
    let files = files_from(alloc, words, 2, out)?;
    let numbers = numbers_from(alloc, words, 5, out);
    MemoryStore::new(alloc, files, numbers, stop).ok()
}

fn folder<R: Files + AllocGlobal + Clone + Drop>(
    rt: &R,
    alloc: Global,
    name: &str,
) -> Option<FolderStore<R>> {
    if fs::create_dir(rt, name).is_err() {
        return None;
    }
    let host = rt.clone().ok()?;
    FolderStore::new(host, alloc, name).ok()
}

// The store of these words.
fn made<R: Files + AllocGlobal + Clone + Drop>(
    rt: &R,
    alloc: Global,
    words: &Words,
    out: &mut Answer,
) -> Option<AnyStore<R>> {
    match words.plain(0, out) {
        "steady" => Some(AnyStore::Steady(steady(alloc, words, out)?)),
        "memory" => Some(AnyStore::Memory(memory(alloc, words, out)?)),
        "failing" => Some(AnyStore::Memory(failing(alloc, words, out)?)),
        _ => Some(AnyStore::Folder(folder(rt, alloc, words.plain(1, out))?)),
    }
}

// Makes a call on a store, and writes what it answers.
fn put_store_call<R: Files + AllocGlobal + Clone + Drop>(
    alloc: Global,
    store: &mut Option<AnyStore<R>>,
    words: &Words,
    out: &mut Answer,
) {
    match store {
        Some(AnyStore::Steady(store)) => put_call(alloc, store, words, out),
        Some(AnyStore::Memory(store)) => put_call(alloc, store, words, out),
        Some(AnyStore::Folder(store)) => put_call(alloc, store, words, out),
        None => out.refuse("store"),
    }
}

/// Makes the call of a case on a store, and writes what it answers. The words of a store make a new one.
pub fn put_answer<R: Files + AllocGlobal + Clone + Drop>(
    rt: &R,
    alloc: Global,
    store: &mut Option<AnyStore<R>>,
    words: &Words,
    out: &mut Answer,
) {
    match words.plain(0, out) {
        "outside" => put_outside(rt, alloc, words, out),
        "steady" | "memory" | "failing" | "folder" => {
            *store = made(rt, alloc, words, out);
            if store.is_some() {
                out.put("made");
            } else {
                out.refuse("store");
            }
        }
        _ => put_store_call(alloc, store, words, out),
    }
}
