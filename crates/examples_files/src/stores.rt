// Calls on a store: `list MOST`, `read PATH MOST`, `reserve COUNT`, `put PATH TEXT`, which makes room first, `remove
// PATH` and `sync`; `put-at`, whose path is made of texts, `put-many COUNT`, and `count MOST`.
ghost use Rattle.std.specs.Prelude.{◌≡◌, IfSome};

use crate::sinks::put_done;
use examples_base::{Answer, Words};
use rw_host::{PathText, Store, StoreFault};
use std::alloc::Global;

/// The path of a text.
pub fn path_in(alloc: Global, text: &str, out: &mut Answer) -> Option<PathText>
    ensures { IfSome result (λ path. path ≡ text.now) }
{
    if let Ok(Some(path)) = PathText::new(alloc, text) {
        return Some(path);
    }
    out.refuse("path");
    None
}

// Writes what a call answers that failed, unless memory was refused.
fn put_fault(fault: StoreFault, out: &mut Answer) {
    match fault {
        StoreFault::NoMemory => out.refuse("memory"),
        _ => out.put_debug(&fault),
    }
}

// Writes what a call answers that gives nothing but a fault.
fn put_answered(done: Result<(), StoreFault>, out: &mut Answer) {
    match done {
        Ok(()) => out.put("done"),
        Err(fault) => put_fault(fault, out),
    }
}

// Writes paths.
fn put_paths(paths: &[PathText], out: &mut Answer) {
    out.put("[");
    for (at, path) in paths.iter().enumerate() {
        out.put_between(at, " ");
        out.put_escaped(path.as_str().as_bytes());
    }
    out.put("]");
}

// Writes the paths of a store, if there are no more than `most`.
fn put_list<S: Store>(alloc: Global, store: &mut S, most: u32, out: &mut Answer) {
    match store.list(alloc, most) {
        Ok(paths) => put_paths(&paths, out),
        Err(fault) => put_fault(fault, out),
    }
}

/// Writes how many paths a store has, if there are no more than `most`.
pub fn put_count<S: Store>(alloc: Global, store: &mut S, most: u32, out: &mut Answer) {
    match store.list(alloc, most) {
        Ok(paths) => {
            out.put_number(paths.len());
            out.put(" paths");
        }
        Err(fault) => put_fault(fault, out),
    }
}

/// Writes the first `most` bytes of a file.
pub fn put_read<S: Store>(alloc: Global, store: &mut S, path: &str, most: u32, out: &mut Answer) {
    match store.read(alloc, path, most) {
        Ok(Some(bytes)) => out.put_text(&bytes),
        Ok(None) => out.put("none"),
        Err(fault) => put_fault(fault, out),
    }
}

// Makes room for a file and puts it.
fn put_bytes<S: Store>(store: &mut S, path: PathText, bytes: Vec<u8>) -> Result<(), StoreFault> {
    store.reserve(1)?;
    match store.write(path, bytes) {
        Ok(()) => Ok(()),
        Err(_) => Err(StoreFault::Failed),
    }
}

/// The same, of a path and a text.
pub fn put_file<S: Store>(
    alloc: Global,
    store: &mut S,
    path: &str,
    text: &[u8],
    out: &mut Answer,
) -> Result<(), StoreFault> {
    let Some(path) = path_in(alloc, path, out) else {
        return Err(StoreFault::NoMemory);
    };
    match Vec::from_slice(alloc, text) {
        Ok(bytes) => put_bytes(store, path, bytes),
        Err(_) => Err(StoreFault::NoMemory),
    }
}

/// Puts so many files into so many folders.
pub fn put_many<S: Store>(
    alloc: Global,
    store: &mut S,
    count: u32,
    folders: u32,
    out: &mut Answer,
) -> Result<(), StoreFault> {
    for k in 0..count {
        match format!(in alloc; "{}/{k}", k % folders.max(1)) {
            Ok(path) => put_file(alloc, store, path.as_str(), b"text", out)?,
            Err(_) => return Err(StoreFault::NoMemory),
        }
    }
    Ok(())
}

// Makes a call on a store that changes files, and writes what it answers.
fn put_change<S: Store>(alloc: Global, store: &mut S, words: &Words, out: &mut Answer) {
    match words.plain(0, out) {
        "put" => {
            let path = words.plain(1, out);
            let text = words.quoted(2, out);
            let done = put_file(alloc, store, path, text, out);
            put_answered(done, out);
        }
        "put-at" => {
            let path = words.text(alloc, 1, out);
            let path = std::str::from_utf8(&path).unwrap_or("");
            let done = put_file(alloc, store, path, b"", out);
            put_answered(done, out);
        }
        "put-many" => {
            let done = put_many(alloc, store, words.number(1, out), 3, out);
            put_answered(done, out);
        }
        _ => out.refuse("call of a store"),
    }
}

/// Makes the call of these words on a store, and writes what it answers.
pub fn put_call<S: Store>(alloc: Global, store: &mut S, words: &Words, out: &mut Answer) {
    match words.plain(0, out) {
        "list" => put_list(alloc, store, words.number(1, out), out),
        "count" => put_count(alloc, store, words.number(1, out), out),
        "read" => put_read(alloc, store, words.plain(1, out), words.number(2, out), out),
        "reserve" => put_answered(store.reserve(words.number(1, out)), out),
        "remove" => put_done(store.remove(words.plain(1, out)), out),
        "sync" => put_done(store.sync(), out),
        _ => put_change(alloc, store, words, out),
    }
}
