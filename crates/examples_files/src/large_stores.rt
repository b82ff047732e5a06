// Stores with many files, and large sinks and paths.
use crate::stores::{put_count, put_file, put_many, put_read};
use examples_base::{Answer, repeated};
use memory_stores::{MemoryStore, SteadyStore};
use rw_base::MOST_BYTES;
use rw_host::{MemorySink, PathText, Sink, Store};
use std::alloc::Global;

// Puts so many files and a large one.
fn fill<S: Store>(alloc: Global, store: &mut S, count: u32, out: &mut Answer) {
    if put_many(alloc, store, count, 100, out).is_err() {
        out.refuse("store");
    }
    let large = repeated(alloc, b"x", MOST_BYTES as u32, out);
    if put_file(alloc, store, "large", &large, out).is_err() {
        out.refuse("store");
    }
}

// Puts so many files and a large one, and writes how many there are, and the large one.
fn put_files<S: Store>(alloc: Global, store: &mut S, count: u32, out: &mut Answer) {
    fill(alloc, store, count, out);
    put_count(alloc, store, u32::MAX, out);
    out.put(", ");
    put_read(alloc, store, "large", u32::MAX, out);
    out.put(", ");
    if store.sync().is_err() || store.remove("large").is_err() {
        out.refuse("store");
    }
    put_count(alloc, store, u32::MAX, out);
}

/// Writes what a store with so many files answers.
pub fn put_steady(alloc: Global, count: u32, out: &mut Answer) {
    match SteadyStore::new(alloc, Vec::new(alloc)) {
        Ok(mut store) => put_files(alloc, &mut store, count, out),
        Err(_) => out.refuse("memory"),
    }
}

/// Writes the same of a store whose calls could fail. From call 65,536 on they would.
pub fn put_memory(alloc: Global, count: u32, out: &mut Answer) {
    match MemoryStore::new(alloc, Vec::new(alloc), Vec::new(alloc), 0) {
        Ok(mut store) => put_files(alloc, &mut store, count, out),
        Err(_) => out.refuse("memory"),
    }
}

/// Writes what a sink has that took so many bytes.
pub fn put_sink(alloc: Global, count: u32, out: &mut Answer) {
    let Ok(mut sink) = MemorySink::with_room(alloc, count) else {
        out.refuse("memory");
        return;
    };
    if sink.put(&repeated(alloc, b"x", count, out)).is_err() {
        out.refuse("sink");
    }
    out.put_text(sink.bytes());
}

/// Writes a path of so many parts.
pub fn put_path(alloc: Global, count: u32, out: &mut Answer) {
    let mut text = repeated(alloc, b"a/", count.saturating_sub(1), out);
    if text.push(b'a').is_err() {
        out.refuse("memory");
    }
    match PathText::new(alloc, std::str::from_utf8(&text).unwrap_or("")) {
        Ok(Some(path)) => out.put_text(path.as_str().as_bytes()),
        _ => out.refuse("path"),
    }
}
