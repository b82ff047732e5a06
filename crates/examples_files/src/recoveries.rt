// Recoveries over a store in memory of the given files: `recover`, twice; `failing CALL`, where that call of the first
// recovery fails, and a second one; `stopped CALL PICK`, where the first is stopped in that call and the second finds
// the image of this number that the crash leaves; and `images CALL COUNT`, where it finds each of so many images.
use crate::journals::{Failing, File, files_of, files_read, given_journal, put_files, store_with};
use examples_base::{Answer, Words};
use memory_stores::{MemoryStore, SteadyStore};
use run_journal::{RecoverFault, recover};
use rw_host::{Store, StoreFault};
use std::alloc::Global;

// Recovers, and writes what is answered.
fn put_recovery<S: Store>(alloc: Global, store: &mut S, out: &mut Answer) {
    match recover(alloc, store) {
        Ok(count) => out.put_number(count as usize),
        Err(RecoverFault::NoMemory) => out.refuse("memory"),
        Err(fault) => out.put_debug(&fault),
    }
}

// Writes files that were read.
fn put_found(files: Result<Vec<File>, StoreFault>, journal: &[u8], out: &mut Answer) {
    out.put(" ");
    match files {
        Ok(files) => put_files(&files, journal, out),
        Err(_) => out.refuse("files"),
    }
}

// Recovers twice, and writes each time what is answered and the files then.
fn put_twice(alloc: Global, store: &mut MemoryStore, journal: &[u8], out: &mut Answer) {
    put_recovery(alloc, store, out);
    put_found(files_read(alloc, store), journal, out);
    out.put(", then ");
    put_recovery(alloc, store, out);
    put_found(files_read(alloc, store), journal, out);
}

// Writes the files of an image, recovers, and writes what is answered and the files then.
fn put_image(alloc: Global, image: &mut SteadyStore, journal: &[u8], out: &mut Answer) {
    out.put(", left");
    put_found(files_of(alloc, image), journal, out);
    out.put(", then ");
    put_recovery(alloc, image, out);
    put_found(files_of(alloc, image), journal, out);
}

// Recovers in a store that is stopped, and then in the image of this number.
fn put_stopped(
    alloc: Global,
    store: &mut MemoryStore,
    pick: u32,
    journal: &[u8],
    out: &mut Answer,
) {
    put_recovery(alloc, store, out);
    match store.crash(alloc, pick) {
        Ok(mut image) => put_image(alloc, &mut image, journal, out),
        Err(_) => out.refuse("memory"),
    }
}

// The files but the gate.
fn without_gate(mut files: Vec<File>) -> Vec<File> {
    files.retain(|file| !file.is_gate());
    files
}

// The files but the gate that a recovery in the image of this number leaves, or `None` where it doesn't end.
fn recovered_files(alloc: Global, store: &MemoryStore, pick: u32) -> Option<Vec<File>> {
    let mut image = store.crash(alloc, pick).ok()?;
    recover(alloc, &mut image).ok()?;
    let files = files_of(alloc, &mut image).ok()?;
    Some(without_gate(files))
}

// Writes in how many of so many images a recovery leaves what it leaves where nothing fails.
fn put_images(alloc: Global, givens: &[String], call: u32, count: u32, out: &mut Answer) {
    let Some(whole) = store_with(alloc, givens, Failing::Never, out) else {
        out.refuse("store");
        return;
    };
    let Some(mut stopped) = store_with(alloc, givens, Failing::From(call), out) else {
        out.refuse("store");
        return;
    };
    let finished = recovered_files(alloc, &whole, 0);
    put_recovery(alloc, &mut stopped, out);
    let mut same = 0usize;
    for pick in 0..count {
        if finished.is_some() && recovered_files(alloc, &stopped, pick) == finished {
            same = same.saturating_add(1);
        }
    }
    out.put(", ");
    out.put_number(same);
    out.put(" finished");
}

// Writes the answer of a case on one store.
fn put_over(
    alloc: Global,
    givens: &[String],
    failing: Failing,
    pick: Option<u32>,
    out: &mut Answer,
) {
    let journal = given_journal(alloc, givens, out);
    let Some(mut store) = store_with(alloc, givens, failing, out) else {
        out.refuse("store");
        return;
    };
    match pick {
        Some(pick) => put_stopped(alloc, &mut store, pick, &journal, out),
        None => put_twice(alloc, &mut store, &journal, out),
    }
}

/// Writes the answer of a case.
pub fn put_answer(alloc: Global, givens: &[String], words: &Words, out: &mut Answer) {
    match words.plain(0, out) {
        "recover" => put_over(alloc, givens, Failing::Never, None, out),
        "failing" => {
            let failing = Failing::At(words.number(1, out));
            put_over(alloc, givens, failing, None, out);
        }
        "stopped" => {
            let failing = Failing::From(words.number(1, out));
            put_over(alloc, givens, failing, Some(words.number(2, out)), out);
        }
        "images" => {
            let call = words.number(1, out);
            put_images(alloc, givens, call, words.number(2, out), out);
        }
        _ => out.refuse("recovery"),
    }
}
