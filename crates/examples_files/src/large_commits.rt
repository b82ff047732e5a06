// Commits of many entries, whose files have numbers. Of three files one is replaced, one made and one removed.
use crate::commits::{commit_given, put_end};
use crate::journals::File;
use crate::sinks::put_done;
use examples_base::{Answer, add_times};
use sha2::{Digest, Sha256};
use std::alloc::Global;

// The number of the first file. So the order of the paths is that of the numbers.
const FIRST: u32 = 1000;

// Adds the line of a file that is there before.
fn add_file(alloc: Global, givens: &mut Vec<String>, number: u32, out: &mut Answer) {
    let Ok(given) = format!(in alloc; "f{number} \"old\"") else {
        out.refuse("memory");
        return;
    };
    if givens.push(given).is_err() {
        out.refuse("memory");
    }
}

// The files that are there before, as lines `given`.
fn files_before(alloc: Global, count: u32, out: &mut Answer) -> Vec<String> {
    let mut givens = Vec::new(alloc);
    for at in 0..count {
        if at % 3 != 1 {
            add_file(alloc, &mut givens, FIRST.saturating_add(at), out);
        }
    }
    givens
}

// Adds a text with a number in it.
fn add_numbered(
    alloc: Global,
    text: &mut Vec<u8>,
    front: &str,
    number: u32,
    behind: &str,
    out: &mut Answer,
) {
    match format!(in alloc; "{front}{number}{behind}") {
        Ok(piece) => add_times(text, piece.as_bytes(), 1, out),
        Err(_) => out.refuse("memory"),
    }
}

// Adds the entries of a journal.
fn add_entries(alloc: Global, text: &mut Vec<u8>, count: u32, out: &mut Answer) {
    for at in 0..count {
        let number = FIRST.saturating_add(at);
        if at % 3 == 2 {
            add_numbered(alloc, text, "del f", number, "\n", out);
        } else {
            add_numbered(alloc, text, "put 3 f", number, "\nnew\n", out);
        }
    }
}

// Adds the line of the digest.
fn add_digest(text: &mut Vec<u8>, out: &mut Answer) {
    let mut digits = [0; 64];
    if hex::encode_to_slice(Sha256::digest(&text[..]), &mut digits).is_err() {
        out.refuse("digest");
    }
    add_times(text, b"sha256 ", 1, out);
    add_times(text, &digits, 1, out);
    add_times(text, b"\n", 1, out);
}

// The journal of so many entries.
fn journal_of(alloc: Global, count: u32, out: &mut Answer) -> Vec<u8> {
    let mut text = Vec::new(alloc);
    add_numbered(alloc, &mut text, "rewrite-journal 1\n", count, "\n", out);
    add_entries(alloc, &mut text, count, out);
    add_digest(&mut text, out);
    text
}

// How many files have this text.
fn count_of(files: &[File], text: &[u8]) -> usize {
    let mut count = 0usize;
    for file in files {
        if file.bytes() == text {
            count = count.saturating_add(1);
        }
    }
    count
}

// Writes how many files have a text.
fn put_count(files: &[File], text: &[u8], out: &mut Answer) {
    out.put(", ");
    out.put_number(count_of(files, text));
    out.put(" files ");
    out.put_quoted(text);
}

/// Writes what a commit of so many entries answers, and how many files are new or old then, and how many there are.
pub fn put_commit(alloc: Global, count: u32, out: &mut Answer) {
    let givens = files_before(alloc, count, out);
    let journal = journal_of(alloc, count, out);
    match commit_given(alloc, &givens, &journal, out) {
        Some(committed) => {
            put_done(committed.done, out);
            put_count(&committed.files, b"new", out);
            put_count(&committed.files, b"old", out);
            out.put(", ");
            out.put_number(committed.files.len());
            out.put(" in all");
            put_end(&committed, out);
        }
        None => out.refuse("commit"),
    }
}
