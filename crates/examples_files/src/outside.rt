// What others do in a folder that a store is over. Behind `outside` stands `write`, `read`, `folder`, `remove` or
// `link`, and then the path, made of texts; before that of a link its target.
use examples_base::{Answer, Words};
use std::alloc::Global;
use std::fs;
use std::os::unix::fs::symlink;
use std::rt::Files;

// Writes a file's bytes.
fn put_read<R: Files + AllocGlobal>(rt: &R, path: &str, out: &mut Answer) {
    match fs::read(rt, path) {
        Ok(bytes) => out.put_text(&bytes),
        Err(_) => out.refuse("file"),
    }
}

// Does what a word says at a path, and gives whether it is done.
fn is_done<R: Files + AllocGlobal>(rt: &R, deed: &str, path: &str) -> bool {
    match deed {
        "write" => fs::write(rt, path, "outside").is_ok(),
        "folder" => fs::create_dir(rt, path).is_ok(),
        "remove" => fs::remove_dir_all(rt, path).is_ok(),
        _ => false,
    }
}

// Writes that something is done.
fn put_whether(done: bool, out: &mut Answer) {
    if done {
        out.put("done");
    } else {
        out.refuse("deed");
    }
}

// Makes a link.
fn put_link<R: Files + AllocGlobal>(rt: &R, alloc: Global, words: &Words, out: &mut Answer) {
    let path = words.text(alloc, 3, out);
    let path = std::str::from_utf8(&path).unwrap_or("");
    put_whether(symlink(rt, words.plain(2, out), path).is_ok(), out);
}

// Does what a word says at the path of the words behind it.
fn put_deed<R: Files + AllocGlobal>(rt: &R, alloc: Global, words: &Words, out: &mut Answer) {
    let path = words.text(alloc, 2, out);
    let path = std::str::from_utf8(&path).unwrap_or("");
    match words.plain(1, out) {
        "read" => put_read(rt, path, out),
        deed => put_whether(is_done(rt, deed, path), out),
    }
}

/// Does what the words say.
pub fn put_outside<R: Files + AllocGlobal>(rt: &R, alloc: Global, words: &Words, out: &mut Answer) {
    match words.plain(1, out) {
        "link" => put_link(rt, alloc, words, out),
        _ => put_deed(rt, alloc, words, out),
    }
}
