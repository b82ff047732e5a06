// Paths and sinks.
use examples_base::{Answer, Words};
use rw_host::{Failed, MemorySink, PathText, Sink, StdSink};
use std::alloc::Global;

/// Writes whether a text is a path.
pub fn put_path(alloc: Global, words: &Words, out: &mut Answer) {
    let text = std::str::from_utf8(words.quoted(0, out)).unwrap_or("");
    match PathText::new(alloc, text) {
        Ok(Some(path)) => {
            out.put("path ");
            out.put_quoted(path.as_str().as_bytes());
        }
        Ok(None) => out.put("none"),
        Err(_) => out.refuse("memory"),
    }
}

/// Writes what a call answers that gives nothing.
pub fn put_done(done: Result<(), Failed>, out: &mut Answer) {
    match done {
        Ok(()) => out.put("done"),
        Err(fault) => out.put_debug(&fault),
    }
}

/// Puts the pieces of a case into a sink with room for as many bytes as its first word says, and writes what it answers
/// to each, and its bytes.
pub fn put_pieces(alloc: Global, words: &Words, out: &mut Answer) {
    let Ok(mut sink) = MemorySink::with_room(alloc, words.number(0, out)) else {
        out.refuse("memory");
        return;
    };
    for at in 1..words.count() {
        put_done(sink.put(words.quoted(at, out)), out);
        out.put(", ");
    }
    out.put_quoted(sink.bytes());
}

/// Puts the text of a case into the standard output.
pub fn put_piece<R: Print + Clone + Drop>(rt: &R, text: &[u8], out: &mut Answer) {
    match rt.clone() {
        Ok(rt) => {
            let mut sink = StdSink::new(rt);
            put_done(sink.put(text), out);
        }
        Err(_) => out.refuse("memory"),
    }
}
