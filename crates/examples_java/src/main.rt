//! Worked examples of reading Java: what files, members and expressions are read into or why they are refused, the
//! units of files, their calls, the types that they declare, stubs, and the prelude. The program reads cases and writes
//! each with its answer, and the file `stdout` holds what it must write (see `examples_base`).
//!
//! `reads` calls the reader, `trees` writes what it gives, `units` what is in a file, and `declared` the types that it
//! declares, with `written` for what these consist of; `stubs` calls what reads stubs and the prelude. What is proved
//! of a call stands in `java_reader` and `class_table`.
#![tactic(auto)]

mod declared;
mod reads;
mod stubs;
mod trees;
mod units;
mod written;

use crate::reads::What;
use examples_base::{Answer, Lines, Stop, text_of};
use java_reader::JavaReader;
use std::alloc::Global;
use std::fs;
use std::io::{BufRead, BufReader};
use std::rt::Files;

// Writes the answer of a case on a file.
fn put_file<R: Files + AllocGlobal>(rt: &R, reader: &JavaReader, path: &str, out: &mut Answer) {
    match fs::read(rt, path) {
        Ok(text) => units::put_file(rt.alloc(), reader, &text, out),
        Err(_) => out.refuse("file"),
    }
}

// Writes the answer of a case that is a text.
fn put_text_answer(
    alloc: Global,
    reader: &JavaReader,
    heading: &str,
    text: &[u8],
    out: &mut Answer,
) {
    match heading {
        "files" => trees::put_read(reader, What::File, text, out),
        "members" => trees::put_read(reader, What::Member, text, out),
        "expressions" => trees::put_read(reader, What::Expression, text, out),
        "files, members, expressions" => trees::put_reads(reader, text, out),
        "units" => units::put_units(alloc, reader, text, out),
        "calls" => units::put_calls(alloc, reader, text, out),
        "declared types" => declared::put_declared(alloc, reader, text, out),
        "stubs" => stubs::put_stub(alloc, reader, text, out),
        _ => out.refuse("heading"),
    }
}

// Writes the answer of a case.
fn put_answer<R: Files + AllocGlobal>(
    rt: &R,
    reader: &JavaReader,
    heading: &str,
    case: &str,
    out: &mut Answer,
) {
    let alloc = rt.alloc();
    match heading {
        "units and calls of files" => put_file(rt, reader, case, out),
        "prelude" => stubs::put_prelude(alloc, reader, case, out),
        _ => put_text_answer(alloc, reader, heading, &text_of(alloc, case, out), out),
    }
}

fn main(rt: HostRuntime) -> Result<(), Stop> {
    let alloc = rt.alloc();
    let Ok(reader) = JavaReader::new(alloc) else {
        return Err(Stop::Refused);
    };
    let mut lines = Lines::new(alloc);
    for line in BufReader::new(alloc, rt.reader())?.lines(alloc) {
        let line = line?;
        let mut out = Answer::new(alloc);
        if lines.read(alloc, line.as_str(), &mut out) {
            put_answer(&rt, &reader, lines.heading(), line.as_str(), &mut out);
        }
        out.print(&rt)?;
    }
    Ok(())
}
