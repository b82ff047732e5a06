//! Worked examples of texts and trees: Java and YAML files cut into leaves, places, tables of rules and what they
//! derive, and the new texts of trees with edits. The program reads cases and writes each with its answer, and the file
//! `stdout` holds what it must write (see `examples_base`).
//!
//! `rules` reads and writes rules, `trees` reads texts by them, and `large` makes calls with large inputs. What is
//! proved of a call stands in its crate.
#![tactic(auto)]

mod classes;
mod codes;
mod edits;
mod java;
mod large;
mod places;
mod rules;
mod tables;
mod trees;
mod yaml;

use examples_base::{Answer, Lines, Stop, text_of};
use std::alloc::Global;
use std::fs;
use std::io::{BufRead, BufReader};
use std::rt::Files;

// Writes the answer of a case on a file.
fn put_file<R: Files + AllocGlobal>(rt: &R, alloc: Global, path: &str, out: &mut Answer) {
    match fs::read(rt, path) {
        Ok(text) => java::put_spaced(alloc, &text, out),
        Err(_) => out.refuse("file"),
    }
}

// Writes the answer of a case on a Java text.
fn put_java_answer(alloc: Global, heading: &str, text: &[u8], out: &mut Answer) {
    match heading {
        "java leaves" => java::put_leaves(alloc, text, out),
        "java marks" => java::put_marked(alloc, text, out),
        "java places" => java::put_places(alloc, text, out),
        "identifiers" => java::put_identifier(text, out),
        _ => out.refuse("heading"),
    }
}

// Writes the answer of a case that is a text.
fn put_text_answer(alloc: Global, lines: &Lines, text: &[u8], out: &mut Answer) {
    match lines.heading() {
        "places" => places::put_places(text, out),
        "places from others" => places::put_places_behind(text, out),
        "yaml leaves" => yaml::put_leaves(alloc, text, out),
        "texts" => places::put_text(alloc, text, out),
        "derivations" => trees::put_derived(alloc, lines.givens(), text, out),
        "readings" => trees::put_read(alloc, lines.givens(), text, out),
        heading => put_java_answer(alloc, heading, text, out),
    }
}

// Writes the answer of a case.
fn put_answer<R: Files + AllocGlobal>(
    rt: &R,
    alloc: Global,
    lines: &Lines,
    case: &str,
    out: &mut Answer,
) {
    match lines.heading() {
        "java file" => put_file(rt, alloc, case, out),
        "tables" => tables::put_fault(alloc, case, out),
        "codes" => codes::put_spelled(alloc, case, out),
        "prints" => edits::put_print(alloc, lines.givens(), out),
        "new texts" => edits::put_new_text(alloc, lines.givens(), case, out),
        "large" => large::put_answer(alloc, case, out),
        _ => put_text_answer(alloc, lines, &text_of(alloc, case, out), out),
    }
}

fn main(rt: HostRuntime) -> Result<(), Stop> {
    let alloc = rt.alloc();
    let mut lines = Lines::new(alloc);
    for line in BufReader::new(alloc, rt.reader())?.lines(alloc) {
        let line = line?;
        let mut out = Answer::new(alloc);
        if lines.read(alloc, line.as_str(), &mut out) {
            put_answer(&rt, alloc, &lines, line.as_str(), &mut out);
        }
        out.print(&rt)?;
    }
    Ok(())
}
