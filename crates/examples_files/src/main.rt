//! Worked examples of files: properties files and what a recipe does to them, paths, stores and sinks. The program
//! reads cases and writes each with its answer, and the file `stdout` holds what it must write (see `examples_base`).
//!
//! `properties` and `recipes` read and rename keys, `stores` makes calls on a store of any kind, `makes` makes one,
//! `commits` and `recoveries` commit and recover batches over stores of `journals`, and the modules that begin with
//! `large` make calls with large inputs. What is proved of a call stands in its crate.
#![tactic(auto)]

mod commits;
mod journals;
mod large_commits;
mod large_properties;
mod large_stores;
mod makes;
mod outside;
mod properties;
mod recipes;
mod recoveries;
mod sinks;
mod stores;

use crate::makes::AnyStore;
use examples_base::{Answer, Lines, Stop, number_in, text_of, words_of};
use std::alloc::Global;
use std::io::{BufRead, BufReader};
use std::rt::Files;

// Writes the answer of a case with a large input, which is the name of a call and a number.
fn put_large_answer(alloc: Global, case: &str, out: &mut Answer) {
    let Some((call, count)) = case.split_once(' ') else {
        out.refuse("number behind a call");
        return;
    };
    let count = number_in(count, out);
    match call {
        "steady_store" => large_stores::put_steady(alloc, count, out),
        "memory_store" => large_stores::put_memory(alloc, count, out),
        "sink" => large_stores::put_sink(alloc, count, out),
        "path" => large_stores::put_path(alloc, count, out),
        "commit" => large_commits::put_commit(alloc, count, out),
        _ => large_properties::put_answer(alloc, call, count, out),
    }
}

// Writes the answer of a case that is a properties file, a key or a value.
fn put_text_answer(alloc: Global, heading: &str, text: &[u8], out: &mut Answer) {
    match heading {
        "properties leaves" => properties::put_leaves(alloc, text, out),
        "properties entries" => properties::put_entries(alloc, text, out),
        "entry prefixes" => properties::put_prefixes(alloc, text, out),
        "spelled keys" => properties::put_spelled_key(alloc, text, out),
        "spelled values" => properties::put_spelled_value(alloc, text, out),
        _ => out.refuse("heading"),
    }
}

// Writes the answer of a case in memory.
fn put_memory_answer(alloc: Global, lines: &Lines, case: &str, out: &mut Answer) {
    match lines.heading() {
        "large" => put_large_answer(alloc, case, out),
        "properties with a key" => properties::put_keys(alloc, &words_of(alloc, case, out), out),
        "renamed keys" => recipes::put_renamed(alloc, &words_of(alloc, case, out), out),
        "paths" => sinks::put_path(alloc, &words_of(alloc, case, out), out),
        "sinks" => sinks::put_pieces(alloc, &words_of(alloc, case, out), out),
        "commits" => {
            commits::put_commit(alloc, lines.givens(), &text_of(alloc, case, out), out);
        }
        "recoveries" => {
            recoveries::put_answer(alloc, lines.givens(), &words_of(alloc, case, out), out);
        }
        heading => put_text_answer(alloc, heading, &text_of(alloc, case, out), out),
    }
}

// Writes the answer of a case.
fn put_answer<R: Files + Print + AllocGlobal + Clone + Drop>(
    rt: &R,
    alloc: Global,
    store: &mut Option<AnyStore<R>>,
    lines: &Lines,
    case: &str,
    out: &mut Answer,
) {
    match lines.heading() {
        "stores" => makes::put_answer(rt, alloc, store, &words_of(alloc, case, out), out),
        "standard output" => sinks::put_piece(rt, &text_of(alloc, case, out), out),
        _ => put_memory_answer(alloc, lines, case, out),
    }
}

fn main(rt: HostRuntime) -> Result<(), Stop> {
    let alloc = rt.alloc();
    let mut lines = Lines::new(alloc);
    let mut store = None;
    for line in BufReader::new(alloc, rt.reader())?.lines(alloc) {
        let line = line?;
        let mut out = Answer::new(alloc);
        if lines.read(alloc, line.as_str(), &mut out) {
            put_answer(&rt, alloc, &mut store, &lines, line.as_str(), &mut out);
        }
        out.print(&rt)?;
    }
    Ok(())
}
