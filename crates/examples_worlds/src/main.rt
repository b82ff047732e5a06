//! Worked examples of worlds of classes: what a world answers that is built of files, of stubs and of a prelude, all of
//! them Java texts. The program reads cases and writes each with its answer, and the file `stdout` holds what it must
//! write (see `examples_base`).
//!
//! `givens` reads the files of a world with `reads` and builds it, `looks` puts the questions, `sums` counts answers of
//! large worlds, and `types` writes types. What is proved of a call stands in `class_world`.
#![tactic(auto)]

mod givens;
mod looks;
mod reads;
mod sums;
mod types;

use class_world::World;
use examples_base::{Answer, Lines, Stop};
use java_reader::JavaReader;
use std::alloc::Global;
use std::io::{BufRead, BufReader};

// Writes the answer of a case in a world.
fn put_in_world(alloc: Global, world: &World, heading: &str, case: &str, out: &mut Answer) {
    match heading {
        "worlds" => looks::put_look(alloc, world, case, out),
        "sums" => sums::put_sums(alloc, world, case, out),
        _ => out.refuse("heading"),
    }
}

// Writes the answer of a case.
fn put_answer(alloc: Global, reader: &JavaReader, lines: &Lines, case: &str, out: &mut Answer) {
    if let Some(world) = givens::world_in(alloc, reader, lines.givens(), out) {
        put_in_world(alloc, &world, lines.heading(), case, out);
    }
}

fn main(rt: HostRuntime) -> Result<(), Stop> {
    let alloc = rt.alloc();
    let Ok(reader) = JavaReader::new(alloc) else {
        return Err(Stop::Refused);
    };
    let mut lines = Lines::new(alloc);
    for line in BufReader::new(alloc, rt.reader())?.lines(alloc) {
        let line = line?;
        let mut out = Answer::new(alloc);
        if lines.read(alloc, line.as_str(), &mut out) {
            put_answer(alloc, &reader, &lines, line.as_str(), &mut out);
        }
        out.print(&rt)?;
    }
    Ok(())
}
