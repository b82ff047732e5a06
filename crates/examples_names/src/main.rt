//! Worked examples of what a name in a Java file means: each answer is the meaning and, behind ` asks `, the questions
//! that it put to a world of classes. The program reads cases and writes each with its answer, and the file `stdout`
//! holds what it must write (see `examples_base`).
//!
//! `places` reads where a name stands, with the scopes of `bodies` and the classes of `world`; `types` and `symbols`
//! read and write types and meanings. The cases are put by `simple` (simple names), `dots` (names behind a dot) and
//! `calls`. What is proved of a call stands in its crate.
#![tactic(auto)]

mod bodies;
mod calls;
mod dots;
mod places;
mod simple;
mod symbols;
mod types;
mod world;

use crate::places::{Place, place_in};
use examples_base::{Answer, Lines, Stop};
use std::alloc::Global;
use std::io::{BufRead, BufReader};

// Writes the answer of a case at a place.
fn put_placed(alloc: Global, place: &Place, heading: &str, case: &str, out: &mut Answer) {
    match heading {
        "types" => simple::put_type_named(alloc, place, case, out),
        "variables" => simple::put_variable(alloc, place, case, out),
        "names in expressions" => simple::put_name_meant(alloc, place, case, out),
        "without questions" => simple::put_unasked(alloc, place, case, out),
        "behind a package" => dots::put_behind_package(alloc, place, case, out),
        "behind a type" => dots::put_behind_type(alloc, place, case, out),
        "behind an expression" => dots::put_field_behind(alloc, place, case, out),
        "behind in a type position" => dots::put_type_behind(alloc, place, case, out),
        "calls" => calls::put_called_name(alloc, place, case, out),
        "methods behind" => calls::put_methods_behind(alloc, place, case, out),
        "candidates" => calls::put_candidates(alloc, place, case, out),
        "constructors" => calls::put_constructors(alloc, place, case, out),
        "superclass" => calls::put_superclass(alloc, place, case, out),
        "super of" => calls::put_super(alloc, place, case, out),
        _ => out.refuse("heading"),
    }
}

// Writes the answer of a case.
fn put_answer(alloc: Global, lines: &Lines, case: &str, out: &mut Answer) {
    if let Some(place) = place_in(alloc, lines.givens(), out) {
        put_placed(alloc, &place, lines.heading(), case, out);
    }
}

fn main(rt: HostRuntime) -> Result<(), Stop> {
    let alloc = rt.alloc();
    let mut lines = Lines::new(alloc);
    for line in BufReader::new(alloc, rt.reader())?.lines(alloc) {
        let line = line?;
        let mut out = Answer::new(alloc);
        if lines.read(alloc, line.as_str(), &mut out) {
            put_answer(alloc, &lines, line.as_str(), &mut out);
        }
        out.print(&rt)?;
    }
    Ok(())
}
