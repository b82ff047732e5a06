//! Worked examples of recipe files and plans: the recipes that a file defines or its first fault, and the plan of a
//! recipe or the first fault on the way. The program reads cases and writes each with its answer, and the file `stdout`
//! holds what it must write (see `examples_base`).
//!
//! `books` writes what a file defines, and `plans` what a run of a recipe does. What is proved of a call stands in
//! `recipe_yaml`.
#![tactic(auto)]

mod books;
mod plans;

use examples_base::{Answer, Lines, Stop, text_of, words_of};
use kept_files::Readers;
use std::alloc::Global;
use std::io::{BufRead, BufReader};

// Writes the answer of a case.
fn put_answer(alloc: Global, readers: &Readers, heading: &str, case: &str, out: &mut Answer) {
    match heading {
        "recipe files" => books::put_book(alloc, readers, &text_of(alloc, case, out), out),
        "plans" => {
            let words = words_of(alloc, case, out);
            let text = words.text(alloc, 1, out);
            plans::put_plan(alloc, readers, words.quoted(0, out), &text, out);
        }
        _ => out.refuse("heading"),
    }
}

fn main(rt: HostRuntime) -> Result<(), Stop> {
    let alloc = rt.alloc();
    let Ok(readers) = Readers::new(alloc) else {
        return Err(Stop::Refused);
    };
    let mut lines = Lines::new(alloc);
    for line in BufReader::new(alloc, rt.reader())?.lines(alloc) {
        let line = line?;
        let mut out = Answer::new(alloc);
        if lines.read(alloc, line.as_str(), &mut out) {
            put_answer(alloc, &readers, lines.heading(), line.as_str(), &mut out);
        }
        out.print(&rt)?;
    }
    Ok(())
}
