//! Worked examples of YAML: what files are read into or why they are refused, the entries of their mappings, what their
//! scalars say, texts spelled as scalars, key paths, and what they find. The program reads cases and writes each with
//! its answer, and the file `stdout` holds what it must write (see `examples_base`).
//!
//! `trees` writes what a file is read into, `texts` what its scalars say, and `paths` key paths and what they find.
//! What is proved of a call stands in `yaml_tree` and `yaml_texts`.
#![tactic(auto)]

mod paths;
mod texts;
mod trees;

use examples_base::{Answer, Lines, Stop, text_of, words_of};
use std::alloc::Global;
use std::io::{BufRead, BufReader};
use yaml_tree::YamlReader;

// Writes the answer of a case that is a text.
fn put_text_answer(
    alloc: Global,
    reader: &YamlReader,
    heading: &str,
    text: &[u8],
    out: &mut Answer,
) {
    match heading {
        "files" => trees::put_read(alloc, reader, text, out),
        "entries" => texts::put_entries(alloc, reader, text, out),
        "scalars" => texts::put_scalars(alloc, reader, text, out),
        "spelled" => texts::put_spelled(alloc, text, out),
        "key paths" => paths::put_path(alloc, text, out),
        _ => out.refuse("heading"),
    }
}

// Writes the answer of a case.
fn put_answer(alloc: Global, reader: &YamlReader, heading: &str, case: &str, out: &mut Answer) {
    match heading {
        "found" => {
            let words = words_of(alloc, case, out);
            let text = words.text(alloc, 1, out);
            paths::put_found(alloc, reader, words.quoted(0, out), &text, out);
        }
        _ => put_text_answer(alloc, reader, heading, &text_of(alloc, case, out), out),
    }
}

fn main(rt: HostRuntime) -> Result<(), Stop> {
    let alloc = rt.alloc();
    let Ok(reader) = YamlReader::new(alloc) else {
        return Err(Stop::Refused);
    };
    let mut lines = Lines::new(alloc);
    for line in BufReader::new(alloc, rt.reader())?.lines(alloc) {
        let line = line?;
        let mut out = Answer::new(alloc);
        if lines.read(alloc, line.as_str(), &mut out) {
            put_answer(alloc, &reader, lines.heading(), line.as_str(), &mut out);
        }
        out.print(&rt)?;
    }
    Ok(())
}
