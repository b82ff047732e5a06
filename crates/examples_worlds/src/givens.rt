// The files of a world, as people write them: `file "JAVA TEXT"`, `stub "JAVA TEXT"` and `prelude "JAVA TEXT"`; in a
// text a number repeats the piece before it, and `row FIRST COUNT` is a file with classes `r.NFIRST`, and so many in
// all, each of which extends the next.
use crate::reads::declared_in;
use class_world::World;
use declared_types::Skeleton;
use examples_base::{Answer, text_of, words_of};
use java_reader::JavaReader;
use jtypes::Names;
use std::alloc::Global;
use std::fmt::Write;
use std::string::String;

/// The files, stubs and prelude of a world.
#[derive(Drop)]
struct Sources {
    files: Vec<Skeleton>,
    stubs: Vec<Skeleton>,
    prelude: Skeleton,
}

// The text of a file with a row of classes.
fn row_text(alloc: Global, first: u32, count: u32, out: &mut Answer) -> String {
    let mut text = String::new(alloc);
    if write!(text, "package r; ").is_err() {
        out.refuse("memory");
    }
    for step in 0..count {
        let at = first.saturating_add(step);
        let next = at.saturating_add(1);
        if write!(
            text,
            "class N{at} extends N{next} {{ int f{at}; void m{at}(N{at} n) {{ }} }} "
        )
        .is_err()
        {
            out.refuse("memory");
        }
    }
    text
}

// Adds what a file declares.
fn add(skeletons: &mut Vec<Skeleton>, skeleton: Skeleton, out: &mut Answer) {
    if skeletons.push(skeleton).is_err() {
        out.refuse("memory");
    }
}

// Adds a file with a row of classes.
fn add_row(
    alloc: Global,
    reader: &JavaReader,
    names: &mut Names,
    behind: &str,
    sources: &mut Sources,
    out: &mut Answer,
) {
    let words = words_of(alloc, behind, out);
    let text = row_text(alloc, words.number(0, out), words.number(1, out), out);
    let skeleton = declared_in(alloc, reader, names, text.as_bytes(), out);
    add(&mut sources.files, skeleton, out);
}

// Adds what a line gives.
fn add_given(
    alloc: Global,
    reader: &JavaReader,
    names: &mut Names,
    given: &str,
    sources: &mut Sources,
    out: &mut Answer,
) {
    let (kind, behind) = given.split_once(' ').unwrap_or((given, ""));
    if kind == "row" {
        add_row(alloc, reader, names, behind, sources, out);
        return;
    }
    let text = text_of(alloc, behind, out);
    let skeleton = declared_in(alloc, reader, names, &text, out);
    match kind {
        "file" => add(&mut sources.files, skeleton, out),
        "stub" => add(&mut sources.stubs, skeleton, out),
        "prelude" => sources.prelude = skeleton,
        _ => out.refuse("given"),
    }
}

/// The world of these lines.
pub fn world_in(
    alloc: Global,
    reader: &JavaReader,
    givens: &[String],
    out: &mut Answer,
) -> Option<World> {
    let mut names = Names::new(alloc);
    let mut sources = Sources {
        files: Vec::new(alloc),
        stubs: Vec::new(alloc),
        prelude: Skeleton::empty(),
    };
    for given in givens {
        add_given(alloc, reader, &mut names, given.as_str(), &mut sources, out);
    }
    match World::build(
        alloc,
        sources.files.as_slice(),
        sources.stubs.as_slice(),
        &sources.prelude,
    ) {
        Ok(world) => Some(world),
        Err(_) => {
            out.refuse("memory");
            None
        }
    }
}
