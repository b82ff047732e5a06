// Java files cut into leaves.
ghost use Rattle.std.specs.Prelude.{◌≤◌, length, IfSome, OnSome};
ghost use Rattle.java_lex.specs.Tiles.{AreTiles};

use crate::classes::class_name;
use examples_base::Answer;
use java_lex::{is_identifier, java_leaves, mark};
use rw_base::{Bad, Leaf, Leaves, MOST_BYTES};
use std::alloc::Global;

/// The leaves of a text, none where it is too large.
pub fn leaves_of(alloc: Global, text: &[u8], out: &mut Answer) -> Option<Leaves>
    ensures tiles { IfSome result (λ cut. AreTiles text.now cut.leaves.items cut.bad) }
    ensures small { OnSome result (length text.now ≤ MOST_BYTES) }
{
    if text.len() <= MOST_BYTES {
        if let Ok(cut) = java_leaves(alloc, text) {
            return Some(cut);
        }
    }
    out.refuse("leaves");
    None
}

/// The bytes between two places, none where they aren't there.
pub fn between(text: &[u8], from: u32, to: u32) -> &[u8] {
    text.get(from as usize..to as usize).unwrap_or(&[])
}

/// Writes a bad place, where there is one.
pub fn put_bad(bad: Option<Bad>, out: &mut Answer) {
    if let Some(Bad { byte, cause }) = bad {
        out.put(", bad at byte ");
        out.put_number(byte as usize);
        out.put(": ");
        out.put_debug(&cause);
    }
}

// Writes a leaf, by its class and its text.
fn put_leaf(text: &[u8], leaf: Leaf, out: &mut Answer) {
    out.put(class_name(leaf.class));
    if leaf.from < leaf.to {
        out.put(" ");
        out.put_quoted(between(text, leaf.from, leaf.to));
    }
}

// Writes leaves and the bad place.
fn put_cut(text: &[u8], cut: &Leaves, out: &mut Answer) {
    for (at, leaf) in cut.leaves.iter().enumerate() {
        out.put_between(at, " | ");
        put_leaf(text, *leaf, out);
    }
    put_bad(cut.bad, out);
}

/// Writes the leaves of a text.
pub fn put_leaves(alloc: Global, text: &[u8], out: &mut Answer) {
    if let Some(cut) = leaves_of(alloc, text, out) {
        put_cut(text, &cut, out);
    }
}

/// Writes the leaves of a text with their marks.
pub fn put_marked(alloc: Global, text: &[u8], out: &mut Answer) {
    let Some(mut cut) = leaves_of(alloc, text, out) else {
        return;
    };
    match mark(alloc, cut.leaves.as_mut_slice(), text) {
        Ok(()) => put_cut(text, &cut, out),
        Err(_) => out.refuse("marks"),
    }
}

/// Writes whether a text is one identifier leaf.
pub fn put_identifier(text: &[u8], out: &mut Answer) {
    out.put_bool(is_identifier(text));
}

// Writes the bytes at which a leaf and its prefix stand.
fn put_place(leaf: Leaf, out: &mut Answer) {
    out.put_number(leaf.prefix_from as usize);
    out.put(" ");
    out.put_number(leaf.from as usize);
    out.put(" ");
    out.put_number(leaf.to as usize);
    out.put(" ");
    out.put(class_name(leaf.class));
}

/// Writes the bytes at which the leaves of a text and their prefixes stand.
pub fn put_places(alloc: Global, text: &[u8], out: &mut Answer) {
    let Some(cut) = leaves_of(alloc, text, out) else {
        return;
    };
    for (at, leaf) in cut.leaves.iter().enumerate() {
        out.put_between(at, " | ");
        put_place(*leaf, out);
    }
    put_bad(cut.bad, out);
}

/// Writes the texts of a file's leaves with a blank between them, and a line end where one stands before a leaf.
pub fn put_spaced(alloc: Global, text: &[u8], out: &mut Answer) {
    let Some(cut) = leaves_of(alloc, text, out) else {
        return;
    };
    for (at, leaf) in cut.leaves.iter().enumerate() {
        let ends_line = between(text, leaf.prefix_from, leaf.from).contains(&b'\n');
        out.put_between(at, if ends_line { "\n    " } else { " " });
        out.put_lossy(alloc, between(text, leaf.from, leaf.to));
    }
    put_bad(cut.bad, out);
}
