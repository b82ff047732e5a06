// YAML files cut into leaves.
use crate::java::{between, put_bad};
use examples_base::Answer;
use rw_base::{Leaf, MOST_BYTES};
use std::alloc::Global;
use yaml_lex::class::*;
use yaml_lex::yaml_leaves;

const NAMES: [(u16, &str); 19] = [
    (END, "END"),
    (DOC, "DOC"),
    (DOCEND, "DOCEND"),
    (DASH, "DASH"),
    (KEY, "KEY"),
    (SCALAR, "SCALAR"),
    (COLON, "COLON"),
    (FSCALAR, "FSCALAR"),
    (BLOCK, "BLOCK"),
    (ANCHOR, "ANCHOR"),
    (ALIAS, "ALIAS"),
    (BRACKET_OPEN, "BRACKET_OPEN"),
    (BRACKET_CLOSE, "BRACKET_CLOSE"),
    (BRACE_OPEN, "BRACE_OPEN"),
    (BRACE_CLOSE, "BRACE_CLOSE"),
    (COMMA, "COMMA"),
    (OPENM, "OPENM"),
    (OPENS, "OPENS"),
    (CLOSE, "CLOSE"),
];

// The name of a class.
fn class_name(class: u16) -> &'static str {
    for (number, name) in &NAMES {
        if *number == class {
            return name;
        }
    }
    "no class"
}

// Writes a leaf, by its class and its text.
fn put_leaf(text: &[u8], leaf: Leaf, out: &mut Answer) {
    out.put(class_name(leaf.class));
    if leaf.from < leaf.to {
        out.put(" ");
        out.put_quoted(between(text, leaf.from, leaf.to));
    }
}

/// Writes the leaves of a text.
pub fn put_leaves(alloc: Global, text: &[u8], out: &mut Answer) {
    if text.len() > MOST_BYTES {
        out.refuse("YAML text of that size");
        return;
    }
    let Ok(cut) = yaml_leaves(alloc, text) else {
        out.refuse("memory");
        return;
    };
    for (at, leaf) in cut.leaves.iter().enumerate() {
        out.put_between(at, " | ");
        put_leaf(text, *leaf, out);
    }
    put_bad(cut.bad, out);
}
