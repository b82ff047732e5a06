// What entries and scalars say, and texts spelled as scalars.
ghost use Rattle.std.specs.Prelude.{◌≡◌, ◌<◌, length};
ghost use Rattle.rw_base.specs.Arena.{end_of};

use crate::trees::put_kind;
use examples_base::{Answer, put_refused};
use rw_base::{NodeId, Tree};
use std::alloc::Global;
use yaml_lex::class::{BLOCK, FSCALAR, KEY, SCALAR};
use yaml_texts::spell_yaml;
use yaml_tree::{EntryView, YamlReader, entries, scalar};

// Writes a text, or that there is none.
fn put_option(text: Option<Vec<u8>>, out: &mut Answer) {
    match text {
        Some(text) => out.put_quoted(&text),
        None => out.put("nothing"),
    }
}

// Writes what a leaf says.
fn put_scalar(alloc: Global, tree: &Tree, bytes: &[u8], leaf: u32, out: &mut Answer)
    requires leaf { leaf < length tree.now.leaves }
    requires bytes { length bytes.now ≡ end_of tree.now }
{
    match scalar(alloc, tree, bytes, leaf) {
        Ok(text) => put_option(text, out),
        Err(_) => out.refuse("memory"),
    }
}

// Writes the kind of an entry's value, if it has one.
fn put_value(tree: &Tree, value: Option<NodeId>, out: &mut Answer) {
    match value {
        Some(n) if n.0 < tree.node_count() => put_kind(tree.kind(n), out),
        Some(_) => out.refuse("node"),
        None => out.put("no value"),
    }
}

// Writes an entry: what its key says, the kind of its value, and whether it is of a flow mapping.
fn put_entry(alloc: Global, tree: &Tree, bytes: &[u8], entry: &EntryView, out: &mut Answer)
    requires { length bytes.now ≡ end_of tree.now }
{
    if entry.key_leaf < tree.leaf_count() {
        put_scalar(alloc, tree, bytes, entry.key_leaf, out);
    } else {
        out.refuse("leaf");
    }
    out.put(if entry.flow { " in flow: " } else { ": " });
    put_value(tree, entry.value, out);
}

/// Writes the entries of a text's mappings.
pub fn put_entries(alloc: Global, reader: &YamlReader, text: &[u8], out: &mut Answer) {
    let tree = match reader.read(alloc, text) {
        Ok(tree) => tree,
        Err(fault) => return put_refused(fault, out),
    };
    let Ok(all) = entries(alloc, &tree) else {
        return out.refuse("memory");
    };
    for (at, entry) in all.iter().enumerate() {
        out.put_between(at, " | ");
        put_entry(alloc, &tree, text, entry, out);
    }
}

fn is_scalar(class: u16) -> bool {
    class == KEY || class == SCALAR || class == FSCALAR || class == BLOCK
}

/// Writes what the scalars of a text say.
pub fn put_scalars(alloc: Global, reader: &YamlReader, text: &[u8], out: &mut Answer) {
    let tree = match reader.read(alloc, text) {
        Ok(tree) => tree,
        Err(fault) => return put_refused(fault, out),
    };
    let mut written = 0;
    for leaf in 0..tree.leaf_count() {
        if is_scalar(tree.leaf(leaf).class) {
            out.put_between(written, " | ");
            put_scalar(alloc, &tree, text, leaf, out);
            written = 1;
        }
    }
}

/// Writes a text as it is spelled.
pub fn put_spelled(alloc: Global, text: &[u8], out: &mut Answer) {
    match spell_yaml(alloc, text) {
        Ok(spelled) => put_option(spelled, out),
        Err(_) => out.refuse("memory"),
    }
}
