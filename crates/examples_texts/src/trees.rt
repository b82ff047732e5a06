// The trees that rules derive from the leaves of Java texts.
ghost use Rattle.std.specs.Prelude.{◌≡◌, ◌<◌, ◌≤◌, length, IfSome};
ghost use Rattle.rw_base.specs.Arena.{end_of};

use crate::java::leaves_of;
use crate::rules::codes_in;
use crate::tables::table_of;
use examples_base::{Answer, put_refused};
use rw_base::{NodeId, Part, ReadFault, Tree};
use rw_grammar::{DeriveFault, Table, derive, read_by};
use std::alloc::Global;

/// The byte at which the leaves of a tree end.
pub fn end_byte(tree: &Tree) -> usize
    ensures { result ≡ end_of tree.now }
{
    let last = tree.leaf_count() - 1;
    tree.leaf(last).from as usize
}

// Writes a node: its rule, and its parts in brackets.
fn put_node(tree: &Tree, bytes: &[u8], n: u32, out: &mut Answer)
    requires node { n < length tree.now.nodes }
    requires bytes { length bytes.now ≡ end_of tree.now }
{
    out.put("R");
    out.put_number(tree.kind(NodeId(n)) as usize);
    out.put("[");
    for (at, part) in tree.parts(NodeId(n)).iter().enumerate() {
        out.put_between(at, " ");
        match part {
            Part::Node(m) if m.0 < n => put_node(tree, bytes, m.0, out),
            Part::Leaf(i) if *i < tree.leaf_count() => out.put_quoted(tree.text(bytes, *i)),
            _ => out.refuse("part"),
        }
    }
    out.put("]");
}

// Writes a tree: how many nodes and leaves it has, and where there are few, its nodes.
fn put_tree(tree: &Tree, bytes: &[u8], out: &mut Answer) {
    out.put_number(tree.node_count() as usize);
    out.put(" nodes over ");
    out.put_number(tree.leaf_count() as usize);
    out.put(" leaves");
    if tree.node_count() > 20 {
        return;
    }
    out.put(": ");
    if end_byte(tree) == bytes.len() {
        put_node(tree, bytes, tree.root().0, out);
    } else {
        out.refuse("leaf at the end");
    }
}

// Writes the tree that rule 0 of a table derives from a text's leaves, or why there is none.
fn put_derived_by(alloc: Global, table: &Table, text: &[u8], out: &mut Answer)
    requires { 0 < length table.now }
{
    let Some(cut) = leaves_of(alloc, text, out) else {
        return;
    };
    match derive(alloc, table, 0, cut.leaves) {
        Ok(tree) => put_tree(&tree, text, out),
        Err(DeriveFault::Stop { leaf }) => {
            out.put("Stop ");
            out.put_number(leaf as usize);
        }
        Err(DeriveFault::TooDeep { leaf }) => {
            out.put("TooDeep ");
            out.put_number(leaf as usize);
        }
        Err(DeriveFault::NoMemory) => out.refuse("memory"),
    }
}

/// Writes the tree that rule 0 derives from a text's leaves, or why there is none.
pub fn put_derived(alloc: Global, rules: &[String], text: &[u8], out: &mut Answer) {
    let codes = codes_in(alloc, rules, out);
    if let Some(table) = table_of(alloc, &codes, out) {
        put_derived_by(alloc, &table, text, out);
    }
}

// What comes of a text by a table: its tree, or why it is refused.
fn read(
    alloc: Global,
    table: &Table,
    text: &[u8],
    out: &mut Answer,
) -> Option<Result<Tree, ReadFault>>
    requires { 0 < length table.now }
{
    match leaves_of(alloc, text, out) {
        Some(cut) => Some(read_by(alloc, table, 0, text, cut)),
        None => None,
    }
}

/// Writes the tree of a text, or where and why it is refused.
pub fn put_read(alloc: Global, rules: &[String], text: &[u8], out: &mut Answer) {
    let codes = codes_in(alloc, rules, out);
    let Some(table) = table_of(alloc, &codes, out) else {
        return;
    };
    match read(alloc, &table, text, out) {
        Some(Ok(tree)) => put_tree(&tree, text, out),
        Some(Err(fault)) => put_refused(fault, out),
        None => {}
    }
}

/// The tree of a text, which ends with the text, by the rules that codes spell.
pub fn tree_of(alloc: Global, codes: &[u16], text: &[u8], out: &mut Answer) -> Option<Tree>
    ensures { IfSome result (λ tree. length text.now ≡ end_of tree) }
{
    let table = table_of(alloc, codes, out)?;
    if let Some(Ok(tree)) = read(alloc, &table, text, out) {
        if end_byte(&tree) == text.len() {
            return Some(tree);
        }
    }
    out.refuse("tree");
    None
}
