// Trees, as they are written: a node by its kind and its parts, a leaf by its text, and the leaf at the end as END.
ghost use Rattle.std.specs.Prelude.{◌≡◌, ◌<◌, length};
ghost use Rattle.rw_base.specs.Arena.{end_of};

use crate::reads::{What, read};
use examples_base::{Answer, put_refused};
use java_reader::{JavaReader, kind_in};
use rw_base::{NodeId, Part, Tree};

/// Writes the text of a leaf.
pub fn put_leaf(text: &[u8], out: &mut Answer) {
    if text.is_empty() {
        out.put("END");
    } else {
        out.put_quoted(text);
    }
}

// Writes the name of a kind.
fn put_kind(number: u16, out: &mut Answer) {
    match kind_in(number) {
        Some(kind) => out.put_debug(&kind),
        None => out.refuse("kind"),
    }
}

// Writes a node: its kind, and its parts in brackets, where they are several.
fn put_node(tree: &Tree, bytes: &[u8], n: u32, out: &mut Answer)
    requires node { n < length tree.now.nodes }
    requires bytes { length bytes.now ≡ end_of tree.now }
{
    let parts = tree.parts(NodeId(n));
    let alone = parts.len() == 1;
    put_kind(tree.kind(NodeId(n)), out);
    out.put(if alone { " " } else { "(" });
    for (at, part) in parts.iter().enumerate() {
        out.put_between(at, ", ");
        match part {
            Part::Node(m) if m.0 < n => put_node(tree, bytes, m.0, out),
            Part::Leaf(i) if *i < tree.leaf_count() => put_leaf(tree.text(bytes, *i), out),
            _ => out.refuse("part"),
        }
    }
    out.put(if alone { "" } else { ")" });
}

// Writes a tree, or where it has more than 60 leaves, how many nodes and leaves it has.
fn put_tree(tree: &Tree, bytes: &[u8], out: &mut Answer)
    requires { length bytes.now ≡ end_of tree.now }
{
    if tree.leaf_count() <= 60 {
        put_node(tree, bytes, tree.root().0, out);
        return;
    }
    out.put_number(tree.node_count() as usize);
    out.put(" nodes over ");
    out.put_number(tree.leaf_count() as usize);
    out.put(" leaves");
}

/// Writes the tree of a text, or where and why it is refused.
pub fn put_read(reader: &JavaReader, what: What, text: &[u8], out: &mut Answer) {
    match read(reader, what, text) {
        Ok(tree) => put_tree(&tree, text, out),
        Err(fault) => put_refused(fault, out),
    }
}

/// Writes what comes of a text as a file, as a member and as an expression.
pub fn put_reads(reader: &JavaReader, text: &[u8], out: &mut Answer) {
    put_read(reader, What::File, text, out);
    out.put(" | ");
    put_read(reader, What::Member, text, out);
    out.put(" | ");
    put_read(reader, What::Expression, text, out);
}
