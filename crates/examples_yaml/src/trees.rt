// Trees, as they are written: a node by its kind and its parts, and a leaf by its text, or by its class where it has
// none.
ghost use Rattle.std.specs.Prelude.{◌≡◌, ◌<◌, length};
ghost use Rattle.rw_base.specs.Arena.{end_of};

use examples_base::{Answer, put_refused};
use rw_base::{NodeId, Part, Tree};
use std::alloc::Global;
use yaml_lex::class::{CLOSE, END, OPENM, OPENS};
use yaml_tree::YamlReader;

// The kinds of nodes, by their numbers.
const KINDS: [&str; 12] = [
    "Stream", "DocPart", "Node", "Content", "Map", "Entry", "Seq", "Item", "Flow", "FItem",
    "FNode", "FContent",
];

/// Writes the name of a kind.
pub fn put_kind(number: u16, out: &mut Answer) {
    match KINDS.get(number as usize) {
        Some(kind) => out.put(kind),
        None => out.refuse("kind"),
    }
}

// Writes a leaf of this class.
fn put_leaf(class: u16, text: &[u8], out: &mut Answer) {
    if class == OPENM {
        out.put("OPENM");
    } else if class == OPENS {
        out.put("OPENS");
    } else if class == CLOSE {
        out.put("CLOSE");
    } else if class == END {
        out.put("END");
    } else {
        out.put_quoted(text);
    }
}

// Writes a node: its kind, and its parts in brackets, where they are several.
fn put_node(tree: &Tree, bytes: &[u8], n: u32, out: &mut Answer)
    requires node { n < length tree.now.nodes }
    requires bytes { length bytes.now ≡ end_of tree.now }
{
    let parts = tree.parts(NodeId(n));
    let alone = parts.len() == 1;
    put_kind(tree.kind(NodeId(n)), out);
    out.put(if alone { " " } else { "(" });
    for (at, part) in parts.iter().enumerate() {
        out.put_between(at, ", ");
        match part {
            Part::Node(m) if m.0 < n => put_node(tree, bytes, m.0, out),
            Part::Leaf(i) if *i < tree.leaf_count() => {
                put_leaf(tree.leaf(*i).class, tree.text(bytes, *i), out);
            }
            _ => out.refuse("part"),
        }
    }
    out.put(if alone { "" } else { ")" });
}

// Writes a tree, or where it has more than 80 leaves, how many nodes and leaves it has.
fn put_tree(tree: &Tree, bytes: &[u8], out: &mut Answer)
    requires { length bytes.now ≡ end_of tree.now }
{
    if tree.leaf_count() <= 80 {
        put_node(tree, bytes, tree.root().0, out);
        return;
    }
    out.put_number(tree.node_count() as usize);
    out.put(" nodes over ");
    out.put_number(tree.leaf_count() as usize);
    out.put(" leaves");
}

/// Writes the tree of a text, or where and why it is refused.
pub fn put_read(alloc: Global, reader: &YamlReader, text: &[u8], out: &mut Answer) {
    match reader.read(alloc, text) {
        Ok(tree) => put_tree(&tree, text, out),
        Err(fault) => put_refused(fault, out),
    }
}
