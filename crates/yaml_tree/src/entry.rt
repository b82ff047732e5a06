// The entries of mappings.
ghost use Rattle.std.specs.Prelude.{◌≡◌, ◌+◌, ◌<◌, ◌++◌, false, length, IfOk, OnOk, IfSome, IfNone, None};
ghost use Rattle.std.specs.Option.{option_to_list};
ghost use Rattle.rw_base.specs.Arena.{kind_of};
ghost use Rattle.rw_base.specs.Trees.{node};
ghost use Rattle.rw_base.specs.Laid.{kids_of};
ghost use Rattle.rw_grammar.specs.Results.{class_in};
ghost use Rattle.yaml_tree.specs.Entries.{behind, leaf_first, node_first, has_class, of_class, is_flow_mapping};
ghost use Rattle.yaml_tree.specs.Entries.{lone_scalar, key_in, own_entry, entries_in, node_entries, entries_of};

use crate::kind::Kind;
use rw_base::{Mem, NodeId, Part, Tree};
use std::alloc::Global;
use yaml_lex::class::{BRACE_OPEN, FSCALAR};

const ENTRY: u16 = Kind::Entry as u16;

pub(crate) const FLOW: u16 = Kind::Flow as u16;

const FITEM: u16 = Kind::FItem as u16;

const FCONTENT: u16 = Kind::FContent as u16;

/// An entry of a mapping: its node, the leaf of its key, the node of its value if it has one, and whether it stands in
/// a flow mapping.
#[derive(Clone, Copy, Debug, PartialEq, Eq)]
pub struct EntryView {
    pub node: NodeId,
    pub key_leaf: u32,
    pub value: Option<NodeId>,
    pub flow: bool,
}

// The part of a node at a position, if it is a leaf.
pub(crate) fn leaf_part(tree: &Tree, n: NodeId, k: usize) -> Option<u32>
    requires { n.0 < length tree.now.nodes }
    ensures leaf { result ≡ leaf_first (behind k (kids_of tree.now.nodes n.0)) }
    ensures inside { IfSome result (λ i. i < length tree.now.leaves) }
{
    let parts = tree.parts(n);
    if k >= parts.len() {
        return None;
    }
    match parts[k] {
        Part::Leaf(i) => Some(i),
        Part::Node(_) => None,
    }
}

// The part of a node at a position, if it is a node.
pub(crate) fn node_part(tree: &Tree, n: NodeId, k: usize) -> Option<NodeId>
    requires { n.0 < length tree.now.nodes }
    ensures node { result ≡ node_first (behind k (kids_of tree.now.nodes n.0)) }
    ensures below { IfSome result (λ m. m.0 < n.0) }
    ensures trees { let nodes = tree.now.nodes in let kids = kids_of nodes n.0 in IfSome result (λ m.
        behind k kids ≡ node m.0 (kind_of nodes m.0) (kids_of nodes m.0) (behind (k + 1) kids)) }
{
    let parts = tree.parts(n);
    if k >= parts.len() {
        return None;
    }
    match parts[k] {
        Part::Leaf(_) => None,
        Part::Node(m) => Some(m),
    }
}

/// Whether a node is a flow mapping.
pub fn is_flow_mapping(tree: &Tree, n: NodeId) -> bool
    requires { n.0 < length tree.now.nodes }
    ensures { let nodes = tree.now.nodes in
        result ≡ is_flow_mapping (class_in tree.now.leaves) (kind_of nodes n.0) (kids_of nodes n.0) }
{
    if tree.kind(n) != FLOW {
        return false;
    }
    match leaf_part(tree, n, 0) {
        None => false,
        Some(i) => tree.leaf(i).class == BRACE_OPEN,
    }
}

// The first part of a node, if it is a scalar in flow context.
fn scalar_part(tree: &Tree, n: NodeId) -> Option<u32>
    requires { n.0 < length tree.now.nodes }
    ensures scalar { result ≡ of_class (class_in tree.now.leaves) FSCALAR (leaf_first (kids_of tree.now.nodes n.0)) }
    ensures inside { IfSome result (λ i. i < length tree.now.leaves) }
{
    match leaf_part(tree, n, 0) {
        None => None,
        Some(i) => {
            if tree.leaf(i).class == FSCALAR {
                Some(i)
            } else {
                None
            }
        }
    }
}

// The key of an item of a flow mapping: its first part, where that is a scalar alone.
fn lone_scalar(tree: &Tree, n: NodeId) -> Option<u32>
    requires { n.0 < length tree.now.nodes }
    ensures scalar { result ≡ lone_scalar (class_in tree.now.leaves) (kids_of tree.now.nodes n.0) }
    ensures inside { IfSome result (λ i. i < length tree.now.leaves) }
{
    match node_part(tree, n, 0) {
        None => None,
        Some(first) => {
            if tree.kind(first) == FCONTENT {
                scalar_part(tree, first)
            } else {
                None
            }
        }
    }
}

// The leaf of the key of a node, if it is an entry.
pub(crate) fn key_in(tree: &Tree, n: NodeId, in_mapping: bool) -> Option<u32>
    requires { n.0 < length tree.now.nodes }
    ensures key { let nodes = tree.now.nodes in
        result ≡ key_in (class_in tree.now.leaves) in_mapping (kind_of nodes n.0) (kids_of nodes n.0) }
    ensures inside { IfSome result (λ i. i < length tree.now.leaves) }
{
    let kind = tree.kind(n);
    if kind == ENTRY {
        return leaf_part(tree, n, 0);
    }
    if in_mapping && kind == FITEM {
        return lone_scalar(tree, n);
    }
    None
}

/// A node as an entry, if it is one. A node that stands directly in a flow mapping may be an entry of it, and so may a
/// node that a key path has found.
pub fn own_entry(tree: &Tree, n: NodeId, in_mapping: bool) -> Option<EntryView>
    requires { n.0 < length tree.now.nodes }
    ensures entry { let nodes = tree.now.nodes in option_to_list result
        ≡ own_entry (class_in tree.now.leaves) in_mapping n.0 (kind_of nodes n.0) (kids_of nodes n.0) }
    ensures key { IfSome result (λ e. e.key_leaf < length tree.now.leaves) }
    ensures value { IfSome result (λ e. e.value ≡ node_first (behind 2 (kids_of tree.now.nodes n.0))) }
    ensures below { IfSome result (λ e. IfSome e.value (λ m. m.0 < n.0)) }
{
    match key_in(tree, n, in_mapping) {
        None => None,
        Some(key_leaf) => Some(EntryView {
            node: n,
            key_leaf,
            value: node_part(tree, n, 2),
            flow: tree.kind(n) == FITEM,
        }),
    }
}

fn push_entry(entry: Option<EntryView>, out: &mut Vec<EntryView>) -> Mem<()>
    ensures { OnOk result (out.new.items ≡ out.old.items ++ option_to_list entry) }
{
    if let Some(entry) = entry {
        out.push(entry)?;
    }
    Ok(())
}

// Appends the entries of the parts of a node.
#[cycle(entries)]
fn push_below(tree: &Tree, n: NodeId, out: &mut Vec<EntryView>) -> Mem<()>
    requires { n.0 < length tree.now.nodes }
    ensures { let nodes = tree.now.nodes in let class = class_in tree.now.leaves in
        OnOk result (out.new.items ≡ out.old.items
        ++ entries_in class (is_flow_mapping class (kind_of nodes n.0) (kids_of nodes n.0)) (kids_of nodes n.0)) }
{
    let in_mapping = is_flow_mapping(tree, n);
    let parts = tree.parts(n);
    for part in parts {
        match part {
            Part::Leaf(_) => {}
            Part::Node(m) => push_node(tree, n, *m, in_mapping, out)?,
        }
    }
    Ok(())
}

// Appends those of a part.
#[cycle(entries)]
fn push_node(
    tree: &Tree,
    n: NodeId,
    m: NodeId,
    in_mapping: bool,
    out: &mut Vec<EntryView>,
) -> Mem<()>
    requires node { n.0 < length tree.now.nodes }
    requires part { m.0 < n.0 }
    ensures { let nodes = tree.now.nodes in OnOk result (out.new.items ≡ out.old.items
        ++ node_entries (class_in tree.now.leaves) in_mapping m.0 (kind_of nodes m.0) (kids_of nodes m.0)) }
{
    push_entry(own_entry(tree, m, in_mapping), out)?;
    push_below(tree, m, out)?;
    Ok(())
}

/// The entries of all mappings of a tree, each once, in the order of their keys.
pub fn entries(alloc: Global, tree: &Tree) -> Mem<Vec<EntryView>>
    ensures { IfOk result (λ entries. entries.items ≡ entries_of tree.now) }
{
    let mut out = Vec::new(alloc);
    push_entry(own_entry(tree, tree.root(), false), &mut out)?;
    push_below(tree, tree.root(), &mut out)?;
    Ok(out)
}
