// Nodes and leaves of YAML, as recipe files use them.
ghost use Rattle.std.specs.Prelude.{◌≡◌, ◌<◌, ◌-◌, length, IfOk, IfSome};
ghost use Rattle.rw_base.specs.Arena.{end_of, first_of, past_of};
ghost use Rattle.rw_grammar.specs.Results.{class_in};
ghost use Rattle.recipe_yaml.specs.Nodes.{nodes_of, leaf_part, node_part, kind_at, beginning, has_anchor};
ghost use Rattle.recipe_yaml.specs.Nodes.{behind_anchor, is_flow_mapping, scalar_leaf, entry_key, entry_value};
ghost use Rattle.recipe_yaml.specs.Nodes.{stray_leaf, last_leaf, item_value, item_colon, sequence_leaf};
ghost use Rattle.recipe_yaml.specs.Nodes.{document_value, scalar_value, node_value, value_at};
ghost use Rattle.recipe_yaml.specs.Parts.{IsNode, AreNodes, IsSlot, IsValue};

use crate::kinds::{CONTENT, DOC_PART, ENTRY, FCONTENT, FITEM, FLOW, FNODE, ITEM, MAP, NODE, SEQ};
use crate::node::{Slot, Value};
use rw_base::{Mem, NodeId, Part, Text, Tree};
use std::alloc::Global;
use yaml_lex::class::{ALIAS, BRACE_OPEN, FSCALAR};
use yaml_tree::scalar;

// The part of a node at a position, if it is a leaf.
pub fn leaf_part(tree: &Tree, n: NodeId, k: usize) -> Option<u32>
    requires { IsNode tree.now n }
    ensures leaf { result ≡ leaf_part tree.now n k }
    ensures inside { IfSome result (λ i. i < length tree.now.leaves) }
{
    let parts = tree.parts(n);
    if k >= parts.len() {
        return None;
    }
    match parts[k] {
        Part::Leaf(i) => Some(i),
        Part::Node(_) => None,
    }
}

// The part of a node at a position, if it is a node.
pub fn node_part(tree: &Tree, n: NodeId, k: usize) -> Option<NodeId>
    requires { IsNode tree.now n }
    ensures node { result ≡ node_part tree.now n k }
    ensures inside { IfSome result (λ m. IsNode tree.now m) }
{
    let parts = tree.parts(n);
    if k >= parts.len() {
        return None;
    }
    match parts[k] {
        Part::Leaf(_) => None,
        Part::Node(m) => Some(m),
    }
}

// The nodes directly in a node, in order.
pub fn nodes_of(alloc: Global, tree: &Tree, n: NodeId) -> Mem<Vec<NodeId>>
    requires { IsNode tree.now n }
    ensures nodes { IfOk result (λ nodes. nodes.items ≡ nodes_of tree.now n) }
    ensures inside { IfOk result (λ nodes. AreNodes tree.now nodes.items) }
{
    let parts = tree.parts(n);
    let mut nodes = Vec::new(alloc);
    for part in parts {
        match part {
            Part::Leaf(_) => {}
            Part::Node(m) => nodes.push(*m)?,
        }
    }
    Ok(nodes)
}

// The leaf with which a node in another begins, or would begin.
pub fn beginning(tree: &Tree, s: Slot) -> u32
    requires { IsSlot tree.now s }
    ensures { result ≡ beginning tree.now s }
{
    match s.node {
        Some(n) => tree.leaves_of(n).0,
        None => tree.leaves_of(s.outer).1,
    }
}

fn has_anchor(tree: &Tree, n: NodeId) -> bool
    requires { IsNode tree.now n }
    ensures { result ≡ has_anchor tree.now n }
{
    let kind = tree.kind(n);
    kind == NODE || kind == FNODE
}

// A place behind the anchor that stands there, if one does.
#[tactic(auto, unfolding(crate::specs::Nodes::behind_anchor))]
pub fn behind_anchor(tree: &Tree, s: Slot) -> Slot
    requires { IsSlot tree.now s }
    ensures slot { result ≡ behind_anchor tree.now s }
    ensures inside { IsSlot tree.now result }
{
    let Some(n) = s.node else {
        return s;
    };
    if !has_anchor(tree, n) {
        return s;
    }
    Slot {
        outer: n,
        node: node_part(tree, n, 1),
    }
}

// The leaf of a node that is a scalar in flow context.
fn scalar_leaf(tree: &Tree, n: NodeId) -> Option<u32>
    requires { IsNode tree.now n }
    ensures leaf { result ≡ scalar_leaf tree.now n }
    ensures inside { IfSome result (λ i. i < length tree.now.leaves) }
{
    if tree.kind(n) != FCONTENT {
        return None;
    }
    let l = leaf_part(tree, n, 0)?;
    if tree.leaf(l).class != FSCALAR {
        return None;
    }
    Some(l)
}

// The key of a node in a mapping, where it is an entry.
#[tactic(auto, unfolding(crate::specs::Nodes::entry_key))]
pub fn entry_key(tree: &Tree, n: NodeId) -> Option<u32>
    requires { IsNode tree.now n }
    ensures key { result ≡ entry_key tree.now n }
    ensures inside { IfSome result (λ i. i < length tree.now.leaves) }
{
    let kind = tree.kind(n);
    if kind == ENTRY {
        return leaf_part(tree, n, 0);
    }
    if kind != FITEM {
        return None;
    }
    match node_part(tree, n, 0) {
        Some(first) => scalar_leaf(tree, first),
        None => None,
    }
}

// The value of an entry.
pub fn entry_value(tree: &Tree, n: NodeId) -> Slot
    requires { IsNode tree.now n }
    ensures slot { result ≡ entry_value tree.now n }
    ensures inside { IsSlot tree.now result }
{
    Slot {
        outer: n,
        node: node_part(tree, n, 2),
    }
}

// Of a node in a mapping that is no entry, the leaf that can't stand.
#[tactic(auto, unfolding(crate::specs::Nodes::stray_leaf))]
pub fn stray_leaf(tree: &Tree, n: NodeId) -> u32
    requires { IsNode tree.now n }
    ensures { result ≡ stray_leaf tree.now n }
{
    let (first, past) = tree.leaves_of(n);
    match scalar_leaf(tree, n) {
        Some(_) => past,
        None => first,
    }
}

// The leaf that ends a mapping.
pub fn last_leaf(tree: &Tree, n: NodeId) -> u32
    requires { IsNode tree.now n }
    ensures { result ≡ last_leaf tree.now n }
{
    tree.leaves_of(n).1.saturating_sub(1)
}

// The value of an item of a sequence.
#[tactic(auto, unfolding(crate::specs::Nodes::item_value))]
pub fn item_value(tree: &Tree, n: NodeId) -> Slot
    requires { IsNode tree.now n }
    ensures slot { result ≡ item_value tree.now n }
    ensures inside { IsSlot tree.now result }
{
    let kind = tree.kind(n);
    let node = if kind == ITEM {
        node_part(tree, n, 1)
    } else if kind == FITEM {
        node_part(tree, n, 0)
    } else {
        Some(n)
    };
    Slot { outer: n, node }
}

// The colon behind it, if one stands there.
#[tactic(auto, unfolding(crate::specs::Nodes::item_colon))]
pub fn item_colon(tree: &Tree, n: NodeId) -> Option<u32>
    requires { IsNode tree.now n }
    ensures { result ≡ item_colon tree.now n }
{
    if tree.kind(n) != FITEM {
        return None;
    }
    leaf_part(tree, n, 1)
}

// The first leaf with text of a sequence.
#[tactic(auto, unfolding(crate::specs::Nodes::sequence_leaf))]
pub fn sequence_leaf(tree: &Tree, n: NodeId) -> u32
    requires { IsNode tree.now n }
    ensures { result ≡ sequence_leaf tree.now n }
{
    if tree.kind(n) != SEQ {
        return tree.leaves_of(n).0;
    }
    let node = node_part(tree, n, 1);
    beginning(tree, Slot { outer: n, node })
}

// The value of a document.
#[tactic(auto, unfolding(crate::specs::Nodes::document_value))]
pub fn document_value(tree: &Tree, n: NodeId) -> Slot
    requires { IsNode tree.now n }
    ensures slot { result ≡ document_value tree.now n }
    ensures inside { IsSlot tree.now result }
{
    let node = if tree.kind(n) == DOC_PART {
        node_part(tree, n, 1)
    } else {
        Some(n)
    };
    Slot { outer: n, node }
}

// What a leaf says as a scalar.
#[tactic(auto, unfolding(crate::specs::Nodes::scalar_value))]
fn scalar_value(alloc: Global, tree: &Tree, bytes: &[u8], leaf: Option<u32>) -> Mem<Value>
    requires leaf { IfSome leaf (λ l. l < length tree.now.leaves) }
    requires bytes { length bytes.now ≡ end_of tree.now }
    ensures value { IfOk result (λ v. v ≡ scalar_value bytes.now tree.now leaf) }
    ensures inside { IfOk result (λ v. IsValue tree.now v) }
{
    let Some(l) = leaf else {
        return Ok(Value::Other);
    };
    if tree.leaf(l).class == ALIAS {
        return Ok(Value::Other);
    }
    match scalar(alloc, tree, bytes, l)? {
        None => Ok(Value::Other),
        Some(text) => Ok(Value::Scalar(Text::from_vec(text))),
    }
}

fn is_flow_mapping(tree: &Tree, n: NodeId) -> bool
    requires { IsNode tree.now n }
    ensures { result ≡ is_flow_mapping tree.now n }
{
    match leaf_part(tree, n, 0) {
        None => false,
        Some(l) => tree.leaf(l).class == BRACE_OPEN,
    }
}

// What a node is.
#[tactic(auto, unfolding(crate::specs::Nodes::node_value))]
fn node_value(alloc: Global, tree: &Tree, bytes: &[u8], n: NodeId) -> Mem<Value>
    requires node { IsNode tree.now n }
    requires bytes { length bytes.now ≡ end_of tree.now }
    ensures value { IfOk result (λ v. v ≡ node_value bytes.now tree.now n) }
    ensures inside { IfOk result (λ v. IsValue tree.now v) }
{
    let kind = tree.kind(n);
    if kind == CONTENT || kind == FCONTENT {
        let value = scalar_value(alloc, tree, bytes, leaf_part(tree, n, 0))?;
        return Ok(value);
    }
    if kind == MAP {
        return Ok(Value::Mapping(n));
    }
    if kind == SEQ {
        return Ok(Value::Sequence(n));
    }
    if kind != FLOW {
        return Ok(Value::Other);
    }
    if is_flow_mapping(tree, n) {
        Ok(Value::Mapping(n))
    } else {
        Ok(Value::Sequence(n))
    }
}

// What stands at a place, behind its anchor.
#[tactic(auto, unfolding(crate::specs::Nodes::value_at))]
pub fn value_at(alloc: Global, tree: &Tree, bytes: &[u8], s: Slot) -> Mem<Value>
    requires slot { IsSlot tree.now s }
    requires bytes { length bytes.now ≡ end_of tree.now }
    ensures value { IfOk result (λ v. v ≡ value_at bytes.now tree.now s) }
    ensures inside { IfOk result (λ v. IsValue tree.now v) }
{
    match behind_anchor(tree, s).node {
        Some(n) => node_value(alloc, tree, bytes, n),
        None => Ok(Value::Other),
    }
}
