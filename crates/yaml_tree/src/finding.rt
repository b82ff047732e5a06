// What key paths find.
ghost use Rattle.std.specs.Prelude.{◌≡◌, ◌<◌, ◌≤◌, ◌++◌, [], length, OnOk, IfOk, IfSome, if◌then◌else◌};
ghost use Rattle.rw_base.specs.Arena.{IsTree, kind_of, end_of};
ghost use Rattle.rw_base.specs.Laid.{kids_of};
ghost use Rattle.rw_grammar.specs.Results.{class_in};
ghost use Rattle.yaml_tree.specs.Entries.{is_flow_mapping, key_in};
ghost use Rattle.yaml_tree.specs.Found.{Search, is_marked, is_any_item};
ghost use Rattle.yaml_tree.specs.Found.{is_flow_sequence, is_sequence, is_text, goes_by};
ghost use Rattle.yaml_tree.specs.Found.{at_inner, at_each, from_entry, from_entries};
ghost use Rattle.yaml_tree.specs.Found.{from_node, found, found_in, key_text};
ghost use Rattle.yaml_tree.specs.Finding.{at_node};

use crate::entry::{FLOW, is_flow_mapping, key_in, leaf_part, node_part};
use crate::key_path::{KeyPath, PathStep};
use crate::kind::Kind;
use rw_base::{Mem, NodeId, Part, Tree};
use std::alloc::Global;
use yaml_lex::class::BRACKET_OPEN;
use yaml_texts::decoded;

const DOC_PART: u16 = Kind::DocPart as u16;

const NODE: u16 = Kind::Node as u16;

pub(crate) const SEQ: u16 = Kind::Seq as u16;

const ITEM: u16 = Kind::Item as u16;

const FNODE: u16 = Kind::FNode as u16;

// Whether nodes of a kind begin with a mark.
fn is_marked(kind: u16) -> bool
    ensures { result ≡ is_marked kind }
{
    kind == DOC_PART || kind == ITEM || kind == NODE || kind == FNODE
}

// A node, or where it begins with a mark, what stands behind that, if anything does.
fn inner(tree: &Tree, n: NodeId) -> Option<NodeId>
    requires { n.0 < length tree.now.nodes }
    ensures inner { let nodes = tree.now.nodes in
        (f : Search) → at_inner f (kind_of nodes n.0) (kids_of nodes n.0) ≡ at_node nodes f result }
    ensures below { IfSome result (λ m. m.0 ≤ n.0) }
{
    if is_marked(tree.kind(n)) {
        return node_part(tree, n, 1);
    }
    Some(n)
}

// Whether a node is a sequence in brackets.
fn is_flow_sequence(tree: &Tree, n: NodeId) -> bool
    requires { n.0 < length tree.now.nodes }
    ensures { let nodes = tree.now.nodes in
        result ≡ is_flow_sequence (class_in tree.now.leaves) (kind_of nodes n.0) (kids_of nodes n.0) }
{
    if tree.kind(n) != FLOW {
        return false;
    }
    match leaf_part(tree, n, 0) {
        None => false,
        Some(i) => tree.leaf(i).class == BRACKET_OPEN,
    }
}

// Whether a node is a sequence.
fn is_sequence(tree: &Tree, n: NodeId) -> bool
    requires { n.0 < length tree.now.nodes }
    ensures { let nodes = tree.now.nodes in
        result ≡ is_sequence (class_in tree.now.leaves) (kind_of nodes n.0) (kids_of nodes n.0) }
{
    tree.kind(n) == SEQ || is_flow_sequence(tree, n)
}

fn is_any_item(step: &PathStep) -> bool
    ensures { result ≡ is_any_item step.now }
{
    match step {
        PathStep::Name(_) => false,
        PathStep::AnyName => false,
        PathStep::AnyItem => true,
    }
}

// Whether the text of a key is this one.
fn has_text(alloc: Global, tree: &Tree, bytes: &[u8], i: u32, name: &[u8]) -> Mem<bool>
    requires bytes { length bytes.now ≡ end_of tree.now }
    requires leaf { i < length tree.now.leaves }
    ensures { IfOk result (λ same. same ≡ is_text name.now (key_text bytes.now tree.now.leaves i)) }
{
    let class = tree.leaf(i).class;
    match decoded(alloc, class, None, tree.text(bytes, i), &[])? {
        None => Ok(false),
        Some(text) => Ok(text.as_slice() == name),
    }
}

// Whether there is a key and a step goes by it.
fn goes_by(alloc: Global, tree: &Tree, bytes: &[u8], step: &PathStep, key: Option<u32>) -> Mem<bool>
    requires bytes { length bytes.now ≡ end_of tree.now }
    requires leaf { IfSome key (λ i. i < length tree.now.leaves) }
    ensures { let leaves = tree.now.leaves in
        IfOk result (λ r. r ≡ goes_by (class_in leaves) (key_text bytes.now leaves) step.now key) }
{
    let Some(i) = key else {
        return Ok(false);
    };
    match step {
        PathStep::Name(name) => has_text(alloc, tree, bytes, i, name.as_slice()),
        PathStep::AnyName => Ok(true),
        PathStep::AnyItem => Ok(false),
    }
}

// Appends what steps find from each part of a node.
#[cycle(finding)]
fn find_in_each(
    alloc: Global,
    tree: &Tree,
    bytes: &[u8],
    steps: &[PathStep],
    n: NodeId,
    out: &mut Vec<NodeId>,
) -> Mem<()>
    requires bytes { length bytes.now ≡ end_of tree.now }
    requires node { n.0 < length tree.now.nodes }
    ensures { let t = tree.now in let f = found (class_in t.leaves) (key_text bytes.now t.leaves) steps.now in
        OnOk result (out.new.items ≡ out.old.items ++ at_each (at_inner f) (kids_of t.nodes n.0)) }
{
    let parts = tree.parts(n);
    for part in parts {
        match part {
            Part::Leaf(_) => {}
            Part::Node(m) => find_in_part(alloc, tree, bytes, steps, n, *m, out)?,
        }
    }
    Ok(())
}

// From one of them.
#[cycle(finding)]
fn find_in_part(
    alloc: Global,
    tree: &Tree,
    bytes: &[u8],
    steps: &[PathStep],
    n: NodeId,
    m: NodeId,
    out: &mut Vec<NodeId>,
) -> Mem<()>
    requires bytes { length bytes.now ≡ end_of tree.now }
    requires node { n.0 < length tree.now.nodes }
    requires part { m.0 < n.0 }
    ensures { let t = tree.now in let f = found (class_in t.leaves) (key_text bytes.now t.leaves) steps.now in
        OnOk result (out.new.items ≡ out.old.items ++ at_inner f (kind_of t.nodes m.0) (kids_of t.nodes m.0)) }
{
    match inner(tree, m) {
        None => {}
        Some(value) => find_from(alloc, tree, bytes, steps, value, out)?,
    }
    Ok(())
}

// Appends what steps find from a value.
#[cycle(finding)]
fn find_from(
    alloc: Global,
    tree: &Tree,
    bytes: &[u8],
    steps: &[PathStep],
    n: NodeId,
    out: &mut Vec<NodeId>,
) -> Mem<()>
    requires bytes { length bytes.now ≡ end_of tree.now }
    requires node { n.0 < length tree.now.nodes }
    ensures { let t = tree.now in let f = found (class_in t.leaves) (key_text bytes.now t.leaves) steps.now in
        OnOk result (out.new.items ≡ out.old.items ++ f (kind_of t.nodes n.0) (kids_of t.nodes n.0)) }
{
    if steps.is_empty() {
        return Ok(());
    }
    match inner(tree, n) {
        None => {}
        Some(value) => find_from_node(alloc, tree, bytes, &steps[0], &steps[1..], value, out)?,
    }
    Ok(())
}

// Appends what a step, and those behind it, find from a node.
#[cycle(finding)]
fn find_from_node(
    alloc: Global,
    tree: &Tree,
    bytes: &[u8],
    step: &PathStep,
    steps: &[PathStep],
    n: NodeId,
    out: &mut Vec<NodeId>,
) -> Mem<()>
    requires bytes { length bytes.now ≡ end_of tree.now }
    requires node { n.0 < length tree.now.nodes }
    ensures { let t = tree.now in let class = class_in t.leaves in let text = key_text bytes.now t.leaves in
        OnOk result (out.new.items ≡ out.old.items ++ from_node class text step.now steps.now
        (found class text steps.now) (kind_of t.nodes n.0) (kids_of t.nodes n.0)) }
{
    if !is_any_item(step) {
        find_in_entries(alloc, tree, bytes, step, steps, n, out)?;
        return Ok(());
    }
    if is_sequence(tree, n) {
        find_in_each(alloc, tree, bytes, steps, n, out)?;
    }
    Ok(())
}

// Appends what is found from the entries of a node by which a step goes.
#[cycle(finding)]
fn find_in_entries(
    alloc: Global,
    tree: &Tree,
    bytes: &[u8],
    step: &PathStep,
    steps: &[PathStep],
    n: NodeId,
    out: &mut Vec<NodeId>,
) -> Mem<()>
    requires bytes { length bytes.now ≡ end_of tree.now }
    requires node { n.0 < length tree.now.nodes }
    ensures { let t = tree.now in let class = class_in t.leaves in let text = key_text bytes.now t.leaves in
        OnOk result (out.new.items ≡ out.old.items ++ from_entries class text step.now steps.now
        (found class text steps.now) (is_flow_mapping class (kind_of t.nodes n.0) (kids_of t.nodes n.0))
        (kids_of t.nodes n.0)) }
{
    let in_mapping = is_flow_mapping(tree, n);
    let parts = tree.parts(n);
    for part in parts {
        match part {
            Part::Leaf(_) => {}
            Part::Node(m) => {
                find_from_entry(alloc, tree, bytes, step, steps, in_mapping, n, *m, out)?
            }
        }
    }
    Ok(())
}

// From one node, if it is such an entry.
#[cycle(finding)]
fn find_from_entry(
    alloc: Global,
    tree: &Tree,
    bytes: &[u8],
    step: &PathStep,
    steps: &[PathStep],
    in_mapping: bool,
    n: NodeId,
    m: NodeId,
    out: &mut Vec<NodeId>,
) -> Mem<()>
    requires bytes { length bytes.now ≡ end_of tree.now }
    requires node { n.0 < length tree.now.nodes }
    requires part { m.0 < n.0 }
    ensures { let t = tree.now in let class = class_in t.leaves in let text = key_text bytes.now t.leaves in
        let goes = goes_by class text step.now (key_in class in_mapping (kind_of t.nodes m.0) (kids_of t.nodes m.0)) in
        OnOk result (out.new.items ≡ out.old.items ++ (if goes
        then from_entry class text steps.now (found class text steps.now) m.0 (kids_of t.nodes m.0) else [])) }
{
    if !goes_by(alloc, tree, bytes, step, key_in(tree, m, in_mapping))? {
        return Ok(());
    }
    if steps.is_empty() {
        out.push(m)?;
        return Ok(());
    }
    match node_part(tree, m, 2) {
        None => {}
        Some(value) => find_from(alloc, tree, bytes, steps, value, out)?,
    }
    Ok(())
}

impl KeyPath {
    /// The entries that it finds in a file's tree, from the root of each document down, in order. They are some of
    /// those that `entries` gives, each once (`key_paths_find_entries`).
    pub fn finds(&self, alloc: Global, tree: &Tree, bytes: &[u8]) -> Mem<Vec<NodeId>>
        requires { length bytes.now ≡ end_of tree.now }
        ensures entries { IfOk result (λ entries. entries.items ≡ found_in bytes.now self.now tree.now) }
        ensures tree { IsTree tree.now }
    {
        let mut out = Vec::new(alloc);
        find_in_each(alloc, tree, bytes, self.steps(), tree.root(), &mut out)?;
        Ok(out)
    }
}
