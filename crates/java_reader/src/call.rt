// The calls of a unit.
ghost use Rattle.std.specs.Prelude.{◌≡◌, ◌+◌, ◌<◌, ◌≤◌, ◌++◌, ◌&&◌, nat_le, nat_lt, length};
ghost use Rattle.std.specs.Prelude.{OnOk, IfOk, IsTrue};
ghost use Rattle.std.specs.Option.{option_to_list};
ghost use Rattle.rw_base.specs.Arena.{kind_of};
ghost use Rattle.rw_base.specs.Laid.{kids_of};
ghost use Rattle.rw_grammar.specs.Results.{class_in};
ghost use Rattle.java_reader.specs.Calls.{call_at, calls_in, calls_of, creates, node_calls, opens, own_call, seen_in};
ghost use Rattle.java_reader.specs.Calls.{with_args, with_leaf, with_node, within};
ghost use Rattle.java_reader.specs.Walking.{BeginsBefore, IsPartIn, begin_at, end_at};

use crate::kind::Kind;
use crate::unit::UnitRef;
use java_lex::class::{NEW, SUPER, THIS};
use rw_base::{Mem, NoMemory, NodeId, Part, Tree};
use std::alloc::Global;

const PRIMARY: u16 = Kind::Primary as u16;

const SELECTOR: u16 = Kind::Selector as u16;

const DOT: u16 = Kind::Dot as u16;

const CREATOR: u16 = Kind::Creator as u16;

const NEW_TYPE: u16 = Kind::NewType as u16;

const NEW_REST: u16 = Kind::NewRest as u16;

const ARGS: u16 = Kind::Args as u16;

/// A call or creation with arguments. It ends at part `part` of `node`, and its receiver is the first `receiver` parts.
#[derive(Clone, Copy, Debug)]
pub struct CallView {
    pub node: NodeId,
    pub part: u32,
    pub receiver: u32,
    pub name_leaf: u32,
    pub args: NodeId,
    pub is_new: bool,
}

// What was seen of a call: the last leaf before the arguments, and these.
#[derive(Clone, Copy)]
pub(crate) struct Seen {
    pub name: Option<u32>,
    pub is_new: bool,
    pub args: Option<u32>,
}

fn opens(kind: u16) -> bool
    ensures { result ≡ opens kind }
{
    kind == DOT || kind == CREATOR || kind == NEW_TYPE || kind == NEW_REST
}

fn creates(class: u16) -> bool
    ensures { result ≡ creates class }
{
    class == NEW || class == THIS || class == SUPER
}

fn with_leaf(tree: &Tree, seen: Seen, i: u32) -> Seen
    requires { i < length tree.now.leaves }
    ensures { result ≡ with_leaf (class_in tree.now.leaves) seen i }
{
    match seen.args {
        Some(_) => seen,
        None => Seen {
            name: Some(i),
            is_new: seen.is_new || creates(tree.leaf(i).class),
            args: None,
        },
    }
}

fn with_args(seen: Seen, a: NodeId) -> Seen
    ensures { result ≡ with_args seen a.0 }
{
    match seen.args {
        Some(_) => seen,
        None => Seen {
            name: seen.name,
            is_new: seen.is_new,
            args: Some(a.0),
        },
    }
}

// The name and the arguments among the parts of a node.
#[cycle(seen)]
fn seen_in(tree: &Tree, n: NodeId, before: Seen) -> Seen
    requires { n.0 < length tree.now.nodes }
    ensures { result ≡ seen_in (class_in tree.now.leaves) before (kids_of tree.now.nodes n.0) }
{
    let mut seen = before;
    let parts = tree.parts(n);
    for part in parts {
        match part {
            Part::Leaf(i) => seen = with_leaf(tree, seen, *i),
            Part::Node(m) => seen = with_node(tree, n, *m, seen),
        }
    }
    seen
}

#[cycle(seen)]
fn with_node(tree: &Tree, n: NodeId, m: NodeId, seen: Seen) -> Seen
    requires node { n.0 < length tree.now.nodes }
    requires part { m.0 < n.0 }
    ensures { let t = tree.now in
        result ≡ with_node (class_in t.leaves) seen m.0 (kind_of t.nodes m.0) (kids_of t.nodes m.0) }
{
    let kind = tree.kind(m);
    if kind == ARGS {
        return with_args(seen, m);
    }
    if opens(kind) {
        return seen_in(tree, m, seen);
    }
    seen
}

fn call_at(n: NodeId, part: u32, receiver: u32, seen: Seen) -> Option<CallView>
    ensures { option_to_list result ≡ call_at n.0 part receiver seen }
{
    match seen.name {
        None => None,
        Some(name_leaf) => match seen.args {
            None => None,
            Some(a) => Some(CallView {
                node: n,
                part,
                receiver,
                name_leaf,
                args: NodeId(a),
                is_new: seen.is_new,
            }),
        },
    }
}

// The call of a node itself, part p of node n.
fn own_call(tree: &Tree, n: NodeId, p: u32, m: NodeId) -> Option<CallView>
    requires { m.0 < length tree.now.nodes }
    ensures { let t = tree.now in
        option_to_list result ≡ own_call (class_in t.leaves) n.0 p m.0 (kind_of t.nodes m.0) (kids_of t.nodes m.0) }
{
    let nothing = Seen {
        name: None,
        is_new: false,
        args: None,
    };
    match tree.kind(m) {
        PRIMARY => call_at(m, 1, 0, seen_in(tree, m, nothing)),
        SELECTOR => call_at(n, p, p, seen_in(tree, m, nothing)),
        _ => None,
    }
}

fn is_within(first: u32, past: u32, leaf: u32) -> bool
    ensures { result ≡ (nat_le first leaf && nat_lt leaf past) }
{
    first <= leaf && leaf < past
}

// Appends a call if its name leaf is one of these leaves.
fn append_within(call: Option<CallView>, first: u32, past: u32, out: &mut Vec<CallView>) -> Mem<()>
    ensures { OnOk result (out.new.items ≡ out.old.items ++ within first past (option_to_list call)) }
{
    match call {
        None => Ok(()),
        Some(view) => {
            if is_within(first, past, view.name_leaf) {
                out.push(view)?;
            }
            Ok(())
        }
    }
}

// The first leaf of a part.
fn first_leaf(tree: &Tree, part: Part) -> u32
    requires { IsPartIn tree.now part }
    ensures { result ≡ begin_at tree.now.nodes part }
{
    match part {
        Part::Leaf(i) => i,
        Part::Node(m) => tree.leaves_of(m).0,
    }
}

// Whether a part ends before a leaf.
fn ends_before(tree: &Tree, part: Part, first: u32) -> bool
    requires { IsPartIn tree.now part }
    ensures { IsTrue result → end_at tree.now.nodes part ≤ first }
{
    match part {
        Part::Leaf(i) => i < first,
        Part::Node(m) => tree.leaves_of(m).1 <= first,
    }
}

// The first part that doesn't end before a leaf, found by halves.
fn first_part(tree: &Tree, n: NodeId, first: u32) -> usize
    requires { n.0 < length tree.now.nodes }
    ensures { BeginsBefore tree.now n.0 first result }
{
    let _ = tree.root();
    let parts = tree.parts(n);
    let mut from = 0;
    let mut to = parts.len();
    while from < to {
        let middle = from + (to - from) / 2;
        if ends_before(tree, parts[middle], first) {
            from = middle + 1;
        } else {
            to = middle;
        }
    }
    from
}

// Appends the calls among the parts of a node whose name leaf is one of these leaves.
#[cycle(calls)]
fn add_calls(tree: &Tree, n: NodeId, first: u32, past: u32, out: &mut Vec<CallView>) -> Mem<()>
    requires { n.0 < length tree.now.nodes }
    ensures { let t = tree.now in
        let more = calls_in (class_in t.leaves) n.0 0 (kids_of t.nodes n.0) in
        OnOk result (out.new.items ≡ out.old.items ++ within first past more) }
{
    let _ = tree.root();
    let parts = tree.parts(n);
    let from = first_part(tree, n, first);
    for p in from..parts.len() {
        if past <= first_leaf(tree, parts[p]) {
            return Ok(());
        }
        if p >= u32::MAX as usize {
            return Err(NoMemory);
        }
        match parts[p] {
            Part::Leaf(_) => {}
            Part::Node(m) => add_node(tree, n, p as u32, m, first, past, out)?,
        }
    }
    Ok(())
}

// Appends those of a part.
#[cycle(calls)]
fn add_node(
    tree: &Tree,
    n: NodeId,
    p: u32,
    m: NodeId,
    first: u32,
    past: u32,
    out: &mut Vec<CallView>,
) -> Mem<()>
    requires node { n.0 < length tree.now.nodes }
    requires part { m.0 < n.0 }
    ensures { let t = tree.now in
        let more = node_calls (class_in t.leaves) n.0 p m.0 (kind_of t.nodes m.0) (kids_of t.nodes m.0) in
        OnOk result (out.new.items ≡ out.old.items ++ within first past more) }
{
    let (begin, end) = tree.leaves_of(m);
    if end <= first {
        return Ok(());
    }
    if past <= begin {
        return Ok(());
    }
    append_within(own_call(tree, n, p, m), first, past, out)?;
    add_calls(tree, m, first, past, out)?;
    Ok(())
}

/// The calls and creations with arguments in a unit, in the order of their name leaves.
pub fn calls(alloc: Global, tree: &Tree, unit: UnitRef) -> Mem<Vec<CallView>>
    ensures { IfOk result (λ v. v.items ≡ calls_of tree.now unit) }
{
    let mut out = Vec::new(alloc);
    add_calls(tree, tree.root(), unit.first, unit.past, &mut out)?;
    Ok(out)
}
