// The units of a file.
ghost use Rattle.std.specs.Prelude.{◌≡◌, ◌+◌, ◌<◌, ◌^◌, ◌++◌, None, Some, length, OnOk, IfOk};
ghost use Rattle.rw_base.specs.Arena.{kind_of, first_of};
ghost use Rattle.rw_base.specs.Trees.{size};
ghost use Rattle.rw_base.specs.Laid.{kids_of};
ghost use Rattle.rw_grammar.specs.Results.{class_in};
ghost use Rattle.java_reader.specs.Units.{HasFewNodes, begin, declares, head_width, is_body, is_plain, is_type};
ghost use Rattle.java_reader.specs.Units.{node_units, role_of, some_node, top_width, units_in, units_of};

use crate::role::{Role, role_of};
use java_lex::class::BRACE_OPEN;
use rw_base::{Mem, NodeId, Part, Tree};
use std::alloc::Global;

/// What a unit is.
#[derive(Clone, Copy, Debug, PartialEq, Eq)]
pub enum UnitKind {
    /// The package and the imports.
    Top,
    /// A type from its modifiers to before its body.
    Head,
    /// A field declaration, method, constructor, initializer or enum constant.
    Member,
}

/// A unit of a file: its leaves, and the position of the head around it.
#[derive(Clone, Copy, Debug, PartialEq, Eq)]
pub struct UnitRef {
    pub kind: UnitKind,
    pub first: u32,
    pub past: u32,
    pub owner: u32,
}

/// The units of a file, in the order of their first leaves.
pub fn units(alloc: Global, tree: &Tree) -> Mem<Vec<UnitRef>>
    requires { HasFewNodes tree.now }
    ensures { IfOk result (λ v. v.items ≡ units_of tree.now) }
{
    let root = tree.root();
    let past = top_end(tree, root);
    let mut out = Vec::new(alloc);
    out.push(UnitRef {
        kind: UnitKind::Top,
        first: 0,
        past,
        owner: 0,
    })?;
    add_units(tree, root, 0, None, &mut out)?;
    Ok(out)
}

// The leaf before which the declarations begin.
fn top_end(tree: &Tree, n: NodeId) -> u32
    requires { n.0 < length tree.now.nodes }
    ensures { result ≡ first_of tree.now.nodes n.0 + top_width (kids_of tree.now.nodes n.0) }
{
    let mut end = tree.leaves_of(n).0;
    let parts = tree.parts(n);
    for part in parts {
        match part {
            Part::Leaf(_) => return end,
            Part::Node(m) => {
                if !is_plain(role_of(tree.kind(*m))) {
                    return end;
                }
                end = tree.leaves_of(*m).1;
            }
        }
    }
    end
}

// Appends the units among the parts of a node.
#[cycle(units)]
fn add_units(
    tree: &Tree,
    n: NodeId,
    owner: u32,
    outer: Option<u32>,
    out: &mut Vec<UnitRef>,
) -> Mem<()>
    requires node { n.0 < length tree.now.nodes }
    requires few { length out.old.items + size (kids_of tree.now.nodes n.0) < 2 ^ 32 }
    ensures { let t = tree.now in
        let more = units_in (class_in t.leaves) (length out.old.items) owner outer (first_of t.nodes n.0)
        (kids_of t.nodes n.0) in
        OnOk result (out.new.items ≡ out.old.items ++ more) }
{
    let _ = tree.root();
    let parts = tree.parts(n);
    for part in parts {
        match part {
            Part::Leaf(_) => {}
            Part::Node(m) => add_node(tree, n, *m, owner, outer, out)?,
        }
    }
    Ok(())
}

// Appends the units of a part.
#[cycle(units)]
fn add_node(
    tree: &Tree,
    n: NodeId,
    m: NodeId,
    owner: u32,
    outer: Option<u32>,
    out: &mut Vec<UnitRef>,
) -> Mem<()>
    requires node { n.0 < length tree.now.nodes }
    requires part { m.0 < n.0 }
    requires few { length out.old.items + (size (kids_of tree.now.nodes m.0) + 1) < 2 ^ 32 }
    ensures { let t = tree.now in
        let more = node_units (class_in t.leaves) (length out.old.items) owner outer (first_of t.nodes m.0)
        (role_of (kind_of t.nodes m.0)) (kids_of t.nodes m.0) in
        OnOk result (out.new.items ≡ out.old.items ++ more) }
{
    let (first, past) = tree.leaves_of(m);
    match role_of(tree.kind(m)) {
        Role::Declares => {
            let number = out.len() as u32;
            let end = head_end(tree, m);
            out.push(UnitRef {
                kind: UnitKind::Head,
                first: beginning(outer, first),
                past: end,
                owner,
            })?;
            add_units(tree, m, number, None, out)?;
            Ok(())
        }
        Role::Modified => {
            if declares(tree, m) {
                add_units(tree, m, owner, Some(first), out)?;
                return Ok(());
            }
            if has_node(tree, m) {
                out.push(UnitRef {
                    kind: UnitKind::Member,
                    first,
                    past,
                    owner,
                })?;
            }
            Ok(())
        }
        Role::Holds => {
            add_units(tree, m, owner, None, out)?;
            Ok(())
        }
        Role::Stands => {
            out.push(UnitRef {
                kind: UnitKind::Member,
                first,
                past,
                owner,
            })?;
            Ok(())
        }
        Role::Plain => Ok(()),
    }
}

// Where a declaration begins.
fn beginning(outer: Option<u32>, first: u32) -> u32
    ensures { result ≡ begin outer first }
{
    match outer {
        Some(from) => from,
        None => first,
    }
}

fn is_body(role: Role) -> bool
    ensures { result ≡ is_body role }
{
    match role {
        Role::Holds => true,
        _ => false,
    }
}

fn is_plain(role: Role) -> bool
    ensures { result ≡ is_plain role }
{
    match role {
        Role::Plain => true,
        _ => false,
    }
}

fn is_type(role: Role) -> bool
    ensures { result ≡ is_type role }
{
    match role {
        Role::Declares => true,
        _ => false,
    }
}

// The leaf before which the body of a declaration begins.
fn head_end(tree: &Tree, n: NodeId) -> u32
    requires { n.0 < length tree.now.nodes }
    ensures { let t = tree.now in
        result ≡ first_of t.nodes n.0 + head_width (class_in t.leaves) (kids_of t.nodes n.0) }
{
    let past = tree.leaves_of(n).1;
    let parts = tree.parts(n);
    for part in parts {
        match part {
            Part::Leaf(i) => {
                if tree.leaf(*i).class == BRACE_OPEN {
                    return *i;
                }
            }
            Part::Node(m) => {
                if is_body(role_of(tree.kind(*m))) {
                    return tree.leaves_of(*m).0;
                }
            }
        }
    }
    past
}

// Whether a part is a type's declaration.
fn declares(tree: &Tree, n: NodeId) -> bool
    requires { n.0 < length tree.now.nodes }
    ensures { result ≡ declares (kids_of tree.now.nodes n.0) }
{
    let parts = tree.parts(n);
    for part in parts {
        match part {
            Part::Leaf(_) => {}
            Part::Node(m) => {
                if is_type(role_of(tree.kind(*m))) {
                    return true;
                }
            }
        }
    }
    false
}

// Whether a part is a node.
fn has_node(tree: &Tree, n: NodeId) -> bool
    requires { n.0 < length tree.now.nodes }
    ensures { result ≡ some_node (kids_of tree.now.nodes n.0) }
{
    let parts = tree.parts(n);
    for part in parts {
        match part {
            Part::Leaf(_) => {}
            Part::Node(_) => return true,
        }
    }
    false
}
