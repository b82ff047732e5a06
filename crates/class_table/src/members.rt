// The members that a body declares.
ghost use Rattle.std.specs.Prelude.{◌≡◌, ◌<◌, ◌++◌, List, ℕ, length, OnOk, IfOk};
ghost use Rattle.rw_base.specs.Arena.{end_of, kind_of};
ghost use Rattle.class_table.specs.Words.{parts_at};
ghost use Rattle.class_table.specs.Members.{no_mods, mods_inside, holds_members, fields_in, methods_in, node_fields};
ghost use Rattle.class_table.specs.Members.{node_methods, static_in, fields_of, methods_of};

use crate::fields::{add_fields, constant};
use crate::kinds::{BODY, ENUM_CONSTANT, MEMBER, MEMBER_REST};
use crate::methods::add_method;
use crate::modifiers::{Mods, mods_in, static_in};
use declared_types::{WrittenField, WrittenMethod};
use jtypes::{ClassKind, Names};
use rw_base::{Mem, NodeId, Part, Tree};
use std::alloc::Global;

// The members found so far.
#[derive(Debug, Drop)]
pub(crate) struct Members {
    pub fields: Vec<WrittenField>,
    pub methods: Vec<WrittenMethod>,
}

fn holds_members(kind: u16) -> bool
    ensures { result ≡ holds_members kind }
{
    kind == BODY || kind == MEMBER
}

// The modifiers that count inside a node.
fn mods_inside(tree: &Tree, n: NodeId, mods: Mods) -> Mods
    requires { n.0 < length tree.now.nodes }
    ensures { (bytes : List ℕ) →
        result ≡ mods_inside mods (kind_of tree.now.nodes n.0) (parts_at tree.now bytes n.0) }
{
    if tree.kind(n) == MEMBER {
        return mods_in(tree, n);
    }
    mods
}

// Appends the fields or the method of what stands behind the modifiers of a member.
fn add_member(
    alloc: Global,
    tree: &Tree,
    bytes: &[u8],
    n: NodeId,
    kind: ClassKind,
    mods: Mods,
    names: &mut Names,
    out: &mut Members,
) -> Mem<()>
    requires node { n.0 < length tree.now.nodes }
    requires bytes { length bytes.now ≡ end_of tree.now }
    ensures fields { let ps = parts_at tree.now bytes.now n.0 in
        OnOk result (out.new.fields.items ≡ out.old.fields.items ++ fields_of (static_in kind mods) ps) }
    ensures methods { let ps = parts_at tree.now bytes.now n.0 in
        OnOk result (out.new.methods.items ≡ out.old.methods.items ++ methods_of mods ps) }
{
    let for_fields = static_in(kind, mods);
    add_fields(alloc, tree, bytes, n, for_fields, names, &mut out.fields)?;
    add_method(alloc, tree, bytes, n, mods, names, &mut out.methods)?;
    Ok(())
}

// Appends the members that a node's parts declare.
#[cycle(members)]
pub(crate) fn add_members(
    alloc: Global,
    tree: &Tree,
    bytes: &[u8],
    n: NodeId,
    kind: ClassKind,
    mods: Mods,
    names: &mut Names,
    out: &mut Members,
) -> Mem<()>
    requires node { n.0 < length tree.now.nodes }
    requires bytes { length bytes.now ≡ end_of tree.now }
    ensures fields { let ps = parts_at tree.now bytes.now n.0 in
        OnOk result (out.new.fields.items ≡ out.old.fields.items ++ fields_in kind mods ps) }
    ensures methods { let ps = parts_at tree.now bytes.now n.0 in
        OnOk result (out.new.methods.items ≡ out.old.methods.items ++ methods_in mods ps) }
{
    let parts = tree.parts(n);
    for part in parts {
        match part {
            Part::Leaf(_) => {}
            Part::Node(m) => add_node(alloc, tree, bytes, n, *m, kind, mods, names, out)?,
        }
    }
    Ok(())
}

// Appends those of a part.
#[cycle(members)]
fn add_node(
    alloc: Global,
    tree: &Tree,
    bytes: &[u8],
    n: NodeId,
    m: NodeId,
    kind: ClassKind,
    mods: Mods,
    names: &mut Names,
    out: &mut Members,
) -> Mem<()>
    requires node { n.0 < length tree.now.nodes }
    requires part { m.0 < n.0 }
    requires bytes { length bytes.now ≡ end_of tree.now }
    ensures fields { let t = tree.now in let ps = parts_at t bytes.now m.0 in let k = kind_of t.nodes m.0 in
        let inner = fields_in kind (mods_inside mods k ps) ps in
        OnOk result (out.new.fields.items ≡ out.old.fields.items ++ node_fields kind mods k ps inner) }
    ensures methods { let t = tree.now in let ps = parts_at t bytes.now m.0 in let k = kind_of t.nodes m.0 in
        let inner = methods_in (mods_inside mods k ps) ps in
        OnOk result (out.new.methods.items ≡ out.old.methods.items ++ node_methods mods k ps inner) }
{
    let form = tree.kind(m);
    if form == MEMBER_REST {
        add_member(alloc, tree, bytes, m, kind, mods, names, out)?;
        return Ok(());
    }
    if form == ENUM_CONSTANT {
        out.fields.push(constant(alloc, tree, bytes, m, names)?)?;
        return Ok(());
    }
    if holds_members(form) {
        let inside = mods_inside(tree, m, mods);
        add_members(alloc, tree, bytes, m, kind, inside, names, out)?;
    }
    Ok(())
}
