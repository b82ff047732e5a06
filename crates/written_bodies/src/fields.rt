// The fields that a body declares.
ghost use Rattle.std.specs.Prelude.{◌≡◌, ◌<◌, ◌++◌, length, All, IfOk, OnOk};
ghost use Rattle.rw_base.specs.Arena.{AreBelow, kind_of};
ghost use Rattle.rw_base.specs.Laid.{forest_of};
ghost use Rattle.written_bodies.specs.Bodies.{name_in, named_fields, more_fields, declared_fields, fields_behind};
ghost use Rattle.written_bodies.specs.Bodies.{fields_of_member, fields_in, IsFieldOf};

use crate::kinds::{AFTER_TYPE, DECLARATOR, DIMENSIONS, FIELD, MEMBER, MEMBER_REST};
use java_nodes::{count_of, first_name};
use rw_base::{Mem, NodeId, Part, Tree};
use sqlite_items::Items;
use std::alloc::Global;

/// A field as it is written: its name by the number of its leaf, how many pairs of brackets stand behind the name, and
/// the node of its type with the kind of that node. Brackets of the type itself are in that node.
#[derive(Clone, Copy, Debug, PartialEq, Eq)]
pub struct WrittenField {
    pub name: u32,
    pub dims: usize,
    pub ty: NodeId,
    pub kind: u16,
}

// Appends the field whose name stands among these parts, if there is one; the brackets behind it stand among those.
#[tactic(auto, using(crate::proofs::Inside::named_inside))]
fn add_named(
    tree: &Tree,
    parts: &[Part],
    brackets: &[Part],
    ty: NodeId,
    out: &mut Items<WrittenField>,
) -> Mem<()>
    requires parts { AreBelow (length tree.now.leaves) (length tree.now.nodes) parts.now }
    requires brackets { AreBelow (length tree.now.leaves) (length tree.now.nodes) brackets.now }
    requires ty { ty.0 < length tree.now.nodes }
    ensures fields { let rows = tree.now.nodes in let names = name_in tree.now.leaves (forest_of rows parts.now) in
        let brackets = forest_of rows brackets.now in
        OnOk result (out.new ≡ out.old ++ named_fields ty.0 (kind_of rows ty.0) brackets names) }
    ensures inside { let rows = tree.now.nodes in let names = name_in tree.now.leaves (forest_of rows parts.now) in
        let brackets = forest_of rows brackets.now in
        OnOk result (All (IsFieldOf tree.now) (named_fields ty.0 (kind_of rows ty.0) brackets names)) }
{
    if let Some(name) = first_name(tree, parts) {
        out.push(WrittenField {
            name,
            dims: count_of(tree, brackets, DIMENSIONS),
            ty,
            kind: tree.kind(ty),
        })?;
    }
    Ok(())
}

// Appends the fields behind the first of a declaration.
fn add_more(tree: &Tree, parts: &[Part], ty: NodeId, out: &mut Items<WrittenField>) -> Mem<()>
    requires parts { AreBelow (length tree.now.leaves) (length tree.now.nodes) parts.now }
    requires ty { ty.0 < length tree.now.nodes }
    ensures fields { let rows = tree.now.nodes in let trees = forest_of rows parts.now in
        OnOk result (out.new ≡ out.old ++ more_fields tree.now.leaves ty.0 (kind_of rows ty.0) trees) }
    ensures inside { let rows = tree.now.nodes in let trees = forest_of rows parts.now in
        OnOk result (All (IsFieldOf tree.now) (more_fields tree.now.leaves ty.0 (kind_of rows ty.0) trees)) }
{
    for part in parts {
        match part {
            Part::Leaf(_) => {}
            Part::Node(m) => {
                if tree.kind(*m) == DECLARATOR {
                    let own = tree.parts(*m);
                    add_named(tree, own, own, ty, out)?;
                }
            }
        }
    }
    Ok(())
}

// Appends the fields of a declaration, by the parts that stand behind its type.
fn add_declared(tree: &Tree, parts: &[Part], ty: NodeId, out: &mut Items<WrittenField>) -> Mem<()>
    requires parts { AreBelow (length tree.now.leaves) (length tree.now.nodes) parts.now }
    requires ty { ty.0 < length tree.now.nodes }
    ensures fields { let t = tree.now in let trees = forest_of t.nodes parts.now in
        let names = name_in t.leaves trees in
        OnOk result (out.new ≡ out.old ++ declared_fields t.leaves ty.0 (kind_of t.nodes ty.0) names trees) }
    ensures inside { let t = tree.now in let trees = forest_of t.nodes parts.now in
        let names = name_in t.leaves trees in
        OnOk result (All (IsFieldOf t) (declared_fields t.leaves ty.0 (kind_of t.nodes ty.0) names trees)) }
{
    for part in parts {
        match part {
            Part::Leaf(_) => {}
            Part::Node(m) => {
                if tree.kind(*m) == FIELD {
                    let own = tree.parts(*m);
                    add_named(tree, parts, own, ty, out)?;
                    add_more(tree, own, ty, out)?;
                }
            }
        }
    }
    Ok(())
}

// Appends the fields of a type, by the parts behind it in its member.
fn add_behind_type(
    tree: &Tree,
    parts: &[Part],
    ty: NodeId,
    out: &mut Items<WrittenField>,
) -> Mem<()>
    requires parts { AreBelow (length tree.now.leaves) (length tree.now.nodes) parts.now }
    requires ty { ty.0 < length tree.now.nodes }
    ensures fields { let rows = tree.now.nodes in let trees = forest_of rows parts.now in
        OnOk result (out.new ≡ out.old ++ fields_behind tree.now.leaves ty.0 (kind_of rows ty.0) trees) }
    ensures inside { let rows = tree.now.nodes in let trees = forest_of rows parts.now in
        OnOk result (All (IsFieldOf tree.now) (fields_behind tree.now.leaves ty.0 (kind_of rows ty.0) trees)) }
{
    for part in parts {
        match part {
            Part::Leaf(_) => {}
            Part::Node(m) => {
                if tree.kind(*m) == AFTER_TYPE {
                    add_declared(tree, tree.parts(*m), ty, out)?;
                }
            }
        }
    }
    Ok(())
}

// Appends the fields of a member without its modifiers.
fn add_rest(tree: &Tree, parts: &[Part], out: &mut Items<WrittenField>) -> Mem<()>
    requires { AreBelow (length tree.now.leaves) (length tree.now.nodes) parts.now }
    ensures fields { let trees = forest_of tree.now.nodes parts.now in
        OnOk result (out.new ≡ out.old ++ fields_of_member tree.now.leaves trees) }
    ensures inside { let trees = forest_of tree.now.nodes parts.now in
        OnOk result (All (IsFieldOf tree.now) (fields_of_member tree.now.leaves trees)) }
{
    let Some((first, behind)) = parts.split_first() else {
        return Ok(());
    };
    match first {
        Part::Leaf(_) => Ok(()),
        Part::Node(ty) => {
            add_behind_type(tree, behind, *ty, out)?;
            Ok(())
        }
    }
}

// Appends the fields among some parts.
fn add_fields(tree: &Tree, parts: &[Part], out: &mut Items<WrittenField>) -> Mem<()>
    requires { AreBelow (length tree.now.leaves) (length tree.now.nodes) parts.now }
    ensures fields { let trees = forest_of tree.now.nodes parts.now in
        OnOk result (out.new ≡ out.old ++ fields_in tree.now.leaves trees) }
    ensures inside { let trees = forest_of tree.now.nodes parts.now in
        OnOk result (All (IsFieldOf tree.now) (fields_in tree.now.leaves trees)) }
{
    for part in parts {
        match part {
            Part::Leaf(_) => {}
            Part::Node(m) => {
                let kind = tree.kind(*m);
                if kind == MEMBER {
                    add_fields(tree, tree.parts(*m), out)?;
                } else if kind == MEMBER_REST {
                    add_rest(tree, tree.parts(*m), out)?;
                }
            }
        }
    }
    Ok(())
}

/// The fields that a body declares, in order, those behind the first of a declaration too (JLS 8.3, 9.3).
pub fn fields_in(alloc: Global, tree: &Tree, parts: &[Part]) -> Mem<Items<WrittenField>>
    requires { AreBelow (length tree.now.leaves) (length tree.now.nodes) parts.now }
    ensures fields { IfOk result (λ fields. fields ≡ fields_in tree.now.leaves (forest_of tree.now.nodes parts.now)) }
    ensures inside { IfOk result (λ fields. All (IsFieldOf tree.now) fields) }
{
    let mut fields = Items::new(alloc);
    add_fields(tree, parts, &mut fields)?;
    Ok(fields)
}
