// Fields and enum constants as they are written.
ghost use Rattle.std.specs.Prelude.{◌≡◌, ◌<◌, ◌++◌, ◌∷◌, [], length, IfOk, OnOk};
ghost use Rattle.rw_base.specs.Arena.{end_of};
ghost use Rattle.class_table.specs.Words.{parts_at};
ghost use Rattle.class_table.specs.Finding.{name_in, count_in};
ghost use Rattle.class_table.specs.TypesWritten.{type_of};
ghost use Rattle.class_table.specs.Members.{field, declarators_in, fields_of, constant};

use crate::kinds::{DECLARATOR, DIMENSIONS, FIELD};
use crate::methods::{headed, typed};
use crate::modifiers::Mods;
use crate::parts::{count_in, node_in};
use crate::types::{name_in, type_of};
use declared_types::{Base, Written, WrittenField};
use jtypes::Names;
use rw_base::{Mem, NodeId, Part, Tree};
use std::alloc::Global;

// The field whose name stands among the parts of one node, the brackets behind it among those of a second, and the
// type among those of a third.
fn field(
    alloc: Global,
    tree: &Tree,
    bytes: &[u8],
    name: NodeId,
    brackets: NodeId,
    at: NodeId,
    mods: Mods,
    names: &mut Names,
) -> Mem<WrittenField>
    requires name { name.0 < length tree.now.nodes }
    requires brackets { brackets.0 < length tree.now.nodes }
    requires at { at.0 < length tree.now.nodes }
    requires bytes { length bytes.now ≡ end_of tree.now }
    ensures { let t = tree.now in let b = bytes.now in
        let dims = count_in DIMENSIONS (parts_at t b brackets.0) in
        IfOk result (λ w. w ≡ field mods (name_in (parts_at t b name.0)) (type_of dims (parts_at t b at.0))) }
{
    let dims = count_in(tree, brackets, DIMENSIONS);
    let name = name_in(alloc, tree, bytes, name, names)?;
    let ty = type_of(alloc, tree, bytes, at, dims, names)?;
    Ok(WrittenField {
        name,
        ty,
        is_static: mods.is_static,
        is_private: mods.is_private,
    })
}

// Appends the fields behind the first of a declaration.
fn add_declarators(
    alloc: Global,
    tree: &Tree,
    bytes: &[u8],
    n: NodeId,
    at: NodeId,
    mods: Mods,
    names: &mut Names,
    out: &mut Vec<WrittenField>,
) -> Mem<()>
    requires node { n.0 < length tree.now.nodes }
    requires at { at.0 < length tree.now.nodes }
    requires bytes { length bytes.now ≡ end_of tree.now }
    ensures { let t = tree.now in let b = bytes.now in
        OnOk result (out.new.items ≡ out.old.items ++ declarators_in mods (parts_at t b at.0) (parts_at t b n.0)) }
{
    let parts = tree.parts(n);
    for part in parts {
        match part {
            Part::Leaf(_) => {}
            Part::Node(m) => {
                if tree.kind(*m) == DECLARATOR {
                    out.push(field(alloc, tree, bytes, *m, *m, at, mods, names)?)?;
                }
            }
        }
    }
    Ok(())
}

// Appends the fields of a member, if it declares some.
pub(crate) fn add_fields(
    alloc: Global,
    tree: &Tree,
    bytes: &[u8],
    n: NodeId,
    mods: Mods,
    names: &mut Names,
    out: &mut Vec<WrittenField>,
) -> Mem<()>
    requires node { n.0 < length tree.now.nodes }
    requires bytes { length bytes.now ≡ end_of tree.now }
    ensures { OnOk result (out.new.items ≡ out.old.items ++ fields_of mods (parts_at tree.now bytes.now n.0)) }
{
    let head = headed(tree, n);
    match node_in(tree, head, FIELD) {
        None => Ok(()),
        Some(m) => {
            let at = typed(tree, n);
            out.push(field(alloc, tree, bytes, head, m, at, mods, names)?)?;
            add_declarators(alloc, tree, bytes, m, at, mods, names, out)?;
            Ok(())
        }
    }
}

// An enum constant.
pub(crate) fn constant(
    alloc: Global,
    tree: &Tree,
    bytes: &[u8],
    n: NodeId,
    names: &mut Names,
) -> Mem<WrittenField>
    requires node { n.0 < length tree.now.nodes }
    requires bytes { length bytes.now ≡ end_of tree.now }
    ensures { IfOk result (λ w. w ≡ constant (parts_at tree.now bytes.now n.0)) }
{
    Ok(WrittenField {
        name: name_in(alloc, tree, bytes, n, names)?,
        ty: Written {
            base: Base::Itself,
            dims: 0,
        },
        is_static: true,
        is_private: false,
    })
}
