// The package and the imports of a file.
ghost use Rattle.std.specs.Prelude.{◌≡◌, ◌<◌, ◌++◌, length, IfOk, OnOk, IfSome, false};
ghost use Rattle.std.specs.Option.{option_to_list};
ghost use Rattle.rw_base.specs.Arena.{end_of, kind_of};
ghost use Rattle.class_table.specs.Words.{parts_at};
ghost use Rattle.class_table.specs.Finding.{node_at, name_in};
ghost use Rattle.class_table.specs.Files.{text_in, parts_or_none, package_name, imported, import_of};
ghost use Rattle.class_table.specs.Files.{import_node, imports_in, file_context};

use crate::kinds::{IMPORT, PACKAGE, QUALIFIED_NAME};
use crate::lists::kept;
use crate::parts::{has, node_in, word_in};
use j_names::{ImportRow, UnitContext};
use java_lex::class::{ID, STAR, STATIC};
use jtypes::{Name, Names, SharedList};
use rw_base::{Mem, NodeId, Part, Text, Tree};
use std::alloc::Global;

// The name that an import names, and whether `.*` stands behind it.
#[derive(Debug, Drop)]
pub(crate) struct ImportName {
    pub name: Text,
    pub on_demand: bool,
}

// Appends the texts of the leaves among the parts of a node.
fn add_text(tree: &Tree, bytes: &[u8], n: NodeId, out: &mut Vec<u8>) -> Mem<()>
    requires node { n.0 < length tree.now.nodes }
    requires bytes { length bytes.now ≡ end_of tree.now }
    ensures { OnOk result (out.new.items ≡ out.old.items ++ text_in (parts_at tree.now bytes.now n.0)) }
{
    let parts = tree.parts(n);
    for part in parts {
        match part {
            Part::Node(_) => {}
            Part::Leaf(i) => {
                out.extend_from_slice(tree.text(bytes, *i))?;
            }
        }
    }
    Ok(())
}

// The qualified name in a node, the empty name where there is none.
fn qualified_name(
    alloc: Global,
    tree: &Tree,
    bytes: &[u8],
    n: Option<NodeId>,
    names: &mut Names,
) -> Mem<Name>
    requires node { IfSome n (λ m. m.0 < length tree.now.nodes) }
    requires bytes { length bytes.now ≡ end_of tree.now }
    ensures { IfOk result (λ name. name ≡ text_in (parts_or_none (node_at tree.now bytes.now n))) }
{
    let mut text = Vec::new(alloc);
    if let Some(m) = n {
        add_text(tree, bytes, m, &mut text)?;
    }
    names.name(alloc, &text)
}

// The name of the package of a file with this root.
#[tactic(auto, unfolding(crate::specs::Files::package_name))]
pub(crate) fn package_name(
    alloc: Global,
    tree: &Tree,
    bytes: &[u8],
    root: NodeId,
    names: &mut Names,
) -> Mem<Name>
    requires node { root.0 < length tree.now.nodes }
    requires bytes { length bytes.now ≡ end_of tree.now }
    ensures { IfOk result (λ name. name ≡ package_name (parts_at tree.now bytes.now root.0)) }
{
    match node_in(tree, root, PACKAGE) {
        None => names.name(alloc, &[]),
        Some(m) => qualified_name(alloc, tree, bytes, node_in(tree, m, QUALIFIED_NAME), names),
    }
}

// What stands behind the first identifier of an import, appended to it.
fn imported(
    alloc: Global,
    tree: &Tree,
    bytes: &[u8],
    n: NodeId,
    first: Vec<u8>,
) -> Mem<Option<ImportName>>
    requires node { n.0 < length tree.now.nodes }
    requires bytes { length bytes.now ≡ end_of tree.now }
    ensures { IfOk result (λ i. i ≡ imported false first.items (parts_at tree.now bytes.now n.0)) }
{
    let parts = tree.parts(n);
    let mut name = first;
    let mut on_demand = false;
    for part in parts {
        match part {
            Part::Leaf(_) => {}
            Part::Node(m) => {
                if on_demand {
                    return Ok(None);
                }
                if has(tree, *m, STAR) {
                    on_demand = true;
                } else {
                    add_text(tree, bytes, *m, &mut name)?;
                }
            }
        }
    }
    let name = Text::from_vec(name);
    Ok(Some(ImportName { name, on_demand }))
}

#[tactic(auto, unfolding(crate::specs::Files::import_of))]
fn import_of(
    alloc: Global,
    tree: &Tree,
    bytes: &[u8],
    n: NodeId,
    names: &mut Names,
) -> Mem<Option<ImportRow>>
    requires node { n.0 < length tree.now.nodes }
    requires bytes { length bytes.now ≡ end_of tree.now }
    ensures { IfOk result (λ row. option_to_list row ≡ import_of (parts_at tree.now bytes.now n.0)) }
{
    let mut first = Vec::new(alloc);
    if let Some(i) = word_in(tree, n, ID) {
        first.extend_from_slice(tree.text(bytes, i))?;
    }
    match imported(alloc, tree, bytes, n, first)? {
        None => Ok(None),
        Some(found) => Ok(Some(ImportRow {
            name: names.name(alloc, found.name.as_slice())?,
            is_static: has(tree, n, STATIC),
            on_demand: found.on_demand,
        })),
    }
}

// Appends the import that a node is, if it is one.
fn add_import(
    alloc: Global,
    tree: &Tree,
    bytes: &[u8],
    n: NodeId,
    names: &mut Names,
    out: &mut Vec<ImportRow>,
) -> Mem<()>
    requires node { n.0 < length tree.now.nodes }
    requires bytes { length bytes.now ≡ end_of tree.now }
    ensures { let t = tree.now in let more = import_node (kind_of t.nodes n.0) (parts_at t bytes.now n.0) in
        OnOk result (out.new.items ≡ out.old.items ++ more) }
{
    if tree.kind(n) != IMPORT {
        return Ok(());
    }
    match import_of(alloc, tree, bytes, n, names)? {
        None => Ok(()),
        Some(row) => {
            out.push(row)?;
            Ok(())
        }
    }
}

fn imports_in(
    alloc: Global,
    tree: &Tree,
    bytes: &[u8],
    n: NodeId,
    names: &mut Names,
) -> Mem<Vec<ImportRow>>
    requires node { n.0 < length tree.now.nodes }
    requires bytes { length bytes.now ≡ end_of tree.now }
    ensures { IfOk result (λ v. v.items ≡ imports_in (parts_at tree.now bytes.now n.0)) }
{
    let parts = tree.parts(n);
    let mut out = Vec::new(alloc);
    for part in parts {
        match part {
            Part::Leaf(_) => {}
            Part::Node(m) => add_import(alloc, tree, bytes, *m, names, &mut out)?,
        }
    }
    Ok(out)
}

// The context of a file with this root.
#[tactic(auto, unfolding(crate::specs::Files::file_context))]
pub(crate) fn file_context(
    alloc: Global,
    tree: &Tree,
    bytes: &[u8],
    root: NodeId,
    names: &mut Names,
) -> Mem<UnitContext>
    requires node { root.0 < length tree.now.nodes }
    requires bytes { length bytes.now ≡ end_of tree.now }
    ensures { IfOk result (λ cx. cx ≡ file_context (parts_at tree.now bytes.now root.0)) }
{
    Ok(UnitContext {
        package: package_name(alloc, tree, bytes, root, names)?,
        imports: kept(alloc, imports_in(alloc, tree, bytes, root, names)?)?,
        enclosing: SharedList::empty(),
    })
}
