// Types as they are written, and type parameters.
ghost use Rattle.std.specs.Prelude.{◌≡◌, ◌+◌, ◌<◌, ◌≤◌, ◌++◌, ◌^◌, length, drop, IfOk, IfSome};
ghost use Rattle.rw_base.specs.Arena.{end_of, parts_of, kind_of};
ghost use Rattle.class_table.specs.Words.{parts_at, trees_of};
ghost use Rattle.class_table.specs.Finding.{name_in, node_at, is_type};
ghost use Rattle.class_table.specs.TypesWritten.{prim_named, names_in, named, base_of, written, type_of, written_types};
ghost use Rattle.class_table.specs.TypesWritten.{type_at, listed, type_param, each_type_param};
ghost use Rattle.class_table.specs.TypesWritten.{type_params};

use crate::kinds::{DIMENSIONS, TYPE_PARAM, TYPE_PARAMS, TYPES};
use crate::lists::kept;
use crate::parts::{count_in, is_type, node_in, type_in, word_in};
use declared_types::{Base, NamePart, Written, WrittenParam};
use java_lex::class::{ID, PRIM};
use jtypes::{JPrim, Name, Names, SharedList};
use rw_base::{Mem, NodeId, Part, Tree};
use std::alloc::Global;

#[tactic(auto, unfolding(crate::specs::TypesWritten::prim_named))]
fn prim_named(text: &[u8]) -> JPrim
    ensures { result ≡ prim_named text.now }
{
    if text == b"boolean".as_slice() {
        JPrim::Boolean
    } else if text == b"byte".as_slice() {
        JPrim::Byte
    } else if text == b"short".as_slice() {
        JPrim::Short
    } else if text == b"char".as_slice() {
        JPrim::Char
    } else if text == b"int".as_slice() {
        JPrim::Int
    } else if text == b"long".as_slice() {
        JPrim::Long
    } else if text == b"float".as_slice() {
        JPrim::Float
    } else {
        JPrim::Double
    }
}

// The first identifier, the empty name where there is none.
pub(crate) fn name_in(
    alloc: Global,
    tree: &Tree,
    bytes: &[u8],
    n: NodeId,
    names: &mut Names,
) -> Mem<Name>
    requires node { n.0 < length tree.now.nodes }
    requires bytes { length bytes.now ≡ end_of tree.now }
    ensures { IfOk result (λ name. name ≡ name_in (parts_at tree.now bytes.now n.0)) }
{
    match word_in(tree, n, ID) {
        Some(i) => names.name(alloc, tree.text(bytes, i)),
        None => names.name(alloc, &[]),
    }
}

// The identifiers behind the first part.
fn later_names(
    alloc: Global,
    tree: &Tree,
    bytes: &[u8],
    n: NodeId,
    names: &mut Names,
) -> Mem<SharedList<NamePart>>
    requires node { n.0 < length tree.now.nodes }
    requires bytes { length bytes.now ≡ end_of tree.now }
    ensures { let t = tree.now in
        IfOk result (λ list. list ≡ names_in (trees_of t bytes.now (drop 1 (parts_of t.nodes n.0)))) }
{
    let parts = tree.parts(n);
    let mut out = Vec::new(alloc);
    for at in 1..parts.len() {
        match parts[at] {
            Part::Node(_) => {}
            Part::Leaf(i) => {
                if tree.leaf(i).class == ID {
                    let name = names.name(alloc, tree.text(bytes, i))?;
                    out.push(NamePart { name })?;
                }
            }
        }
    }
    kept(alloc, out)
}

fn named(alloc: Global, tree: &Tree, bytes: &[u8], n: NodeId, names: &mut Names) -> Mem<Base>
    requires node { n.0 < length tree.now.nodes }
    requires bytes { length bytes.now ≡ end_of tree.now }
    ensures { IfOk result (λ base. base ≡ named (parts_at tree.now bytes.now n.0)) }
{
    let parts = tree.parts(n);
    if parts.is_empty() {
        return Ok(Base::Void);
    }
    match parts[0] {
        Part::Node(_) => Ok(Base::Void),
        Part::Leaf(i) => {
            let name = names.name(alloc, tree.text(bytes, i))?;
            let others = later_names(alloc, tree, bytes, n, names)?;
            Ok(Base::Named(NamePart { name }, others))
        }
    }
}

fn base_of(alloc: Global, tree: &Tree, bytes: &[u8], n: NodeId, names: &mut Names) -> Mem<Base>
    requires node { n.0 < length tree.now.nodes }
    requires bytes { length bytes.now ≡ end_of tree.now }
    ensures { IfOk result (λ base. base ≡ base_of (parts_at tree.now bytes.now n.0)) }
{
    let parts = tree.parts(n);
    if parts.is_empty() {
        return Ok(Base::Void);
    }
    match parts[0] {
        Part::Node(m) => named(alloc, tree, bytes, m, names),
        Part::Leaf(i) => {
            if tree.leaf(i).class == PRIM {
                return Ok(Base::Prim(prim_named(tree.text(bytes, i))));
            }
            named(alloc, tree, bytes, n, names)
        }
    }
}

// A type, with so many more dimensions.
fn written(
    alloc: Global,
    tree: &Tree,
    bytes: &[u8],
    n: NodeId,
    more: usize,
    names: &mut Names,
) -> Mem<Written>
    requires node { n.0 < length tree.now.nodes }
    requires bytes { length bytes.now ≡ end_of tree.now }
    requires more { more ≤ 2 ^ 61 }
    ensures { let t = tree.now in
        IfOk result (λ w. w ≡ written more (kind_of t.nodes n.0, parts_at t bytes.now n.0)) }
{
    let base = base_of(alloc, tree, bytes, n, names)?;
    let dims = count_in(tree, n, DIMENSIONS) + more;
    Ok(Written { base, dims })
}

// The first type, with so many more dimensions.
pub(crate) fn type_of(
    alloc: Global,
    tree: &Tree,
    bytes: &[u8],
    n: NodeId,
    more: usize,
    names: &mut Names,
) -> Mem<Written>
    requires node { n.0 < length tree.now.nodes }
    requires bytes { length bytes.now ≡ end_of tree.now }
    requires more { more ≤ 2 ^ 61 }
    ensures { IfOk result (λ w. w ≡ type_of more (parts_at tree.now bytes.now n.0)) }
{
    match type_in(tree, n) {
        Some(m) => written(alloc, tree, bytes, m, more, names),
        None => Ok(Written {
            base: Base::Void,
            dims: 0,
        }),
    }
}

fn written_types(
    alloc: Global,
    tree: &Tree,
    bytes: &[u8],
    n: NodeId,
    names: &mut Names,
) -> Mem<Vec<Written>>
    requires node { n.0 < length tree.now.nodes }
    requires bytes { length bytes.now ≡ end_of tree.now }
    ensures { IfOk result (λ v. v.items ≡ written_types (parts_at tree.now bytes.now n.0)) }
{
    let parts = tree.parts(n);
    let mut out = Vec::new(alloc);
    for part in parts {
        match part {
            Part::Leaf(_) => {}
            Part::Node(m) => {
                if is_type(tree.kind(*m)) {
                    out.push(written(alloc, tree, bytes, *m, 0, names)?)?;
                }
            }
        }
    }
    Ok(out)
}

// The types of a list, or the one that stands alone.
pub(crate) fn listed(
    alloc: Global,
    tree: &Tree,
    bytes: &[u8],
    list: Option<NodeId>,
    names: &mut Names,
) -> Mem<SharedList<Written>>
    requires node { IfSome list (λ n. n.0 < length tree.now.nodes) }
    requires bytes { length bytes.now ≡ end_of tree.now }
    ensures { IfOk result (λ types. types ≡ listed (node_at tree.now bytes.now list)) }
{
    match list {
        None => Ok(SharedList::empty()),
        Some(n) => {
            if tree.kind(n) == TYPES {
                return kept(alloc, written_types(alloc, tree, bytes, n, names)?);
            }
            let lone = written(alloc, tree, bytes, n, 0, names)?;
            kept(alloc, vec![in alloc; lone]?)
        }
    }
}

// The type of a node, if there is one.
pub(crate) fn type_at(
    alloc: Global,
    tree: &Tree,
    bytes: &[u8],
    bound: Option<NodeId>,
    names: &mut Names,
) -> Mem<Option<Written>>
    requires node { IfSome bound (λ n. n.0 < length tree.now.nodes) }
    requires bytes { length bytes.now ≡ end_of tree.now }
    ensures { IfOk result (λ w. w ≡ type_at (node_at tree.now bytes.now bound)) }
{
    match bound {
        None => Ok(None),
        Some(n) => Ok(Some(written(alloc, tree, bytes, n, 0, names)?)),
    }
}

fn type_param(
    alloc: Global,
    tree: &Tree,
    bytes: &[u8],
    n: NodeId,
    names: &mut Names,
) -> Mem<WrittenParam>
    requires node { n.0 < length tree.now.nodes }
    requires bytes { length bytes.now ≡ end_of tree.now }
    ensures { IfOk result (λ p. p ≡ type_param (parts_at tree.now bytes.now n.0)) }
{
    let name = name_in(alloc, tree, bytes, n, names)?;
    let bound = type_at(alloc, tree, bytes, type_in(tree, n), names)?;
    Ok(WrittenParam { name, bound })
}

fn each_type_param(
    alloc: Global,
    tree: &Tree,
    bytes: &[u8],
    n: NodeId,
    names: &mut Names,
) -> Mem<Vec<WrittenParam>>
    requires node { n.0 < length tree.now.nodes }
    requires bytes { length bytes.now ≡ end_of tree.now }
    ensures { IfOk result (λ v. v.items ≡ each_type_param (parts_at tree.now bytes.now n.0)) }
{
    let parts = tree.parts(n);
    let mut out = Vec::new(alloc);
    for part in parts {
        match part {
            Part::Leaf(_) => {}
            Part::Node(m) => {
                if tree.kind(*m) == TYPE_PARAM {
                    out.push(type_param(alloc, tree, bytes, *m, names)?)?;
                }
            }
        }
    }
    Ok(out)
}

// The type parameters of a declaration.
pub(crate) fn type_params(
    alloc: Global,
    tree: &Tree,
    bytes: &[u8],
    n: NodeId,
    names: &mut Names,
) -> Mem<SharedList<WrittenParam>>
    requires node { n.0 < length tree.now.nodes }
    requires bytes { length bytes.now ≡ end_of tree.now }
    ensures { IfOk result (λ params. params ≡ type_params (parts_at tree.now bytes.now n.0)) }
{
    match node_in(tree, n, TYPE_PARAMS) {
        None => Ok(SharedList::empty()),
        Some(m) => kept(alloc, each_type_param(alloc, tree, bytes, m, names)?),
    }
}
