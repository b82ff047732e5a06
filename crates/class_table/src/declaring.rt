// The declared types of a file.
ghost use Rattle.std.specs.Prelude.{◌≡◌, ◌<◌, ◌++◌, ◌∷◌, [], List, ℕ, length, IfOk, OnOk};
ghost use Rattle.rw_base.specs.Arena.{end_of, kind_of};
ghost use Rattle.class_table.specs.Words.{parts_at};
ghost use Rattle.class_table.specs.Declarations.{declared, class_kind};
ghost use Rattle.class_table.specs.Declarations.{has_mods, holds_types, private_inside, around_in, node_types};
ghost use Rattle.class_table.specs.Declarations.{types_in, outermost, skeleton_of, qualified, inside};
ghost use Rattle.class_table.specs.TypesWritten.{type_params};

use crate::around::{Around, inside};
use crate::assembling::declared;
use crate::file::file_context;
use crate::kinds::{ANNOTATION_TYPE, BODY, CLASS, ENUM, INTERFACE, MEMBER, TYPE_DECL};
use crate::lists::kept;
use crate::modifiers::says;
use declared_types::{DeclaredType, Skeleton};
use java_lex::class::PRIVATE;
use jtypes::{ClassKind, Names, SharedList};
use rw_base::{Mem, NodeId, Part, Tree};
use std::alloc::Global;

// The kind of type that a node of a kind declares.
#[tactic(auto, unfolding(crate::specs::Declarations::class_kind))]
fn class_kind(kind: u16) -> Option<ClassKind>
    ensures { result ≡ class_kind kind }
{
    if kind == CLASS {
        Some(ClassKind::Class)
    } else if kind == INTERFACE {
        Some(ClassKind::Interface)
    } else if kind == ENUM {
        Some(ClassKind::Enum)
    } else if kind == ANNOTATION_TYPE {
        Some(ClassKind::Annotation)
    } else {
        None
    }
}

fn has_mods(kind: u16) -> bool
    ensures { result ≡ has_mods kind }
{
    kind == TYPE_DECL || kind == MEMBER
}

fn holds_types(kind: u16) -> bool
    ensures { result ≡ holds_types kind }
{
    has_mods(kind) || kind == BODY
}

// Whether the types right inside a node are private.
#[tactic(auto, unfolding(crate::specs::Declarations::private_inside))]
fn private_inside(tree: &Tree, n: NodeId) -> bool
    requires { n.0 < length tree.now.nodes }
    ensures { (bytes : List ℕ) →
        result ≡ private_inside (kind_of tree.now.nodes n.0) (parts_at tree.now bytes n.0) }
{
    has_mods(tree.kind(n)) && says(tree, n, PRIVATE)
}

// Appends a type, and gives what is around its members.
#[tactic(auto, unfolding(crate::specs::Declarations::declared))]
fn push_type(
    alloc: Global,
    tree: &Tree,
    bytes: &[u8],
    n: NodeId,
    kind: ClassKind,
    around: &Around,
    is_private: bool,
    names: &mut Names,
    out: &mut Vec<DeclaredType>,
) -> Mem<Around>
    requires node { n.0 < length tree.now.nodes }
    requires bytes { length bytes.now ≡ end_of tree.now }
    ensures row { let d = declared around.now is_private kind (parts_at tree.now bytes.now n.0) in
        IfOk result (λ a. out.new.items ≡ out.old.items ++ d ∷ []) }
    ensures inside { let ps = parts_at tree.now bytes.now n.0 in
        IfOk result (λ a. a ≡ inside around.now (qualified around.now ps) (type_params ps)) }
{
    let row = declared(alloc, tree, bytes, n, kind, around, is_private, names)?;
    let inner = inside(alloc, around, &row.name, &row.type_params)?;
    out.push(row)?;
    Ok(inner)
}

// Appends the declared types among a node's parts.
#[cycle(types)]
fn add_types(
    alloc: Global,
    tree: &Tree,
    bytes: &[u8],
    n: NodeId,
    around: &Around,
    is_private: bool,
    names: &mut Names,
    out: &mut Vec<DeclaredType>,
) -> Mem<()>
    requires node { n.0 < length tree.now.nodes }
    requires bytes { length bytes.now ≡ end_of tree.now }
    ensures { let more = types_in around.now is_private (parts_at tree.now bytes.now n.0) in
        OnOk result (out.new.items ≡ out.old.items ++ more) }
{
    let parts = tree.parts(n);
    for part in parts {
        match part {
            Part::Leaf(_) => {}
            Part::Node(m) => add_node(alloc, tree, bytes, n, *m, around, is_private, names, out)?,
        }
    }
    Ok(())
}

// Appends those of a part.
#[cycle(types)]
fn add_node(
    alloc: Global,
    tree: &Tree,
    bytes: &[u8],
    n: NodeId,
    m: NodeId,
    around: &Around,
    is_private: bool,
    names: &mut Names,
    out: &mut Vec<DeclaredType>,
) -> Mem<()>
    requires node { n.0 < length tree.now.nodes }
    requires part { m.0 < n.0 }
    requires bytes { length bytes.now ≡ end_of tree.now }
    ensures { let ps = parts_at tree.now bytes.now m.0 in let k = kind_of tree.now.nodes m.0 in
        let inner = types_in (around_in around.now (class_kind k) ps) (private_inside k ps) ps in
        let more = node_types around.now is_private k (class_kind k) ps inner in
        OnOk result (out.new.items ≡ out.old.items ++ more) }
{
    let form = tree.kind(m);
    let are_private = private_inside(tree, m);
    match class_kind(form) {
        Some(kind) => {
            let inner = push_type(alloc, tree, bytes, m, kind, around, is_private, names, out)?;
            add_types(alloc, tree, bytes, m, &inner, are_private, names, out)?;
            Ok(())
        }
        None => {
            if !holds_types(form) {
                return Ok(());
            }
            add_types(alloc, tree, bytes, m, around, are_private, names, out)?;
            Ok(())
        }
    }
}

// The place of the types of a file.
#[tactic(auto, unfolding(crate::specs::Files::file_context))]
fn outermost(
    alloc: Global,
    tree: &Tree,
    bytes: &[u8],
    root: NodeId,
    names: &mut Names,
) -> Mem<Around>
    requires node { root.0 < length tree.now.nodes }
    requires bytes { length bytes.now ≡ end_of tree.now }
    ensures { IfOk result (λ a. a ≡ outermost (parts_at tree.now bytes.now root.0)) }
{
    let cx = file_context(alloc, tree, bytes, root, names)?;
    Ok(Around {
        within: cx.package.copy()?,
        cx,
        top: None,
        scopes: SharedList::empty(),
    })
}

// Appends the declared types of a file.
#[tactic(auto, unfolding(crate::specs::Declarations::skeleton_of))]
pub(crate) fn add_declared(
    alloc: Global,
    tree: &Tree,
    bytes: &[u8],
    names: &mut Names,
    out: &mut Vec<DeclaredType>,
) -> Mem<()>
    requires bytes { length bytes.now ≡ end_of tree.now }
    ensures { let more = skeleton_of (parts_at tree.now bytes.now tree.now.root) in
        OnOk result (out.new.items ≡ out.old.items ++ more) }
{
    let root = tree.root();
    let around = outermost(alloc, tree, bytes, root, names)?;
    add_types(alloc, tree, bytes, root, &around, false, names, out)?;
    Ok(())
}

/// The skeleton of a Java file: its declared types as written, in the order of the text (JLS 7.6, 8.1, 8.5, 8.9, 9.1,
/// 9.5, 9.6). `bytes` are those that `tree` was read from, and `names` keeps the names. It goes over the tree of the
/// declarations and enters no body of a method. Refused where memory is wanting.
pub fn skeleton(alloc: Global, tree: &Tree, bytes: &[u8], names: &mut Names) -> Mem<Skeleton>
    requires bytes { length bytes.now ≡ end_of tree.now }
    ensures types { IfOk result (λ s. s.types ≡ skeleton_of (parts_at tree.now bytes.now tree.now.root)) }
{
    let mut types = Vec::new(alloc);
    add_declared(alloc, tree, bytes, names, &mut types)?;
    Ok(Skeleton {
        types: kept(alloc, types)?,
    })
}
