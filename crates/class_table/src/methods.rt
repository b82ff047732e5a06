// Methods and constructors as they are written.
ghost use Rattle.std.specs.Prelude.{◌≡◌, ◌<◌, ◌≤◌, ◌++◌, ◌^◌, List, ℕ, [], ◌∷◌, length, IfOk, OnOk, false, true};
ghost use Rattle.rw_base.specs.Arena.{end_of};
ghost use Rattle.class_table.specs.Words.{parts_at};
ghost use Rattle.class_table.specs.Members.{typed, headed, opened, param, params_in, varargs_in, method, methods_of};
ghost use Rattle.class_table.specs.Members.{dims_behind, method_name, method_result};

use crate::kinds::{AFTER_GENERIC, AFTER_TYPE, DIMENSIONS, GENERIC, METHOD, PARAM};
use crate::lists::kept;
use crate::modifiers::Mods;
use crate::parts::{count_in, has, node_in};
use crate::types::{name_in, type_of, type_params};
use declared_types::{Base, Written, WrittenMethod};
use java_lex::class::{ELLIPSIS, ID};
use jtypes::{Name, Names};
use rw_base::{Mem, NodeId, Part, Tree};
use std::alloc::Global;

// The name of constructors.
const CONSTRUCTOR_NAME: &[u8] = b"<constructor>";

// The first node of a kind, or the node itself where there is none.
fn opened(tree: &Tree, n: NodeId, kind: u16) -> NodeId
    requires { n.0 < length tree.now.nodes }
    ensures parts { (bytes : List ℕ) →
        parts_at tree.now bytes result.0 ≡ opened kind (parts_at tree.now bytes n.0) }
    ensures inside { result.0 ≤ n.0 }
{
    match node_in(tree, n, kind) {
        Some(m) => m,
        None => n,
    }
}

// Where the type of a member stands.
pub(crate) fn typed(tree: &Tree, n: NodeId) -> NodeId
    requires { n.0 < length tree.now.nodes }
    ensures parts { (bytes : List ℕ) → parts_at tree.now bytes result.0 ≡ typed (parts_at tree.now bytes n.0) }
    ensures inside { result.0 ≤ n.0 }
{
    opened(tree, n, GENERIC)
}

// Where the name of a member stands, with a method or field behind it.
pub(crate) fn headed(tree: &Tree, n: NodeId) -> NodeId
    requires { n.0 < length tree.now.nodes }
    ensures parts { (bytes : List ℕ) → parts_at tree.now bytes result.0 ≡ headed (parts_at tree.now bytes n.0) }
    ensures inside { result.0 ≤ n.0 }
{
    opened(
        tree,
        opened(tree, typed(tree, n), AFTER_GENERIC),
        AFTER_TYPE,
    )
}

// How many dimensions stand behind the type of a parameter.
fn dims_behind(tree: &Tree, n: NodeId) -> usize
    requires { n.0 < length tree.now.nodes }
    ensures count { (bytes : List ℕ) → result ≡ dims_behind (parts_at tree.now bytes n.0) }
    ensures few { result ≤ 2 ^ 61 }
{
    let dots = if has(tree, n, ELLIPSIS) { 1 } else { 0 };
    count_in(tree, n, DIMENSIONS) + dots
}

fn param(alloc: Global, tree: &Tree, bytes: &[u8], n: NodeId, names: &mut Names) -> Mem<Written>
    requires node { n.0 < length tree.now.nodes }
    requires bytes { length bytes.now ≡ end_of tree.now }
    ensures { IfOk result (λ w. w ≡ param (parts_at tree.now bytes.now n.0)) }
{
    type_of(alloc, tree, bytes, n, dims_behind(tree, n), names)
}

fn params_in(
    alloc: Global,
    tree: &Tree,
    bytes: &[u8],
    n: NodeId,
    names: &mut Names,
) -> Mem<Vec<Written>>
    requires node { n.0 < length tree.now.nodes }
    requires bytes { length bytes.now ≡ end_of tree.now }
    ensures { IfOk result (λ v. v.items ≡ params_in (parts_at tree.now bytes.now n.0)) }
{
    let parts = tree.parts(n);
    let mut out = Vec::new(alloc);
    for part in parts {
        match part {
            Part::Leaf(_) => {}
            Part::Node(m) => {
                if tree.kind(*m) == PARAM {
                    out.push(param(alloc, tree, bytes, *m, names)?)?;
                }
            }
        }
    }
    Ok(out)
}

// Whether the last parameter has `...`.
fn varargs_in(tree: &Tree, n: NodeId) -> bool
    requires { n.0 < length tree.now.nodes }
    ensures { (bytes : List ℕ) → result ≡ varargs_in false (parts_at tree.now bytes n.0) }
{
    let parts = tree.parts(n);
    let mut last = false;
    for part in parts {
        match part {
            Part::Leaf(_) => {}
            Part::Node(m) => {
                if tree.kind(*m) == PARAM {
                    last = has(tree, *m, ELLIPSIS);
                }
            }
        }
    }
    last
}

// The name of a method, or that of constructors.
#[tactic(auto, unfolding(j_names::specs::Calls::constructor_name))]
fn method_name(
    alloc: Global,
    tree: &Tree,
    bytes: &[u8],
    head: NodeId,
    is_named: bool,
    names: &mut Names,
) -> Mem<Name>
    requires node { head.0 < length tree.now.nodes }
    requires bytes { length bytes.now ≡ end_of tree.now }
    ensures { IfOk result (λ name. name ≡ method_name is_named (parts_at tree.now bytes.now head.0)) }
{
    if is_named {
        return name_in(alloc, tree, bytes, head, names);
    }
    names.name(alloc, CONSTRUCTOR_NAME)
}

// The result of a method, nothing for a constructor.
fn method_result(
    alloc: Global,
    tree: &Tree,
    bytes: &[u8],
    at: NodeId,
    is_named: bool,
    names: &mut Names,
) -> Mem<Written>
    requires node { at.0 < length tree.now.nodes }
    requires bytes { length bytes.now ≡ end_of tree.now }
    ensures { IfOk result (λ w. w ≡ method_result is_named (parts_at tree.now bytes.now at.0)) }
{
    if is_named {
        return type_of(alloc, tree, bytes, at, 0, names);
    }
    Ok(Written {
        base: Base::Void,
        dims: 0,
    })
}

// A method by its member and its Method.
fn method(
    alloc: Global,
    tree: &Tree,
    bytes: &[u8],
    n: NodeId,
    m: NodeId,
    mods: Mods,
    names: &mut Names,
) -> Mem<WrittenMethod>
    requires node { n.0 < length tree.now.nodes }
    requires method { m.0 < length tree.now.nodes }
    requires bytes { length bytes.now ≡ end_of tree.now }
    ensures { let t = tree.now in let b = bytes.now in
        IfOk result (λ w. w ≡ method mods (parts_at t b n.0) (parts_at t b m.0)) }
{
    let head = headed(tree, n);
    let is_named = has(tree, head, ID);
    let name = method_name(alloc, tree, bytes, head, is_named, names)?;
    let type_params = type_params(alloc, tree, bytes, n, names)?;
    let params = kept(alloc, params_in(alloc, tree, bytes, m, names)?)?;
    let result = method_result(alloc, tree, bytes, typed(tree, n), is_named, names)?;
    Ok(WrittenMethod {
        name,
        type_params,
        params,
        result,
        varargs: varargs_in(tree, m),
        is_static: is_named && mods.is_static,
        is_private: mods.is_private,
    })
}

// Appends the method of a member, if it is one.
pub(crate) fn add_method(
    alloc: Global,
    tree: &Tree,
    bytes: &[u8],
    n: NodeId,
    mods: Mods,
    names: &mut Names,
    out: &mut Vec<WrittenMethod>,
) -> Mem<()>
    requires node { n.0 < length tree.now.nodes }
    requires bytes { length bytes.now ≡ end_of tree.now }
    ensures { OnOk result (out.new.items ≡ out.old.items ++ methods_of mods (parts_at tree.now bytes.now n.0)) }
{
    match node_in(tree, headed(tree, n), METHOD) {
        None => Ok(()),
        Some(m) => {
            out.push(method(alloc, tree, bytes, n, m, mods, names)?)?;
            Ok(())
        }
    }
}
