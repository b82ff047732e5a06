// The methods and the classes that a body declares.
ghost use Rattle.std.specs.Prelude.{◌≡◌, ◌<◌, ◌++◌, length, All, IfOk, OnOk};
ghost use Rattle.rw_base.specs.Arena.{AreBelow};
ghost use Rattle.rw_base.specs.Laid.{forest_of};
ghost use Rattle.written_bodies.specs.Bodies.{name_in, has_method, is_class, classes_in};
ghost use Rattle.written_bodies.specs.Bodies.{is_around_name, methods_in};

use crate::kinds::{
    AFTER_GENERIC, AFTER_TYPE, ANNOTATION_TYPE, CLASS, ENUM, GENERIC, INTERFACE, MEMBER,
    MEMBER_REST, METHOD,
};
use java_nodes::{count_of, first_name};
use rw_base::{Mem, Part, Tree};
use sqlite_items::Items;
use std::alloc::Global;

fn is_class(kind: u16) -> bool
    ensures { result ≡ is_class kind }
{
    kind == CLASS || kind == INTERFACE || kind == ENUM || kind == ANNOTATION_TYPE
}

fn is_around_name(kind: u16) -> bool
    ensures { result ≡ is_around_name kind }
{
    kind == MEMBER
        || kind == MEMBER_REST
        || kind == GENERIC
        || kind == AFTER_GENERIC
        || kind == AFTER_TYPE
}

fn has_method(tree: &Tree, parts: &[Part]) -> bool
    requires { AreBelow (length tree.now.leaves) (length tree.now.nodes) parts.now }
    ensures { result ≡ has_method (forest_of tree.now.nodes parts.now) }
{
    count_of(tree, parts, METHOD) > 0
}

// Appends the name that stands directly in a node, if there is one.
#[tactic(auto, using(crate::proofs::Inside::name_inside))]
fn add_name(tree: &Tree, parts: &[Part], out: &mut Items<u32>) -> Mem<()>
    requires { AreBelow (length tree.now.leaves) (length tree.now.nodes) parts.now }
    ensures name { let trees = forest_of tree.now.nodes parts.now in
        OnOk result (out.new ≡ out.old ++ name_in tree.now.leaves trees) }
    ensures inside { let trees = forest_of tree.now.nodes parts.now in
        OnOk result (All (λ i. i < length tree.now.leaves) (name_in tree.now.leaves trees)) }
{
    if let Some(name) = first_name(tree, parts) {
        out.push(name)?;
    }
    Ok(())
}

// Appends the names of the classes among some parts.
fn add_classes(tree: &Tree, parts: &[Part], out: &mut Items<u32>) -> Mem<()>
    requires { AreBelow (length tree.now.leaves) (length tree.now.nodes) parts.now }
    ensures names { let trees = forest_of tree.now.nodes parts.now in
        OnOk result (out.new ≡ out.old ++ classes_in tree.now.leaves trees) }
    ensures inside { let trees = forest_of tree.now.nodes parts.now in
        OnOk result (All (λ i. i < length tree.now.leaves) (classes_in tree.now.leaves trees)) }
{
    for part in parts {
        match part {
            Part::Leaf(_) => {}
            Part::Node(m) => {
                let kind = tree.kind(*m);
                if is_class(kind) {
                    add_name(tree, tree.parts(*m), out)?;
                } else if kind == MEMBER {
                    add_classes(tree, tree.parts(*m), out)?;
                }
            }
        }
    }
    Ok(())
}

// Appends the names of the methods among some parts.
fn add_methods(tree: &Tree, parts: &[Part], out: &mut Items<u32>) -> Mem<()>
    requires { AreBelow (length tree.now.leaves) (length tree.now.nodes) parts.now }
    ensures names { let trees = forest_of tree.now.nodes parts.now in
        OnOk result (out.new ≡ out.old ++ methods_in tree.now.leaves trees) }
    ensures inside { let trees = forest_of tree.now.nodes parts.now in
        OnOk result (All (λ i. i < length tree.now.leaves) (methods_in tree.now.leaves trees)) }
{
    for part in parts {
        match part {
            Part::Leaf(_) => {}
            Part::Node(m) => {
                if is_around_name(tree.kind(*m)) {
                    let own = tree.parts(*m);
                    if has_method(tree, own) {
                        add_name(tree, own, out)?;
                    } else {
                        add_methods(tree, own, out)?;
                    }
                }
            }
        }
    }
    Ok(())
}

/// The names of the classes that a body declares, by their leaves, in order (JLS 8.5, 9.5).
pub fn classes_in(alloc: Global, tree: &Tree, parts: &[Part]) -> Mem<Items<u32>>
    requires { AreBelow (length tree.now.leaves) (length tree.now.nodes) parts.now }
    ensures names { IfOk result (λ names. names ≡ classes_in tree.now.leaves (forest_of tree.now.nodes parts.now)) }
    ensures inside { IfOk result (λ names. All (λ i. i < length tree.now.leaves) names) }
{
    let mut names = Items::new(alloc);
    add_classes(tree, parts, &mut names)?;
    Ok(names)
}

/// The names of the methods that a body declares, by their leaves, in order (JLS 8.4, 9.4, 9.6.1).
pub fn methods_in(alloc: Global, tree: &Tree, parts: &[Part]) -> Mem<Items<u32>>
    requires { AreBelow (length tree.now.leaves) (length tree.now.nodes) parts.now }
    ensures names { IfOk result (λ names. names ≡ methods_in tree.now.leaves (forest_of tree.now.nodes parts.now)) }
    ensures inside { IfOk result (λ names. All (λ i. i < length tree.now.leaves) names) }
{
    let mut names = Items::new(alloc);
    add_methods(tree, parts, &mut names)?;
    Ok(names)
}
