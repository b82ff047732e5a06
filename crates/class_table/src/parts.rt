// Finding words and nodes among the parts of a node.
ghost use Rattle.std.specs.Prelude.{◌≡◌, ◌<◌, ◌^◌, List, ℕ, IfSome, length, false};
ghost use Rattle.class_table.specs.Words.{parts_at};
ghost use Rattle.class_table.specs.Finding.{word_in, word_at, has, node_in, node_at, node_behind};
ghost use Rattle.class_table.specs.Finding.{type_in, is_type, count_in};

use crate::kinds::{CLASS_TYPE, TYPE};
use rw_base::{NodeId, Part, Tree};

// The first leaf of a class.
pub(crate) fn word_in(tree: &Tree, n: NodeId, class: u16) -> Option<u32>
    requires { n.0 < length tree.now.nodes }
    ensures word { (bytes : List ℕ) → word_at tree.now bytes result ≡ word_in class (parts_at tree.now bytes n.0) }
    ensures inside { IfSome result (λ i. i < length tree.now.leaves) }
{
    let parts = tree.parts(n);
    for part in parts {
        match part {
            Part::Node(_) => {}
            Part::Leaf(i) => {
                if tree.leaf(*i).class == class {
                    return Some(*i);
                }
            }
        }
    }
    None
}

// Whether there is a leaf of a class.
pub(crate) fn has(tree: &Tree, n: NodeId, class: u16) -> bool
    requires { n.0 < length tree.now.nodes }
    ensures { (bytes : List ℕ) → result ≡ has class (parts_at tree.now bytes n.0) }
{
    match word_in(tree, n, class) {
        Some(_) => true,
        None => false,
    }
}

// The first node of a kind.
pub(crate) fn node_in(tree: &Tree, n: NodeId, kind: u16) -> Option<NodeId>
    requires { n.0 < length tree.now.nodes }
    ensures node { (bytes : List ℕ) → node_at tree.now bytes result ≡ node_in kind (parts_at tree.now bytes n.0) }
    ensures below { IfSome result (λ m. m.0 < n.0) }
{
    let parts = tree.parts(n);
    for part in parts {
        match part {
            Part::Leaf(_) => {}
            Part::Node(m) => {
                if tree.kind(*m) == kind {
                    return Some(*m);
                }
            }
        }
    }
    None
}

// The first node behind a leaf of a class.
pub(crate) fn node_behind(tree: &Tree, n: NodeId, class: u16) -> Option<NodeId>
    requires { n.0 < length tree.now.nodes }
    ensures node { (bytes : List ℕ) →
        node_at tree.now bytes result ≡ node_behind class false (parts_at tree.now bytes n.0) }
    ensures below { IfSome result (λ m. m.0 < n.0) }
{
    let parts = tree.parts(n);
    let mut behind = false;
    for part in parts {
        match part {
            Part::Leaf(i) => behind = tree.leaf(*i).class == class,
            Part::Node(m) => {
                if behind {
                    return Some(*m);
                }
            }
        }
    }
    None
}

pub(crate) fn is_type(kind: u16) -> bool
    ensures { result ≡ is_type kind }
{
    kind == TYPE || kind == CLASS_TYPE
}

// The first type.
pub(crate) fn type_in(tree: &Tree, n: NodeId) -> Option<NodeId>
    requires { n.0 < length tree.now.nodes }
    ensures node { (bytes : List ℕ) → node_at tree.now bytes result ≡ type_in (parts_at tree.now bytes n.0) }
    ensures below { IfSome result (λ m. m.0 < n.0) }
{
    let parts = tree.parts(n);
    for part in parts {
        match part {
            Part::Leaf(_) => {}
            Part::Node(m) => {
                if is_type(tree.kind(*m)) {
                    return Some(*m);
                }
            }
        }
    }
    None
}

// How many nodes of a kind there are.
pub(crate) fn count_in(tree: &Tree, n: NodeId, kind: u16) -> usize
    requires { n.0 < length tree.now.nodes }
    ensures count { (bytes : List ℕ) → result ≡ count_in kind (parts_at tree.now bytes n.0) }
    ensures few { result < 2 ^ 60 }
{
    let parts = tree.parts(n);
    let mut count = 0;
    for part in parts {
        match part {
            Part::Leaf(_) => {}
            Part::Node(m) => {
                if tree.kind(*m) == kind {
                    count += 1;
                }
            }
        }
    }
    count
}
