// Finding leaves and nodes among the parts of a node, not in the parts of these.
ghost use Rattle.std.specs.Prelude.{◌≡◌, ◌<◌, ◌==◌, length, map, IfOk, IfSome, List, ℕ};
ghost use Rattle.rw_base.specs.Arena.{AreBelow};
ghost use Rattle.rw_base.specs.Laid.{forest_of};
ghost use Rattle.rw_base.specs.declared.tree.NodeRow.{NodeRow};
ghost use Rattle.java_nodes.specs.Directly.{leaves_in, kinds_in, names_in, words_in};
ghost use Rattle.java_nodes.specs.Directly.{count_of, first_of, has_word, is_name};

use java_lex::class;
use rw_base::{Mem, Part, Tree};
use sqlite_items::Items;
use std::alloc::Global;

/// Whether a leaf of a class is a name: an identifier, also one that is a lambda's parameter or a label, or that begins
/// a type.
fn is_name(class: u16) -> bool
    ensures { result ≡ is_name class }
{
    matches!(
        class,
        class::ID | class::LAMBDA | class::LABEL | class::TREF | class::DECL
    )
}

/// The first leaf that stands directly in a node.
#[tactic(auto, using(crate::proofs::Onward::of_leaves))]
pub fn first_leaf(parts: &[Part]) -> Option<u32>
    ensures { (rows : List NodeRow) → result ≡ first_of (leaves_in (forest_of rows parts.now)) }
{
    for part in parts {
        if let Part::Leaf(i) = part {
            return Some(*i);
        }
    }
    None
}

/// The class of the first leaf that stands directly in a node.
#[tactic(auto, using(crate::proofs::Onward::of_words))]
pub fn first_word(tree: &Tree, parts: &[Part]) -> Option<u16>
    requires { AreBelow (length tree.now.leaves) (length tree.now.nodes) parts.now }
    ensures { result ≡ first_of (words_in tree.now.leaves (forest_of tree.now.nodes parts.now)) }
{
    for part in parts {
        match part {
            Part::Leaf(i) => return Some(tree.leaf(*i).class),
            Part::Node(_) => {}
        }
    }
    None
}

/// How many nodes of a kind stand directly in a node.
#[tactic(auto, using(crate::proofs::Onward::of_kinds))]
pub fn count_of(tree: &Tree, parts: &[Part], kind: u16) -> usize
    requires { AreBelow (length tree.now.leaves) (length tree.now.nodes) parts.now }
    ensures { result ≡ count_of kind (kinds_in (forest_of tree.now.nodes parts.now)) }
{
    let mut count = 0;
    for part in parts {
        match part {
            Part::Leaf(_) => {}
            Part::Node(m) => {
                if tree.kind(*m) == kind {
                    count += 1;
                }
            }
        }
    }
    count
}

/// The names that stand directly in a node.
#[tactic(auto, using(crate::proofs::Onward::of_names))]
pub fn names(alloc: Global, tree: &Tree, parts: &[Part]) -> Mem<Items<u32>>
    requires { AreBelow (length tree.now.leaves) (length tree.now.nodes) parts.now }
    ensures { IfOk result (λ names. names ≡ names_in tree.now.leaves (forest_of tree.now.nodes parts.now)) }
{
    let mut names = Items::new(alloc);
    for part in parts {
        match part {
            Part::Leaf(i) => {
                if is_name(tree.leaf(*i).class) {
                    names.push(*i)?;
                }
            }
            Part::Node(_) => {}
        }
    }
    Ok(names)
}

/// The first name that stands directly in a node.
#[tactic(auto, using(crate::proofs::Onward::of_names))]
pub fn first_name(tree: &Tree, parts: &[Part]) -> Option<u32>
    requires { AreBelow (length tree.now.leaves) (length tree.now.nodes) parts.now }
    ensures { result ≡ first_of (names_in tree.now.leaves (forest_of tree.now.nodes parts.now)) }
{
    for part in parts {
        match part {
            Part::Leaf(i) => {
                if is_name(tree.leaf(*i).class) {
                    return Some(*i);
                }
            }
            Part::Node(_) => {}
        }
    }
    None
}

/// Whether a leaf of a class stands directly in a node.
#[tactic(auto, using(crate::proofs::Onward::of_words))]
pub fn has_word(tree: &Tree, parts: &[Part], class: u16) -> bool
    requires { AreBelow (length tree.now.leaves) (length tree.now.nodes) parts.now }
    ensures { result ≡ has_word class tree.now.leaves (forest_of tree.now.nodes parts.now) }
{
    for part in parts {
        match part {
            Part::Leaf(i) => {
                if tree.leaf(*i).class == class {
                    return true;
                }
            }
            Part::Node(_) => {}
        }
    }
    false
}

/// The classes of the leaves that stand directly in a node.
#[tactic(auto, using(crate::proofs::Onward::of_words))]
pub fn words(alloc: Global, tree: &Tree, parts: &[Part]) -> Mem<Items<u16>>
    requires { AreBelow (length tree.now.leaves) (length tree.now.nodes) parts.now }
    ensures { IfOk result (λ words. words ≡ words_in tree.now.leaves (forest_of tree.now.nodes parts.now)) }
{
    let mut words = Items::new(alloc);
    for part in parts {
        match part {
            Part::Leaf(i) => words.push(tree.leaf(*i).class)?,
            Part::Node(_) => {}
        }
    }
    Ok(words)
}
