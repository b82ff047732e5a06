// The modifiers of a declaration that the skeleton keeps.
ghost use Rattle.std.specs.Prelude.{◌≡◌, ◌<◌, List, ℕ, length};
ghost use Rattle.rw_base.specs.Arena.{kind_of};
ghost use Rattle.class_table.specs.Words.{parts_at};
ghost use Rattle.class_table.specs.Members.{is_modifier, says, mods_in, static_in};

use crate::kinds::MODIFIER;
use crate::parts::has;
use java_lex::class::{PRIVATE, STATIC};
use jtypes::ClassKind;
use rw_base::{NodeId, Part, Tree};

// The modifiers of a member.
#[derive(Clone, Copy, Debug)]
pub(crate) struct Mods {
    pub is_static: bool,
    pub is_private: bool,
}

// Whether a node is a modifier that is this word.
fn is_modifier(tree: &Tree, n: NodeId, class: u16) -> bool
    requires { n.0 < length tree.now.nodes }
    ensures { (bytes : List ℕ) →
        result ≡ is_modifier class (kind_of tree.now.nodes n.0) (parts_at tree.now bytes n.0) }
{
    tree.kind(n) == MODIFIER && has(tree, n, class)
}

// Whether a modifier is this word.
pub(crate) fn says(tree: &Tree, n: NodeId, class: u16) -> bool
    requires { n.0 < length tree.now.nodes }
    ensures { (bytes : List ℕ) → result ≡ says class (parts_at tree.now bytes n.0) }
{
    let parts = tree.parts(n);
    for part in parts {
        match part {
            Part::Leaf(_) => {}
            Part::Node(m) => {
                if is_modifier(tree, *m, class) {
                    return true;
                }
            }
        }
    }
    false
}

pub(crate) fn mods_in(tree: &Tree, n: NodeId) -> Mods
    requires { n.0 < length tree.now.nodes }
    ensures { (bytes : List ℕ) → result ≡ mods_in (parts_at tree.now bytes n.0) }
{
    Mods {
        is_static: says(tree, n, STATIC),
        is_private: says(tree, n, PRIVATE),
    }
}

// The modifiers of a field, which is static in interfaces and annotation types (JLS 9.3).
pub(crate) fn static_in(kind: ClassKind, mods: Mods) -> Mods
    ensures { result ≡ static_in kind mods }
{
    let are_static = match kind {
        ClassKind::Interface => true,
        ClassKind::Annotation => true,
        ClassKind::Class => false,
        ClassKind::Enum => false,
    };
    Mods {
        is_static: mods.is_static || are_static,
        is_private: mods.is_private,
    }
}
