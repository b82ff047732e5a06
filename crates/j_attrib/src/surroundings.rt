// The file around a node, and where the unit that is judged stands in it.
ghost use Rattle.std.specs.Prelude.{◌≡◌, IfOk};
ghost use Rattle.j_attrib.specs.Around.{name_at};

use j_names::UnitContext;
use jtypes::Name;
use rw_base::{Mem, Tree};
use std::alloc::Global;
use std::marker::Model;

/// A file's tree, its bytes, and where the unit that is judged stands in it. Contracts see these three.
#[derive(Drop)]
pub struct Surroundings<'a> {
    tree: &'a Tree,
    bytes: &'a [u8],
    context: &'a UnitContext,
}

impl<'a> Model for Surroundings<'a> {
    ghost use Rattle.std.specs.Prelude.{◌≡◌, length};
    ghost use Rattle.rw_base.specs.Arena.{end_of};
    ghost use Rattle.j_attrib.specs.Around.{Around};

    ghost Value = { Around };

    ghost view = { λ s. record { tree = s.tree.now; bytes = s.bytes.now; context = s.context.now } };

    ghost invariant = { λ s. length s.bytes.now ≡ end_of s.tree.now };
}

impl<'a> Surroundings<'a> {
    /// The tree.
    pub fn tree(&self) -> &Tree
        ensures { result.now ≡ self.now.tree }
    {
        self.tree
    }

    /// Where the unit stands.
    pub fn context(&self) -> &UnitContext
        ensures { result.now ≡ self.now.context }
    {
        self.context
    }

    /// The text of a leaf; that of no leaf is empty.
    #[tactic(auto, using(crate::proofs::Leaves::no_name))]
    pub fn name(&self, alloc: Global, leaf: u32) -> Mem<Name>
        ensures { IfOk result (λ name. name ≡ name_at self.now leaf) }
    {
        if leaf < self.tree.leaf_count() {
            Name::new(alloc, self.tree.text(self.bytes, leaf))
        } else {
            Name::new(alloc, b"")
        }
    }
}
