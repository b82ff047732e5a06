// The texts of leaves.
ghost use Rattle.std.specs.Prelude.{◌≡◌, ◌<◌, length, IfOk};
ghost use Rattle.rw_base.specs.Arena.{end_of};
ghost use Rattle.judging.specs.Source.{source_of, text_at};

use jtypes::{Name, Names};
use rw_base::{Mem, Tree};
use std::alloc::Global;

/// The name that a leaf is, in the bytes that the tree was read from. Shares the bytes of a name that `names` keeps.
pub fn name_at(alloc: Global, tree: &Tree, bytes: &[u8], leaf: u32, names: &mut Names) -> Mem<Name>
    requires leaf { leaf < length tree.now.leaves }
    requires bytes { length bytes.now ≡ end_of tree.now }
    ensures { IfOk result (λ name. name ≡ text_at (source_of tree.now bytes.now) leaf) }
{
    names.name(alloc, tree.text(bytes, leaf))
}
