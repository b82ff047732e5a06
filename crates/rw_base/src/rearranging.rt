// The new text of a tree with edits.
ghost use Rattle.std.specs.Prelude.{◌≡◌, length, IfOk, IsTrue};
ghost use Rattle.rw_base.specs.Arena.{end_of};
ghost use Rattle.rw_base.specs.NewText.{new_text, AreEdits, AreLeafEdits};
ghost use Rattle.rw_base.specs.Claims.{PiecesAreOldBytes, PiecesAreNewText, SameEditsMakeOneText, RankedAreEdits};

use crate::leaf_edits::with_leaves_edited;
use crate::node_edits::with_nodes_edited;
use crate::{Edit, Mem, Spot, Tree};
use std::alloc::Global;

// Whether all edits are at leaves.
fn are_at_leaves(tree: &Tree, edits: &[Edit]) -> bool
    requires { AreEdits tree.now edits.now }
    ensures { IsTrue result → AreLeafEdits (length tree.now.leaves) edits.now }
{
    let _ = tree;
    for edit in edits {
        if let Spot::Node(_) = edit.spot {
            return false;
        }
    }
    true
}

/// The bytes of a tree with edits. A node without an edit joins the new texts of its parts, and one with an edit the
/// new texts of its items. A leaf keeps its prefix, and has the texts of its edit, or its own. The edits come in any
/// order; one that no item reaches, below a node with an edit, vanishes. The time is linear in the bytes, old and
/// new, and in the tree; its depth doesn't matter.
pub fn rearranged(alloc: Global, tree: &Tree, bytes: &[u8], edits: &[Edit]) -> Mem<Vec<u8>>
    requires bytes { length bytes.now ≡ end_of tree.now }
    requires edits { AreEdits tree.now edits.now }
    ensures { IfOk result (λ text. text.items ≡ new_text tree.now bytes.now edits.now) }
{
    if are_at_leaves(tree, edits) {
        with_leaves_edited(alloc, tree, bytes, edits)
    } else {
        with_nodes_edited(alloc, tree, bytes, edits)
    }
}

/// The old bytes are gap, range, gap and so on, and the new bytes are the same gaps in the same order, with the new
/// text of each outermost spot in the place of its range: of a node from its first prefix to its last text, of a leaf
/// its text.
pub fn gaps_stay()
    ensures old { PiecesAreOldBytes }
    ensures new { PiecesAreNewText }
{}

/// The new text sees edits through what they put at each spot alone: their order doesn't matter.
pub fn edits_are_known_by_their_spots()
    ensures { SameEditsMakeOneText }
{}

/// Edits whose spots rise by some rank are edits of a tree, where each is at a spot of it and has items for that.
pub fn ranked_edits_are_edits()
    ensures { RankedAreEdits }
{}
