// The new text of a tree with edits at leaves alone.
ghost use Rattle.std.specs.Prelude.{◌≡◌, ◌≤◌, ◌++◌, length, slice_range, IfOk, OnOk};
ghost use Rattle.rw_base.specs.Arena.{IsTree, end_of};
ghost use Rattle.rw_base.specs.NewText.{leaves_new, item_text, items_text, AreEdits};

use crate::chosen::edits_at_leaves;
use crate::{Edit, Item, Mem, Tree};
use std::alloc::Global;

fn push_item(out: &mut Vec<u8>, item: &Item) -> Mem<()>
    ensures { OnOk result (out.new.items ≡ out.old.items ++ item_text item.now) }
{
    if let Item::Text(text) = item {
        out.extend_from_slice(text.as_slice())?;
    }
    Ok(())
}

// Appends the texts of a leaf's edit.
#[tactic(auto, using(crate::proofs::NewTextLemmas::items_next))]
fn push_items(out: &mut Vec<u8>, items: &[Item]) -> Mem<()>
    ensures { OnOk result (out.new.items ≡ out.old.items ++ items_text items.now) }
{
    for item in items {
        push_item(out, item)?;
    }
    Ok(())
}

// Appends a range of the old bytes.
fn push_range(out: &mut Vec<u8>, bytes: &[u8], from: usize, to: usize) -> Mem<()>
    requires order { from ≤ to }
    requires inside { to ≤ length bytes.now }
    ensures { OnOk result (out.new.items ≡ out.old.items ++ slice_range bytes.now from to) }
{
    out.extend_from_slice(&bytes[from..to])?;
    Ok(())
}

// Each leaf keeps its prefix, and has the texts of its edit, or its own text. What isn't edited is copied in one
// piece from edit to edit.
pub fn with_leaves_edited(alloc: Global, tree: &Tree, bytes: &[u8], edits: &[Edit]) -> Mem<Vec<u8>>
    requires bytes { length bytes.now ≡ end_of tree.now }
    requires edits { AreEdits tree.now edits.now }
    ensures text { IfOk result (λ text. text.items ≡ leaves_new edits.now bytes.now 0 tree.now.leaves) }
    ensures tree { IsTree tree.now }
{
    let chosen = edits_at_leaves(alloc, tree, edits)?;
    let mut out = Vec::with_capacity(alloc, bytes.len())?;
    let mut copied = 0;
    for (i, edit) in chosen.iter().enumerate() {
        if let Some(k) = edit {
            let leaf = tree.leaf(i as u32);
            push_range(&mut out, bytes, copied, leaf.from as usize)?;
            push_items(&mut out, edits[*k].items.as_slice())?;
            copied = leaf.to as usize;
        }
    }
    push_range(&mut out, bytes, copied, bytes.len())?;
    Ok(out)
}
