// Which edit is at each leaf and each node.
ghost use Rattle.std.specs.Prelude.{◌≡◌, false, length, IfOk};
ghost use Rattle.rw_base.specs.Arena.{IsTree, AreBelow};
ghost use Rattle.rw_base.specs.NewText.{AreEdits};
ghost use Rattle.rw_base.specs.Chosen.{AreChosen, leaf_spot, node_spot, AreUntouched, KnowsAllUntouched};

use crate::{Edit, Mem, NodeId, Part, Spot, Tree};
use std::alloc::Global;

/// For each leaf the position of its edit, where it has one.
pub fn edits_at_leaves(alloc: Global, tree: &Tree, edits: &[Edit]) -> Mem<Vec<Option<usize>>>
    requires { AreEdits tree.now edits.now }
    ensures chosen { IfOk result (λ chosen. AreChosen leaf_spot (length tree.now.leaves) edits.now chosen.items) }
    ensures tree { IsTree tree.now }
{
    let mut chosen = vec![in alloc; None; tree.leaf_count() as usize]?;
    for (k, edit) in edits.iter().enumerate() {
        if let Spot::Leaf(i) = edit.spot {
            chosen[i as usize] = Some(k);
        }
    }
    Ok(chosen)
}

/// The same for each node.
pub fn edits_at_nodes(alloc: Global, tree: &Tree, edits: &[Edit]) -> Mem<Vec<Option<usize>>>
    requires { AreEdits tree.now edits.now }
    ensures { IfOk result (λ chosen. AreChosen node_spot (length tree.now.nodes) edits.now chosen.items) }
{
    let mut chosen = vec![in alloc; None; tree.node_count() as usize]?;
    for (k, edit) in edits.iter().enumerate() {
        if let Spot::Node(n) = edit.spot {
            chosen[n.0 as usize] = Some(k);
        }
    }
    Ok(chosen)
}

// Whether an edit is at one of these leaves, or one of these nodes is touched.
fn any_touched(parts: &[Part], leaves: &[Option<usize>], touched: &[bool]) -> bool
    requires { AreBelow (length leaves.now) (length touched.now) parts.now }
    ensures { result ≡ false → AreUntouched leaves.now touched.now parts.now }
{
    for part in parts {
        let is = match part {
            Part::Leaf(i) => leaves[*i as usize].is_some(),
            Part::Node(m) => touched[m.0 as usize],
        };
        if is {
            return true;
        }
    }
    false
}

/// Whether an edit is at a node or anywhere below it, for each node.
pub fn touched_nodes(
    alloc: Global,
    tree: &Tree,
    leaves: &[Option<usize>],
    nodes: &[Option<usize>],
) -> Mem<Vec<bool>>
    requires leaves { length leaves.now ≡ length tree.now.leaves }
    requires nodes { length nodes.now ≡ length tree.now.nodes }
    ensures long { IfOk result (λ touched. length touched.items ≡ length tree.now.nodes) }
    ensures untouched { IfOk result (λ touched. KnowsAllUntouched tree.now leaves.now nodes.now touched.items) }
{
    let count = tree.node_count();
    let mut touched = Vec::with_capacity(alloc, count as usize)?;
    for n in 0..count {
        let is = nodes[n as usize].is_some()
            || any_touched(tree.parts(NodeId(n)), leaves, &touched);
        touched.push(is)?;
    }
    Ok(touched)
}
