// Which node lies too deep.
ghost use Rattle.std.specs.Prelude.{◌≡◌, ℕ, [], ◌+◌, ◌<◌, ◌≤◌, ◌^◌, length, slice_index, IfOk, OnOk};
ghost use Rattle.rw_base.specs.Trees.{Forest, none, node};
ghost use Rattle.rw_base.specs.Laid.{rows_from};
ghost use Rattle.rw_grammar.specs.Depth.{worth, highest_of, first_above, all_heights};
ghost use Rattle.rw_grammar.specs.Results.{too_deep, IsOneTree, IsFirstOf};

use rw_base::{Mem, NodeId, Nodes, Part};
use std::alloc::Global;

/// A node with two or more parts that lies below so many such nodes is too deep.
pub const DEPTH_LIMIT: u32 = 300;

/// The height of a node, or 0 where there is none.
fn height_at(heights: &[u32], n: u32) -> u32
    ensures { result ≡ slice_index heights.now n }
{
    let n = n as usize;
    if n < heights.len() { heights[n] } else { 0 }
}

/// The greatest height of the parts.
fn highest(parts: &[Part], heights: &[u32]) -> u32
    ensures { result ≡ highest_of (slice_index heights.now) parts.now }
{
    let mut height = 0;
    for part in parts {
        if let Part::Node(n) = part {
            height = height.max(height_at(heights, n.0));
        }
    }
    height
}

/// A node with two or more parts counts.
fn weight(parts: &[Part]) -> u32
    ensures { result ≡ worth (length parts.now) }
{
    if 2 <= parts.len() { 1 } else { 0 }
}

/// For each node how many nodes with two or more parts lie on the longest way down from it, itself among them.
fn heights_of(alloc: Global, nodes: &Nodes) -> Mem<Vec<u32>>
    ensures { IfOk result (λ heights. heights.items ≡ all_heights nodes.now) }
{
    let count = nodes.len();
    let mut heights = Vec::with_capacity(alloc, count as usize)?;
    for n in 0..count {
        let parts = nodes.parts(NodeId(n));
        let height = weight(parts) + highest(parts, heights.as_slice());
        heights.push(height)?;
    }
    Ok(heights)
}

/// The first of the parts that is higher than this.
fn first_high(parts: &[Part], heights: &[u32], height: u32) -> Option<u32>
    ensures { result ≡ first_above (slice_index heights.now) height parts.now }
{
    for part in parts {
        if let Part::Node(n) = part {
            if height < height_at(heights, n.0) {
                return Some(n.0);
            }
        }
    }
    None
}

/// The first leaf of the first node with two or more parts that lies below too many such nodes. The root is the last.
pub(crate) fn first_too_deep(alloc: Global, nodes: &Nodes) -> Mem<Option<u32>>
    requires tree { IsOneTree nodes.now }
    ensures none { result ≡ Ok None → (k : ℕ) (kids : Forest) → nodes.now ≡ rows_from 0 0 (node tt k kids none)
        → too_deep 0 0 (node tt k kids none) ≡ [] }
    ensures some { (leaf : ℕ) → result ≡ Ok (Some leaf) → (k : ℕ) (kids : Forest)
        → nodes.now ≡ rows_from 0 0 (node tt k kids none) → IsFirstOf leaf (too_deep 0 0 (node tt k kids none)) }
    ensures few { OnOk result (length nodes.now < 2 ^ 32) }
{
    let heights = heights_of(alloc, nodes)?;
    let mut n = nodes.len() - 1;
    let mut allowed = DEPTH_LIMIT;
    if height_at(heights.as_slice(), n) <= allowed {
        return Ok(None);
    }
    'down: loop {
        let parts = nodes.parts(NodeId(n));
        let counts = weight(parts);
        if allowed < counts {
            let (first, _) = nodes.leaves_of(NodeId(n));
            return Ok(Some(first));
        }
        allowed -= counts;
        match first_high(parts, heights.as_slice(), allowed) {
            Some(next) => n = next,
            None => return Ok(None),
        }
    }
}
