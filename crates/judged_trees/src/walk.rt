// The walk over a tree: the parts of each node from the left, and then the node.
ghost use Rattle.std.specs.Prelude.{◌≡◌, ◌<◌, ◌≤◌, length, take, drop, IfOk, OnOk};
ghost use Rattle.rw_base.specs.Arena.{AreBelow, kind_of};
ghost use Rattle.rw_base.specs.Laid.{forest_of, kids_of};
ghost use Rattle.judged_trees.specs.Followed.{NodeJudged};
ghost use Rattle.judged_trees.specs.Parts.{part_of, PartJudged};
ghost use Rattle.judged_trees.specs.Sites.{site_of};
ghost use Rattle.judged_trees.specs.Trees.{judged};

use crate::tables::TreeTables;
use j_names::Frames;
use judging::Log;
use rw_base::{Mem, NodeId, Part, Tree};
use std::alloc::Global;

/// Judges a node by these of its parts, where the values of the parts are put behind those that wait.
#[cycle(judge)]
#[tactic(auto, using(crate::proofs::Walking::all_below))]
fn judge_parts<T: TreeTables>(
    tables: &T,
    tree: &Tree,
    node: NodeId,
    parts: &[Part],
    given: &T::Given,
    frames: &mut Frames,
    values: &mut Vec<T::Value>,
    log: &mut Log,
) -> Mem<T::Value>
    requires fits { T.fits tables.now tree.now }
    requires node { node.0 < length tree.now.nodes }
    requires below { AreBelow (length tree.now.leaves) node.0 parts.now }
    ensures node { IfOk result (λ value. NodeJudged
        (judged (T.tables tables.now) (site_of tree.now node.0 parts.now given.now) frames.old)
        (T.world tables.now) log.old log.new frames.old frames.new value) }
    ensures values { OnOk result (values.new.items ≡ values.old.items) }
{
    let outer = frames.len();
    let base = values.len();
    for (from, part) in parts.iter().enumerate() {
        match part {
            Part::Leaf(_) => {}
            Part::Node(m) => {
                judge_part(
                    tables, tree, node, parts, given, from, *m, outer, base, frames, values, log,
                )?;
            }
        }
    }
    let value = tables.value_of(tree, node, parts, given, &values[base..], frames, log)?;
    tables.leave_scope(tree, node, parts, given, &values[base..], outer, frames)?;
    values.truncate(base);
    Ok(value)
}

/// Judges a part of a node in its scope, and puts its value.
#[cycle(judge)]
#[tactic(auto, using(crate::proofs::Walking::all_below))]
fn judge_part<T: TreeTables>(
    tables: &T,
    tree: &Tree,
    node: NodeId,
    parts: &[Part],
    given: &T::Given,
    from: usize,
    m: NodeId,
    outer: usize,
    base: usize,
    frames: &mut Frames,
    values: &mut Vec<T::Value>,
    log: &mut Log,
) -> Mem<()>
    requires fits { T.fits tables.now tree.now }
    requires node { node.0 < length tree.now.nodes }
    requires below { AreBelow (length tree.now.leaves) node.0 parts.now }
    requires part { from < length parts.now }
    requires inner { m.0 < node.0 }
    requires outer { outer ≤ length frames.old }
    requires base { base ≤ length values.old.items }
    ensures { OnOk result (PartJudged (part_of (T.tables tables.now) (site_of tree.now node.0 parts.now given.now)
        (take outer frames.old) (forest_of tree.now.nodes (drop from parts.now)) (drop base values.old.items)
        (drop outer frames.old) m.0 (kind_of tree.now.nodes m.0) (kids_of tree.now.nodes m.0))
        (T.world tables.now) log.old log.new (take outer frames.old) frames.new values.old.items values.new.items) }
{
    let inner = tables.given_to(tree, node, parts, given, from, &values[base..])?;
    tables.bring_into_scope(
        tree,
        node,
        parts,
        given,
        from,
        &values[base..],
        outer,
        frames,
        log,
    )?;
    let value = judge_parts(tables, tree, m, tree.parts(m), &inner, frames, values, log)?;
    values.push(value)?;
    Ok(())
}

/// Judges a node of a tree in the scopes around it, by these of its parts, and gives what the node gives. What it leaves
/// in scope stands behind the scopes around it then, and what it notes and asks is put to `log`. Where memory is wanted,
/// `frames` and `log` may have some of it.
pub fn judge<T: TreeTables>(
    alloc: Global,
    tables: &T,
    tree: &Tree,
    node: NodeId,
    parts: &[Part],
    given: &T::Given,
    frames: &mut Frames,
    log: &mut Log,
) -> Mem<T::Value>
    requires fits { T.fits tables.now tree.now }
    requires node { node.0 < length tree.now.nodes }
    requires below { AreBelow (length tree.now.leaves) node.0 parts.now }
    ensures judged { IfOk result (λ value. NodeJudged
        (judged (T.tables tables.now) (site_of tree.now node.0 parts.now given.now) frames.old)
        (T.world tables.now) log.old log.new frames.old frames.new value) }
{
    let mut values = Vec::new(alloc);
    let value = judge_parts(tables, tree, node, parts, given, frames, &mut values, log)?;
    Ok(value)
}
