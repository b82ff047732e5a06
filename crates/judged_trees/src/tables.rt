// The tables of a judgement, as code.
ghost use Rattle.std.specs.Prelude.{◌≡◌, ◌<◌, ◌≤◌, ◌++◌, length, take, drop, IfOk, OnOk};
ghost use Rattle.rw_base.specs.Arena.{Arena, AreBelow};
ghost use Rattle.rw_base.specs.Laid.{forest_of};
ghost use Rattle.jtypes.specs.World.{World};
ghost use Rattle.judging.specs.Judging.{Judged};
ghost use Rattle.judged_trees.specs.Followed.{Scoped};
ghost use Rattle.judged_trees.specs.Tables.{Tables};
ghost use Rattle.judged_trees.specs.Sites.{site_of};

use j_names::Frames;
use judging::Log;
use rw_base::{Mem, NodeId, Part, Tree};

/// What a judgement says of each kind of node, for the trees that fit it.
pub trait TreeTables {
    /// What a node gives to the node around it.
    type Value: Drop;
    /// What a node is given by the node around it.
    type Given: Drop;

    /// The tables.
    ghost tables: { Self → Tables Self.Value Self.Given };

    /// The world of classes that they ask.
    ghost world: { Self → World };

    /// The trees for which they are made.
    ghost fits: { Self → Arena → Type 0 };

    /// What a part is given, where the parts before it have these values.
    fn given_to(
        &self,
        tree: &Tree,
        node: NodeId,
        parts: &[Part],
        given: &Self::Given,
        from: usize,
        values: &[Self::Value],
    ) -> Mem<Self::Given>
        requires fits { fits self.now tree.now }
        requires node { node.0 < length tree.now.nodes }
        requires below { AreBelow (length tree.now.leaves) (length tree.now.nodes) parts.now }
        requires part { from < length parts.now }
        ensures { IfOk result (λ inner. inner ≡ (tables self.now).given_to (site_of tree.now node.0 parts.now given.now)
            (forest_of tree.now.nodes (drop from parts.now)) values.now) };

    /// Brings into place what is in scope for a part: all scopes behind the first `outer` make room for it.
    fn bring_into_scope(
        &self,
        tree: &Tree,
        node: NodeId,
        parts: &[Part],
        given: &Self::Given,
        from: usize,
        values: &[Self::Value],
        outer: usize,
        frames: &mut Frames,
        log: &mut Log,
    ) -> Mem<()>
        requires fits { fits self.now tree.now }
        requires node { node.0 < length tree.now.nodes }
        requires below { AreBelow (length tree.now.leaves) (length tree.now.nodes) parts.now }
        requires part { from < length parts.now }
        requires outer { outer ≤ length frames.old }
        ensures { OnOk result (Scoped ((tables self.now).scope_for (site_of tree.now node.0 parts.now given.now)
            (forest_of tree.now.nodes (drop from parts.now)) values.now (take outer frames.old) (drop outer frames.old))
            (world self.now) log.old log.new (take outer frames.old) frames.new) };

    /// What a node gives, where its parts have these values.
    fn value_of(
        &self,
        tree: &Tree,
        node: NodeId,
        parts: &[Part],
        given: &Self::Given,
        values: &[Self::Value],
        frames: &Frames,
        log: &mut Log,
    ) -> Mem<Self::Value>
        requires fits { fits self.now tree.now }
        requires node { node.0 < length tree.now.nodes }
        requires below { AreBelow (length tree.now.leaves) (length tree.now.nodes) parts.now }
        ensures { IfOk result (λ value. Judged ((tables self.now).value_of
            (site_of tree.now node.0 parts.now given.now) values.now frames.now)
            (world self.now) log.old log.new value) };

    /// Leaves the scopes behind the first `outer`, but for those that a node leaves to what stands behind it.
    fn leave_scope(
        &self,
        tree: &Tree,
        node: NodeId,
        parts: &[Part],
        given: &Self::Given,
        values: &[Self::Value],
        outer: usize,
        frames: &mut Frames,
    ) -> Mem<()>
        requires fits { fits self.now tree.now }
        requires node { node.0 < length tree.now.nodes }
        requires below { AreBelow (length tree.now.leaves) (length tree.now.nodes) parts.now }
        requires outer { outer ≤ length frames.old }
        ensures { OnOk result (frames.new ≡ take outer frames.old ++ (tables self.now).left_in_scope
            (site_of tree.now node.0 parts.now given.now) values.now (drop outer frames.old)) };
}
