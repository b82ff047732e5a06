// The nodes of a tree, as they were given.
ghost use Rattle.std.specs.Prelude.{◌≡◌, ◌<◌, length};
ghost use Rattle.rw_base.specs.Arena.{kind_of, first_of, past_of, parts_of};

use crate::{NodeId, NodeRow, Nodes, Part};
use std::marker::Model;

/// Rows with a list of parts of their own, or nodes that share one.
#[derive(Debug, Drop)]
pub(crate) enum Form {
    Rows(Vec<NodeRow>),
    Shared(Nodes),
}

/// The nodes of a tree in either form. Contracts see the list of their rows.
#[derive(Debug, Drop)]
pub struct KeptNodes {
    form: Form,
}

impl Model for KeptNodes {
    ghost use Rattle.std.specs.Prelude.{List};
    ghost use Rattle.rw_base.specs.KeptNodes.{rows_in};
    ghost use Rattle.rw_base.specs.declared.tree.NodeRow.{NodeRow};

    ghost Value = { List NodeRow };

    ghost view = { λ s. rows_in s.form };
}

#[tactic(auto, unfolding(crate::specs::Arena::row_at))]
impl KeptNodes {
    /// Nodes as rows. Takes no memory.
    pub fn from_rows(rows: Vec<NodeRow>) -> KeptNodes
        ensures { result ≡ rows.items }
    {
        KeptNodes {
            form: Form::Rows(rows),
        }
    }

    /// Nodes that share a list of parts. Takes no memory.
    pub fn from_nodes(nodes: Nodes) -> KeptNodes
        ensures { result ≡ nodes }
    {
        KeptNodes {
            form: Form::Shared(nodes),
        }
    }

    /// How many nodes there are.
    pub fn len(&self) -> usize
        ensures { result ≡ length self.now }
    {
        match &self.form {
            Form::Rows(rows) => rows.as_slice().len(),
            Form::Shared(nodes) => nodes.len() as usize,
        }
    }

    /// The kind of a node.
    pub fn kind(&self, n: NodeId) -> u16
        requires { n.0 < length self.now }
        ensures { result ≡ kind_of self.now n.0 }
    {
        match &self.form {
            Form::Rows(rows) => rows.as_slice()[n.0 as usize].kind,
            Form::Shared(nodes) => nodes.kind(n),
        }
    }

    /// The first leaf of a node, and the one behind its last.
    pub fn leaves_of(&self, n: NodeId) -> (u32, u32)
        requires { n.0 < length self.now }
        ensures first { result.0 ≡ first_of self.now n.0 }
        ensures past { result.1 ≡ past_of self.now n.0 }
    {
        match &self.form {
            Form::Rows(rows) => {
                let row = &rows.as_slice()[n.0 as usize];
                (row.first, row.past)
            }
            Form::Shared(nodes) => nodes.leaves_of(n),
        }
    }

    /// The parts of a node, in order.
    pub fn parts(&self, n: NodeId) -> &[Part]
        requires { n.0 < length self.now }
        ensures { result.now ≡ parts_of self.now n.0 }
    {
        match &self.form {
            Form::Rows(rows) => rows.as_slice()[n.0 as usize].parts.as_slice(),
            Form::Shared(nodes) => nodes.parts(n),
        }
    }
}
