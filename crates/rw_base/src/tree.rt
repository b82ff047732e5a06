// Lossless trees.
ghost use Rattle.std.specs.Prelude.{◌≡◌, ◌<◌, ◌≤◌, ◌+◌, ◌++◌, length, OnOk, OnErr, IsOk, vec_len, vec_capacity};
ghost use Rattle.rw_base.specs.Arena.{Arena, IsTree, AreBelow, leaf_at, kind_of, first_of, past_of, parts_of};
ghost use Rattle.rw_base.specs.Arena.{prefix_of, text_of, print_of, end_of};
ghost use Rattle.rw_base.specs.Laid.{kids_of, forest_of};

use crate::kept_nodes::KeptNodes;
use crate::{Mem, Nodes};
use sqlite_items::Items;
use std::marker::Model;

/// A leaf as offsets into the bytes of its file: its prefix from `prefix_from` to before `from`, its text from there
/// to before `to`. Its class is a number of the language that it is read from.
#[derive(Clone, Copy, Debug, PartialEq, Eq)]
pub struct Leaf {
    pub prefix_from: u32,
    pub from: u32,
    pub to: u32,
    pub class: u16,
}

/// The position of a node in its tree's list of nodes.
#[derive(Clone, Copy, Debug, PartialEq, Eq)]
pub struct NodeId(pub u32);

/// A part of a node: a leaf by its number, or a node.
#[derive(Clone, Copy, Debug, PartialEq, Eq)]
pub enum Part {
    Leaf(u32),
    Node(NodeId),
}

/// A node with its kind, its first leaf, the leaf behind its last, and its parts in order.
#[derive(Debug, Drop)]
pub struct NodeRow {
    pub kind: u16,
    pub first: u32,
    pub past: u32,
    pub parts: Items<Part>,
}

/// A tree over the leaves of a file. It keeps offsets and no bytes. The last leaf is the end, with an empty text.
#[derive(Debug, Drop)]
pub struct Tree {
    leaves: Vec<Leaf>,
    nodes: KeptNodes,
    root: NodeId,
}

impl Model for Tree {
    ghost use Rattle.rw_base.specs.Arena.{Arena, IsTree};

    ghost Value = { Arena };

    ghost view = { λ t. record { leaves = t.leaves.items; nodes = t.nodes; root = t.root.0 } };

    ghost invariant = { λ t. IsTree (record { leaves = t.leaves.items; nodes = t.nodes; root = t.root.0 }) };
}

impl Tree {
    /// The tree of these leaves and nodes. Takes no memory.
    pub fn made(leaves: Vec<Leaf>, nodes: Vec<NodeRow>, root: NodeId) -> Tree
        requires { IsTree (record { leaves = leaves.items; nodes = nodes.items; root = root.0 }) }
        ensures { result ≡ record { leaves = leaves.items; nodes = nodes.items; root = root.0 } }
    {
        let nodes = KeptNodes::from_rows(nodes);
        Tree {
            leaves,
            nodes,
            root,
        }
    }

    /// The same of nodes that share one list of parts. What room no leaf, node or part fills is given back.
    pub fn of_nodes(leaves: Vec<Leaf>, nodes: Nodes, root: NodeId) -> Tree
        requires { IsTree (record { leaves = leaves.items; nodes = nodes; root = root.0 }) }
        ensures { result ≡ record { leaves = leaves.items; nodes = nodes; root = root.0 } }
    {
        let mut leaves = leaves;
        let mut nodes = nodes;
        leaves.shrink_to_fit();
        nodes.fit();
        let nodes = KeptNodes::from_nodes(nodes);
        Tree {
            leaves,
            nodes,
            root,
        }
    }

    /// The root, which is a node of the tree.
    pub fn root(&self) -> NodeId
        ensures value { result.0 ≡ self.now.root }
        ensures tree { IsTree self.now }
    {
        self.root
    }

    /// How many leaves there are, the end among them.
    pub fn leaf_count(&self) -> u32
        ensures count { result ≡ length self.now.leaves }
        ensures tree { IsTree self.now }
    {
        self.leaves.len() as u32
    }

    /// How many nodes there are.
    pub fn node_count(&self) -> u32
        ensures count { result ≡ length self.now.nodes }
        ensures tree { IsTree self.now }
    {
        self.nodes.len() as u32
    }

    /// The leaf of a number. It lies within the bytes that the tree was read from.
    #[tactic(auto, unfolding(crate::specs::Arena::leaf_at))]
    pub fn leaf(&self, i: u32) -> Leaf
        requires { i < length self.now.leaves }
        ensures leaf { result ≡ leaf_at self.now.leaves i }
        ensures prefix { result.prefix_from ≤ result.from }
        ensures text { result.from ≤ result.to }
        ensures inside { result.to ≤ end_of self.now }
    {
        self.leaves[i as usize]
    }

    /// The kind of a node.
    #[tactic(auto, unfolding(crate::specs::Arena::row_at))]
    pub fn kind(&self, n: NodeId) -> u16
        requires { n.0 < length self.now.nodes }
        ensures { result ≡ kind_of self.now.nodes n.0 }
    {
        self.nodes.kind(n)
    }

    /// The parts of a node, in order: leaves, and nodes that stand before it. Their trees are the node's.
    #[tactic(auto, using(crate::specs::PartLaws::kids_at), unfolding(crate::specs::Arena::row_at))]
    pub fn parts(&self, n: NodeId) -> &[Part]
        requires { n.0 < length self.now.nodes }
        ensures parts { result.now ≡ parts_of self.now.nodes n.0 }
        ensures kids { kids_of self.now.nodes n.0 ≡ forest_of self.now.nodes result.now }
        ensures below { AreBelow (length self.now.leaves) n.0 result.now }
    {
        self.nodes.parts(n)
    }

    /// The first leaf of a node, and the one behind its last.
    #[tactic(auto, unfolding(crate::specs::Arena::row_at))]
    pub fn leaves_of(&self, n: NodeId) -> (u32, u32)
        requires { n.0 < length self.now.nodes }
        ensures first { result.0 ≡ first_of self.now.nodes n.0 }
        ensures past { result.1 ≡ past_of self.now.nodes n.0 }
        ensures tree { IsTree self.now }
    {
        self.nodes.leaves_of(n)
    }

    /// The text of a leaf, in the bytes that the tree was read from.
    pub fn text<'b>(&self, bytes: &'b [u8], i: u32) -> &'b [u8]
        requires leaf { i < length self.now.leaves }
        requires bytes { length bytes.now ≡ end_of self.now }
        ensures { result.now ≡ text_of bytes.now (leaf_at self.now.leaves i) }
    {
        let leaf = self.leaf(i);
        &bytes[leaf.from as usize..leaf.to as usize]
    }

    /// The prefix of a leaf, in the bytes that the tree was read from.
    pub fn prefix<'b>(&self, bytes: &'b [u8], i: u32) -> &'b [u8]
        requires leaf { i < length self.now.leaves }
        requires bytes { length bytes.now ≡ end_of self.now }
        ensures { result.now ≡ prefix_of bytes.now (leaf_at self.now.leaves i) }
    {
        let leaf = self.leaf(i);
        &bytes[leaf.prefix_from as usize..leaf.from as usize]
    }
}

/// Appends all prefixes and texts of a tree, in order. Takes memory only where `out` has no room for them.
#[tactic(auto, using(crate::specs::Laws::printed))]
pub fn print(tree: &Tree, bytes: &[u8], out: &mut Vec<u8>) -> Mem<()>
    requires { length bytes.now ≡ end_of tree.now }
    ensures ok { OnOk result (out.new.items ≡ out.old.items ++ print_of bytes.now tree.now.leaves) }
    ensures err { OnErr result (out.new.items ≡ out.old.items) }
    ensures room { vec_len out.old + length bytes.now ≤ vec_capacity out.old → IsOk result }
{
    // The leaves lie one behind another, so that together they are the bytes.
    let _ = &tree.leaves;
    out.extend_from_slice(bytes)?;
    Ok(())
}
