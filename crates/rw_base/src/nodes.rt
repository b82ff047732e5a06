// The nodes of a tree in two lists: their heads, and the parts of all of them.
ghost use Rattle.std.specs.Prelude.{◌≡◌, ◌<◌, ◌≤◌, List, [], ◌∷◌, ◌++◌, length, slice_range, OnOk, OnErr};
ghost use Rattle.rw_base.specs.declared.tree.Part.{Part};
ghost use Rattle.rw_base.specs.Arena.{kind_of, first_of, past_of, parts_of, row_of};
ghost use Rattle.rw_base.specs.Heads.{parts_start, rows_over, EndsRise};

use crate::{Mem, NoMemory, NodeId, Part};
use std::alloc::Global;
use std::marker::Model;

/// A node without its parts. They stand in the list of all parts before `parts_end`, behind those of the node before.
#[derive(Clone, Copy, Debug)]
pub struct NodeHead {
    pub kind: u16,
    pub first: u32,
    pub past: u32,
    pub parts_end: u32,
}

/// The nodes of a tree, each behind those that are its parts. Contracts see the list of their rows. A node takes 16
/// bytes, and 8 for each of its parts.
#[derive(Debug, Drop)]
pub struct Nodes {
    heads: Vec<NodeHead>,
    parts: Vec<Part>,
}

impl Model for Nodes {
    ghost use Rattle.std.specs.Prelude.{List, ◌<◌, ◌^◌, length};
    ghost use Rattle.rw_base.specs.Heads.{rows_over, EndsRise};
    ghost use Rattle.rw_base.specs.declared.tree.NodeRow.{NodeRow};

    ghost Value = { List NodeRow };

    ghost view = { λ s. rows_over s.parts.items 0 s.heads.items };

    ghost invariant = { λ s. (length s.heads.items < 2 ^ 32) × EndsRise 0 s.heads.items (length s.parts.items) };
}

// The place at which the parts of a node begin.
fn start_at(heads: &[NodeHead], n: usize) -> usize
    requires { n < length heads.now }
    ensures { result ≡ parts_start 0 heads.now n }
{
    if n == 0 {
        0
    } else {
        heads[n - 1].parts_end as usize
    }
}

// From where to where the parts of a node stand.
fn range_at(parts: &[Part], heads: &[NodeHead], n: usize) -> (usize, usize)
    requires whole { EndsRise 0 heads.now (length parts.now) }
    requires node { n < length heads.now }
    ensures value { slice_range parts.now result.0 result.1 ≡ parts_of (rows_over parts.now 0 heads.now) n }
    ensures order { result.0 ≤ result.1 }
    ensures inside { result.1 ≤ length parts.now }
{
    let start = start_at(heads, n);
    (start, heads[n].parts_end as usize)
}

fn parts_at<'a>(parts: &'a [Part], heads: &[NodeHead], n: usize) -> &'a [Part]
    requires whole { EndsRise 0 heads.now (length parts.now) }
    requires node { n < length heads.now }
    ensures { result.now ≡ parts_of (rows_over parts.now 0 heads.now) n }
{
    let (start, end) = range_at(parts, heads, n);
    &parts[start..end]
}

// The kind of a node, its first leaf, and the one behind its last.
fn head_at(heads: &[NodeHead], n: usize) -> (u16, u32, u32)
    requires { n < length heads.now }
    ensures kind { (parts : List Part) → result.0 ≡ kind_of (rows_over parts 0 heads.now) n }
    ensures first { (parts : List Part) → result.1 ≡ first_of (rows_over parts 0 heads.now) n }
    ensures past { (parts : List Part) → result.2 ≡ past_of (rows_over parts 0 heads.now) n }
{
    let head = heads[n];
    (head.kind, head.first, head.past)
}

#[tactic(auto, using(crate::proofs::HeadLemmas::count))]
impl Nodes {
    /// No nodes. Takes no memory.
    pub fn new(alloc: Global) -> Nodes
        ensures { result ≡ [] }
    {
        Nodes {
            heads: Vec::new(alloc),
            parts: Vec::new(alloc),
        }
    }

    /// Adds a node behind the others. It is refused too where the nodes or their parts are more than 32 bits count.
    pub fn push(&mut self, kind: u16, first: u32, past: u32, parts: &[Part]) -> Mem<()>
        ensures ok { OnOk result (self.new ≡ self.old ++ row_of kind first past parts.now ∷ []) }
        ensures err { OnErr result (self.new ≡ self.old) }
    {
        let most = u32::MAX as usize;
        let used = self.parts.as_slice().len();
        if self.heads.as_slice().len() >= most || parts.len() > most || used > most - parts.len() {
            return Err(NoMemory);
        }
        self.heads.reserve(1)?;
        self.parts.extend_from_slice(parts)?;
        self.heads.push_reserved(NodeHead {
            kind,
            first,
            past,
            parts_end: (used + parts.len()) as u32,
        });
        Ok(())
    }

    /// Gives back the room that no node fills.
    pub fn fit(&mut self)
        ensures { self.new ≡ self.old }
    {
        self.heads.shrink_to_fit();
        self.parts.shrink_to_fit();
    }

    /// How many nodes there are.
    pub fn len(&self) -> u32
        ensures { result ≡ length self.now }
    {
        self.heads.as_slice().len() as u32
    }

    /// The kind of a node.
    pub fn kind(&self, n: NodeId) -> u16
        requires { n.0 < length self.now }
        ensures { result ≡ kind_of self.now n.0 }
    {
        let (kind, _, _) = head_at(self.heads.as_slice(), n.0 as usize);
        kind
    }

    /// The first leaf of a node, and the one behind its last.
    pub fn leaves_of(&self, n: NodeId) -> (u32, u32)
        requires { n.0 < length self.now }
        ensures first { result.0 ≡ first_of self.now n.0 }
        ensures past { result.1 ≡ past_of self.now n.0 }
    {
        let (_, first, past) = head_at(self.heads.as_slice(), n.0 as usize);
        (first, past)
    }

    /// The parts of a node, in order.
    pub fn parts(&self, n: NodeId) -> &[Part]
        requires { n.0 < length self.now }
        ensures { result.now ≡ parts_of self.now n.0 }
    {
        parts_at(self.parts.as_slice(), self.heads.as_slice(), n.0 as usize)
    }
}
