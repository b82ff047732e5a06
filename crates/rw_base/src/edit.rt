// What stands in the place of a node or of a leaf's text.
use crate::{NodeId, Text};
use sqlite_items::Items;

/// What is edited: a node with all its leaves, or the text of one leaf.
#[derive(Clone, Copy, Debug, PartialEq, Eq)]
pub enum Spot {
    Node(NodeId),
    Leaf(u32),
}

/// A piece of new text. `Node` and `Leaf` stand for the new text of a node or leaf below the spot, and the two
/// forms with `Body` for the same without the prefix of its first leaf.
#[derive(Debug, Drop)]
pub enum Item {
    Text(Text),
    Node(NodeId),
    NodeBody(NodeId),
    Leaf(u32),
    LeafBody(u32),
}

/// The items, one after another, take the place of the spot. Where the spot is a leaf, they take the place of its
/// text, and its prefix stays.
#[derive(Debug, Drop)]
pub struct Edit {
    pub spot: Spot,
    pub items: Items<Item>,
}
