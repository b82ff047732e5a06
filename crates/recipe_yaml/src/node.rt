// Nodes of YAML as recipe files use them.
use rw_base::{NodeId, Text};

/// A place in a node where another may stand, as the value of an entry, and the node that stands there.
#[derive(Clone, Copy, Debug, PartialEq, Eq)]
pub struct Slot {
    pub outer: NodeId,
    pub node: Option<NodeId>,
}

/// What a node is for a recipe file.
#[derive(Debug, Drop)]
pub enum Value {
    /// A scalar with a text.
    Scalar(Text),
    Mapping(NodeId),
    Sequence(NodeId),
    /// Nothing, an alias, or a scalar without a text.
    Other,
}
