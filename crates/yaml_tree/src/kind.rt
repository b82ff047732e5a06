// The kinds of nodes.

/// The kinds of the nodes of YAML trees: one for each rule of the table, by its number.
#[derive(Clone, Copy, Debug, PartialEq, Eq)]
pub enum Kind {
    Stream,
    DocPart,
    Node,
    Content,
    Map,
    Entry,
    Seq,
    Item,
    Flow,
    FItem,
    FNode,
    FContent,
}
