// The kinds of nodes, as numbers.
use yaml_tree::Kind;

pub const DOC_PART: u16 = Kind::DocPart as u16;

pub const NODE: u16 = Kind::Node as u16;

pub const CONTENT: u16 = Kind::Content as u16;

pub const MAP: u16 = Kind::Map as u16;

pub const ENTRY: u16 = Kind::Entry as u16;

pub const SEQ: u16 = Kind::Seq as u16;

pub const ITEM: u16 = Kind::Item as u16;

pub const FLOW: u16 = Kind::Flow as u16;

pub const FITEM: u16 = Kind::FItem as u16;

pub const FNODE: u16 = Kind::FNode as u16;

pub const FCONTENT: u16 = Kind::FContent as u16;
