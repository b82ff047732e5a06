// What reading a file gives.
use properties_tree::PropertiesTree;
use rw_base::{Refused, Tree};

/// What is kept of a file that was read: its tree by its kind, or why there is none.
#[derive(Debug, Drop)]
pub enum Reading {
    Java(Tree),
    Yaml(Tree),
    /// The tree of a properties file, which is made where it is asked for.
    Properties(PropertiesTree),
    /// A file of a kind that isn't read.
    Unread,
    Refused(Refused),
}
