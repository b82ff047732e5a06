// The parts of names, with the leaves on which they stand.
use jtypes::Name;

/// A part of a name, with the number of its leaf.
#[derive(Debug, Drop)]
pub struct NamedLeaf {
    pub leaf: u32,
    pub name: Name,
}

/// What stands behind a dot of an import.
#[derive(Debug, Drop)]
pub enum ImportPart {
    /// A name.
    Name(NamedLeaf),
    /// `*`
    All,
}
