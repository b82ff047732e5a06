// The classes of leaves and the kinds of nodes.

/// The class of an entry's key.
pub const KEY: u16 = 1;

/// The class of what stands between an entry's key and its value.
pub const SEPARATOR: u16 = 2;

/// The class of an entry's value.
pub const VALUE: u16 = 3;

/// The class of the line end behind an entry.
pub const ENDING: u16 = 4;

/// The class of the end of a file.
pub const END: u16 = 5;

/// The kind of an entry's node, whose parts are its four leaves.
pub const ENTRY: u16 = 0;

/// The kind of a file's node, whose parts are its entries and the end.
pub const FILE: u16 = 1;
