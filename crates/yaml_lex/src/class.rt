// The classes of YAML leaves, by their numbers.

// ---- what is cut from the bytes

/// The end of the leaves, where the file ends or is bad.
pub const END: u16 = 0;

/// `---` at a line's start.
pub const DOC: u16 = 1;

/// `...` at a line's start.
pub const DOCEND: u16 = 2;

/// The `-` before an item of a sequence.
pub const DASH: u16 = 3;

/// A plain or quoted scalar in block context before `:`.
pub const KEY: u16 = 4;

/// Any other plain or quoted scalar in block context.
pub const SCALAR: u16 = 5;

/// The `:` behind a key.
pub const COLON: u16 = 6;

/// A plain or quoted scalar in flow context.
pub const FSCALAR: u16 = 7;

/// A scalar that begins with `|` or `>`.
pub const BLOCK: u16 = 8;

/// `&` and a name.
pub const ANCHOR: u16 = 9;

/// `*` and a name.
pub const ALIAS: u16 = 10;

/// `[`
pub const BRACKET_OPEN: u16 = 11;

/// `]`
pub const BRACKET_CLOSE: u16 = 12;

/// `{`
pub const BRACE_OPEN: u16 = 13;

/// `}`
pub const BRACE_CLOSE: u16 = 14;

/// `,`
pub const COMMA: u16 = 15;

// ---- leaves without text, which say what indentation means

/// A block mapping opens.
pub const OPENM: u16 = 16;

/// A block sequence opens.
pub const OPENS: u16 = 17;

/// The innermost block mapping or sequence ends.
pub const CLOSE: u16 = 18;
