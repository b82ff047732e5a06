//! YAML files cut into leaves, the tokens of a subset of YAML 1.2, each with the blanks, line ends and comments before
//! it. Leaves without text say where block mappings and sequences open and close, so that a grammar over the leaves
//! needs to know nothing of indentation.
//!
//! ```text
//! let Leaves { leaves, bad } = yaml_leaves(alloc, b"a: [b]")?;
//! // leaves of the classes OPENM, KEY, COLON, BRACKET_OPEN, FSCALAR, BRACKET_CLOSE, CLOSE and END, and no bad place
//! ```
//!
//! The leaves and the bad place are those of the definition `AreYamlLeaves` (clause `leaves` of `yaml_leaves`): each
//! file has them (`leaves_are_there`) and has them in one way (`leaves_are_one`). They lie one behind another, none of
//! the file is lost, and there are at most three for each byte and the end (clause `tiles`, and `leaves_tile` of the
//! definition). The classes are distinct numbers (`classes_differ`).
//!
//! The definitions in specs/, in this order: `Characters` names the characters that YAML treats in a way of their own.
//! `Contexts` says where on its line and inside which brackets a place is, and `Collections` which block mappings and
//! sequences a leaf closes and opens. `Scalars` and `BlockScalars` are the texts of leaves. `Leaves` cuts a text and a
//! file by these. `Tiles` and `Classes` are the words of the laws. `Scanning` is of the small functions alone, and no
//! public clause cites it.
#![tactic(auto)]

mod block;
mod characters;
pub mod class;
mod collections;
mod context;
mod form;
mod laws;
mod leaves;
mod piece;
mod runs;
mod scalars;

pub use block::{digit_of, ending_size};
pub use characters::{is_blank, is_line_end};
pub use laws::{classes_differ, leaves_are_one, leaves_are_there, leaves_tile};
pub use leaves::yaml_leaves;
pub use runs::{indentation, line_size};
pub use scalars::{begins_plain, ends_plain};
