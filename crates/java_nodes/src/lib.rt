//! What stands directly in a node of a Java tree: its words, its names, and the kinds of its parts.
//!
//! ```text
//! let parts = tree.parts(node);
//! let sign = first_word(&tree, parts);                             // Some(class::MINUS) for `-x`
//! let dims = count_of(&tree, parts, Kind::Dims as u16);            // 2 for the declarator `x[][]`
//! let name = first_name(&tree, parts);                             // the leaf `x`
//! ```
//!
//! The promise: each call gives what the definition of the same name gives of the node's trees, over any parts that lie
//! in the tree. Nothing below a part is looked at, and none but `names` and `words` takes memory. A name is an
//! identifier, also where its class is that of a lambda's parameter, of a label, or of what begins a type.
//!
//! Read `specs/Directly.antt`, half a page.
#![tactic(auto)]

mod parts;

pub use parts::{count_of, first_leaf, first_name, first_word, has_word, names, words};
