//! Properties files as trees, by the text format of `java.util.Properties` of Java SE 8.
//!
//! `read_properties` reads any bytes into a tree: for each entry a node with the leaves of its key, its separator, its
//! value and its line end, and the file's node with the entries and the end. What stands between entries is prefix, so
//! nothing is lost. Only a file of more than `MOST_BYTES` is refused.
//!
//! ```text
//! let tree = read_properties(alloc, bytes)?;
//! for n in 0..entry_count(&tree, bytes) {
//!     let key = key_of(alloc, &tree, bytes, NodeId(n))?;
//!     let value = value_of(alloc, &tree, bytes, NodeId(n))?;
//! }
//! ```
//!
//! The promise. The tree is the one of the file's entries (clause `tree` of `read_properties`), a file is refused for
//! its size alone (`refused`, `too_large`), and `key_of`, `value_of`, `has_key`, `prefix_of_entry` and `key_leaf` say
//! what the entry of that number is. `next_with_key` finds the entries with a key without a tree: what stands between
//! them keeps its bytes. `PropertiesTree` is a file's tree to contracts, and keeps the bytes alone. Laws, each a function
//! that does nothing: the parts of the entries are the file's bytes (`parts_are_the_file`), the tree is one
//! (`files_have_trees`), what `spell_key` and `spell_value` write reads back (`keys_read_back`, `values_read_back`,
//! `files_read_back`), and no two classes are one number (`classes_differ`).
//!
//! What must be believed stands in specs/, to be read in this order: `Characters`, `Lines`, `Entries` (what the entries
//! of a file are), `Decoding` (what a key and a value say), `Layout` (the tree), `Refusal`, `Spelling`, `Keys`, `Laws`;
//! natural lines and trees stand in rw_base. The others, `Plain`, `Sizes`, `Cutting`, `Starts`, `Steps` and `Reading`,
//! are words of the contracts of private functions, and no public clause stands on them.
#![tactic(auto)]

mod bytes;
mod decoding;
mod keys;
mod late_tree;
mod laws;
mod layout;
mod lines;
mod option;
mod pieces;
mod reader;
mod spelling;
mod starts;
mod tree;

pub use keys::{KeyPlace, next_with_key};
pub use late_tree::PropertiesTree;
pub use laws::{
    classes_differ, files_have_trees, files_read_back, keys_read_back, parts_are_the_file,
    values_read_back,
};
pub use layout::{END, ENDING, ENTRY, FILE, KEY, SEPARATOR, VALUE};
pub use option::{AddProperty, ChangePropertyValue, DeleteProperty, PropertiesChangePropertyKey};
pub use reader::read_properties;
pub use spelling::{spell_key, spell_value};
pub use tree::{entry_count, has_key, key_leaf, key_of, prefix_of_entry, value_of};
