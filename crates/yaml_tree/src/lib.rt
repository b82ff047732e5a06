//! YAML files as lossless trees, in a subset of YAML 1.2, the entries of their mappings, what their scalars say, and
//! key paths, which name entries.
//!
//! ```text
//! let reader = YamlReader::new(alloc)?;
//! let tree = reader.read(alloc, bytes)?;
//! for entry in entries(alloc, &tree)?.iter() {
//!     let key = scalar(alloc, &tree, bytes, entry.key_leaf)?;
//! }
//! let path = KeyPath::read(alloc, b"$.jobs.*.steps[*].uses")?;
//! let found = path.finds(alloc, &tree, bytes)?;
//! ```
//!
//! What comes of a file by the definition `IsYamlOutcome` is what `YamlReader::read` answers: a tree (clause `tree`)
//! over the whole file (`whole`), or the place and the cause of a refusal (`refused`). One thing alone comes of a file
//! (the law `readings_are_one`). The nodes of a tree are of the kinds `Kind`, one for each rule of the table in
//! src/table.rt, which reads like a grammar. `entries` gives the entries of all mappings, of block and of flow style,
//! each once and in the order of their keys (`entries_of`); `own_entry` says whether one node is an entry, and
//! `is_flow_mapping` whether it is a mapping in braces. `scalar` gives what a leaf of class KEY, SCALAR, FSCALAR or
//! BLOCK says (`scalar_of`), by `yaml_texts`, which also spells texts.
//!
//! `KeyPath::read` gives the steps that a text spells (clause `path`), or the byte behind the longest front of the text
//! that begins some key path, and then the text is none (`fault`). A text spells one key path at most (the law
//! `key_paths_are_one`). `KeyPath::steps` gives the steps, and `KeyPath::finds` the entries that the path finds in a
//! file's tree (`found_in`), by the decoded texts of keys that `yaml_texts` gives. They are some of the entries that
//! `entries` gives, in their order, and each once (the law `key_paths_find_entries`).
//!
//! The definitions in specs/, in this order: `Reading` says what comes of a file, by the leaves of `yaml_lex`, the
//! table, and `rw_grammar`'s reading by a table. `Entries` says which nodes of a tree are entries, over trees as plain
//! data. `Scalars` says what a leaf says, by what stands around it. `KeyPaths` is the grammar of key paths, `Found`
//! says what they find, and `FoundEntries` what it means that these are some of the entries. `Decoding`, `PathReading`
//! and `Finding` are of the small functions alone, and no public clause cites them.
#![tactic(auto)]

mod entry;
mod finding;
mod key_path;
mod kind;
mod laws;
mod option;
mod reader;
mod scalars;
mod table;

pub use entry::{EntryView, entries, is_flow_mapping, own_entry};
pub use key_path::{KeyPath, PathFault, PathStep};
pub use kind::Kind;
pub use laws::{
    key_paths_are_one, key_paths_compare_scalars, key_paths_find_entries, readings_are_one,
};
pub use option::{ChangeKey, ChangeValue, DeleteKey, YamlChangePropertyKey};
pub use reader::{STREAM, YamlReader};
pub use scalars::scalar;
pub use table::YAML;
