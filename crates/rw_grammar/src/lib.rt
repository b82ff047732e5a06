//! A grammar engine: tables of rules, the tree of the one greedy derivation of a list of leaves, and the reading of a
//! text by a table. It knows no language: the readers of Java, YAML and JSON hand it their tables and their leaves.
//!
//! ```text
//! let table = Table::checked(alloc, shapes(alloc, &CODES)?)?;
//! if let Some(refused) = too_large(bytes) {
//!     return Err(ReadFault::Refused(refused));
//! }
//! let cut = java_leaves(alloc, bytes)?;
//! let tree = read_by(alloc, &table, UNIT, bytes, cut)?;
//! ```
//!
//! `Table::checked` gives the rules that it was handed (clause `rules`) where they have no fault (`sound`), and else
//! the least fault of the least rule (`wrong`). `derive` gives the tree that a rule derives (`tree`), or names the leaf
//! behind the longest viable front (`stop`), or the first node that lies too deep (`too_deep`); `derive_nodes` is the
//! same over leaves that stay the caller's. By a table without a fault a rule derives one tree
//! (`a_rule_derives_one_tree`), and it stops at one leaf (`a_rule_stops_at_one_leaf`). `read_by` gives what comes of a
//! text by the definition `IsOutcome`, a tree (`tree`) over the whole text (`whole`) or a refusal (`refused`), and one
//! thing alone comes of a text (`outcomes_are_one`). Codes spell one list of rules (`codes_spell_one_list_of_rules`),
//! and a test that computes shows of a table that it has no fault (`closed_rows_show_a_sound_table`).
//!
//! The definitions in specs/, in this order: `Parts` and `Shapes` are rules as lists, `Begins` says what can be empty
//! and what can begin with what, `Derivation` what a rule derives, `Viability` where it stops, `Faults` what is wrong
//! with a table, `Results` what a derivation answers, `Reading` what comes of a text. `Codes` spells rules as numbers,
//! `Closed` is the test, `Laws` has the laws; `TreeLaws`, `StopLaws` and `ReadingLaws` prove those that crates above
//! cite. `Cells`, `Machine`, `Depth`, `Words`, `Refusals` and `PartsCode` are of the code alone, and no public clause
//! cites them.
#![tactic(auto)]

mod cells;
mod codes;
mod depth;
mod faults;
mod greedy;
mod known;
mod laws;
mod machine;
mod reading;
mod shape;
mod table;

pub use codes::shapes;
pub use depth::DEPTH_LIMIT;
pub use greedy::{DeriveFault, derive, derive_nodes};
pub use laws::{
    a_rule_derives_one_tree, a_rule_stops_at_one_leaf, closed_rows_show_a_sound_table,
    codes_spell_one_list_of_rules, outcomes_are_one,
};
pub use reading::{read_by, too_large};
pub use shape::Shape;
pub use table::{MOST_RULES, Table, TableFault};
