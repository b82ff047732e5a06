//! The judgement of Java trees (JLS 6, 8, 14, 15): what each node is given, what is in scope for it, what it gives, and
//! what it notes and asks, as tables for the walk of `judged_trees`.
//!
//! ```text
//! let given = given_to(&surroundings, node, parts, &given, from, &values)?;   // what the part `from` is given
//! ```
//!
//! The definitions of all four tables stand in `specs/` and are checked. Of their code there is the first table,
//! `given_to`, and most rows of the third, in modules of their own with exact clauses. The match that leads from a node's
//! kind to its row, the tables of scopes, and the judgement of a unit aren't written yet, so nothing stands on this crate.
//!
//! Read `specs/JavaTables.antt` first, then `Rows` (what a node of each kind gives, a line for each kind), `Givens` and
//! `Scopes`, and what these cite: `Expressions`, `Primaries`, `WrittenRows`, `Declarations`, `Bodies`. `Around` is the file
//! around a node, `Values` what a value is where another node asks for it, and `Words` what words are to types.
#![tactic(auto)]

mod declarations;
mod expressions;
mod givens;
mod kinds;
mod primaries;
mod rows;
mod surroundings;
mod value;
mod values;
mod words;
mod written;

pub use givens::given_to;
pub use surroundings::Surroundings;
pub use value::{Given, Value};
