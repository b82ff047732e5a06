//! The reader of Java 8: files, members of types and expressions as trees, the units of a file and their calls.
//!
//! ```text
//! let reader = JavaReader::new(alloc)?;               // the table is checked once
//! let tree = reader.read(bytes, &mut steps)?;         // or a place and a cause
//! for unit in &units(alloc, &tree)? {
//!     let calls = calls(alloc, &tree, *unit)?;        // in the order of their names
//! }
//! ```
//!
//! The promise. A text is read into the tree of the definition `IsJavaRead`, or refused at its place with its cause
//! (clauses `tree` and `refused` of `read`, `read_member` and `read_expr`), and what comes of a text is one thing
//! (`readings_are_one`), since the table has no fault (`java_rules_are_sound`). A tree ends where the text ends, so
//! that it prints the text (`whole`), its nodes are few enough for `units` (`few`), and each is of a kind (`kinds`). A
//! reading takes a step for each leaf, and none where the text is too large (`steps`); where memory is wanting it takes
//! no more (`at_most`). `units` and `calls` give the lists of their definitions.
//!
//! The definitions in specs/, in this order: `Reading` (leaves, marks and table), `Kinds`, `Units`, `Calls`. The rules
//! are those of `JAVA`, which its comments spell as a grammar. `Walking` serves private functions alone, and no public
//! clause cites it.
#![tactic(auto)]

mod call;
mod kind;
mod laws;
mod read;
mod role;
mod table;
mod unit;

pub use call::{CallView, calls};
pub use kind::{Kind, kind_in};
pub use laws::{java_rules_are_sound, readings_are_one};
pub use read::{EXPR_ROOT, JavaReader, MEMBER_ROOT, UNIT};
pub use unit::{UnitKind, UnitRef, units};
