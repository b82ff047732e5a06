//! What stands in a type position (JLS 6.5.4, 6.5.5), in a package declaration and in an import, with the meaning of
//! each leaf noted, over any world of classes and with the questions that are put to it.
//!
//! ```text
//! let written = WrittenType { base: WrittenBase::Named(names), dims: 1 };      // `p.A[]`
//! let meant = written_type(alloc, &cx, &frames, &written, &world, &mut log)?;
//! ```
//!
//! A name comes in its parts, each with the number of its leaf (`NamedLeaf`). The promise: `type_name`, `written_type`
//! and `imported` follow the judgement of the same name in `specs/`, and the clause `judged` says so exactly: each
//! gives what the judgement gives, puts its notes behind those of the log, one for each leaf of the name, and puts its
//! questions to the log's set, no more and no less (`Judged` of judging). `package_name` notes without a question
//! (`notes`), and `with_more_dims` changes a type alone. In a world that answers alike what was asked, all this is the
//! same (`equal_answers_give_equal_written_types`, `equal_answers_give_equal_imports`).
//!
//! Read `specs/TypeNames.antt` first, then `WrittenTypes` and `Declarations`. What a part means alone is said by the
//! rules of j_names that they cite.
#![tactic(auto)]

mod imports;
mod laws;
mod names;
mod noting;
mod package;
mod type_names;
mod written;

pub use imports::imported;
pub use laws::{equal_answers_give_equal_imports, equal_answers_give_equal_written_types};
pub use names::{ImportPart, NamedLeaf};
pub use package::package_name;
pub use type_names::type_name;
pub use written::{MeantType, WrittenBase, WrittenType, with_more_dims, written_type};
