//! The kept state of a repository: its files in the order of their paths, each with what it reads as.
//!
//! ```text
//! let readers = Readers::new(alloc)?;
//! let mut kept = attribute_all(alloc, readers, files, &mut steps)?;       // each file is read once
//! kept.repair(alloc, changes, &mut steps)?;                               // and again only where it is changed
//! ```
//!
//! The promise. A kept state always holds files with paths in order, each once, and each with what its bytes read as:
//! the type keeps it (`files`, clause `kept`). `attribute_all` gives the given files as they read, and `repair` what a
//! reading of the changed files from the start would give.
//!
//! The definitions stand in specs/: `Changes`, over kept_files' `States` and `Readings`.
#![tactic(auto)]

mod attributed;
mod change;
mod reading;
mod repairing;

pub use attributed::{Attributed, attribute_all};
pub use change::Change;
