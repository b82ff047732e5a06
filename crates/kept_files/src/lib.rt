//! The files of a repository: their kinds, and what they read as.
//!
//! ```text
//! let readers = Readers::new(alloc)?;                          // the tables are checked once
//! if kind_of(path) != FileKind::Other {
//!     let reading = readers.read_file(alloc, path, &bytes, &mut steps)?;
//! }
//! ```
//!
//! The promise. A file has the kind of the definition (`kind_of`), and what it reads as is in the relation `IsReading`
//! of its path and bytes (`read_file`, clause `reading`); it takes the steps of its kind (`steps`, `at_most`). A file
//! reads as one thing (`a_file_reads_as_one_thing`), so that crates above may speak of what a file reads as as of a
//! function `read` that is told by `AreReadings` alone (`read_file`, clause `same`).
//!
//! Recipes see a repository by `KeptFiles`, its files with what they read as, or by `KeptView`, with what is known of
//! the names and expressions of Java files, too.
//!
//! The definitions in specs/: `Kinds` (kinds by paths), `Readings` (what a file reads as), `States` (files in the order
//! of their paths), `FileEdits` (a file with edits), `Views` (what is kept of the units of Java files).
#![tactic(auto)]

mod file;
mod kind;
mod laws;
mod option;
mod readers;
mod reading;
mod scan_value;
mod state;
mod view;

pub use file::KeptFile;
pub use kind::{FileKind, is_source, kind_of};
pub use laws::a_file_reads_as_one_thing;
pub use option::{CreateTextFile, DeleteSourceFiles, FindSourceFiles};
pub use readers::Readers;
pub use reading::Reading;
pub use scan_value::ScanValue;
pub use state::{KeptFiles, has_path, held_bytes, properties_in, put_file, yaml_in};
pub use view::KeptView;
