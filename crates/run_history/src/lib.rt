//! The history of runs: a CSV file with a record for each run and no header, read and written.
//!
//! ```text
//! 1,org.example.Rename,1,12,0,3,9f86d081884c7d659a2feaa0c55ad015a3bf4f1b2b0b822cd15d6c15b0f00a08
//! 2,"a, b",2,1,0,0,60303ae22b998861bce3b28f33eec1be758a213c86c93c076dbe9f558c11c752
//! ```
//!
//! The fields of a record are the run's number, the recipe, the cycles, how many files were changed, created and
//! removed, and a SHA-256.
//!
//! ```text
//! let rows = read_history(alloc, bytes)?;
//! let run = rows.len() as u32 + 1;
//! let row = RunRow { run, recipe, cycles, changed, created, removed, digest };
//! let bytes = history_with(alloc, rows.as_slice(), &row)?;
//! ```
//!
//! The promise: `read_history` gives the runs exactly where the bytes are a history, and those of the history (clauses
//! `ok` and `reading`); else it names the first record that isn't in form (`at` and `no_reading`), or wants memory.
//! `history_with` writes a line for each run (`text`), and that reads back, where it isn't too long (`reads`).
//!
//! The definitions in specs/, in this order: `History` says which bytes are a history of which runs, and how a run's
//! line is written, both by the words of `csv`; `Faults` says where bytes stop that are none. `Reader`, `Said` and
//! `Writer` are of private functions alone.
#![tactic(auto)]

mod number;
mod reading;
mod record;
mod row;
mod writing;

pub use reading::{HistoryFault, MOST_BYTES, read_history};
pub use row::RunRow;
pub use writing::history_with;
