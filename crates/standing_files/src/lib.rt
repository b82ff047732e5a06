//! What a store stands for: its files with the entries of an open journal laid over them. They are read and listed
//! without a write, so a command that changes nothing sees the repository as it will be once the journal is settled.
//!
//! ```text
//! let entries = standing(alloc, &mut store)?;                        // of the open journal, or none
//! let paths = list_standing(alloc, &mut store, &entries, 100_000)?;  // all paths, in order, each once
//! let bytes = read_standing(alloc, &mut store, &entries, "pom.xml", 1_000_000)?;
//! ```
//!
//! The promise: each call meets the clauses of the store's own `list` or `read`, with the store's files replaced by
//! `applied (changes_of entries) files` of `run_journal` and `journal_text`, the files with all changes made.
//! `read_standing` ensures in `bytes` that it gives the first bytes of that file or `None`. `list_standing` ensures in
//! `paths` and `in_order` that it gives the paths of those files, and `TooMany` comes only where the store or those
//! files have more (`store_fits`, `all_fit`, `too_many`). Both leave the files as they are (`files`), fail only where
//! the store counted a fault (`cause`, `count`, `other_count`), and change nothing in what a crash may leave
//! (`unsynced`, `crash`). Entries are in the order of their paths, each path once, as those that `standing` of
//! `run_journal` gives (`IsBatch`, `rise`). The store's own gate and journal are files as any other.
//!
//! A read looks for its entry by halves, and a listing walks once over the store's paths and the entries.
//!
//! To read: `list`, then `read`. The one file of definitions, `Merged`, serves private functions alone.
#![tactic(auto)]

mod entry;
mod list;
mod read;

pub use entry::entry_at;
pub use list::list_standing;
pub use read::read_standing;
