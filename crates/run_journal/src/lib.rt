//! A batch of changes to files that is made whole or not at all, at whatever moment the process stops.
//!
//! A commit writes the batch into a journal and opens a gate in front of it; then it makes the changes, and closes the
//! gate. Each of the four steps outlasts a crash before the next begins. After a stop the files stand for what they are
//! where the gate is closed, and for what the journal makes of them where it is open; `recover` makes its changes once
//! more, which does no harm, and closes the gate.
//!
//! ```text
//! recover(alloc, store)?;                              // what an earlier stop left is finished; the gate is closed
//! let sealed = seal(alloc, batch)?;                    // takes all memory that the commit needs
//! store.reserve(entries + 2)?;
//! commit(store, sealed)?;                              // all changes or none
//! ```
//!
//! The promise, for a store that tells what crashes leave. Whatever a crash at any moment of a commit leaves, inside of
//! each store call too, stands for the files before or for those with all changes made (`commit`, clause `any_moment`);
//! after Ok it is the latter alone (`files` and `one_image`; `a_commit_makes_the_repository`). Whatever a crash during
//! `recover` leaves is what one before might have left, or stands for what the files stood for (`any_moment`); after Ok
//! the files do (`files`, `stands`, `one_image`; `a_recovery_makes_the_repository`). `standing` gives the changes that
//! are still to be made, and writes nothing (`entries`, `files`, `images`); those changes make what the files stand for
//! (`called_changes_make_the_repository`). Both answer `Damaged` exactly where the gate is open and the journal has no
//! reading, with the place where it stops being a journal (`damaged`, and `undamaged` or `entries`), and then the files
//! stand for nothing (`damaged_files_stand_for_nothing`). Else they stand for one repository alone
//! (`files_stand_for_one_repository`).
//!
//! Definitions, in specs/: `Standing` (what files stand for). `Steps` serves private functions alone. What a journal
//! says stands in the crate `journal_text`, and what a crash may leave in `rw_host`.
#![tactic(auto)]

mod commits;
mod fault;
mod laws;
mod pending;
mod recovery;

pub use commits::commit;
pub use fault::RecoverFault;
pub use journal_text::{
    Batch, Entry, JournalFault, MOST_BYTES, Sealed, journal_len, read_journal, seal,
};
pub use laws::{
    a_commit_makes_the_repository, a_recovery_makes_the_repository,
    called_changes_make_the_repository, damaged_files_stand_for_nothing,
    files_stand_for_one_repository, files_that_stand_alike_stand_for_the_same,
};
pub use recovery::{recover, standing};
