//! The text of a journal: a batch of changes to files, made into bytes from which it can be read back, with a digest by
//! which torn bytes are known.
//!
//! ```text
//! rewrite-journal 1                                   // the form
//! 2                                                   // the number of entries, in the order of their paths
//! put 6 docs/a.txt                                    // a file of so many bytes, then those bytes and an LF
//! hello!
//! del docs/b.txt                                      // a file that is removed
//! sha256 58318d1f8b620a5c…                            // the digest of all bytes before this line
//!
//! let batch = Batch { entries };                      // paths rise, none is `.rewrite/gate` or `.rewrite/journal`
//! if journal_len(&batch) <= MOST_BYTES as u64 {
//!     let sealed = seal(alloc, batch)?;
//!     let parts = sealed.into_parts();                // all that a commit writes, without memory
//! }
//! let batch = read_journal(alloc, &bytes)?;           // or `JournalFault::At(place)`
//! ```
//!
//! The promise. `journal_len` is the length of the batch's journal. `seal` needs the paths in order and neither
//! path taken (`rise`, `free`); what `into_parts` gives is the batch (`entries`, `batch`), its journal (`text`),
//! the two paths and the gate's byte. `read_journal` gives a batch of which the bytes are the journal (`read`), and
//! a fault only where they are that of none (`unread`), at the one place that the definition names (`place`): the
//! end of the longest front of any journal, the digest where only that is another, or `MOST_BYTES`. A batch has one
//! journal, each journal is of one batch, and what is sealed reads back (`a_batch_has_one_spelling`,
//! `sealed_batches_read_back`); a fault has one place (`a_fault_has_one_place`). All is linear, and reading copies
//! each content once.
//!
//! Definitions, in this order: `Changes` (what a batch is), `Numerals`, `Text` (the journal of a batch), `Reading`
//! (what bytes read as, and where they stop). `Sealing` is what holds in a `Sealed`; `Forms`, `Parts` and `Stops`
//! serve private functions alone.
#![tactic(auto)]

mod batch;
mod entries;
mod fault;
mod laws;
mod length;
mod parts;
mod paths;
mod reader;
mod sealed;
mod stops;
mod text;

pub use batch::{Batch, Entry};
pub use fault::JournalFault;
pub use laws::{a_batch_has_one_spelling, a_fault_has_one_place, sealed_batches_read_back};
pub use length::journal_len;
pub use reader::{MOST_BYTES, read_journal};
pub use sealed::{Sealed, SealedParts, seal};
pub use text::journal_digest;
