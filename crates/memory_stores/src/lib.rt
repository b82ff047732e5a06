//! Stores that hold their files in memory and tell them to proofs: one that never fails, and one for tests, whose calls
//! fail where it was asked to, and which tells what a crash may leave.
//!
//! ```text
//! // The second and the fourth call fail, and from the ninth on all do.
//! let mut store = MemoryStore::new(alloc, files, vec![in alloc; 2, 4]?, 9)?;
//! store.reserve(1)?;                                  // the first call
//! let written = store.write(path, bytes);             // the second: `Failed`, and the file is what it was
//! let left = store.crash(alloc, 3)?;                  // a store of its own, whose file at the path was torn
//! ```
//!
//! Both meet the clauses of `Store` with their files told. `SteadyStore` holds the files that it was given (`new`,
//! `files`). A call of `MemoryStore` fails exactly where its number was asked to (clause `failed` of each call),
//! changes no file then (`kept`), and raises the count of its kind by one there and nowhere else (`faults`); the store
//! notes the path of each write and removal, so that those since the last sync are known (`states`, `failed_states`,
//! `path_unsynced` and `all_synced`).
//!
//! `MemoryStore` tells images. At each moment a crash may leave any bytes or none at a path that was written or removed
//! since the last sync, also in vain, and at the others what reads give (`IsImage`; clauses `crash` and `durable` of
//! each call). So that this stays known of the moments gone by, the store keeps a log of how to go back behind its
//! calls, and contracts see in `past` what each sync found. `new` makes room for 65,536 entries and `reserve` for those
//! of the writes to come; the calls from the stop on write none, but where a path is new. `crash` gives one image of
//! this moment as a store of its own, for what is to recover from it, and its number says which (`files`, `image`).
//!
//! Definitions, in this order: `Table` (the files as they are handed in, and what contracts see of a `SteadyStore`),
//! `States` (what is known of a path), `Images` (what crashes leave), `Memory` (the record of calls), `Picked` (the
//! images that `crash` gives). `ImageLaws` has what the trait asks of images. `Rows`, `Log`, `Past` (going back) and
//! `Walk` serve private functions alone.
#![tactic(auto)]

mod crash;
mod log;
mod memory;
mod row;
mod state;
mod steady;
mod table;
mod undo;

pub use memory::MemoryStore;
pub use steady::SteadyStore;
