//! The edge to the outside: paths, the stores that hold files by them, the sinks that take text, the gate that pieces
//! of work enter, and the count of the steps that they take. All that lies above is written for any `Store`, `Sink`,
//! `Gate` and ledger of `Steps`, so that a contract can speak of the files before and after a run, and of the work; the
//! program hands in the real ones.
//!
//! ```text
//! let mut store = FolderStore::new(rt, alloc, ".")?;
//! let paths = store.list(alloc, 100_000)?;            // all paths below the folder, in order, each once
//! store.reserve(1)?;                                  // room for one write, which takes no memory then
//! store.write(path, bytes)?;                          // the whole file, in place of the one at the path
//! store.sync()?;
//! ```
//!
//! A store lists its paths in order, each once (`Store::list`, clauses `paths` and `in_order`), reads give the bytes
//! that were written (`read`, `bytes`; `write`, `written`), a failed write or removal leaves every other path as it was
//! (`write` and `remove`, `elsewhere`), and `Failed` is answered only where the count of that kind of call rose
//! (`cause`, `count` and `other_count` of each call). What a crash may leave at each moment, inside of a call too, is
//! said by the clause `crash` of each call, and `sync` leaves one image (`durable`). The clauses on files and crashes
//! hold of a store that tells them to proofs. A real folder tells none, since others may change it; those of the crate
//! `memory_stores` do. A sink has put the whole piece or a prefix of it (`Sink::put`, `whole` and `part`). `Steps` is a
//! number that only `tick` changes, by one.
//!
//! Definitions, in this order: `Files` (files as a map from paths to bytes, the order of paths, a count that rose),
//! `Crash` (what a crash may leave), `Path` (which texts are paths), `Sink`. `Room` serves private functions alone, and
//! `FileLaws` and `CrashLaws` have laws of `Files` and `Crash` for the proofs of crates above.
#![tactic(auto)]

mod fault;
mod file;
mod folder;
mod full;
mod gate;
mod listing;
mod path;
mod seen;
mod sink;
mod steps;
mod store;
mod unsynced;

pub use fault::{Failed, StoreFault};
pub use file::{FileEdit, SourceFile};
pub use folder::FolderStore;
pub use gate::{Gate, OpenGate};
pub use path::PathText;
pub use sink::{MemorySink, Sink, StdSink};
pub use steps::Steps;
pub use store::Store;
