//! Judgements: rules about a Java file that give something, note what they find out of its leaves and nodes, and put
//! questions to a world of classes.
//!
//! ```text
//! let mut log = Log::new(alloc);
//! let name = name_at(alloc, &tree, bytes, leaf, &mut names)?;
//! let symbol = meaning_of_asking(alloc, &cx, &frames, &name, &world, &mut log.asks)?;
//! log.note(Note::Symbol(leaf, symbol))?;
//! ```
//!
//! A judgement is a rule of the world whose answer has a list of notes beside its value (`Judging`), so that one
//! composition carries values, notes and questions: `and_then` for two judgements in a row, `looking` where the first
//! is a rule without notes. A function that follows a judgement says so in one clause, `Judged`: it gives the value that
//! the judgement has in the world, puts its notes behind those of the log, and puts its questions to the set of the log,
//! no more and no less. `Log::note` puts one note at the end, and nothing else changes.
//!
//! Read `specs/Judging.antt` (what a judgement is, and `Judged`), `Source` (the text of a leaf), and `Alike` (what crates
//! above say of their judgements in worlds that answer alike). `JudgingLaws` has lemmas for proofs above: how one `Judged`
//! follows another, and that every judgement rests on the answers to its questions.
#![tactic(auto)]

mod log;
mod source;

pub use log::{Log, Note};
pub use source::name_at;
