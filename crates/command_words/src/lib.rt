//! The words of the command line: which command they ask for, with which values, or that they are those of none.
//!
//! ```text
//! // The words behind the program's name: run --recipe=shop.Upgrade --workers 4
//! match command_of(&words) {
//!     Some(Command::Apply(asked)) => ..,               // the recipe `shop.Upgrade`, 3 cycles at most
//!     Some(..) => ..,
//!     None => ..,                                      // words of another form
//! }
//! ```
//!
//! The first word names the command: `run` and `dry` have a recipe and may have workers and cycles, `check` may have
//! workers, `recover` and `history` have no option. An option is `--name` with its value in the next word, or
//! `--name=value`; each stands at most once, in any order. A value isn't empty and doesn't begin with `-`. Numbers are
//! decimal without leading zeros: workers 1 to 64, cycles 1 to 10, and 3 where they aren't given. How many workers
//! there are is no part of what the words ask for.
//!
//! `command_of` answers exactly the command that the definition of the same name gives for the words, and `None` where
//! it gives none (its one clause). It has no allocator: reading the words takes no memory.
//!
//! Definitions, in this order: `Words` (which words are those of a command, and what it is asked), `Asking` (what the
//! types `Asked` and `Command` say in these terms). `Taken` serves private functions alone.
#![tactic(auto)]

#[cfg(test)]
mod tests;
mod words;

pub use words::{Asked, Command, command_of};
