//! Method patterns: `com.acme..* find*(int, ..)` stands for the methods of the classes of `com.acme` and of the
//! packages below it whose names begin with `find` and whose first parameter is an `int`.
//!
//! ```text
//! let owner = TypePattern::new(pieces);                            // com.acme..*
//! let pattern = MethodPattern::new(owner, name, params);           // find*, and (int, ..)
//! if pattern.matches(&method) { .. }
//! ```
//!
//! The promise. `matches` answers true exactly where the pattern matches the method (`Matches`): where its type pattern
//! fits the whole name of the class that declares it (`NameFits`), its name the whole name (`TextFits`), and its
//! parameters fit all parameter types in order (`ParamsFit`). It takes no memory and has no other answer. A part with
//! many `*`, or a list with many `..`, costs at most the product of its length and that of what it is tried on: behind
//! a gap, the first place at which what comes up to the next gap fits is never given up.
//!
//! What the pieces stand for, and examples: `docs/method-patterns.md`.
//!
//! Read `specs/Rows.antt` first (rows with gaps, for bytes, parts and parameters alike), then `Matching`. `Onwards`,
//! `PartsLeft` and `Elements` say what small functions give; no public clause stands on them.
#![tactic(auto)]

mod fault;
mod laws;
mod letters;
mod matching;
mod names;
mod onward;
mod param_text;
mod params;
mod pattern;
mod reading;
mod starred;
#[cfg(test)]
mod tests;
mod type_text;

pub use fault::PatternFault;
pub use laws::{method_patterns_are_one, type_patterns_are_one};
pub use pattern::{MethodPattern, NamePiece, ParamPattern, TypePattern};
