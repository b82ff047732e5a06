//! The choice of an overloaded method in its three phases (JLS 15.12.2), over any world of classes, with the
//! questions that it puts to the world.
//!
//! ```text
//! match choose(alloc, candidates, &args, &world)? {
//!     Choice::Method(place) => ..
//! ```
//!
//! `choose` gives a choice that `Chosen` allows, which is the choice in the words of the specification; that there is
//! exactly one, and that the rule with its questions gives it, says `the_rule_decides_the_choice`. `choose_asking`
//! gives what this rule gives and asks what it asks (`Told`), so that a choice must be made again only where an
//! answer to one of its questions has changed (`equal_answers_give_equal_choices`).
//!
//! Read `specs/Parameters.antt` first (the types that arguments are tested against), then `Choices` (which candidates
//! apply, which is more specific, which is chosen), then `Rules` over `TestEach` (the same as rules with questions).
//! `Picked` is how code that keeps places speaks of candidates.
#![tactic(auto)]

mod applicable;
mod argument;
mod choice;
mod choosing;
mod laws;
mod parameters;
mod phase;
mod specific;

pub use argument::ArgType;
pub use choice::Choice;
pub use choosing::{choose, choose_asking};
pub use laws::{equal_answers_give_equal_choices, the_rule_decides_the_choice};
