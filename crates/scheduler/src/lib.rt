//! Steps, cycles and runs of a plan over the kept state of a repository.
//!
//! ```text
//! let mut kept = attribute_all(alloc, readers, files, &mut steps)?;
//! let outcome = run_plan(alloc, &mut kept, &plan, cycles, &mut steps)?;      // kept is the last state now
//! ```
//!
//! The promise. A step takes each file on which its leaf runs, by the state before the step alone; a cycle scans, then
//! each leaf generates, then each edits; a run goes on while a cycle changes something, the plan causes another cycle
//! and the maximum allows it. `run_plan` ensures that it comes to the last state and the events of that run (`done`,
//! `cycles`, `still`), or stands at the state before the first that holds too much (`too_much`).
//!
//! The laws: a file that no step alters stays the same, with its bytes (`an_untouched_file_stays`); each file behind a
//! step is one before it, or what the leaf's edits make of one before it (`an_altered_file_is_edited`); and outside the
//! edited ranges its bytes stay (`an_edited_file_keeps_its_gaps`). All of this in one: behind a run a path has the same
//! file, or a step removes it or edits it in ranges of its tree, or makes one where none stood
//! (`a_path_is_the_same_or_touched`).
//!
//! The definitions in specs/: `Edits` (what each leaf recipe does), `Holds` (preconditions), `Fates` and `Steps` (an
//! edit step), `Runs` (cycles, runs, and what is reached). `Came` says what a part of a run came to, `Untouched` when
//! a run leaves a path alone, and `Touched` what its steps do at a path.
#![tactic(auto)]

mod cycling;
mod decide;
mod dispatch;
mod event;
mod fate;
mod fault;
mod generating;
mod laws;
mod next;
mod running;
mod same;
mod scanning;
mod settle;
mod stepping;

pub use event::{DropCause, Event};
pub use fault::{MOST_HELD, RunFault};
pub use laws::{
    a_path_is_the_same_or_touched, an_altered_file_is_edited, an_edited_file_keeps_its_gaps,
    an_untouched_file_stays,
};
pub use running::{Outcome, run_plan};
pub use stepping::{StepReport, step};
