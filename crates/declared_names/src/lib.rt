//! What is noted for the names that declarations declare, for the names of annotation elements, and for case labels
//! that are enum constants.
//!
//! ```text
//! declared_field(class, leaf, &name, &ty, &world, &mut log)?;
//! match case_name(&selector, leaf, &name, &world, &mut log)? {
//!     Some(ty) => ..
//! ```
//!
//! A class that is declared by a qualified name has its fields and methods in the world (`Classes` of jtypes), and
//! their names are noted as what the world has of them. A local or anonymous class has no such name (`class` is None):
//! its fields are locals, and its methods aren't known.
//!
//! Each function follows a judgement of `specs/` and says so by one clause, `judged` (`Judged` of judging): it notes
//! what the judgement notes, puts its questions to the log and no others, and gives what it gives. `declared_field`,
//! `declared_constant`, `declared_method` and `declared_constructor` (with their `Parameter`s) and `element` note one
//! leaf each; `case_name` notes one where the type that is switched over is an enum, and else gives None.
//! `declared_parameters` asks nothing, and its clauses `notes` and `asks` say what it notes.
//!
//! In a world that answers alike what was asked, the same is noted (`equal_answers_give_equal_declared_names`).
//!
//! Read `specs/Declarations.antt` first, then `Elements` and `Cases`.
#![tactic(auto)]

mod cases;
mod elements;
mod fields;
mod laws;
mod methods;
mod noting;
mod parameter;

pub use cases::case_name;
pub use elements::element;
pub use fields::{declared_constant, declared_field};
pub use laws::equal_answers_give_equal_declared_names;
pub use methods::{declared_constructor, declared_method};
pub use parameter::{Parameter, declared_parameters};
