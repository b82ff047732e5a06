//! What a name in a Java file means (JLS 6.3 to 6.5), over any world of classes, with the questions that it puts to the
//! world.
//!
//! ```text
//! let mut frames = Frames::new(alloc);
//! frames.push(Frame::Local { name, ty })?;
//! let symbol = meaning_of_asking(alloc, &cx, &frames, &n, &world, &mut asks)?;
//! ```
//!
//! A place is given by its `UnitContext`, the package, imports and classes around a unit of a file, and by its
//! `Frames`, the scopes inside of the unit. A world is anything that answers with what each class declares itself
//! (`Classes` of jtypes); what a class inherits is found here, by a walk over its supertypes.
//!
//! Each function of a name `.._asking` follows a rule of `specs/`, and its clause `told` says so exactly: it gives what
//! the rule gives, and it puts the questions of the rule to the set, no more and no less (`Told` of dialogue). Simple
//! names are `type_named`, `variable_named` and `meaning_of`; behind a dot `behind_package`, `behind_type` and
//! `field_behind`, and in a type position `type_or_package` in front of a dot and `type_behind` behind it; calls
//! `called`, `methods_behind` and `methods_of`, whose hidden methods `candidates` leaves out; creations
//! `constructors_of`, `superclass_of` and `super_of`. The three of simple names have a form without questions, too
//! (`gives`). In a world that answers alike what was asked, the meaning and its questions are the same
//! (`equal_answers_give_equal_meanings`, `equal_answers_give_equal_walks`), so that a name must be judged again only
//! where an answer to one of its questions has changed.
//!
//! Read `specs/Walk.antt` first (the walk over a class and what it inherits), then `Members` (what walks look for, and
//! which members count), `Names` (simple names, from the innermost scope outward), `Dots` and `Calls`. `Scopes` says
//! which scopes a look-up by name may leave out, and `Indexed` how it does without going through them.
#![tactic(auto)]

mod called;
mod calls;
mod chains;
mod context;
mod creations;
mod dots;
mod frames;
mod hiding;
mod laws;
mod link;
mod meaning;
mod members;
mod methods;
mod on_demand;
mod owners;
mod packages;
mod places;
mod receivers;
mod types;
mod variables;
mod walk;

pub use called::Called;
pub use calls::called_asking;
pub use context::{EnclosingClass, Frame, ImportRow, LocalField, UnitContext};
pub use creations::{constructors_of_asking, super_of_asking, superclass_of_asking};
pub use dots::{
    behind_package_asking, behind_type_asking, field_behind_asking, type_behind_asking,
};
pub use frames::Frames;
pub use hiding::candidates;
pub use jtypes::{Ask, Symbol, UnitTypes};
pub use laws::{equal_answers_give_equal_meanings, equal_answers_give_equal_walks};
pub use meaning::{meaning_of, meaning_of_asking};
pub use packages::OnDemand;
pub use receivers::{methods_behind_asking, methods_of_asking};
pub use types::{type_named, type_named_asking, type_or_package_asking};
pub use variables::{variable_named, variable_named_asking};
