//! What names, fields, calls, creations, `this` and `super` stand for in an expression (JLS 6.5, 8.8.7.1, 15.8 to
//! 15.12), over any world of classes, with what they note and the questions that they put to the world.
//!
//! ```text
//! let list = simple_name(alloc, &cx, &frames, 4, &list_name, &world, &mut log)?;              // list
//! let size = call_behind(alloc, &cx, &list, 6, &size_name, &[], &world, &mut log)?;           // list.size()
//! constructing(alloc, &cx, Some(&list_class), 9, &[ArgType::Known(size)], &world, &mut log)?;  // new List(..)
//! let whose = whose_body(&cx, &frames)?;
//! let parent = super_type(&whose, &world, &mut log)?;                                         // super
//! ```
//!
//! A caller goes over an expression from the left. A name or another primary gives a `Denoted`: a package, a class, or
//! an expression of a type. What stands behind a dot takes it as `before`. A call takes what is known of its arguments
//! (`ArgType` of j_overload), and gives its type. Each note is put at a leaf, by its number: the meaning of a name, and
//! the method or constructor that a call chooses. Types are noted by the caller, who knows the nodes.
//!
//! The promise: each of `simple_name`, `name_behind`, `call`, `call_behind`, `constructing`, `this_call`, `super_call`,
//! `super_type` and `qualified_super` follows the judgement of the same name in `specs/`, and its clause `judged` says
//! so exactly: it gives the judgement's value, puts its notes behind those of the log, and puts its questions to the
//! world, no more and no less (`Judged` of judging). `whose_body`, `this_type` and `qualified_this` note and ask nothing;
//! their clause `value` says what they give. Methods that others hide, and those that a local or anonymous class
//! declares, are never chosen. In a world that answers alike what was asked, each judgement gives, notes and asks the
//! same (`equal_answers_give_equal_expression_names`), so that an expression must be judged again only where an answer
//! to one of its questions has changed.
//!
//! Read `specs/Primaries.antt` first (names), then `Calls` (methods and constructors), then `Bodies` (the class around a
//! place, `this` and `super`). The rules of names that they cite are those of j_names.
#![tactic(auto)]

mod bodies;
mod calls;
mod choice;
mod constructors;
mod denoted;
mod laws;
mod names;
mod receivers;

pub use bodies::{Whose, whose_body};
pub use calls::{call, call_behind};
pub use constructors::constructing;
pub use denoted::Denoted;
pub use laws::equal_answers_give_equal_expression_names;
pub use names::{name_behind, simple_name};
pub use receivers::{
    qualified_super, qualified_this, super_call, super_type, this_call, this_type,
};
