//! Java's erased types over any world of classes: subtypes, what fits where a value is passed, and numeric promotion,
//! each with the questions that it puts to the world.
//!
//! ```text
//! let world = ListWorld::new(alloc, headers, fields, methods)?;
//! let holds = is_subtype(alloc, &from, &to, &world)?;
//! ```
//!
//! `is_subtype` answers true exactly where the relation `Subtype` of the Java Language Specification, 4.10, holds
//! over erased types, through at most 64 supertypes in a row; `fits_strictly` and `fits_loosely` do so for
//! `FitsStrictly` and `FitsLoosely` (5.3). Each has a form that puts its questions to a set, and its clause (`Told`)
//! says which: it gives what the rule gives, and asks what the rule asks, no more and no less.
//! `rules_decide_the_relations` says that rule and relation agree in every world, and the laws beside it that equal
//! answers give equal results and equal questions.
//!
//! Names and lists are shared: a copy of a name, of a method's parameters or of a header takes no memory, and one of
//! a type takes some where the type is an array. `Names` keeps each name once for a file or a worker. `Symbol` is what
//! an identifier stands for, and `UnitTypes` what is known of the names and expressions of a part of a file.
//!
//! Read `specs/World.antt` first (questions, answers and worlds), then `Primitives`, `Subtype` (the relation, and
//! below it the rule that decides it) and `Fits`. `Arrays` says how a definition matches on an array, `Groups` and
//! `ListWorld` what an indexed world answers, `Grown` how the list of a walk grows, and `AskOrder` that only equal
//! questions tie.
#![tactic(auto)]

mod ask;
mod asking;
mod classes;
mod fits;
mod groups;
mod laws;
mod list_world;
mod name;
mod name_set;
mod names;
mod primitives;
mod promotion;
mod shared_list;
mod signatures;
mod subtypes;
mod symbol;
mod types;
mod unit_types;
mod walk;

pub use ask::Ask;
pub use asking::{Asks, ask_class, ask_field, ask_methods};
pub use classes::Classes;
pub use fits::{fits_loosely, fits_loosely_asking, fits_strictly, fits_strictly_asking};
pub use laws::{
    class_subtypes_rest_on_the_walk, equal_answers_give_equal_fits,
    equal_answers_give_equal_subtypes, rules_decide_the_relations, strict_fits_are_loose,
    subtypes_ask_for_the_walk,
};
pub use list_world::ListWorld;
pub use name::Name;
pub use name_set::NameSet;
pub use names::Names;
pub use primitives::{box_of, unbox};
pub use promotion::promote;
pub use shared_list::SharedList;
pub use signatures::{ClassKind, FieldSig, Header, MethodSig};
pub use subtypes::{is_subtype, is_subtype_asking};
pub use symbol::Symbol;
pub use types::{JPrim, JType, are_same_types};
pub use unit_types::UnitTypes;
