//! Types as they are declared in Java files, and what their supertypes, fields and methods are in a world of classes.
//!
//! ```text
//! let implicit = ImplicitNames::new(alloc)?;                    // once for a world
//! for declared in skeleton.types.as_slice() {
//!     let supertypes = supertypes_of_asking(alloc, &implicit, declared, &heads, &mut asks)?;
//!     let fields = fields_of_asking(alloc, declared, &heads, &mut asks)?;
//!     let methods = methods_of_asking(alloc, &implicit, declared, &heads, &mut asks)?;
//! }
//! ```
//!
//! A declared type (`DeclaredType`) is kept as it is written: names in parts, dimensions, bounds, and the place where
//! it stands. A `Skeleton` is the list of those of a file. What a world of classes answers for a type is made from its
//! declaration and from a world of heads, which the three functions above see through questions alone.
//!
//! The promise. Each of the three gives what its rule gives and puts exactly the rule's questions to the set (clause
//! `told`): supertypes are resolved names in order, and what names no class is left out; fields and methods have
//! erased types, and the methods of an enum and the constructor of a class that declares none stand behind what is
//! declared. In a world that answers alike what was asked, they are the same and ask the same
//! (`rows_rest_on_their_questions`), so that they must be made again only where an answer has changed.
//! `Skeleton::is` decides whether two skeletons are equal in all that is written, and `Skeleton::copy` shares one
//! (clauses `same`).
//!
//! The definitions in specs/, in this order: `Resolving` (what a written name means), `ImplicitNames` (names that
//! declarations have without writing them), `Supertypes`, `Erasure` (the scopes in a body, and what a type variable is
//! erased to) and `Signatures`, which ends in `fields_of` and `methods_of`.
#![tactic(auto)]

mod body;
mod erased;
mod erasure;
mod implicit_members;
mod implicit_names;
mod laws;
mod member_types;
mod members;
mod resolving;
mod same;
mod scopes;
mod supertypes;
mod written;

pub use implicit_names::ImplicitNames;
pub use laws::rows_rest_on_their_questions;
pub use members::{fields_of_asking, methods_of_asking};
pub use supertypes::supertypes_of_asking;
pub use written::{
    Base, DeclaredType, NamePart, ScopeParams, Skeleton, Written, WrittenField, WrittenMethod,
    WrittenParam,
};
