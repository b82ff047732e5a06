//! The declared types of Java files, of stubs and of the prelude, as they are written: what a world of classes is built
//! of.
//!
//! ```text
//! let mut names = Names::new(alloc);                            // for a file or a worker
//! let tree = reader.read(bytes, &mut steps)?;
//! let skeleton = skeleton(alloc, &tree, bytes, &mut names)?;
//! for declared in skeleton.types.as_slice() { .. }              // each type before those in it
//! let stub = read_stub(alloc, &reader, bytes, &mut names, &mut steps)?;
//! let known = prelude(alloc, &reader, &mut names)?;             // once in a run
//! ```
//!
//! The promise. `skeleton` gives exactly the list `skeleton_of` of the tree that it is called with (clause `types`):
//! each class, interface, enum and annotation type of the file and each member type of these, with its qualified name,
//! its place, its type parameters, its supertypes, its fields and its methods, all as written, and no local or
//! anonymous class. Nothing is asked of the tree but that these are its bytes. Names are kept once each, and lists that
//! types have in common are shared. It takes time in proportion to the declarations: bodies of methods and
//! initializers aren't entered.
//!
//! `read_stub` reads a text and gives its declared types (clause `types`, by the definition `AreDeclaredBy`), or
//! refuses it where the reader does, and it takes the reader's steps (clauses `refused`, `steps`, `at_most`). `prelude`
//! gives the types of four texts, those of `java.lang`, `java.lang.annotation`, `java.io` and `java.util` in this order
//! (clause `types`, by `IsPrelude`). A text that were refused would add nothing; that none is, isn't proved, but shown
//! by the worked examples, which write the prelude out (`examples_java`).
//!
//! The definitions in specs/, in this order: `Words` (the tree as plain data, whose leaves are words), `Finding` (words
//! and nodes among the parts of a node), `TypesWritten`, `Members`, `Files` (package and imports), `Declarations`,
//! which ends in `skeleton_of`, and `Stubs`; the texts of the prelude stand in `prelude_texts`. All but the last are
//! recursions over the plain tree. The shapes of nodes are those of the table in java_reader, where a rule with a
//! single node as its part leaves no node of its own.
#![tactic(auto)]

mod around;
mod assembling;
mod declaring;
mod fields;
mod file;
mod kinds;
mod lists;
mod members;
mod methods;
mod modifiers;
mod parts;
mod prelude_texts;
mod stubs;
mod types;

pub use declared_types::Skeleton;
pub use declaring::skeleton;
pub use stubs::{prelude, read_stub};
