//! What the body of a local or anonymous class declares, as it is written: its fields, methods and classes.
//!
//! ```text
//! let parts = tree.parts(body);                         // { int a[], b = 1; void run() {} final class C {} }
//! let fields = fields_in(alloc, &tree, parts)?;         // `a`, with one pair of brackets, and `b`, both of `int`
//! let methods = methods_in(alloc, &tree, parts)?;       // the leaf `run`
//! let classes = classes_in(alloc, &tree, parts)?;       // the leaf `C`
//! ```
//!
//! The promise: each call gives the list that the definition of the same name gives of the trees of the parts (clauses
//! `fields` and `names`), or no memory was left. Names are leaves of the tree, and types nodes of it (`inside`): nothing
//! is looked up, and no text is read. The parts are those of a body, or those of an enum, whose members stand among its
//! own parts; its constants aren't among its fields. A constructor is no method, nor is an initializer. What is in a
//! block, in the value of a field, in a nested body or in a constant is no member of the body and isn't entered.
//!
//! Read `specs/Bodies.antt`, a page, beside the rules from Body to Declarator in java_reader's table.
#![tactic(auto)]

mod fields;
mod kinds;
mod members;

pub use fields::{WrittenField, fields_in};
pub use members::{classes_in, methods_in};
