//! The types of literals, of operators by the types of their operands, of array elements, and of `?:` (JLS 15).
//!
//! ```text
//! let common = CommonTypes::new(alloc)?;                       // once for a file or a worker
//! let one = literal_type(&common, Literal::Int)?;
//! let text = literal_type(&common, Literal::String)?;
//! let sum = binary_type(&common, BinaryOperator::Add, &one, &text)?;    // java.lang.String
//! let either = conditional_type_asking(alloc, &sum, &one, &world, &mut asks)?;
//! ```
//!
//! The promise: `literal_type`, `unary_type`, `binary_type`, `chain_type`, `element_of` and `with_dims` give the type
//! that the row of the same name in `specs/` says. `conditional_type_asking` gives what the rule `conditional` gives
//! and puts exactly its questions to the set (clause `told`); in a world that answers these alike, the type and its
//! questions are the same (`equal_answers_give_equal_conditionals`). Where the Java Language Specification refuses an
//! operand and no row gives a type, it is Unknown; an operator whose result is always boolean is boolean all the same.
//!
//! A copy of a type takes no memory, and `CommonTypes` keeps the names that the rows make.
//!
//! Read `specs/Operators.antt` first (literals, operators, chains), then `Arrays` and `Conditional`.
#![tactic(auto)]

mod arrays;
mod binary;
mod chain;
mod common_types;
mod conditional;
mod laws;
mod literal;
mod operator;
mod unary;

pub use arrays::{element_of, with_dims};
pub use binary::binary_type;
pub use chain::{Operation, chain_type};
pub use common_types::CommonTypes;
pub use conditional::conditional_type_asking;
pub use laws::equal_answers_give_equal_conditionals;
pub use literal::{Literal, literal_type};
pub use operator::{BinaryOperator, UnaryOperator};
pub use unary::unary_type;
