// Types of literals, of operators, of arrays and of conditional expressions.
use crate::questions::put_asks;
use crate::types::{put_type, type_in};
use examples_base::{Answer, number_in};
use jtypes::{Asks, JType, ListWorld};
use operator_types::{
    BinaryOperator, CommonTypes, Literal, Operation, UnaryOperator, chain_type,
    conditional_type_asking, element_of, literal_type, unary_type, with_dims,
};
use rw_base::Mem;
use std::alloc::Global;

// Writes a type, unless memory was refused.
fn put_made(ty: Mem<JType>, out: &mut Answer) {
    match ty {
        Ok(ty) => put_type(&ty, out),
        Err(_) => out.refuse("memory"),
    }
}

// The classes that expressions have by themselves.
fn common_types(alloc: Global, out: &mut Answer) -> Option<CommonTypes> {
    match CommonTypes::new(alloc) {
        Ok(common) => Some(common),
        Err(_) => {
            out.refuse("memory");
            None
        }
    }
}

// The kind of literals of a word.
fn literal_of(word: &str) -> Option<Literal> {
    match word {
        "int" => Some(Literal::Int),
        "long" => Some(Literal::Long),
        "float" => Some(Literal::Float),
        "double" => Some(Literal::Double),
        "char" => Some(Literal::Char),
        "string" => Some(Literal::String),
        "boolean" => Some(Literal::Boolean),
        "null" => Some(Literal::Null),
        _ => None,
    }
}

// The operator of one operand that a word is.
fn unary_of(word: &str) -> Option<UnaryOperator> {
    match word {
        "++" => Some(UnaryOperator::Increment),
        "--" => Some(UnaryOperator::Decrement),
        "+" => Some(UnaryOperator::Plus),
        "-" => Some(UnaryOperator::Minus),
        "~" => Some(UnaryOperator::BitwiseComplement),
        "!" => Some(UnaryOperator::LogicalComplement),
        _ => None,
    }
}

// The operator of numbers or bits that a word is.
fn numeric_of(word: &str) -> Option<BinaryOperator> {
    match word {
        "*" => Some(BinaryOperator::Multiply),
        "/" => Some(BinaryOperator::Divide),
        "%" => Some(BinaryOperator::Remainder),
        "+" => Some(BinaryOperator::Add),
        "-" => Some(BinaryOperator::Subtract),
        "<<" => Some(BinaryOperator::ShiftLeft),
        ">>" => Some(BinaryOperator::ShiftRight),
        ">>>" => Some(BinaryOperator::UnsignedShiftRight),
        "&" => Some(BinaryOperator::And),
        "^" => Some(BinaryOperator::Xor),
        "|" => Some(BinaryOperator::Or),
        _ => None,
    }
}

// The test of two operands that a word is.
fn test_of(word: &str) -> Option<BinaryOperator> {
    match word {
        "<" => Some(BinaryOperator::Less),
        ">" => Some(BinaryOperator::Greater),
        "<=" => Some(BinaryOperator::LessOrEqual),
        ">=" => Some(BinaryOperator::GreaterOrEqual),
        "instanceof" => Some(BinaryOperator::InstanceOf),
        "==" => Some(BinaryOperator::Equal),
        "!=" => Some(BinaryOperator::NotEqual),
        "&&" => Some(BinaryOperator::ConditionalAnd),
        "||" => Some(BinaryOperator::ConditionalOr),
        _ => None,
    }
}

// The operator of two operands that a word is.
fn binary_of(word: &str) -> Option<BinaryOperator> {
    match numeric_of(word) {
        Some(operator) => Some(operator),
        None => test_of(word),
    }
}

/// Writes the type of a kind of literals.
pub fn put_literal(alloc: Global, case: &str, out: &mut Answer) {
    if let Some(common) = common_types(alloc, out) {
        match literal_of(case) {
            Some(literal) => put_made(literal_type(&common, literal), out),
            None => out.refuse("literal"),
        }
    }
}

/// Writes the type of an operator before a type.
pub fn put_unary(alloc: Global, case: &str, out: &mut Answer) {
    let (operator, operand) = case.split_once(' ').unwrap_or((case, ""));
    match unary_of(operator) {
        Some(operator) => {
            let operand = type_in(alloc, operand, out);
            put_made(unary_type(operator, &operand), out);
        }
        None => out.refuse("operator"),
    }
}

// The operators of a text, each with the type behind it.
fn operations_in(alloc: Global, text: &str, out: &mut Answer) -> Vec<Operation> {
    let mut operations = Vec::new(alloc);
    let mut pending = None;
    for word in text.split_whitespace() {
        match pending {
            Some(operator) => {
                let right = type_in(alloc, word, out);
                if operations.push(Operation { operator, right }).is_err() {
                    out.refuse("memory");
                }
                pending = None;
            }
            None => pending = binary_of(word),
        }
    }
    operations
}

/// Writes the type of a chain of types with operators between them.
pub fn put_chain(alloc: Global, case: &str, out: &mut Answer) {
    let (first, rest) = case.split_once(' ').unwrap_or((case, ""));
    let first = type_in(alloc, first, out);
    let rest = operations_in(alloc, rest, out);
    if let Some(common) = common_types(alloc, out) {
        put_made(chain_type(&common, &first, rest.as_slice()), out);
    }
}

/// Writes the element type of a type.
pub fn put_element(alloc: Global, case: &str, out: &mut Answer) {
    let ty = type_in(alloc, case, out);
    put_made(element_of(&ty), out);
}

/// Writes a type with so many dimensions more.
pub fn put_with_dims(alloc: Global, case: &str, out: &mut Answer) {
    let (ty, dims) = case.split_once(' ').unwrap_or((case, ""));
    let dims = number_in(dims, out);
    let ty = type_in(alloc, ty, out);
    put_made(with_dims(alloc, dims as usize, ty), out);
}

/// Writes the type of a conditional expression by the types of its last two operands, with the questions that it puts.
pub fn put_conditional(alloc: Global, world: &ListWorld, case: &str, out: &mut Answer) {
    let (a, b) = case.split_once(" : ").unwrap_or((case, ""));
    let a = type_in(alloc, a, out);
    let b = type_in(alloc, b, out);
    let mut asks = Asks::new(alloc);
    put_made(
        conditional_type_asking(alloc, &a, &b, world, &mut asks),
        out,
    );
    out.put(" ");
    put_asks(alloc, asks, out);
}
