// Expressions, whose types are noted by their nodes.
ghost use Rattle.std.specs.Prelude.{◌≡◌, ◌++◌, IfOk, OnOk, map};
ghost use Rattle.jtypes.specs.World.{World};
ghost use Rattle.judging.specs.Judging.{Judged};
ghost use Rattle.j_attrib.specs.Expressions.{chain_from, choice, lambda, locals_unknown, lone_name, of_type};
ghost use Rattle.j_attrib.specs.Expressions.{operations, postfix, selected, signed, sum_from, typed};

use crate::value::Value;
use crate::values::{args_in, expr, type_at, value_at};
use crate::words::{sum_operator, unary_operator};
use expression_names::Denoted;
use java_lex::class;
use jtypes::{Classes, JType, Symbol};
use judging::{Log, Note};
use operator_types::{
    BinaryOperator, CommonTypes, Operation, chain_type, conditional_type_asking, element_of,
    unary_type,
};
use rw_base::Mem;
use sqlite_items::Items;
use std::alloc::Global;

/// Notes the type of what a node gives.
pub(crate) fn typed(node: u32, value: Value, log: &mut Log) -> Mem<Value>
    ensures { IfOk result (λ v. (w : World) → Judged (typed node value) w log.old log.new v) }
{
    let ty = value.ty()?;
    log.note(Note::Typed(node, ty))?;
    Ok(value)
}

/// Notes that a node is an expression of a type.
pub(crate) fn of_type(node: u32, ty: JType, log: &mut Log) -> Mem<Value>
    ensures { IfOk result (λ v. (w : World) → Judged (of_type node ty) w log.old log.new v) }
{
    let value = typed(node, expr(ty), log)?;
    Ok(value)
}

/// `c ? a : b` (JLS 15.25).
pub(crate) fn choice<C: Classes>(
    alloc: Global,
    node: u32,
    values: &[Value],
    c: &C,
    log: &mut Log,
) -> Mem<Value>
    ensures { IfOk result (λ v. Judged (choice node values.now) (C.world c.now) log.old log.new v) }
{
    let a = type_at(values, 1)?;
    let b = type_at(values, 2)?;
    let ty = conditional_type_asking(alloc, &a, &b, c, &mut log.asks)?;
    let value = of_type(node, ty, log)?;
    Ok(value)
}

/// The type of a cast (JLS 15.16), or of an operator before an operand (JLS 15.15).
pub(crate) fn signed(word: u16, operand: JType) -> Mem<JType>
    ensures { IfOk result (λ ty. ty ≡ signed word operand) }
{
    if word == class::CAST {
        return Ok(operand);
    }
    let ty = unary_type(unary_operator(word), &operand)?;
    Ok(ty)
}

/// The same operator between the first operand and each behind it.
fn operations_of(alloc: Global, operator: BinaryOperator, types: &[JType]) -> Mem<Items<Operation>>
    ensures { IfOk result (λ list. list ≡ map (λ t. record { operator = operator; right = t }) types.now) }
{
    let mut operations = Items::new(alloc);
    for right in types {
        operations.push(Operation {
            operator,
            right: right.copy()?,
        })?;
    }
    Ok(operations)
}

/// The type of a chain of one operator (JLS 15.17, 15.19, 15.22).
pub(crate) fn chain_from(
    alloc: Global,
    common: &CommonTypes,
    operator: BinaryOperator,
    types: &[JType],
) -> Mem<JType>
    ensures { IfOk result (λ ty. ty ≡ chain_from operator types.now) }
{
    match types.split_first() {
        None => Ok(JType::Unknown),
        Some((first, behind)) => {
            let rest = operations_of(alloc, operator, behind)?;
            let ty = chain_type(common, first, rest.as_slice())?;
            Ok(ty)
        }
    }
}

/// Each operator of a sum with the operand behind it.
#[tactic(auto, unfolding(crate::specs::Expressions::operations))]
fn operations(alloc: Global, words: &[u16], types: &[JType]) -> Mem<Items<Operation>>
    ensures { IfOk result (λ list. list ≡ operations words.now types.now) }
{
    let mut all = Items::new(alloc);
    let mut at = 0;
    while at < words.len() && at < types.len() {
        all.push(Operation {
            operator: sum_operator(words[at]),
            right: types[at].copy()?,
        })?;
        at += 1;
    }
    Ok(all)
}

/// The type of a sum (JLS 15.18).
pub(crate) fn sum_from(
    alloc: Global,
    common: &CommonTypes,
    words: &[u16],
    types: &[JType],
) -> Mem<JType>
    ensures { IfOk result (λ ty. ty ≡ sum_from words.now types.now) }
{
    match types.split_first() {
        None => Ok(JType::Unknown),
        Some((first, behind)) => {
            let rest = operations(alloc, words, behind)?;
            let ty = chain_type(common, first, rest.as_slice())?;
            Ok(ty)
        }
    }
}

/// An operand with `++` or `--` behind it is no name any more (JLS 15.14).
pub(crate) fn postfix(words: &[u16], value: Value) -> Mem<Value>
    ensures { IfOk result (λ v. v ≡ postfix words.now value) }
{
    if words.is_empty() {
        return Ok(value);
    }
    let value = value.as_expression()?;
    Ok(value)
}

/// Notes locals of no known type.
fn note_locals(leaves: &[u32], log: &mut Log) -> Mem<()>
    ensures notes { OnOk result (log.new.notes ≡ log.old.notes ++ locals_unknown leaves.now) }
    ensures asks { log.new.asks ≡ log.old.asks }
{
    for leaf in leaves {
        log.note(Note::Symbol(*leaf, Symbol::Local(JType::Unknown)))?;
    }
    Ok(())
}

/// A lambda expression (JLS 15.27), whose parameter without parentheses has no type.
pub(crate) fn lambda(node: u32, leaves: &[u32], log: &mut Log) -> Mem<Value>
    ensures { IfOk result (λ v. (w : World) → Judged (lambda node leaves.now) w log.old log.new v) }
{
    log.note(Note::Typed(node, JType::Unknown))?;
    note_locals(leaves, log)?;
    Ok(Value::Function)
}

/// What stands behind an expression: a member, an element of an array, or the name of a method reference (JLS 15.13).
pub(crate) fn selected(alloc: Global, word: u16, before: &Denoted, values: &[Value]) -> Mem<Value>
    ensures { IfOk result (λ v. v ≡ selected word before.now values.now) }
{
    if word == class::BRACKET_OPEN {
        let array = before.ty()?;
        let element = element_of(&array)?;
        return Ok(expr(element));
    }
    if word == class::COLON_COLON {
        return Ok(Value::Function);
    }
    let value = value_at(alloc, values, 0)?;
    Ok(value)
}

/// The first leaf of a primary, where it is a name alone, without arguments.
pub(crate) fn lone_name(word: u16, first: Option<u32>, values: &[Value]) -> Option<u32>
    ensures { result ≡ lone_name word first values.now }
{
    if word == class::ID && args_in(values).is_none() {
        first
    } else {
        None
    }
}
