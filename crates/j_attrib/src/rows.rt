// What a node of each kind gives to the node around it.
ghost use Rattle.std.specs.Prelude.{◌≡◌, ◌<◌, IfOk, length, map};
ghost use Rattle.jtypes.specs.World.{World};
ghost use Rattle.jtypes.specs.declared.types.JPrim.TheVariants.{Boolean};
ghost use Rattle.jtypes.specs.declared.types.JType.TheVariants as ty;
ghost use Rattle.java_nodes.specs.Directly.{first_of, leaves_in, words_in};
ghost use Rattle.rw_base.specs.Arena.{AreBelow};
ghost use Rattle.rw_base.specs.Laid.{forest_of};
ghost use Rattle.judged_trees.specs.Sites.{site_of};
ghost use Rattle.judging.specs.Judging.{Judged};
ghost use Rattle.j_attrib.specs.Around.{count_of, dims, first_name, first_node, first_word, names};
ghost use Rattle.j_attrib.specs.Declarations.{caught, constant, declarator, labels, last_of, locals, member, meant_given};
ghost use Rattle.j_attrib.specs.Declarations.{owner_of, parameter};
ghost use Rattle.j_attrib.specs.Expressions.{chain_from, lambda, lone_name, of_type, postfix, primary_given, selected};
ghost use Rattle.j_attrib.specs.Expressions.{signed, sum_from, typed};
ghost use Rattle.j_attrib.specs.Primaries.{behind_dot, creation};
ghost use Rattle.j_attrib.specs.Rows.{row, value_of};
ghost use Rattle.j_attrib.specs.Values.{argument, as_expression, before_in, last_value, operands, params_in};
ghost use Rattle.j_attrib.specs.Values.{rest_of_creation, type_in, value_at, written_in};
ghost use Rattle.j_attrib.specs.WrittenRows.{class_type, named_type, qualified_name, type_params};
ghost use Rattle.j_attrib.specs.declared.kinds.TheConstants.{SIZE};
ghost use Rattle.j_attrib.specs.declared.value.Value.TheVariants as value;

use crate::declarations::{
    caught, class_name, constant, constructor_name, declarator, labels, locals, member, owner_of,
    parameter, variable,
};
use crate::expressions::{
    chain_from, choice, lambda, lone_name, of_type, postfix, selected, signed, sum_from, typed,
};
use crate::kinds::{DIMENSIONS, SIZE};
use crate::primaries::{behind_dot, creation, label, primary};
use crate::surroundings::Surroundings;
use crate::value::{Given, Value};
use crate::values::{
    args_in, arguments, copy_args, copy_denoted, last_value, operands, params_in, type_at,
    value_at, written_in,
};
use crate::written::{
    class_type, first_word, import, named_type, outer_type, qualified_name, type_params,
};
use declared_names::element;
use expression_names::Denoted;
use j_names::Frames;
use java_nodes::{count_of, first_leaf, first_name, names, words};
use java_reader::{Kind, kind_in};
use jtypes::{Classes, JPrim, JType};
use judging::Log;
use operator_types::{BinaryOperator, CommonTypes};
use rw_base::{Mem, NodeId, Part};
use std::alloc::Global;

/// An expression with an assignment (JLS 15.26): its type is that of the left side.
fn assignment(node: u32, values: &[Value], log: &mut Log) -> Mem<Value>
    ensures { IfOk result (λ v. (w : World) → Judged (of_type node (type_in (value_at values.now 0))) w log.old log.new v) }
{
    let ty = type_at(values, 0)?;
    let value = of_type(node, ty, log)?;
    Ok(value)
}

/// An operator whose result is always boolean (JLS 15.20, 15.21, 15.23, 15.24).
fn boolean(node: u32, log: &mut Log) -> Mem<Value>
    ensures { IfOk result (λ v. (w : World) → Judged (of_type node (ty.Prim Boolean)) w log.old log.new v) }
{
    let value = of_type(node, JType::Prim(JPrim::Boolean), log)?;
    Ok(value)
}

/// A chain of one operator.
fn chain(
    alloc: Global,
    common: &CommonTypes,
    node: u32,
    operator: BinaryOperator,
    values: &[Value],
    log: &mut Log,
) -> Mem<Value>
    ensures { IfOk result (λ v. (w : World) →
        Judged (of_type node (chain_from operator (operands values.now))) w log.old log.new v) }
{
    let types = operands(alloc, values)?;
    let ty = chain_from(alloc, common, operator, types.as_slice())?;
    let value = of_type(node, ty, log)?;
    Ok(value)
}

/// A sum.
fn sum(
    alloc: Global,
    u: &Surroundings,
    common: &CommonTypes,
    node: u32,
    parts: &[Part],
    values: &[Value],
    log: &mut Log,
) -> Mem<Value>
    requires below { AreBelow (length u.now.tree.leaves) (length u.now.tree.nodes) parts.now }
    ensures { let signs = words_in u.now.tree.leaves (forest_of u.now.tree.nodes parts.now) in
        IfOk result (λ v. (w : World) →
        Judged (of_type node (sum_from signs (operands values.now))) w log.old log.new v) }
{
    let signs = words(alloc, u.tree(), parts)?;
    let types = operands(alloc, values)?;
    let ty = sum_from(alloc, common, signs.as_slice(), types.as_slice())?;
    let value = of_type(node, ty, log)?;
    Ok(value)
}

/// A cast, or an operator before an operand.
fn sign(u: &Surroundings, node: u32, parts: &[Part], values: &[Value], log: &mut Log) -> Mem<Value>
    requires below { AreBelow (length u.now.tree.leaves) (length u.now.tree.nodes) parts.now }
    ensures { let word = first_word u.now (forest_of u.now.tree.nodes parts.now) in
        IfOk result (λ v. (w : World) →
        Judged (of_type node (signed word (type_in (value_at values.now 0)))) w log.old log.new v) }
{
    let word = first_word(u, parts);
    let operand = type_at(values, 0)?;
    let ty = signed(word, operand)?;
    let value = of_type(node, ty, log)?;
    Ok(value)
}

/// A lambda expression.
fn function(alloc: Global, u: &Surroundings, node: u32, parts: &[Part], log: &mut Log) -> Mem<Value>
    requires below { AreBelow (length u.now.tree.leaves) (length u.now.tree.nodes) parts.now }
    ensures { let leaves = names u.now (forest_of u.now.tree.nodes parts.now) in
        IfOk result (λ v. (w : World) → Judged (lambda node leaves) w log.old log.new v) }
{
    let leaves = names(alloc, u.tree(), parts)?;
    let value = lambda(node, leaves.as_slice(), log)?;
    Ok(value)
}

/// An expression in parentheses.
fn in_parentheses(alloc: Global, node: u32, values: &[Value], log: &mut Log) -> Mem<Value>
    ensures { IfOk result (λ v. (w : World) →
        Judged (typed node (as_expression (value_at values.now 0))) w log.old log.new v) }
{
    let inner = value_at(alloc, values, 0)?;
    let value = inner.as_expression()?;
    let value = typed(node, value, log)?;
    Ok(value)
}

/// A primary with selectors, or with `++` or `--` behind it.
fn postfixed(
    alloc: Global,
    u: &Surroundings,
    node: u32,
    parts: &[Part],
    values: &[Value],
    log: &mut Log,
) -> Mem<Value>
    requires below { AreBelow (length u.now.tree.leaves) (length u.now.tree.nodes) parts.now }
    ensures { let signs = words_in u.now.tree.leaves (forest_of u.now.tree.nodes parts.now) in
        IfOk result (λ v. (w : World) →
        Judged (typed node (postfix signs (last_value values.now))) w log.old log.new v) }
{
    let signs = words(alloc, u.tree(), parts)?;
    let last = last_value(alloc, values)?;
    let value = postfix(signs.as_slice(), last)?;
    let value = typed(node, value, log)?;
    Ok(value)
}

/// What is given to stand before.
fn before_in(given: &Given) -> Mem<Denoted>
    ensures { IfOk result (λ d. d ≡ before_in given.now) }
{
    match given {
        Given::Behind(denoted) => copy_denoted(denoted),
        _ => Ok(Denoted::Expr(JType::Unknown)),
    }
}

/// A selector.
fn selector(
    alloc: Global,
    u: &Surroundings,
    node: u32,
    parts: &[Part],
    given: &Given,
    values: &[Value],
    log: &mut Log,
) -> Mem<Value>
    requires below { AreBelow (length u.now.tree.leaves) (length u.now.tree.nodes) parts.now }
    ensures { let word = first_word u.now (forest_of u.now.tree.nodes parts.now) in
        IfOk result (λ v. (w : World) →
        Judged (typed node (selected word (before_in given.now) values.now)) w log.old log.new v) }
{
    let word = first_word(u, parts);
    let before = before_in(given)?;
    let value = selected(alloc, word, &before, values)?;
    let value = typed(node, value, log)?;
    Ok(value)
}

/// What stands behind a dot.
fn dot<C: Classes>(
    alloc: Global,
    u: &Surroundings,
    common: &CommonTypes,
    parts: &[Part],
    given: &Given,
    values: &[Value],
    c: &C,
    log: &mut Log,
) -> Mem<Value>
    requires below { AreBelow (length u.now.tree.leaves) (length u.now.tree.nodes) parts.now }
    ensures { let trees = forest_of u.now.tree.nodes parts.now in IfOk result (λ v.
        Judged (behind_dot u.now (before_in given.now) (first_word u.now trees) (first_of (leaves_in trees)) values.now)
        (C.world c.now) log.old log.new v) }
{
    let before = before_in(given)?;
    let word = first_word(u, parts);
    let value = behind_dot(
        alloc,
        u,
        common,
        &before,
        word,
        first_leaf(parts),
        values,
        c,
        log,
    )?;
    Ok(value)
}

/// A creation.
fn creator<C: Classes>(
    alloc: Global,
    u: &Surroundings,
    parts: &[Part],
    values: &[Value],
    c: &C,
    log: &mut Log,
) -> Mem<Value>
    requires below { AreBelow (length u.now.tree.leaves) (length u.now.tree.nodes) parts.now }
    ensures { let name = last_of (names u.now (first_node (forest_of u.now.tree.nodes parts.now))) in
        IfOk result (λ v. Judged (creation u.now name (value_at values.now 0) (value_at values.now 1))
        (C.world c.now) log.old log.new v) }
{
    let name = constructor_name(alloc, u, parts)?;
    let created = value_at(alloc, values, 0)?;
    let rest = value_at(alloc, values, 1)?;
    let value = creation(alloc, u, name, created, rest, c, log)?;
    Ok(value)
}

/// What stands behind a created type.
fn behind_created(alloc: Global, u: &Surroundings, parts: &[Part], values: &[Value]) -> Mem<Value>
    requires below { AreBelow (length u.now.tree.leaves) (length u.now.tree.nodes) parts.now }
    ensures { IfOk result (λ v. v ≡ rest_of_creation (count_of SIZE (forest_of u.now.tree.nodes parts.now)) values.now) }
{
    match args_in(values) {
        Some(args) => Ok(Value::Args(copy_args(alloc, args.as_slice())?)),
        None => Ok(Value::Dims(count_of(u.tree(), parts, SIZE))),
    }
}
