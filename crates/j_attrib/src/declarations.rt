// Declared names: classes, fields, methods, constructors, parameters and locals.
ghost use Rattle.std.specs.Prelude.{◌≡◌, ◌++◌, [], ◌∷◌, IfOk, OnOk, length, map};
ghost use Rattle.std.specs.Option.{option_copied};
ghost use Rattle.rw_base.specs.Arena.{AreBelow};
ghost use Rattle.rw_base.specs.Laid.{forest_of};
ghost use Rattle.java_nodes.specs.Directly.{names_in};
ghost use Rattle.jtypes.specs.World.{World};
ghost use Rattle.judging.specs.Judging.{Judged, noting};
ghost use Rattle.judging.specs.declared.log.Note.TheVariants as note;
ghost use Rattle.declared_names.specs.Declarations.{declared_constant, declared_constructor, declared_field};
ghost use Rattle.declared_names.specs.Declarations.{declared_method, parameter_notes};
ghost use Rattle.j_attrib.specs.Around.{Around, first_node, name_at};
ghost use Rattle.j_attrib.specs.Declarations.{caught, class_name, constant, constructor, constructor_name};
ghost use Rattle.j_attrib.specs.Declarations.{declarator, done_noting, labels, last_of, locals, meaning, meant_given};
ghost use Rattle.j_attrib.specs.Declarations.{member, more_dims_of, owner_of, parameter, parameter_of, type_with};
ghost use Rattle.j_attrib.specs.Declarations.{variable};
ghost use Rattle.j_attrib.specs.declared.value.Value.TheVariants.{Params};

use crate::kinds::DIMENSIONS;
use crate::surroundings::Surroundings;
use crate::value::{Given, Value};
use crate::values::{copy_meant, params_in};
use declared_names::{
    Parameter, declared_constant, declared_constructor, declared_field, declared_method,
    declared_parameters,
};
use java_lex::class::ELLIPSIS;
use java_nodes::{count_of, has_word, names};
use jtypes::{Classes, JType, Name, Symbol};
use judging::{Log, Note};
use rw_base::{Mem, Part};
use sqlite_items::Items;
use std::alloc::Global;
use type_positions::{MeantType, with_more_dims};

/// Notes that leaves mean the same.
fn note_all(symbol: &Symbol, leaves: &[u32], log: &mut Log) -> Mem<()>
    ensures notes { OnOk result (log.new.notes ≡ log.old.notes ++ map (λ i. note.Symbol i symbol.now) leaves.now) }
    ensures asks { log.new.asks ≡ log.old.asks }
{
    for leaf in leaves {
        log.note(Note::Symbol(*leaf, symbol.copy()?))?;
    }
    Ok(())
}

/// Leaves mean this, and the node gives nothing.
pub(crate) fn meaning(symbol: &Symbol, leaves: &[u32], log: &mut Log) -> Mem<Value>
    ensures { IfOk result (λ v. (w : World) → Judged (meaning symbol.now leaves.now) w log.old log.new v) }
{
    note_all(symbol, leaves, log)?;
    Ok(Value::Nothing)
}

/// A label, declared or named (JLS 14.7, 14.15, 14.16).
#[tactic(auto, unfolding(crate::specs::Declarations::labels))]
pub(crate) fn labels(leaves: &[u32], log: &mut Log) -> Mem<Value>
    ensures { IfOk result (λ v. (w : World) → Judged (labels leaves.now) w log.old log.new v) }
{
    let value = meaning(&Symbol::Label, leaves, log)?;
    Ok(value)
}

/// Locals of a type (JLS 14.4.1, 14.14, 14.20).
#[tactic(auto, unfolding(crate::specs::Declarations::locals))]
pub(crate) fn locals(ty: JType, leaves: &[u32], log: &mut Log) -> Mem<Value>
    ensures { IfOk result (λ v. (w : World) → Judged (locals ty leaves.now) w log.old log.new v) }
{
    let value = meaning(&Symbol::Local(ty), leaves, log)?;
    Ok(value)
}

/// A type with dimensions behind a name (JLS 10.2).
fn type_with(alloc: Global, dims: usize, meant: &MeantType) -> Mem<JType>
    ensures { IfOk result (λ ty. ty ≡ type_with dims meant.now) }
{
    let all = with_more_dims(alloc, dims, copy_meant(meant)?)?;
    Ok(all.ty)
}

/// The variable of a `for`.
#[tactic(auto, unfolding(crate::specs::Declarations::variable))]
pub(crate) fn variable(alloc: Global, given: &Given, dims: usize, log: &mut Log) -> Mem<Value>
    ensures { IfOk result (λ v. (w : World) → Judged (variable given.now dims) w log.old log.new v) }
{
    match given {
        Given::Variable(leaf, meant) => {
            let ty = type_with(alloc, dims, meant)?;
            let value = locals(ty, &[*leaf], log)?;
            Ok(value)
        }
        _ => Ok(Value::Nothing),
    }
}

/// The class that declares what is declared here.
pub(crate) fn owner_of(given: &Given) -> Option<&Name>
    ensures { option_copied result ≡ owner_of given.now }
{
    match given {
        Given::Member(owner) => owner.as_ref(),
        Given::Fields(_, owner) => owner.as_ref(),
        _ => None,
    }
}

/// The type of the member that is declared here.
pub(crate) fn meant_given(given: &Given) -> Mem<MeantType>
    ensures { IfOk result (λ meant. meant ≡ meant_given given.now) }
{
    match given {
        Given::Fields(meant, _) => copy_meant(meant),
        _ => Ok(MeantType {
            ty: JType::Unknown,
            is_variable: false,
        }),
    }
}

/// Of several types a caught exception isn't known (JLS 14.20).
pub(crate) fn caught(types: &[MeantType]) -> Mem<JType>
    ensures { IfOk result (λ ty. ty ≡ caught types.now) }
{
    match types {
        [meant] => meant.ty.copy(),
        _ => Ok(JType::Unknown),
    }
}

/// A declared class: a type where it has a qualified name.
#[tactic(auto, unfolding(crate::specs::Declarations::class_name))]
pub(crate) fn class_name(given: &Given, name: Option<u32>, log: &mut Log) -> Mem<Value>
    ensures { IfOk result (λ v.
        (u : Around) (w : World) → Judged (class_name u given.now name) w log.old log.new v) }
{
    let Some(leaf) = name else {
        return Ok(Value::Nothing);
    };
    match given {
        Given::Head(name) => {
            let value = meaning(&Symbol::Kind(name.copy()?), &[leaf], log)?;
            Ok(value)
        }
        _ => {
            let value = meaning(&Symbol::Unknown, &[leaf], log)?;
            Ok(value)
        }
    }
}

/// A declared field (JLS 8.3).
#[tactic(auto, using(crate::proofs::DeclaredSteps::done_judged))]
fn field<C: Classes>(
    alloc: Global,
    u: &Surroundings,
    owner: Option<&Name>,
    leaf: u32,
    dims: usize,
    meant: &MeantType,
    c: &C,
    log: &mut Log,
) -> Mem<Value>
    ensures { let ty = type_with dims meant.now in
        IfOk result (λ v.
        Judged (done_noting (declared_field (option_copied owner.entry) leaf (name_at u.now leaf) ty))
        (C.world c.now) log.old log.new v) }
{
    let name = u.name(alloc, leaf)?;
    let ty = type_with(alloc, dims, meant)?;
    declared_field(owner, leaf, &name, &ty, c, log)?;
    Ok(Value::Nothing)
}

/// A declarator of locals or of fields.
#[tactic(auto, unfolding(crate::specs::Declarations::declarator))]
pub(crate) fn declarator<C: Classes>(
    alloc: Global,
    u: &Surroundings,
    given: &Given,
    dims: usize,
    name: Option<u32>,
    c: &C,
    log: &mut Log,
) -> Mem<Value>
    ensures { IfOk result (λ v.
        Judged (declarator u.now given.now dims name) (C.world c.now) log.old log.new v) }
{
    let Some(leaf) = name else {
        return Ok(Value::Nothing);
    };
    match given {
        Given::Locals(meant) => {
            let ty = type_with(alloc, dims, meant)?;
            let value = locals(ty, &[leaf], log)?;
            Ok(value)
        }
        Given::Fields(meant, owner) => {
            let value = field(alloc, u, owner.as_ref(), leaf, dims, meant, c, log)?;
            Ok(value)
        }
        _ => Ok(Value::Nothing),
    }
}

/// A declared enum constant (JLS 8.9.1).
#[tactic(auto, unfolding(crate::specs::Declarations::constant), using(crate::proofs::DeclaredSteps::done_judged))]
pub(crate) fn constant<C: Classes>(
    alloc: Global,
    u: &Surroundings,
    owner: Option<&Name>,
    name: Option<u32>,
    c: &C,
    log: &mut Log,
) -> Mem<Value>
    ensures { IfOk result (λ v.
        Judged (constant u.now (option_copied owner.entry) name) (C.world c.now) log.old log.new v) }
{
    let Some(leaf) = name else {
        return Ok(Value::Nothing);
    };
    let text = u.name(alloc, leaf)?;
    declared_constant(owner, leaf, &text, c, log)?;
    Ok(Value::Nothing)
}

/// A declared method (JLS 8.4).
#[tactic(auto, using(crate::proofs::DeclaredSteps::done_judged))]
fn method<C: Classes>(
    alloc: Global,
    u: &Surroundings,
    owner: Option<&Name>,
    leaf: u32,
    params: &[Parameter],
    c: &C,
    log: &mut Log,
) -> Mem<Value>
    ensures { IfOk result (λ v.
        Judged (done_noting (declared_method (option_copied owner.entry) leaf (name_at u.now leaf) params.now))
        (C.world c.now) log.old log.new v) }
{
    let name = u.name(alloc, leaf)?;
    declared_method(owner, leaf, &name, params, c, log)?;
    Ok(Value::Nothing)
}

/// The names directly in the first node among parts; none where there is no node.
#[tactic(auto, using(crate::proofs::DeclaredSteps::of_nodes))]
fn names_in_node(alloc: Global, u: &Surroundings, parts: &[Part]) -> Mem<Items<u32>>
    requires below { AreBelow (length u.now.tree.leaves) (length u.now.tree.nodes) parts.now }
    ensures { let t = u.now.tree in
        IfOk result (λ names. names ≡ names_in t.leaves (first_node (forest_of t.nodes parts.now))) }
{
    let tree = u.tree();
    for part in parts {
        match part {
            Part::Leaf(_) => {}
            Part::Node(m) => return names(alloc, tree, tree.parts(*m)),
        }
    }
    Ok(Items::new(alloc))
}

/// The last of some leaves.
#[tactic(auto, using(crate::proofs::DeclaredSteps::last_read))]
fn last_of(leaves: &[u32]) -> Option<u32>
    ensures { result ≡ last_of leaves.now }
{
    leaves.last().copied()
}

/// The name that ends the type of a constructor (JLS 8.8), or one that is created.
pub(crate) fn constructor_name(alloc: Global, u: &Surroundings, parts: &[Part]) -> Mem<Option<u32>>
    requires below { AreBelow (length u.now.tree.leaves) (length u.now.tree.nodes) parts.now }
    ensures { IfOk result (λ name. name ≡ constructor_name u.now (forest_of u.now.tree.nodes parts.now)) }
{
    let names = names_in_node(alloc, u, parts)?;
    Ok(last_of(names.as_slice()))
}

/// A declared constructor (JLS 8.8).
#[tactic(auto, using(crate::proofs::DeclaredSteps::done_judged))]
fn constructor<C: Classes>(
    alloc: Global,
    u: &Surroundings,
    owner: Option<&Name>,
    parts: &[Part],
    params: &[Parameter],
    c: &C,
    log: &mut Log,
) -> Mem<Value>
    requires below { AreBelow (length u.now.tree.leaves) (length u.now.tree.nodes) parts.now }
    ensures { let name = constructor_name u.now (forest_of u.now.tree.nodes parts.now) in
        IfOk result (λ v.
        Judged (constructor u.now (option_copied owner.entry) name params.now) (C.world c.now) log.old log.new v) }
{
    let name = constructor_name(alloc, u, parts)?;
    match name {
        Some(leaf) => {
            declared_constructor(alloc, owner, leaf, params, c, log)?;
            Ok(Value::Nothing)
        }
        None => Ok(Value::Nothing),
    }
}

/// A member by its own name and what its last part gives: a field, a method, or a constructor, which has no name of its
/// own.
#[tactic(auto, unfolding(crate::specs::Declarations::member))]
pub(crate) fn member<C: Classes>(
    alloc: Global,
    u: &Surroundings,
    given: &Given,
    parts: &[Part],
    name: Option<u32>,
    value: &Value,
    c: &C,
    log: &mut Log,
) -> Mem<Value>
    requires below { AreBelow (length u.now.tree.leaves) (length u.now.tree.nodes) parts.now }
    ensures { let trees = forest_of u.now.tree.nodes parts.now in
        IfOk result (λ v.
        Judged (member u.now (owner_of given.now) (meant_given given.now) trees name value.now)
        (C.world c.now) log.old log.new v) }
{
    let owner = owner_of(given);
    match (name, value) {
        (Some(leaf), Value::Dims(dims)) => {
            let meant = meant_given(given)?;
            let value = field(alloc, u, owner, leaf, *dims, &meant, c, log)?;
            Ok(value)
        }
        (Some(leaf), Value::Params(params)) => {
            let value = method(alloc, u, owner, leaf, params.as_slice(), c, log)?;
            Ok(value)
        }
        (None, Value::Params(params)) => {
            let value = constructor(alloc, u, owner, parts, params.as_slice(), c, log)?;
            Ok(value)
        }
        _ => Ok(Value::Nothing),
    }
}

/// The dimensions of a parameter: those behind its name, and `...`.
#[tactic(auto, using(crate::proofs::DeclaredSteps::dims_few))]
fn more_dims_of(u: &Surroundings, parts: &[Part]) -> usize
    requires below { AreBelow (length u.now.tree.leaves) (length u.now.tree.nodes) parts.now }
    ensures { result ≡ more_dims_of u.now (forest_of u.now.tree.nodes parts.now) }
{
    let tree = u.tree();
    let dims = count_of(tree, parts, DIMENSIONS);
    if has_word(tree, parts, ELLIPSIS) {
        dims + 1
    } else {
        dims
    }
}

/// A parameter of a written type.
fn parameter_of(
    alloc: Global,
    u: &Surroundings,
    parts: &[Part],
    leaf: u32,
    meant: &MeantType,
) -> Mem<Parameter>
    requires below { AreBelow (length u.now.tree.leaves) (length u.now.tree.nodes) parts.now }
    ensures { let dims = more_dims_of u.now (forest_of u.now.tree.nodes parts.now) in
        IfOk result (λ parameter. parameter ≡ parameter_of u.now leaf dims meant.now) }
{
    let dims = more_dims_of(u, parts);
    Ok(Parameter {
        leaf,
        ty: type_with(alloc, dims, meant)?,
        is_variable: meant.is_variable,
    })
}

/// One parameter, which is noted.
fn noted_parameter(alloc: Global, parameter: Parameter, log: &mut Log) -> Mem<Value>
    ensures { let ps = parameter ∷ [] in
        IfOk result (λ v. (w : World) → Judged (noting (parameter_notes ps) (Params ps)) w log.old log.new v) }
{
    let mut list = Items::new(alloc);
    list.push(parameter)?;
    declared_parameters(list.as_slice(), log)?;
    Ok(Value::Params(list))
}

/// A parameter (JLS 8.4.1), with `...` as a dimension; that of a lambda expression may have no type.
#[tactic(auto, unfolding(crate::specs::Declarations::parameter))]
pub(crate) fn parameter(
    alloc: Global,
    u: &Surroundings,
    parts: &[Part],
    name: Option<u32>,
    written: Option<&MeantType>,
    values: &[Value],
    log: &mut Log,
) -> Mem<Value>
    requires below { AreBelow (length u.now.tree.leaves) (length u.now.tree.nodes) parts.now }
    ensures { let trees = forest_of u.now.tree.nodes parts.now in
        IfOk result (λ v. (w : World) →
        Judged (parameter u.now trees name (option_copied written.entry) values.now) w log.old log.new v) }
{
    match (name, written) {
        (Some(leaf), Some(meant)) => {
            let parameter = parameter_of(alloc, u, parts, leaf, meant)?;
            let value = noted_parameter(alloc, parameter, log)?;
            Ok(value)
        }
        _ => {
            let params = params_in(alloc, values)?;
            Ok(Value::Params(params))
        }
    }
}
