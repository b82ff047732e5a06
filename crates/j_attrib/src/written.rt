// Where types, packages and imports are written.
ghost use Rattle.std.specs.Prelude.{◌≡◌, ◌++◌, [], Some, IfOk, OnOk, length, map, unwrap_or};
ghost use Rattle.rw_base.specs.Arena.{AreBelow};
ghost use Rattle.rw_base.specs.Laid.{forest_of};
ghost use Rattle.java_nodes.specs.Directly.{first_of, leaves_in};
ghost use Rattle.jtypes.specs.World.{World};
ghost use Rattle.jtypes.specs.declared.symbol.Symbol.{Symbol};
ghost use Rattle.jtypes.specs.declared.symbol.Symbol.TheVariants as symbol;
ghost use Rattle.judging.specs.Judging.{Judging, Judged, and_then, give, noting};
ghost use Rattle.judging.specs.declared.log.Note.TheVariants as note;
ghost use Rattle.type_positions.specs.Declarations.{package_notes};
ghost use Rattle.type_positions.specs.TypeNames.{type_name};
ghost use Rattle.j_attrib.specs.Around.{Around, dims, first_word, name_at, named};
ghost use Rattle.j_attrib.specs.Values.{value_at};
ghost use Rattle.j_attrib.specs.Words.{prim_named};
ghost use Rattle.j_attrib.specs.WrittenRows.{base_of, class_meant, class_type, lone_parameter, more_dims, named_type};
ghost use Rattle.j_attrib.specs.WrittenRows.{import, import_from, import_part, import_parts, outer_type};
ghost use Rattle.j_attrib.specs.WrittenRows.{qualified_name, type_params, written_in};
ghost use Rattle.j_attrib.specs.declared.value.Value.{Value};
ghost use Rattle.j_attrib.specs.declared.value.Value.TheVariants.{Nothing};

use crate::kinds::DIMENSIONS;
use crate::surroundings::Surroundings;
use crate::value::{Given, Value};
use crate::values::value_at;
use declared_names::Parameter;
use expression_names::Denoted;
use j_names::Frames;
use java_lex::class::{END, PRIM, STATIC};
use java_nodes::{count_of, first_leaf, first_name, has_word, names};
use jtypes::{Classes, JPrim, JType, Symbol};
use judging::{Log, Note};
use rw_base::{Mem, Part};
use sqlite_items::Items;
use std::alloc::Global;
use type_positions::{
    ImportPart, NamedLeaf, WrittenBase, WrittenType, imported, package_name, type_name,
    with_more_dims, written_type,
};

/// The primitive type that a text names (JLS 4.2).
pub(crate) fn prim_named(text: &[u8]) -> JPrim
    ensures { result ≡ prim_named text.now }
{
    if text == b"boolean".as_slice() {
        JPrim::Boolean
    } else if text == b"byte".as_slice() {
        JPrim::Byte
    } else if text == b"short".as_slice() {
        JPrim::Short
    } else if text == b"char".as_slice() {
        JPrim::Char
    } else if text == b"int".as_slice() {
        JPrim::Int
    } else if text == b"long".as_slice() {
        JPrim::Long
    } else if text == b"float".as_slice() {
        JPrim::Float
    } else {
        JPrim::Double
    }
}

/// The class of the first leaf directly in a node.
pub(crate) fn first_word(u: &Surroundings, parts: &[Part]) -> u16
    requires below { AreBelow (length u.now.tree.leaves) (length u.now.tree.nodes) parts.now }
    ensures { result ≡ first_word u.now (forest_of u.now.tree.nodes parts.now) }
{
    java_nodes::first_word(u.tree(), parts).unwrap_or(END)
}

/// Leaves with their texts.
pub(crate) fn named(alloc: Global, u: &Surroundings, leaves: &[u32]) -> Mem<Items<NamedLeaf>>
    ensures { IfOk result (λ names. names ≡ named u.now leaves.now) }
{
    let mut list = Items::new(alloc);
    for leaf in leaves {
        list.push(NamedLeaf {
            leaf: *leaf,
            name: u.name(alloc, *leaf)?,
        })?;
    }
    Ok(list)
}

/// The primitive type whose name is the first leaf.
fn prim_of(alloc: Global, u: &Surroundings, parts: &[Part]) -> Mem<JPrim>
    ensures { let leaf = unwrap_or (first_of (leaves_in (forest_of u.now.tree.nodes parts.now))) 0 in
        IfOk result (λ prim. prim ≡ prim_named (name_at u.now leaf)) }
{
    let name = u.name(alloc, first_leaf(parts).unwrap_or(0))?;
    Ok(prim_named(name.as_slice()))
}

/// A primitive type or a name, and the `[]` behind it; type arguments aren't looked at.
fn base_of(alloc: Global, u: &Surroundings, parts: &[Part]) -> Mem<WrittenBase>
    requires below { AreBelow (length u.now.tree.leaves) (length u.now.tree.nodes) parts.now }
    ensures { IfOk result (λ base. base ≡ base_of u.now (forest_of u.now.tree.nodes parts.now)) }
{
    if first_word(u, parts) == PRIM {
        return Ok(WrittenBase::Prim(prim_of(alloc, u, parts)?));
    }
    let leaves = names(alloc, u.tree(), parts)?;
    let list = named(alloc, u, leaves.as_slice())?;
    Ok(WrittenBase::Named(list))
}

/// The type that is written in a node.
fn written_type_of(alloc: Global, u: &Surroundings, parts: &[Part]) -> Mem<WrittenType>
    requires below { AreBelow (length u.now.tree.leaves) (length u.now.tree.nodes) parts.now }
    ensures { IfOk result (λ written. written ≡ written_in u.now (forest_of u.now.tree.nodes parts.now)) }
{
    let base = base_of(alloc, u, parts)?;
    let dims = count_of(u.tree(), parts, DIMENSIONS);
    Ok(WrittenType { base, dims })
}

/// What the type means that is written in a node.
#[tactic(auto, using(crate::proofs::WrittenSteps::type_named))]
pub(crate) fn named_type<C: Classes>(
    alloc: Global,
    u: &Surroundings,
    frames: &Frames,
    parts: &[Part],
    c: &C,
    log: &mut Log,
) -> Mem<Value>
    requires below { AreBelow (length u.now.tree.leaves) (length u.now.tree.nodes) parts.now }
    ensures { let trees = forest_of u.now.tree.nodes parts.now in
        IfOk result (λ v. Judged (named_type u.now frames.now trees) (C.world c.now) log.old log.new v) }
{
    let written = written_type_of(alloc, u, parts)?;
    let meant = written_type(alloc, u.context(), frames, &written, c, log)?;
    Ok(Value::Written(meant))
}

/// The type that the first part gives, with the `[]` behind it.
fn with_dims(alloc: Global, u: &Surroundings, parts: &[Part], values: &[Value]) -> Mem<Value>
    requires below { AreBelow (length u.now.tree.leaves) (length u.now.tree.nodes) parts.now }
    ensures { let count = dims (forest_of u.now.tree.nodes parts.now) in
        IfOk result (λ v. v ≡ more_dims u.now count (value_at values.now 0)) }
{
    let dims = count_of(u.tree(), parts, DIMENSIONS);
    match value_at(alloc, values, 0)? {
        Value::Written(meant) => Ok(Value::Written(with_more_dims(alloc, dims, meant)?)),
        _ => Ok(Value::Nothing),
    }
}

/// A primitive type with `[]`, or a class type with `[]`.
#[tactic(auto, unfolding(crate::specs::WrittenRows::outer_type))]
pub(crate) fn outer_type<C: Classes>(
    alloc: Global,
    u: &Surroundings,
    frames: &Frames,
    parts: &[Part],
    values: &[Value],
    c: &C,
    log: &mut Log,
) -> Mem<Value>
    requires below { AreBelow (length u.now.tree.leaves) (length u.now.tree.nodes) parts.now }
    ensures { let trees = forest_of u.now.tree.nodes parts.now in
        IfOk result (λ v. Judged (outer_type u.now frames.now trees values.now) (C.world c.now) log.old log.new v) }
{
    if first_word(u, parts) == PRIM {
        let value = named_type(alloc, u, frames, parts, c, log)?;
        return Ok(value);
    }
    let value = with_dims(alloc, u, parts, values)?;
    Ok(value)
}

/// A lambda's parameter without a type.
fn lone_parameter(alloc: Global, leaf: u32, log: &mut Log) -> Mem<Value>
    ensures { IfOk result (λ v. (u : Around) (w : World) → Judged (lone_parameter u leaf) w log.old log.new v) }
{
    let mut list = Items::new(alloc);
    list.push(Parameter {
        leaf,
        ty: JType::Unknown,
        is_variable: false,
    })?;
    log.note(Note::Symbol(leaf, Symbol::Local(JType::Unknown)))?;
    Ok(Value::Params(list))
}

/// A class type. The lone name of a constructor is no type, and neither is a lambda's parameter without a type.
#[tactic(auto, unfolding(crate::specs::WrittenRows::class_type))]
pub(crate) fn class_type<C: Classes>(
    alloc: Global,
    u: &Surroundings,
    frames: &Frames,
    parts: &[Part],
    given: &Given,
    leaves: &[u32],
    c: &C,
    log: &mut Log,
) -> Mem<Value>
    requires below { AreBelow (length u.now.tree.leaves) (length u.now.tree.nodes) parts.now }
    ensures { let trees = forest_of u.now.tree.nodes parts.now in
        IfOk result (λ v.
        Judged (class_type u.now frames.now trees given.now leaves.now) (C.world c.now) log.old log.new v) }
{
    match (given, leaves) {
        (Given::Constructor, [_]) => Ok(Value::Nothing),
        (Given::LambdaParam, [leaf]) => {
            let value = lone_parameter(alloc, *leaf, log)?;
            Ok(value)
        }
        _ => {
            let value = named_type(alloc, u, frames, parts, c, log)?;
            Ok(value)
        }
    }
}

/// The class that an annotation names.
fn class_meant(symbol: Symbol) -> Value
    ensures { (u : Around) → result ≡ class_meant u symbol }
{
    match symbol {
        Symbol::Kind(name) => Value::Denoted(Denoted::Class(name)),
        _ => Value::Nothing,
    }
}

/// The name of a package declaration.
fn package_meant(alloc: Global, u: &Surroundings, leaves: &[u32], log: &mut Log) -> Mem<Value>
    ensures { let names = named u.now leaves.now in
        IfOk result (λ v. (w : World) → Judged (noting (package_notes [] names) Nothing) w log.old log.new v) }
{
    let names = named(alloc, u, leaves)?;
    package_name(alloc, names.as_slice(), log)?;
    Ok(Value::Nothing)
}

/// The name of an annotation's type.
fn annotation_meant<C: Classes>(
    alloc: Global,
    u: &Surroundings,
    frames: &Frames,
    leaves: &[u32],
    c: &C,
    log: &mut Log,
) -> Mem<Value>
    ensures { let names = named u.now leaves.now in
        let rest : Symbol → Judging Value = λ meaning. give (class_meant u.now meaning) in
        IfOk result (λ v.
        Judged (and_then (type_name u.now.context frames.now names) rest) (C.world c.now) log.old log.new v) }
{
    let names = named(alloc, u, leaves)?;
    let symbol = type_name(alloc, u.context(), frames, names.as_slice(), c, log)?;
    let value = class_meant(symbol);
    Ok(value)
}

/// The name of a package declaration, or that of an annotation's type (JLS 7.4, 9.7).
#[tactic(auto, unfolding(crate::specs::WrittenRows::qualified_name))]
pub(crate) fn qualified_name<C: Classes>(
    alloc: Global,
    u: &Surroundings,
    frames: &Frames,
    given: &Given,
    leaves: &[u32],
    c: &C,
    log: &mut Log,
) -> Mem<Value>
    ensures { IfOk result (λ v.
        Judged (qualified_name u.now frames.now given.now leaves.now) (C.world c.now) log.old log.new v) }
{
    match given {
        Given::PackageName => {
            let value = package_meant(alloc, u, leaves, log)?;
            Ok(value)
        }
        _ => {
            let value = annotation_meant(alloc, u, frames, leaves, c, log)?;
            Ok(value)
        }
    }
}

/// Notes type parameters.
fn note_type_params(alloc: Global, u: &Surroundings, leaves: &[u32], log: &mut Log) -> Mem<()>
    ensures notes { OnOk result (log.new.notes ≡ log.old.notes
        ++ map (λ i. note.Symbol i (symbol.TypeVar (name_at u.now i))) leaves.now) }
    ensures asks { log.new.asks ≡ log.old.asks }
{
    for leaf in leaves {
        log.note(Note::Symbol(*leaf, Symbol::TypeVar(u.name(alloc, *leaf)?)))?;
    }
    Ok(())
}

/// Type parameters (JLS 8.1.2).
#[tactic(auto, unfolding(crate::specs::WrittenRows::type_params))]
pub(crate) fn type_params(
    alloc: Global,
    u: &Surroundings,
    leaves: &[u32],
    log: &mut Log,
) -> Mem<Value>
    ensures { IfOk result (λ v. (w : World) → Judged (type_params u.now leaves.now) w log.old log.new v) }
{
    note_type_params(alloc, u, leaves, log)?;
    Ok(Value::Nothing)
}

/// What stands behind a dot of an import.
fn import_part(alloc: Global, u: &Surroundings, name: Option<u32>) -> Mem<ImportPart>
    ensures { IfOk result (λ part. part ≡ import_part u.now name) }
{
    match name {
        Some(leaf) => Ok(ImportPart::Name(NamedLeaf {
            leaf,
            name: u.name(alloc, leaf)?,
        })),
        None => Ok(ImportPart::All),
    }
}

/// What stands behind the first name of an import.
#[tactic(auto, using(crate::proofs::WrittenSteps::of_imports))]
fn import_parts(alloc: Global, u: &Surroundings, parts: &[Part]) -> Mem<Items<ImportPart>>
    requires below { AreBelow (length u.now.tree.leaves) (length u.now.tree.nodes) parts.now }
    ensures { IfOk result (λ list. list ≡ import_parts u.now (forest_of u.now.tree.nodes parts.now)) }
{
    let tree = u.tree();
    let mut list = Items::new(alloc);
    for part in parts {
        match part {
            Part::Leaf(_) => {}
            Part::Node(m) => list.push(import_part(alloc, u, first_name(tree, tree.parts(*m)))?)?,
        }
    }
    Ok(list)
}

/// An import declaration (JLS 7.5).
#[tactic(auto, unfolding(crate::specs::WrittenRows::import))]
pub(crate) fn import<C: Classes>(
    alloc: Global,
    u: &Surroundings,
    parts: &[Part],
    c: &C,
    log: &mut Log,
) -> Mem<Value>
    requires below { AreBelow (length u.now.tree.leaves) (length u.now.tree.nodes) parts.now }
    ensures { let trees = forest_of u.now.tree.nodes parts.now in
        IfOk result (λ v. Judged (import u.now trees) (C.world c.now) log.old log.new v) }
{
    match first_name(u.tree(), parts) {
        Some(leaf) => {
            let value = import_from(alloc, u, parts, leaf, c, log)?;
            Ok(value)
        }
        None => Ok(Value::Nothing),
    }
}

/// An import whose first name is this leaf.
#[tactic(auto, using(crate::proofs::WrittenSteps::import_meant))]
fn import_from<C: Classes>(
    alloc: Global,
    u: &Surroundings,
    parts: &[Part],
    leaf: u32,
    c: &C,
    log: &mut Log,
) -> Mem<Value>
    requires below { AreBelow (length u.now.tree.leaves) (length u.now.tree.nodes) parts.now }
    ensures { let trees = forest_of u.now.tree.nodes parts.now in
        IfOk result (λ v. Judged (import_from u.now trees (Some leaf)) (C.world c.now) log.old log.new v) }
{
    let first = NamedLeaf {
        leaf,
        name: u.name(alloc, leaf)?,
    };
    let rest = import_parts(alloc, u, parts)?;
    let is_static = has_word(u.tree(), parts, STATIC);
    imported(
        alloc,
        u.context(),
        is_static,
        &first,
        rest.as_slice(),
        c,
        log,
    )?;
    Ok(Value::Nothing)
}
