// What a part of a node is given.
ghost use Rattle.std.specs.Prelude.{◌≡◌, ◌+◌, ◌<◌, drop, IfOk, length};
ghost use Rattle.rw_base.specs.Arena.{AreBelow};
ghost use Rattle.rw_base.specs.Laid.{forest_of};
ghost use Rattle.judged_trees.specs.Sites.{site_of};
ghost use Rattle.j_attrib.specs.Declarations.{owner_of};
ghost use Rattle.j_attrib.specs.Givens.{begins_method, case_of, element_of, given_by, given_to, is_constructor};
ghost use Rattle.j_attrib.specs.Givens.{lambda_param, locals_of, or_no_given, to_member, variable_of};
ghost use Rattle.j_attrib.specs.Givens.{to_argument};
ghost use Rattle.j_attrib.specs.Values.{value_at};

use crate::kinds::{ANNOTATION_ARGUMENT, CLASS_TYPE, METHOD};
use crate::surroundings::Surroundings;
use crate::value::{Given, Value};
use crate::values::{
    class_at, copy_denoted, copy_meant, copy_name, last_denoted, last_meant, meant_at, type_at,
};
use java_nodes::first_name;
use java_reader::{Kind, kind_in};
use jtypes::Name;
use rw_base::{Mem, NodeId, Part, Tree};

/// The class that declares a member.
pub(crate) fn owner_of(given: &Given) -> Mem<Option<Name>>
    ensures { IfOk result (λ owner. owner ≡ owner_of given.now) }
{
    match given {
        Given::Member(owner) | Given::Fields(_, owner) => copy_name(owner),
        _ => Ok(None),
    }
}

/// What is given once more.
fn copy_given(given: &Given) -> Mem<Given>
    ensures { IfOk result (λ copy. copy ≡ given.now) }
{
    match given {
        Given::Nothing => Ok(Given::Nothing),
        Given::Behind(denoted) => Ok(Given::Behind(copy_denoted(denoted)?)),
        Given::Created(class) => Ok(Given::Created(copy_name(class)?)),
        Given::Locals(meant) => Ok(Given::Locals(copy_meant(meant)?)),
        Given::Fields(meant, owner) => Ok(Given::Fields(copy_meant(meant)?, copy_name(owner)?)),
        Given::Member(owner) => Ok(Given::Member(copy_name(owner)?)),
        Given::Head(name) => Ok(Given::Head(name.copy()?)),
        Given::Switch(ty) => Ok(Given::Switch(ty.copy()?)),
        Given::Case(ty) => Ok(Given::Case(ty.copy()?)),
        Given::Variable(leaf, meant) => Ok(Given::Variable(*leaf, copy_meant(meant)?)),
        Given::Annotation(class) => Ok(Given::Annotation(copy_name(class)?)),
        Given::PackageName => Ok(Given::PackageName),
        Given::LambdaParam => Ok(Given::LambdaParam),
        Given::Constructor => Ok(Given::Constructor),
    }
}

/// Whether a Method stands at a place among parts.
fn begins_method(tree: &Tree, parts: &[Part], place: usize) -> bool
    requires { AreBelow (length tree.now.leaves) (length tree.now.nodes) parts.now }
    ensures { result ≡ begins_method (forest_of tree.now.nodes (drop place parts.now)) }
{
    if place >= parts.len() {
        return false;
    }
    match &parts[place] {
        Part::Leaf(_) => false,
        Part::Node(m) => tree.kind(*m) == METHOD,
    }
}

/// To a part of a member: that it is a constructor's type, or else the type before it and the class.
fn to_member(
    tree: &Tree,
    parts: &[Part],
    given: &Given,
    from: usize,
    part: u16,
    values: &[Value],
) -> Mem<Given>
    requires below { AreBelow (length tree.now.leaves) (length tree.now.nodes) parts.now }
    requires part { from < length parts.now }
    ensures { IfOk result (λ g.
        g ≡ to_member given.now values.now part (forest_of tree.now.nodes (drop (from + 1) parts.now))) }
{
    if part == CLASS_TYPE && begins_method(tree, parts, from + 1) {
        return Ok(Given::Constructor);
    }
    let meant = last_meant(values)?;
    let owner = owner_of(given)?;
    Ok(Given::Fields(meant, owner))
}

/// The type that is switched over, to a label.
fn case_of(given: &Given) -> Mem<Given>
    ensures { IfOk result (λ g. g ≡ case_of given.now) }
{
    match given {
        Given::Switch(ty) => Ok(Given::Case(ty.copy()?)),
        _ => Ok(Given::Nothing),
    }
}

/// The variable of a `for`, to what stands behind it.
fn variable_of(leaf: Option<u32>, values: &[Value]) -> Mem<Given>
    ensures { IfOk result (λ g. g ≡ variable_of leaf (value_at values.now 0)) }
{
    match leaf {
        None => Ok(Given::Nothing),
        Some(leaf) => {
            let meant = meant_at(values, 0)?;
            Ok(Given::Variable(leaf, meant))
        }
    }
}

/// The type of further variables of a `for`.
fn locals_of(given: &Given) -> Mem<Given>
    ensures { IfOk result (λ g. g ≡ locals_of given.now) }
{
    match given {
        Given::Variable(_, meant) => Ok(Given::Locals(copy_meant(meant)?)),
        _ => Ok(Given::Nothing),
    }
}

/// That a parameter of a lambda expression is a lone name, if it has no name of its own.
fn lambda_param(name: Option<u32>) -> Given
    ensures { result ≡ lambda_param name }
{
    match name {
        None => Given::LambdaParam,
        Some(_) => Given::Nothing,
    }
}

/// The class of an annotation, to the name of an element.
fn element_of(given: &Given, values: &[Value]) -> Mem<Given>
    ensures { IfOk result (λ g. g ≡ element_of given.now values.now) }
{
    if values.is_empty() {
        copy_given(given)
    } else {
        Ok(Given::Nothing)
    }
}

/// The class of an annotation, to its arguments.
fn to_argument(part: u16, values: &[Value]) -> Mem<Given>
    ensures { IfOk result (λ g. g ≡ to_argument values.now part) }
{
    if part == ANNOTATION_ARGUMENT {
        let class = class_at(values, 0)?;
        Ok(Given::Annotation(class))
    } else {
        Ok(Given::Nothing)
    }
}

/// What a part is given by a node of a kind.
#[tactic(auto, unfolding(crate::specs::Givens::given_by))]
fn given_by(
    u: &Surroundings,
    node: NodeId,
    parts: &[Part],
    given: &Given,
    from: usize,
    part: u16,
    values: &[Value],
    kind: Kind,
) -> Mem<Given>
    requires below { AreBelow (length u.now.tree.leaves) (length u.now.tree.nodes) parts.now }
    requires part { from < length parts.now }
    ensures { IfOk result (λ g. g ≡ given_by u.now (site_of u.now.tree node.0 parts.now given.now) values.now part
        (forest_of u.now.tree.nodes (drop (from + 1) parts.now)) kind) }
{
    match kind {
        Kind::Postfix => Ok(Given::Behind(last_denoted(values)?)),
        Kind::Selector
        | Kind::NewRest
        | Kind::Member
        | Kind::AfterType
        | Kind::Field
        | Kind::Group => copy_given(given),
        Kind::Creator => Ok(Given::Created(class_at(values, 0)?)),
        Kind::Local => Ok(Given::Locals(meant_at(values, 0)?)),
        Kind::ForVar => variable_of(first_name(u.tree(), parts), values),
        Kind::ForRest => locals_of(given),
        Kind::MemberRest | Kind::Generic => {
            to_member(u.tree(), parts, given, from, part, values)
        }
        Kind::Body | Kind::Enum => Ok(Given::Member(None)),
        Kind::Const => Ok(Given::Created(owner_of(given)?)),
        Kind::Statement => Ok(Given::Switch(type_at(values, 0)?)),
        Kind::CaseLabel => case_of(given),
        Kind::Annotation => to_argument(part, values),
        Kind::AnnArg => element_of(given, values),
        Kind::Package => Ok(Given::PackageName),
        Kind::Lambda => Ok(Given::LambdaParam),
        Kind::LParam => Ok(lambda_param(first_name(u.tree(), parts))),
        _ => Ok(Given::Nothing),
    }
}

/// What a part of a node is given, where the parts before it have these values.
#[tactic(auto, unfolding(crate::specs::Givens::given_to))]
pub fn given_to(
    u: &Surroundings,
    node: NodeId,
    parts: &[Part],
    given: &Given,
    from: usize,
    values: &[Value],
) -> Mem<Given>
    requires node { node.0 < length u.now.tree.nodes }
    requires below { AreBelow (length u.now.tree.leaves) (length u.now.tree.nodes) parts.now }
    requires part { from < length parts.now }
    ensures { IfOk result (λ g. g ≡ given_to u.now (site_of u.now.tree node.0 parts.now given.now)
        (forest_of u.now.tree.nodes (drop from parts.now)) values.now) }
{
    let tree = u.tree();
    match &parts[from] {
        Part::Leaf(_) => Ok(Given::Nothing),
        Part::Node(m) => match kind_in(tree.kind(node)) {
            None => Ok(Given::Nothing),
            Some(kind) => given_by(u, node, parts, given, from, tree.kind(*m), values, kind),
        },
    }
}
