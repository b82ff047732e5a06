// A declared type, put together from its parts.
ghost use Rattle.std.specs.Prelude.{◌≡◌, ◌<◌, length, IfOk};
ghost use Rattle.rw_base.specs.Arena.{end_of};
ghost use Rattle.class_table.specs.Words.{parts_at};
ghost use Rattle.class_table.specs.TypesWritten.{type_params};
ghost use Rattle.class_table.specs.Members.{no_mods, fields_in, methods_in};
ghost use Rattle.class_table.specs.Declarations.{superclass, interfaces, before_interfaces, declared, qualified};
ghost use Rattle.class_table.specs.Assembling.{place_of, assembled};

use crate::around::{Around, copied_context, joined, top_of};
use crate::lists::kept;
use crate::members::{Members, add_members};
use crate::modifiers::Mods;
use crate::parts::node_behind;
use crate::types::{listed, name_in, type_at, type_params};
use declared_types::{
    DeclaredType, ScopeParams, Written, WrittenField, WrittenMethod, WrittenParam,
};
use j_names::UnitContext;
use java_lex::class::{EXTENDS, IMPLEMENTS};
use jtypes::{ClassKind, Name, Names, SharedList};
use rw_base::{Mem, NodeId, Tree};
use std::alloc::Global;

#[tactic(auto, unfolding(crate::specs::Declarations::superclass))]
fn superclass(
    alloc: Global,
    tree: &Tree,
    bytes: &[u8],
    n: NodeId,
    kind: ClassKind,
    names: &mut Names,
) -> Mem<Option<Written>>
    requires node { n.0 < length tree.now.nodes }
    requires bytes { length bytes.now ≡ end_of tree.now }
    ensures { IfOk result (λ w. w ≡ superclass kind (parts_at tree.now bytes.now n.0)) }
{
    match kind {
        ClassKind::Class => type_at(alloc, tree, bytes, node_behind(tree, n, EXTENDS), names),
        ClassKind::Interface => Ok(None),
        ClassKind::Enum => Ok(None),
        ClassKind::Annotation => Ok(None),
    }
}

// The word before the superinterfaces.
fn before_interfaces(kind: ClassKind) -> u16
    ensures { result ≡ before_interfaces kind }
{
    match kind {
        ClassKind::Interface => EXTENDS,
        ClassKind::Class => IMPLEMENTS,
        ClassKind::Enum => IMPLEMENTS,
        ClassKind::Annotation => IMPLEMENTS,
    }
}

#[tactic(auto, unfolding(crate::specs::Declarations::interfaces))]
fn interfaces(
    alloc: Global,
    tree: &Tree,
    bytes: &[u8],
    n: NodeId,
    kind: ClassKind,
    names: &mut Names,
) -> Mem<SharedList<Written>>
    requires node { n.0 < length tree.now.nodes }
    requires bytes { length bytes.now ≡ end_of tree.now }
    ensures { IfOk result (λ list. list ≡ interfaces kind (parts_at tree.now bytes.now n.0)) }
{
    listed(
        alloc,
        tree,
        bytes,
        node_behind(tree, n, before_interfaces(kind)),
        names,
    )
}

// The members of a type.
#[derive(Debug, Drop)]
pub(crate) struct TypeMembers {
    pub fields: SharedList<WrittenField>,
    pub methods: SharedList<WrittenMethod>,
}

fn members_of(
    alloc: Global,
    tree: &Tree,
    bytes: &[u8],
    n: NodeId,
    kind: ClassKind,
    names: &mut Names,
) -> Mem<TypeMembers>
    requires node { n.0 < length tree.now.nodes }
    requires bytes { length bytes.now ≡ end_of tree.now }
    ensures fields { let ps = parts_at tree.now bytes.now n.0 in
        IfOk result (λ all. all.fields ≡ fields_in kind no_mods ps) }
    ensures methods { let ps = parts_at tree.now bytes.now n.0 in
        IfOk result (λ all. all.methods ≡ methods_in no_mods ps) }
{
    let mut all = Members {
        fields: Vec::new(alloc),
        methods: Vec::new(alloc),
    };
    let none = Mods {
        is_static: false,
        is_private: false,
    };
    add_members(alloc, tree, bytes, n, kind, none, names, &mut all)?;
    let Members { fields, methods } = all;
    let fields = kept(alloc, fields)?;
    let methods = kept(alloc, methods)?;
    Ok(TypeMembers { fields, methods })
}

// The name of a type, and where it stands.
#[derive(Debug, Drop)]
pub(crate) struct Place {
    pub name: Name,
    pub top: Name,
    pub cx: UnitContext,
    pub scopes: SharedList<ScopeParams>,
}

#[tactic(auto, unfolding(crate::specs::Declarations::qualified))]
fn place_of(
    alloc: Global,
    tree: &Tree,
    bytes: &[u8],
    n: NodeId,
    around: &Around,
    names: &mut Names,
) -> Mem<Place>
    requires node { n.0 < length tree.now.nodes }
    requires bytes { length bytes.now ≡ end_of tree.now }
    ensures { let name = qualified around.now (parts_at tree.now bytes.now n.0) in
        IfOk result (λ p. p ≡ place_of around.now name) }
{
    let simple = name_in(alloc, tree, bytes, n, names)?;
    let name = joined(alloc, &around.within, &simple, names)?;
    let top = top_of(around, &name)?;
    let cx = copied_context(&around.cx)?;
    let scopes = around.scopes.copy()?;
    Ok(Place {
        name,
        top,
        cx,
        scopes,
    })
}

// The type parameters of a type, and the types that it extends and implements.
#[derive(Debug, Drop)]
pub(crate) struct Supers {
    pub type_params: SharedList<WrittenParam>,
    pub superclass: Option<Written>,
    pub interfaces: SharedList<Written>,
}

fn supers_of(
    alloc: Global,
    tree: &Tree,
    bytes: &[u8],
    n: NodeId,
    kind: ClassKind,
    names: &mut Names,
) -> Mem<Supers>
    requires node { n.0 < length tree.now.nodes }
    requires bytes { length bytes.now ≡ end_of tree.now }
    ensures params { IfOk result (λ s. s.type_params ≡ type_params (parts_at tree.now bytes.now n.0)) }
    ensures superclass { IfOk result (λ s. s.superclass ≡ superclass kind (parts_at tree.now bytes.now n.0)) }
    ensures interfaces { IfOk result (λ s. s.interfaces ≡ interfaces kind (parts_at tree.now bytes.now n.0)) }
{
    let params = type_params(alloc, tree, bytes, n, names)?;
    let extended = superclass(alloc, tree, bytes, n, kind, names)?;
    let implemented = interfaces(alloc, tree, bytes, n, kind, names)?;
    Ok(Supers {
        type_params: params,
        superclass: extended,
        interfaces: implemented,
    })
}

fn assembled(
    kind: ClassKind,
    is_private: bool,
    place: Place,
    supers: Supers,
    members: TypeMembers,
) -> DeclaredType
    ensures { result ≡ assembled kind is_private place supers members }
{
    let Place {
        name,
        top,
        cx,
        scopes,
    } = place;
    let Supers {
        type_params,
        superclass,
        interfaces,
    } = supers;
    let TypeMembers { fields, methods } = members;
    DeclaredType {
        name,
        kind,
        top,
        is_private,
        cx,
        around: scopes,
        type_params,
        superclass,
        interfaces,
        fields,
        methods,
    }
}

// A type by its node.
#[tactic(auto, unfolding(crate::specs::Declarations::declared))]
pub(crate) fn declared(
    alloc: Global,
    tree: &Tree,
    bytes: &[u8],
    n: NodeId,
    kind: ClassKind,
    around: &Around,
    is_private: bool,
    names: &mut Names,
) -> Mem<DeclaredType>
    requires node { n.0 < length tree.now.nodes }
    requires bytes { length bytes.now ≡ end_of tree.now }
    ensures { IfOk result (λ d. d ≡ declared around.now is_private kind (parts_at tree.now bytes.now n.0)) }
{
    let place = place_of(alloc, tree, bytes, n, around, names)?;
    let supers = supers_of(alloc, tree, bytes, n, kind, names)?;
    let members = members_of(alloc, tree, bytes, n, kind, names)?;
    Ok(assembled(kind, is_private, place, supers, members))
}
