// What a name behind a dot means.
ghost use Rattle.std.specs.Prelude.{◌≡◌, IfOk};
ghost use Rattle.dialogue.specs.Told.{Told};
ghost use Rattle.jtypes.specs.World.{name_eq};
ghost use Rattle.j_names.specs.Dots.{behind_package, behind_type, field_behind, type_behind, array_field, length_name};
ghost use Rattle.j_names.specs.Names.{top_around, or_else};

use crate::context::UnitContext;
use crate::members::{field_of, joined, member_type_of, type_at};
use crate::places::top_around;
use crate::types::{or_package, or_unknown};
use jtypes::{Asks, Classes, JPrim, JType, Name, Symbol};
use rw_base::Mem;
use std::alloc::Global;

/// What a name behind a package means (JLS 6.5.3.2, 6.5.5.2), with its question put to `asks`: the type of that
/// qualified name where it is there and isn't private elsewhere, else a package.
pub fn behind_package_asking<C: Classes>(
    alloc: Global,
    cx: &UnitContext,
    scope: &Name,
    name: &Name,
    c: &C,
    asks: &mut Asks,
) -> Mem<Symbol>
    ensures told { IfOk result (λ s.
        Told (behind_package (top_around cx.now) scope.now name.now) (C.world c.now) asks.old asks.new s) }
{
    let top = top_around(cx);
    let qualified = joined(alloc, scope, name)?;
    let at = qualified.copy()?;
    let found = type_at(top, at, c, asks)?;
    Ok(or_package(found, qualified))
}

/// What a name behind a type means in an expression (JLS 6.5.6.2, 15.11), with the questions that decide it put to
/// `asks`: a field of the class, its own or an inherited one, else a member type, else Unknown.
pub fn behind_type_asking<C: Classes>(
    alloc: Global,
    cx: &UnitContext,
    class: &Name,
    name: &Name,
    c: &C,
    asks: &mut Asks,
) -> Mem<Symbol>
    ensures told { IfOk result (λ s.
        Told (behind_type (top_around cx.now) class.now name.now) (C.world c.now) asks.old asks.new s) }
{
    let top = top_around(cx);
    if let Some(s) = field_of(alloc, top, name, class, c, asks)? {
        return Ok(s);
    }
    let found = member_type_of(alloc, top, name, class, c, asks)?;
    Ok(or_unknown(found))
}

#[tactic(auto, unfolding(crate::specs::Dots::length_name))]
fn is_length(name: &Name) -> bool
    ensures { result ≡ name_eq name.now length_name }
{
    name.reads(b"length")
}

/// A field of an array (JLS 10.7).
fn array_field(name: &Name) -> Symbol
    ensures { result ≡ array_field name.now }
{
    if is_length(name) {
        Symbol::Local(JType::Prim(JPrim::Int))
    } else {
        Symbol::Unknown
    }
}

/// A field of a class, else Unknown.
fn field_or_unknown<C: Classes>(
    alloc: Global,
    cx: &UnitContext,
    class: &Name,
    name: &Name,
    c: &C,
    asks: &mut Asks,
) -> Mem<Symbol>
    ensures { IfOk result (λ s. Told (field_behind (top_around cx.now) (JType.Class class.now) name.now)
        (C.world c.now) asks.old asks.new s) }
{
    let top = top_around(cx);
    let found = field_of(alloc, top, name, class, c, asks)?;
    Ok(or_unknown(found))
}

/// What a name behind an expression of a type means (JLS 15.11.1), with the questions that decide it put to `asks`: a
/// field of a class, `length` of an array, else Unknown.
#[tactic(auto, unfolding(crate::specs::Dots::field_behind))]
pub fn field_behind_asking<C: Classes>(
    alloc: Global,
    cx: &UnitContext,
    ty: &JType,
    name: &Name,
    c: &C,
    asks: &mut Asks,
) -> Mem<Symbol>
    ensures told { IfOk result (λ s.
        Told (field_behind (top_around cx.now) ty.now name.now) (C.world c.now) asks.old asks.new s) }
{
    match ty {
        JType::Class(class) => {
            let found = field_or_unknown(alloc, cx, class, name, c, asks)?;
            Ok(found)
        }
        JType::Array(_) => Ok(array_field(name)),
        _ => Ok(Symbol::Unknown),
    }
}

/// A member type of a class, else Unknown.
fn member_or_unknown<C: Classes>(
    alloc: Global,
    cx: &UnitContext,
    class: &Name,
    name: &Name,
    c: &C,
    asks: &mut Asks,
) -> Mem<Symbol>
    ensures { IfOk result (λ s. Told (type_behind (top_around cx.now) (Symbol.Kind class.now) name.now)
        (C.world c.now) asks.old asks.new s) }
{
    let top = top_around(cx);
    let found = member_type_of(alloc, top, name, class, c, asks)?;
    Ok(or_unknown(found))
}

/// What a name behind another means in a type position (JLS 6.5.5.2), with the questions that decide it put to `asks`:
/// behind a package a type or a package, behind a type a member type, else Unknown.
#[tactic(auto, unfolding(crate::specs::Dots::type_behind))]
pub fn type_behind_asking<C: Classes>(
    alloc: Global,
    cx: &UnitContext,
    scope: &Symbol,
    name: &Name,
    c: &C,
    asks: &mut Asks,
) -> Mem<Symbol>
    ensures told { IfOk result (λ s.
        Told (type_behind (top_around cx.now) scope.now name.now) (C.world c.now) asks.old asks.new s) }
{
    match scope {
        Symbol::Package(outer) => {
            let found = behind_package_asking(alloc, cx, outer, name, c, asks)?;
            Ok(found)
        }
        Symbol::Kind(class) => {
            let found = member_or_unknown(alloc, cx, class, name, c, asks)?;
            Ok(found)
        }
        _ => Ok(Symbol::Unknown),
    }
}
