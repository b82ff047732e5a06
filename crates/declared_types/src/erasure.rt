// The erasure of type variables.
ghost use Rattle.std.specs.Prelude.{◌≡◌, ◌≤◌, ◌∷◌, ◌+◌, IfOk, drop, length, get_or};
ghost use Rattle.std.specs.Option.{option_copied};
ghost use Rattle.dialogue.specs.Told.{Told};
ghost use Rattle.jtypes.specs.Subtype.{object_name};
ghost use Rattle.jtypes.specs.World.{name_eq};
ghost use Rattle.declared_types.specs.Erasure.{param_in, from_scope, bound_of, meaning_by_base, bound_meaning};
ghost use Rattle.declared_types.specs.Erasure.{as_erased, count_params, variable_erased};

use crate::body::Scope;
use crate::erased::Erased;
use crate::implicit_names::ImplicitNames;
use crate::resolving::name_meant;
use crate::written::{Base, Written, WrittenParam};
use jtypes::{Asks, Classes, JType, Name, Symbol};
use rw_base::Mem;
use std::alloc::Global;

fn is_name(a: &Name, b: &Name) -> bool
    ensures { result ≡ name_eq a.now b.now }
{
    a.as_slice() == b.as_slice()
}

/// The type parameter of a name.
fn param_in<'a>(scope: &'a Scope, name: &Name) -> Option<&'a WrittenParam>
    ensures { option_copied result ≡ param_in name.now scope.now }
{
    for param in scope.params.as_slice() {
        if is_name(&param.name, name) {
            return Some(param);
        }
    }
    None
}

/// The first bound of a type parameter, if it has one.
fn bound_of<'a>(scope: &'a Scope, name: &Name) -> Option<&'a Written>
    ensures { option_copied result ≡ bound_of (param_in name.now scope.now) }
{
    match param_in(scope, name) {
        Some(param) => match &param.bound {
            Some(bound) => Some(bound),
            None => None,
        },
        None => None,
    }
}

/// The scope at a place: that of a member, or one around it.
fn scope_at<'a>(own: &'a Scope, outer: &'a [Scope], at: usize) -> &'a Scope
    requires { at ≤ length outer.now }
    ensures { result.now ≡ get_or (own.now ∷ outer.now) at result.now }
{
    if at == 0 { own } else { &outer[at - 1] }
}

/// The place of the first scope, from a place on, that has a type parameter of the name; behind all where none has.
fn first_with(own: &Scope, outer: &[Scope], from: usize, name: &Name) -> usize
    requires { from ≤ length outer.now + 1 }
    ensures found { drop result (own.now ∷ outer.now) ≡ from_scope name.now (drop from (own.now ∷ outer.now)) }
    ensures within { result ≤ length outer.now + 1 }
{
    for at in from..outer.len() + 1 {
        if param_in(scope_at(own, outer, at), name).is_some() {
            return at;
        }
    }
    outer.len() + 1
}

/// What a bound means.
fn written_bound<C: Classes>(
    alloc: Global,
    scope: &Scope,
    bound: &Written,
    c: &C,
    asks: &mut Asks,
) -> Mem<Symbol>
    ensures { IfOk result (λ s.
        Told (meaning_by_base scope.now bound.now.dims bound.now.base) (C.world c.now) asks.old asks.new s) }
{
    if bound.dims != 0 {
        return Ok(Symbol::Unknown);
    }
    match &bound.base {
        Base::Named(part, parts) => {
            let meaning = name_meant(
                alloc,
                &scope.cx,
                &scope.frames,
                part,
                parts.as_slice(),
                c,
                asks,
            )?;
            Ok(meaning)
        }
        _ => Ok(Symbol::Unknown),
    }
}

/// What the first bound of a type parameter means.
fn bound_meaning<C: Classes>(
    alloc: Global,
    implicit: &ImplicitNames,
    scope: &Scope,
    name: &Name,
    c: &C,
    asks: &mut Asks,
) -> Mem<Symbol>
    ensures { IfOk result (λ s. Told (bound_meaning scope.now (bound_of (param_in name.now scope.now)))
        (C.world c.now) asks.old asks.new s) }
{
    match bound_of(scope, name) {
        Some(bound) => {
            let meaning = written_bound(alloc, scope, bound, c, asks)?;
            Ok(meaning)
        }
        None => Ok(Symbol::Kind(implicit.object.copy()?)),
    }
}

fn as_erased(meaning: Symbol) -> Erased
    ensures { result ≡ as_erased meaning }
{
    match meaning {
        Symbol::Kind(name) => Erased::To(JType::Class(name)),
        Symbol::TypeVar(name) => Erased::Next(name),
        _ => Erased::To(JType::Unknown),
    }
}

/// How many type parameters there are.
fn count_params(own: &Scope, outer: &[Scope]) -> u128
    ensures { result ≡ count_params (own.now ∷ outer.now) }
{
    let mut count = own.params.len() as u128;
    for scope in outer {
        count += scope.params.len() as u128;
    }
    count
}

fn object_type(implicit: &ImplicitNames) -> Mem<JType>
    ensures { IfOk result (λ t. t ≡ JType.Class object_name) }
{
    Ok(JType::Class(implicit.object.copy()?))
}

/// The erasure of a type variable (JLS 4.6), by the scopes of a member, its own and those around it outward.
pub(crate) fn variable_erased<C: Classes>(
    alloc: Global,
    implicit: &ImplicitNames,
    own: &Scope,
    outer: &[Scope],
    name: &Name,
    c: &C,
    asks: &mut Asks,
) -> Mem<JType>
    ensures { IfOk result (λ t. Told (variable_erased (own.now ∷ outer.now) name.now)
        (C.world c.now) asks.old asks.new t) }
{
    let mut left = count_params(own, outer);
    let mut at = 0;
    let mut variable = name.copy()?;
    while left > 0 {
        at = first_with(own, outer, at, &variable);
        if at > outer.len() {
            let unbound = object_type(implicit)?;
            return Ok(unbound);
        }
        let meaning = bound_meaning(
            alloc,
            implicit,
            scope_at(own, outer, at),
            &variable,
            c,
            asks,
        )?;
        match as_erased(meaning) {
            Erased::To(t) => return Ok(t),
            Erased::Next(next) => variable = next,
        }
        left -= 1;
    }
    let circular = object_type(implicit)?;
    Ok(circular)
}
