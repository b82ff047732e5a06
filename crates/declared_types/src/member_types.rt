// The types of fields, results and parameters.
ghost use Rattle.std.specs.Prelude.{◌≡◌, ◌∷◌, IfOk};
ghost use Rattle.dialogue.specs.Told.{Told};
ghost use Rattle.jtypes.specs.Arrays.{ArrayOf};
ghost use Rattle.declared_types.specs.Signatures.{arrays_of, most_dims, with_dims, plain_type, param_type};
ghost use Rattle.declared_types.specs.Signatures.{plain_written, param_written};

use crate::body::{Body, Scope};
use crate::erasure::variable_erased;
use crate::implicit_names::ImplicitNames;
use crate::resolving::name_meant;
use crate::written::{Base, Written};
use jtypes::{Asks, Classes, JType, Name, Symbol};
use rw_base::{Mem, Shared};
use std::alloc::Global;

/// The array type of an element type.
pub(crate) fn array_of(alloc: Global, element: JType) -> Mem<JType>
    ensures { IfOk result (λ t. t ≡ ArrayOf element) }
{
    let element = Shared::new(alloc, element)?;
    Ok(JType::Array(element))
}

/// A type with so many dimensions around it.
fn arrays_of(alloc: Global, dims: usize, element: JType) -> Mem<JType>
    ensures { IfOk result (λ t. t ≡ arrays_of dims element) }
{
    let mut ty = element;
    let mut count = 0;
    while count < dims {
        ty = array_of(alloc, ty)?;
        count += 1;
    }
    Ok(ty)
}

/// An array type; one with too many dimensions isn't known.
#[tactic(auto, unfolding(crate::specs::Signatures::with_dims, crate::specs::Signatures::most_dims))]
pub(crate) fn with_dims(alloc: Global, dims: usize, element: JType) -> Mem<JType>
    ensures { IfOk result (λ t. t ≡ with_dims dims element) }
{
    if dims > 255 {
        return Ok(JType::Unknown);
    }
    let ty = arrays_of(alloc, dims, element)?;
    Ok(ty)
}

/// The type of a field or result, by what its name means.
fn plain_type(alloc: Global, dims: usize, meaning: Symbol) -> Mem<JType>
    ensures { IfOk result (λ t. t ≡ plain_type dims meaning) }
{
    match meaning {
        Symbol::Kind(name) => with_dims(alloc, dims, JType::Class(name)),
        Symbol::TypeVar(_) => Ok(JType::Unknown),
        _ => with_dims(alloc, dims, JType::Unknown),
    }
}

/// The type of a field or result.
#[tactic(auto, unfolding(crate::specs::Signatures::plain_written))]
pub(crate) fn plain_written<C: Classes>(
    alloc: Global,
    owner: &Name,
    own: &Scope,
    w: &Written,
    c: &C,
    asks: &mut Asks,
) -> Mem<JType>
    ensures { IfOk result (λ t. Told (plain_written owner.now own.now w.now) (C.world c.now) asks.old asks.new t) }
{
    match &w.base {
        Base::Prim(p) => {
            let ty = with_dims(alloc, w.dims, JType::Prim(*p))?;
            Ok(ty)
        }
        Base::Named(part, parts) => {
            let meaning = name_meant(alloc, &own.cx, &own.frames, part, parts.as_slice(), c, asks)?;
            let ty = plain_type(alloc, w.dims, meaning)?;
            Ok(ty)
        }
        Base::Itself => {
            let ty = with_dims(alloc, w.dims, JType::Class(owner.copy()?))?;
            Ok(ty)
        }
        Base::Void => Ok(JType::Void),
    }
}

/// The type of a parameter, by what its name means.
fn param_type<C: Classes>(
    alloc: Global,
    implicit: &ImplicitNames,
    body: &Body,
    own: &Scope,
    dims: usize,
    meaning: Symbol,
    c: &C,
    asks: &mut Asks,
) -> Mem<JType>
    ensures { IfOk result (λ t. Told (param_type (own.now ∷ body.now.outer) dims meaning)
        (C.world c.now) asks.old asks.new t) }
{
    match meaning {
        Symbol::TypeVar(name) => {
            let outer = body.outer.as_slice();
            let erased = variable_erased(alloc, implicit, own, outer, &name, c, asks)?;
            let ty = with_dims(alloc, dims, erased)?;
            Ok(ty)
        }
        other => {
            let ty = plain_type(alloc, dims, other)?;
            Ok(ty)
        }
    }
}

/// The type of a parameter of a method or constructor.
pub(crate) fn param_written<C: Classes>(
    alloc: Global,
    implicit: &ImplicitNames,
    body: &Body,
    own: &Scope,
    w: &Written,
    c: &C,
    asks: &mut Asks,
) -> Mem<JType>
    ensures { IfOk result (λ t. Told (param_written body.now own.now w.now) (C.world c.now) asks.old asks.new t) }
{
    match &w.base {
        Base::Named(part, parts) => {
            let meaning = name_meant(alloc, &own.cx, &own.frames, part, parts.as_slice(), c, asks)?;
            let ty = param_type(alloc, implicit, body, own, w.dims, meaning, c, asks)?;
            Ok(ty)
        }
        _ => {
            let ty = plain_written(alloc, &body.name, own, w, c, asks)?;
            Ok(ty)
        }
    }
}
