// The conditional operator.
ghost use Rattle.std.specs.Prelude.{◌≡◌, IfOk};
ghost use Rattle.dialogue.specs.Told.{Told};
ghost use Rattle.jtypes.specs.Primitives.{unboxed_type};
ghost use Rattle.operator_types.specs.Conditional.{boxed, conditional, of_null, of_primitives, of_unboxed};
ghost use Rattle.operator_types.specs.Conditional.{supertype_of, wider, without_look};

use jtypes::{Asks, Classes, JPrim, JType, box_of, is_subtype_asking, promote, unbox};
use rw_base::Mem;
use std::alloc::Global;

/// The type for two primitive operands, but for a boolean and a number (JLS 15.25.1, 15.25.2).
fn of_primitives(p: JPrim, q: JPrim) -> Option<JType>
    ensures { result ≡ of_primitives p q }
{
    if p == q {
        return Some(JType::Prim(p));
    }
    match (p, q) {
        (JPrim::Byte, JPrim::Short) | (JPrim::Short, JPrim::Byte) => {
            Some(JType::Prim(JPrim::Short))
        }
        (JPrim::Boolean, _) | (_, JPrim::Boolean) => None,
        _ => Some(promote(&JType::Prim(p), &JType::Prim(q))),
    }
}

/// The type for two operands that are primitive or unbox to these.
fn of_unboxed(a: &JType, b: &JType) -> Option<JType>
    ensures { result ≡ of_unboxed (unboxed_type a.now) (unboxed_type b.now) }
{
    match (unbox(a), unbox(b)) {
        (Some(p), Some(q)) => of_primitives(p, q),
        _ => None,
    }
}

/// A primitive type boxed (JLS 5.1.7), any other as it is.
fn boxed(alloc: Global, t: &JType) -> Mem<JType>
    ensures { IfOk result (λ u. u ≡ boxed t.now) }
{
    match t {
        JType::Prim(p) => Ok(JType::Class(box_of(alloc, *p)?)),
        _ => t.copy(),
    }
}

/// The type for null and another operand (JLS 15.25.3).
fn of_null(alloc: Global, a: &JType, b: &JType) -> Mem<Option<JType>>
    ensures { IfOk result (λ t. t ≡ of_null a.now b.now) }
{
    match (a, b) {
        (JType::Null, _) => Ok(Some(boxed(alloc, b)?)),
        (_, JType::Null) => Ok(Some(boxed(alloc, a)?)),
        _ => Ok(None),
    }
}

/// The type, where it is given without a look at classes.
fn without_look(alloc: Global, a: &JType, b: &JType) -> Mem<Option<JType>>
    ensures { IfOk result (λ t. t ≡ without_look a.now b.now) }
{
    if a.is(b) {
        let t = a.copy()?;
        return Ok(Some(t));
    }
    if let Some(t) = of_unboxed(a, b) {
        return Ok(Some(t));
    }
    let t = of_null(alloc, a, b)?;
    Ok(t)
}

/// The supertype of two types, by what the tests of both ways say.
fn wider(below: bool, above: bool, a: &JType, b: &JType) -> Mem<JType>
    ensures { IfOk result (λ t. t ≡ wider below above a.now b.now) }
{
    match (below, above) {
        (true, _) => b.copy(),
        (false, true) => a.copy(),
        (false, false) => Ok(JType::Unknown),
    }
}

/// The supertype where one type is a subtype of the other. Both tests are made.
fn supertype_of_asking<C: Classes>(
    alloc: Global,
    a: &JType,
    b: &JType,
    c: &C,
    asks: &mut Asks,
) -> Mem<JType>
    ensures { IfOk result (λ t. Told (supertype_of a.now b.now) (C.world c.now) asks.old asks.new t) }
{
    let below = is_subtype_asking(alloc, a, b, c, asks)?;
    let above = is_subtype_asking(alloc, b, a, c, asks)?;
    let t = wider(below, above, a, b)?;
    Ok(t)
}

/// The type of a conditional expression by the types of its last two operands (JLS 15.25), with the questions of its
/// subtype tests put to `asks`. The tests are made both ways, and only where no other row gives the type.
pub fn conditional_type_asking<C: Classes>(
    alloc: Global,
    a: &JType,
    b: &JType,
    c: &C,
    asks: &mut Asks,
) -> Mem<JType>
    ensures told { IfOk result (λ t. Told (conditional a.now b.now) (C.world c.now) asks.old asks.new t) }
{
    if let Some(t) = without_look(alloc, a, b)? {
        return Ok(t);
    }
    let t = supertype_of_asking(alloc, a, b, c, asks)?;
    Ok(t)
}
