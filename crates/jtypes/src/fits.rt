// What fits where a value is passed.
ghost use Rattle.std.specs.Prelude.{◌≡◌, ◌↔◌, IsTrue, IfOk};
ghost use Rattle.dialogue.specs.Told.{Told};
ghost use Rattle.jtypes.specs.Fits.{FitsStrictly, FitsLoosely, strict_fit, loose_fit, unboxed_fit, is_unknown};
ghost use Rattle.jtypes.specs.Primitives.{box_name, unboxed_type};
ghost use Rattle.jtypes.specs.Subtype.{class_subtype};

use crate::asking::Asks;
use crate::classes::Classes;
use crate::name::Name;
use crate::primitives::{box_of, is_prim_subtype, unbox};
use crate::subtypes::is_subtype_asking;
use crate::types::{JPrim, JType};
use crate::walk::is_class_subtype;
use rw_base::Mem;
use std::alloc::Global;

fn is_unknown(t: &JType) -> bool
    ensures { result ≡ is_unknown t.now }
{
    match t {
        JType::Unknown => true,
        _ => false,
    }
}

/// Whether the first type fits the second strictly (JLS 5.3), with the questions of the test
/// put to `asks`.
pub fn fits_strictly_asking<C: Classes>(
    alloc: Global,
    a: &JType,
    b: &JType,
    c: &C,
    asks: &mut Asks,
) -> Mem<bool>
    ensures { IfOk result (λ r. Told (strict_fit a.now b.now) (C.world c.now) asks.old asks.new r) }
{
    if is_unknown(a) {
        return Ok(true);
    }
    if is_unknown(b) {
        return Ok(true);
    }
    let fits = is_subtype_asking(alloc, a, b, c, asks)?;
    Ok(fits)
}

/// Whether a primitive type, boxed, is a subtype of a class.
fn fits_boxed<C: Classes>(
    alloc: Global,
    p: JPrim,
    class: &Name,
    c: &C,
    asks: &mut Asks,
) -> Mem<bool>
    ensures { IfOk result (λ r. Told (class_subtype (box_name p) class.now) (C.world c.now) asks.old asks.new r) }
{
    let boxed = box_of(alloc, p)?;
    let fits = is_class_subtype(alloc, &boxed, class, c, asks)?;
    Ok(fits)
}

/// Whether a type, unboxed, is a primitive type or widens to it.
fn fits_unboxed(t: &JType, q: JPrim) -> bool
    ensures { result ≡ unboxed_fit (unboxed_type t.now) q }
{
    match unbox(t) {
        Some(p) => is_prim_subtype(p, q),
        None => false,
    }
}

/// Whether the first type fits the second loosely (JLS 5.3), with the questions of the test put
/// to `asks`.
pub fn fits_loosely_asking<C: Classes>(
    alloc: Global,
    a: &JType,
    b: &JType,
    c: &C,
    asks: &mut Asks,
) -> Mem<bool>
    ensures { IfOk result (λ r. Told (loose_fit a.now b.now) (C.world c.now) asks.old asks.new r) }
{
    match a {
        JType::Prim(p) => match b {
            JType::Class(to) => {
                let fits = fits_boxed(alloc, *p, to, c, asks)?;
                Ok(fits)
            }
            _ => {
                let fits = fits_strictly_asking(alloc, a, b, c, asks)?;
                Ok(fits)
            }
        },
        JType::Class(_) => match b {
            JType::Prim(q) => Ok(fits_unboxed(a, *q)),
            _ => {
                let fits = fits_strictly_asking(alloc, a, b, c, asks)?;
                Ok(fits)
            }
        },
        _ => {
            let fits = fits_strictly_asking(alloc, a, b, c, asks)?;
            Ok(fits)
        }
    }
}

/// Whether the first type fits the second strictly: identity and widening (JLS 5.3). Unknown
/// fits each type, and each type fits Unknown.
pub fn fits_strictly<C: Classes>(alloc: Global, a: &JType, b: &JType, c: &C) -> Mem<bool>
    ensures { IfOk result (λ r. IsTrue r ↔ FitsStrictly (C.world c.now) a.now b.now) }
{
    let mut asks = Asks::new(alloc);
    let fits = fits_strictly_asking(alloc, a, b, c, &mut asks)?;
    Ok(fits)
}

/// Whether the first type fits the second loosely: a strict fit, or one by boxing and widening
/// of references, or by unboxing and widening of primitives (JLS 5.3).
pub fn fits_loosely<C: Classes>(alloc: Global, a: &JType, b: &JType, c: &C) -> Mem<bool>
    ensures { IfOk result (λ r. IsTrue r ↔ FitsLoosely (C.world c.now) a.now b.now) }
{
    let mut asks = Asks::new(alloc);
    let fits = fits_loosely_asking(alloc, a, b, c, &mut asks)?;
    Ok(fits)
}
