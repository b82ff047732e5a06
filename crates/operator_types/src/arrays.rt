// Types of arrays and of their elements.
ghost use Rattle.std.specs.Prelude.{◌≡◌, ◌+◌, nat_le, IfOk};
ghost use Rattle.jtypes.specs.Arrays.{ArrayOf};
ghost use Rattle.operator_types.specs.Arrays.{arrays_of, dims_of, element_of, most_dims, with_dims};

use jtypes::JType;
use rw_base::{Mem, Shared};
use std::alloc::Global;

/// The most dimensions of an array type (JVMS 4.3.2).
const MOST_DIMS: usize = 255;

/// The type of an element of an array (JLS 15.13); Unknown where the type is no array.
pub fn element_of(t: &JType) -> Mem<JType>
    ensures { IfOk result (λ element. element ≡ element_of t.now) }
{
    match t {
        JType::Array(element) => {
            let copy = element.get().copy()?;
            Ok(copy)
        }
        _ => Ok(JType::Unknown),
    }
}

/// The array type of an element type.
fn array_of(alloc: Global, element: JType) -> Mem<JType>
    ensures { IfOk result (λ t. t ≡ ArrayOf element) }
{
    let element = Shared::new(alloc, element)?;
    Ok(JType::Array(element))
}

/// A type with so many dimensions more.
fn arrays_of(alloc: Global, dims: usize, element: JType) -> Mem<JType>
    ensures { IfOk result (λ t. t ≡ arrays_of dims element) }
{
    let mut ty = element;
    for _made in 0..dims {
        ty = array_of(alloc, ty)?;
    }
    Ok(ty)
}

/// Whether a type has at most so many dimensions.
fn has_at_most(t: &JType, dims: usize) -> bool
    ensures { result ≡ nat_le (dims_of t.now) dims }
{
    match t {
        JType::Array(element) => dims > 0 && has_at_most(element.get(), dims - 1),
        _ => true,
    }
}

/// Whether a type may have so many dimensions more.
fn has_room(t: &JType, dims: usize) -> bool
    ensures { result ≡ nat_le (dims_of t.now + dims) most_dims }
{
    dims <= MOST_DIMS && has_at_most(t, MOST_DIMS - dims)
}

/// A type with so many dimensions more, as `[]` behind it or behind a name says (JLS 10.2). Unknown where it has more
/// than 255 in all.
#[tactic(auto, unfolding(crate::specs::Arrays::with_dims))]
pub fn with_dims(alloc: Global, dims: usize, element: JType) -> Mem<JType>
    ensures { IfOk result (λ t. t ≡ with_dims dims element) }
{
    if !has_room(&element, dims) {
        return Ok(JType::Unknown);
    }
    let ty = arrays_of(alloc, dims, element)?;
    Ok(ty)
}
