// What arguments a method can take, and the types that they are tested against.
ghost use Rattle.std.specs.Prelude.{◌≡◌, ◌<◌, ℕ, length, slice_get, Some};
ghost use Rattle.j_overload.specs.Parameters.{HasTypeAt, compared_count, element_type, parameter_types, spread};
ghost use Rattle.j_overload.specs.Parameters.{takes_number};

use crate::phase::Phase;
use jtypes::{JType, MethodSig};

/// Whether a method can take so many arguments.
pub(crate) fn takes_number(phase: Phase, m: &MethodSig, count: usize) -> bool
    ensures { result ≡ takes_number phase m.now count }
{
    match phase {
        Phase::Strict | Phase::Loose => m.params.len() == count,
        Phase::Variable => m.varargs && m.params.len() > 0 && m.params.len() - 1 <= count,
    }
}

fn element_type(t: &JType) -> &JType
    ensures { result.now ≡ element_type t.now }
{
    match t {
        JType::Array(element) => element.get(),
        _ => t,
    }
}

/// The type at a position of the parameters, the last of them repeated without end.
fn spread_type(params: &[JType], at: usize) -> &JType
    requires { 0 < length params.now }
    ensures { (k : ℕ) → at < k → slice_get (spread params.now k) at ≡ Some result.now }
{
    let last = params.len() - 1;
    if at < last {
        &params[at]
    } else {
        element_type(&params[last])
    }
}

/// The type that the argument at a position is tested against.
pub(crate) fn parameter_type(phase: Phase, m: &MethodSig, at: usize) -> &JType
    requires { HasTypeAt phase m.now at }
    ensures { (k : ℕ) → at < k → slice_get (parameter_types phase m.now k) at ≡ Some result.now }
{
    match phase {
        Phase::Strict | Phase::Loose => &m.params.as_slice()[at],
        Phase::Variable => spread_type(m.params.as_slice(), at),
    }
}

/// How many types of two methods are compared for so many arguments.
pub(crate) fn compared_count(count: usize, n: &MethodSig) -> usize
    ensures { result ≡ compared_count count n.now }
{
    if n.params.len().saturating_sub(count) == 1 {
        n.params.len()
    } else {
        count
    }
}
