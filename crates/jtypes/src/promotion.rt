ghost use Rattle.std.specs.Prelude.{◌≡◌};
ghost use Rattle.jtypes.specs.Primitives.{promoted_prim, promoted_types};

use crate::primitives::unbox;
use crate::types::{JPrim, JType};

/// The wider of two numeric types, and no smaller one than int.
fn promoted_prim(p: JPrim, q: JPrim) -> JPrim
    ensures { result ≡ promoted_prim p q }
{
    match (p, q) {
        (JPrim::Double, _) | (_, JPrim::Double) => JPrim::Double,
        (JPrim::Float, _) | (_, JPrim::Float) => JPrim::Float,
        (JPrim::Long, _) | (_, JPrim::Long) => JPrim::Long,
        _ => JPrim::Int,
    }
}

/// The type of an operation on two numbers: binary numeric promotion after unboxing
/// (JLS 5.6.2). Unknown where one of the two isn't numeric.
pub fn promote(a: &JType, b: &JType) -> JType
    ensures { result ≡ promoted_types a.now b.now }
{
    match (unbox(a), unbox(b)) {
        (None, _) | (_, None) => JType::Unknown,
        (Some(JPrim::Boolean), _) | (_, Some(JPrim::Boolean)) => JType::Unknown,
        (Some(p), Some(q)) => JType::Prim(promoted_prim(p, q)),
    }
}
