ghost use Rattle.std.specs.Prelude.{◌≡◌, IfOk};
ghost use Rattle.jtypes.specs.Primitives.{unboxed_type};
ghost use Rattle.operator_types.specs.Operators.{binary_type, bitwise_type, is_boolean, sum_type};

use crate::common_types::CommonTypes;
use crate::operator::BinaryOperator;
use crate::unary::promoted_type;
use jtypes::{JPrim, JType, promote, unbox};
use rw_base::Mem;

/// The type of `+`: String where an operand is one (JLS 15.18).
fn sum_type(common: &CommonTypes, left: &JType, right: &JType) -> Mem<JType>
    ensures { IfOk result (λ t. t ≡ sum_type left.now right.now) }
{
    if common.is_string(left) || common.is_string(right) {
        return common.string();
    }
    Ok(promote(left, right))
}

/// Whether a type is boolean or its box.
fn is_boolean(t: &JType) -> bool
    ensures { result ≡ is_boolean (unboxed_type t.now) }
{
    matches!(unbox(t), Some(JPrim::Boolean))
}

/// The type of `&`, `^` and `|`: boolean where both operands are (JLS 15.22).
fn bitwise_type(left: &JType, right: &JType) -> JType
    ensures { result ≡ bitwise_type left.now right.now }
{
    if is_boolean(left) && is_boolean(right) {
        return JType::Prim(JPrim::Boolean);
    }
    promote(left, right)
}

/// The type of an operator's result by the types of its operands (JLS 15.17 to 15.24).
pub fn binary_type(
    common: &CommonTypes,
    operator: BinaryOperator,
    left: &JType,
    right: &JType,
) -> Mem<JType>
    ensures { IfOk result (λ t. t ≡ binary_type operator left.now right.now) }
{
    match operator {
        BinaryOperator::Multiply
        | BinaryOperator::Divide
        | BinaryOperator::Remainder
        | BinaryOperator::Subtract => Ok(promote(left, right)),
        BinaryOperator::Add => sum_type(common, left, right),
        BinaryOperator::ShiftLeft
        | BinaryOperator::ShiftRight
        | BinaryOperator::UnsignedShiftRight => Ok(promoted_type(left)),
        BinaryOperator::And | BinaryOperator::Xor | BinaryOperator::Or => {
            Ok(bitwise_type(left, right))
        }
        BinaryOperator::Less
        | BinaryOperator::Greater
        | BinaryOperator::LessOrEqual
        | BinaryOperator::GreaterOrEqual
        | BinaryOperator::InstanceOf
        | BinaryOperator::Equal
        | BinaryOperator::NotEqual
        | BinaryOperator::ConditionalAnd
        | BinaryOperator::ConditionalOr => Ok(JType::Prim(JPrim::Boolean)),
    }
}
