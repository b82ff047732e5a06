ghost use Rattle.std.specs.Prelude.{◌≡◌, IfOk};
ghost use Rattle.operator_types.specs.Operators.{promoted_type, unary_type};

use crate::operator::UnaryOperator;
use jtypes::{JPrim, JType, promote};
use rw_base::Mem;

/// Unary numeric promotion (JLS 5.6.1): a number unboxed, and no smaller than int.
pub(crate) fn promoted_type(t: &JType) -> JType
    ensures { result ≡ promoted_type t.now }
{
    promote(t, &JType::Prim(JPrim::Int))
}

/// The type of an operator's result by the type of its operand (JLS 15.14, 15.15).
pub fn unary_type(operator: UnaryOperator, operand: &JType) -> Mem<JType>
    ensures { IfOk result (λ t. t ≡ unary_type operator operand.now) }
{
    match operator {
        UnaryOperator::Increment | UnaryOperator::Decrement => operand.copy(),
        UnaryOperator::Plus | UnaryOperator::Minus | UnaryOperator::BitwiseComplement => {
            Ok(promoted_type(operand))
        }
        UnaryOperator::LogicalComplement => Ok(JType::Prim(JPrim::Boolean)),
    }
}
