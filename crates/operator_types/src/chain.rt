ghost use Rattle.std.specs.Prelude.{◌≡◌, IfOk};
ghost use Rattle.operator_types.specs.Operators.{chain_type};

use crate::binary::binary_type;
use crate::common_types::CommonTypes;
use crate::operator::BinaryOperator;
use jtypes::JType;
use rw_base::Mem;

/// An operator of a chain and what stands behind it.
#[derive(Debug, Drop)]
pub struct Operation {
    /// The operator.
    pub operator: BinaryOperator,
    /// The type of the operand behind it.
    pub right: JType,
}

/// The type of a chain of operands, such as `a + b - c`, which groups from the left (JLS 15.7.3).
pub fn chain_type(common: &CommonTypes, first: &JType, rest: &[Operation]) -> Mem<JType>
    ensures { IfOk result (λ t. t ≡ chain_type first.now rest.now) }
{
    let mut ty = first.copy()?;
    for operation in rest {
        ty = binary_type(common, operation.operator, &ty, &operation.right)?;
    }
    Ok(ty)
}
