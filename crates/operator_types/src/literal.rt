ghost use Rattle.std.specs.Prelude.{◌≡◌, IfOk};
ghost use Rattle.operator_types.specs.Operators.{literal_type};

use crate::common_types::CommonTypes;
use jtypes::{JPrim, JType};
use rw_base::Mem;

/// The kinds of literals (JLS 3.10).
#[derive(Clone, Copy, Debug)]
pub enum Literal {
    /// Of digits alone, in any base.
    Int,
    /// Of digits, with `L` at the end.
    Long,
    /// A floating-point literal with `F` at the end.
    Float,
    /// A floating-point literal without `F`.
    Double,
    /// Between single quotes.
    Char,
    /// Between double quotes.
    String,
    /// `true` or `false`.
    Boolean,
    /// `null`.
    Null,
}

/// The type of a literal (JLS 15.8.1).
pub fn literal_type(common: &CommonTypes, literal: Literal) -> Mem<JType>
    ensures { IfOk result (λ t. t ≡ literal_type literal) }
{
    match literal {
        Literal::Int => Ok(JType::Prim(JPrim::Int)),
        Literal::Long => Ok(JType::Prim(JPrim::Long)),
        Literal::Float => Ok(JType::Prim(JPrim::Float)),
        Literal::Double => Ok(JType::Prim(JPrim::Double)),
        Literal::Char => Ok(JType::Prim(JPrim::Char)),
        Literal::String => common.string(),
        Literal::Boolean => Ok(JType::Prim(JPrim::Boolean)),
        Literal::Null => Ok(JType::Null),
    }
}
