// What the words of Java are to types: literals and operators.
ghost use Rattle.std.specs.Prelude.{◌≡◌};
ghost use Rattle.j_attrib.specs.Words.{literal_of, sum_operator, unary_operator};

use java_lex::class;
use operator_types::{BinaryOperator, Literal, UnaryOperator};

/// The literal of a class of leaves (JLS 3.10).
pub(crate) fn literal_of(word: u16) -> Option<Literal>
    ensures { result ≡ literal_of word }
{
    match word {
        class::INT => Some(Literal::Int),
        class::LONG => Some(Literal::Long),
        class::FLOAT => Some(Literal::Float),
        class::DOUBLE => Some(Literal::Double),
        class::CHAR => Some(Literal::Char),
        class::STRING => Some(Literal::String),
        class::BOOL => Some(Literal::Boolean),
        class::NULL => Some(Literal::Null),
        _ => None,
    }
}

/// The operator before an operand (JLS 15.15).
pub(crate) fn unary_operator(word: u16) -> UnaryOperator
    ensures { result ≡ unary_operator word }
{
    match word {
        class::PLUS_PLUS => UnaryOperator::Increment,
        class::MINUS_MINUS => UnaryOperator::Decrement,
        class::PLUS => UnaryOperator::Plus,
        class::MINUS => UnaryOperator::Minus,
        class::NOT => UnaryOperator::LogicalComplement,
        _ => UnaryOperator::BitwiseComplement,
    }
}

/// The operator of a sum (JLS 15.18).
pub(crate) fn sum_operator(word: u16) -> BinaryOperator
    ensures { result ≡ sum_operator word }
{
    if word == class::PLUS {
        BinaryOperator::Add
    } else {
        BinaryOperator::Subtract
    }
}
