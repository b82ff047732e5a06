// Operators of one and of two operands.

/// An operator with one operand (JLS 15.14, 15.15).
#[derive(Clone, Copy, Debug)]
pub enum UnaryOperator {
    /// `++`, before or behind its operand.
    Increment,
    /// `--`, before or behind its operand.
    Decrement,
    /// `+`
    Plus,
    /// `-`
    Minus,
    /// `~`
    BitwiseComplement,
    /// `!`
    LogicalComplement,
}

/// An operator with two operands (JLS 15.17 to 15.24).
#[derive(Clone, Copy, Debug)]
pub enum BinaryOperator {
    /// `*`
    Multiply,
    /// `/`
    Divide,
    /// `%`
    Remainder,
    /// `+`, of numbers and of strings.
    Add,
    /// `-`
    Subtract,
    /// `<<`
    ShiftLeft,
    /// `>>`
    ShiftRight,
    /// `>>>`
    UnsignedShiftRight,
    /// `<`
    Less,
    /// `>`
    Greater,
    /// `<=`
    LessOrEqual,
    /// `>=`
    GreaterOrEqual,
    /// `instanceof`, whose right operand is a type.
    InstanceOf,
    /// `==`
    Equal,
    /// `!=`
    NotEqual,
    /// `&`
    And,
    /// `^`
    Xor,
    /// `|`
    Or,
    /// `&&`
    ConditionalAnd,
    /// `||`
    ConditionalOr,
}
