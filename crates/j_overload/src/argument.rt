use jtypes::JType;

/// What is known of an argument of a call.
#[derive(Debug, Drop)]
pub enum ArgType {
    /// An expression of this type.
    Known(JType),
    /// A lambda or a method reference.
    Function,
}
