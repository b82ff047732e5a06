/// The phases of a choice (JLS 15.12.2.2 to 15.12.2.4).
#[derive(Clone, Copy, Debug)]
pub(crate) enum Phase {
    /// Without boxing and variable arity.
    Strict,
    /// With boxing.
    Loose,
    /// With boxing and variable arity.
    Variable,
}
