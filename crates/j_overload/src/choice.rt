/// Which of the candidates a call means.
#[derive(Clone, Copy, Debug, PartialEq, Eq)]
pub enum Choice {
    /// The candidate at this position.
    Method(usize),
    /// No candidate is applicable.
    None,
    /// Some are applicable, and the call doesn't say which.
    Ambiguous,
}
