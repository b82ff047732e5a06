/// A number in a list, linked to the one before it that is the same.
#[derive(Clone, Copy)]
pub(crate) struct Link {
    pub(crate) number: usize,
    /// The place behind the last link before it with the same number; 0 where there is none.
    pub(crate) before: usize,
}
