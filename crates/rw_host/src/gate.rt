// What each piece of a step enters before its work.

/// Each piece of work that may run on its own thread enters the gate first. No result depends on it.
pub trait Gate: Sync {
    /// Returns once the piece may go on. Pieces count from 1.
    fn enter(&self, piece: u32);
}

/// The gate that keeps nothing back.
#[derive(Clone, Copy, Debug)]
pub struct OpenGate;

impl Gate for OpenGate {
    fn enter(&self, _piece: u32) {}
}
