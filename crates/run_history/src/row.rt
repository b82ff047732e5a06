// A run, as the history keeps it.
use rw_base::Text;

/// A run: its number, from 1 on, the name of its recipe, which may be any bytes, how many cycles it took, how many
/// files it changed, created and removed, and a SHA-256, as of its journal.
#[derive(Debug, Drop)]
pub struct RunRow {
    pub run: u32,
    pub recipe: Text,
    pub cycles: u32,
    pub changed: u32,
    pub created: u32,
    pub removed: u32,
    pub digest: [u8; 32],
}
