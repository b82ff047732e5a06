// Names that are kept once each.
ghost use Rattle.std.specs.Prelude.{◌≡◌, IfOk};

use crate::name::Name;
use indexmap::IndexMap;
use rw_base::Mem;
use std::alloc::Global;
use std::hash::{FoldHasher, Hasher};

/// Names for a file or a worker, each kept once: a name that is asked for again shares its bytes.
///
/// They are found by a hash of their bytes. Of two names with one hash the later one is kept.
#[derive(Drop)]
pub struct Names {
    by_hash: IndexMap<u64, Name>,
}

/// A hash of the bytes of a name.
fn hash_of(text: &[u8]) -> u64 {
    let mut hasher = FoldHasher::default();
    hasher.write(text);
    hasher.finish()
}

impl Names {
    /// No names yet. Takes no memory.
    pub fn new(alloc: Global) -> Names {
        Names {
            by_hash: IndexMap::new(alloc),
        }
    }

    /// The name with these bytes. Takes memory where it isn't kept yet.
    pub fn name(&mut self, alloc: Global, text: &[u8]) -> Mem<Name>
        ensures { IfOk result (λ name. name ≡ text.now) }
    {
        let hash = hash_of(text);
        if let Some(name) = self.by_hash.get(&hash) {
            if name.reads(text) {
                return name.copy();
            }
        }
        let name = Name::new(alloc, text)?;
        self.by_hash.insert(hash, name.copy()?)?;
        Ok(name)
    }
}
