// What a judgement notes and asks.
ghost use Rattle.std.specs.Prelude.{◌≡◌, ◌++◌, ◌∷◌, [], OnOk, OnErr};

use jtypes::{Asks, JType, MethodSig, Symbol};
use rw_base::Mem;
use sqlite_items::Items;
use std::alloc::Global;

/// What a judgement tells of a leaf or a node.
#[derive(Debug, Drop)]
pub enum Note {
    /// What the identifier leaf of this number stands for. Of several notes on a leaf the last one counts.
    Symbol(u32, Symbol),
    /// The type of the expression whose node has this number.
    Typed(u32, JType),
    /// The method or constructor that is chosen for the call that the leaf of this number names.
    Chosen(u32, MethodSig),
}

/// What was noted, in order, and what was asked.
#[derive(Drop)]
pub struct Log {
    /// The notes, the latest last.
    pub notes: Items<Note>,
    /// The questions, each once.
    pub asks: Asks,
}

impl Log {
    /// Nothing noted and nothing asked. Takes no memory.
    pub fn new(alloc: Global) -> Log
        ensures notes { result.notes ≡ [] }
        ensures asks { result.asks ≡ [] }
    {
        Log {
            notes: Items::new(alloc),
            asks: Asks::new(alloc),
        }
    }

    /// Puts a note behind the others. Where memory is wanted, all stays as it was.
    pub fn note(&mut self, note: Note) -> Mem<()>
        ensures notes { OnOk result (self.new.notes ≡ self.old.notes ++ note ∷ []) }
        ensures kept { OnErr result (self.new.notes ≡ self.old.notes) }
        ensures asks { self.new.asks ≡ self.old.asks }
    {
        self.notes.push(note)?;
        Ok(())
    }
}
