ghost use Rattle.std.specs.Prelude.{◌≡◌, ◌↔◌, ◌<◌, [], ◌∷◌, ◌++◌, Some, length, map, slice_get, IsTrue, OnOk, OnErr};
ghost use Rattle.dialogue.specs.Dialogue.{In};
ghost use Rattle.dialogue.specs.Told.{Heard};

use crate::ask::Ask;
use crate::asking::Asks;
use crate::name::Name;
use indexmap::IndexSet;
use rw_base::Mem;
use std::alloc::Global;
use std::marker::Model;

/// How many names are searched one by one, which is faster for a few.
const MOST_FEW: usize = 16;

/// Names in the order in which they came, each once. Contracts see the list of them.
#[derive(Drop)]
pub struct NameSet {
    few: Vec<Name>,
    many: IndexSet<Name>,
}

impl Model for NameSet {
    ghost use Rattle.std.specs.Prelude.{List, ℕ, ◌++◌};

    ghost Value = { List (List ℕ) };

    ghost view = { λ s. s.few.items ++ s.many.keys };
}

fn is_among(names: &[Name], name: &Name) -> bool
    ensures { IsTrue result ↔ In name.now names.now }
{
    for other in names {
        if name.is(other) {
            return true;
        }
    }
    false
}

fn ask_few(names: Vec<Name>, asks: &mut Asks) -> Mem<()>
    ensures { OnOk result (Heard asks.old (map Ask.Class names.items) asks.new) }
{
    for name in names {
        asks.put(Ask::Class(name))?;
    }
    Ok(())
}

fn ask_each(names: &[Name], asks: &mut Asks) -> Mem<()>
    ensures { OnOk result (Heard asks.old (map Ask.Class names.now) asks.new) }
{
    for name in names {
        asks.put(Ask::Class(name.copy()?))?;
    }
    Ok(())
}

impl NameSet {
    /// The set without names. Takes no memory.
    pub fn new(alloc: Global) -> NameSet
        ensures { result ≡ [] }
    {
        NameSet {
            few: Vec::new(alloc),
            many: IndexSet::new(alloc),
        }
    }

    /// How many there are.
    pub fn len(&self) -> usize
        ensures { result ≡ length self.now }
    {
        self.few.len() + self.many.len()
    }

    /// The name at a place.
    pub fn at(&self, place: usize) -> &Name
        requires { place < length self.now }
        ensures { slice_get self.now place ≡ Some result.now }
    {
        let few = self.few.len();
        if place < few {
            &self.few[place]
        } else {
            &self.many.as_slice()[place - few]
        }
    }

    /// Whether a name is there. Takes the same time in a large set as in a small one.
    pub fn has(&self, name: &Name) -> bool
        ensures { IsTrue result ↔ In name.now self.now }
    {
        is_among(&self.few, name) || self.many.contains(name)
    }

    /// Puts a name that is not there yet at the end.
    pub fn put(&mut self, name: Name) -> Mem<()>
        ensures ok { OnOk result ((In name self.old → ⊥) → self.new ≡ self.old ++ name ∷ []) }
        ensures err { OnErr result (self.new ≡ self.old) }
    {
        if self.few.len() < MOST_FEW && self.many.is_empty() {
            self.few.push(name)?;
        } else {
            self.many.insert(name)?;
        }
        Ok(())
    }

    /// Puts the question for the class of each name.
    pub fn ask_classes(self, asks: &mut Asks) -> Mem<()>
        ensures { OnOk result (Heard asks.old (map Ask.Class self) asks.new) }
    {
        let NameSet { few, many } = self;
        ask_few(few, asks)?;
        ask_each(many.as_slice(), asks)?;
        Ok(())
    }
}
