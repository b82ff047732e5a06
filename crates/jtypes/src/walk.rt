// The walk over the supertypes of a class.
ghost use Rattle.std.specs.Prelude.{◌≡◌, ℕ, ◌≤◌, ◌↔◌, List, length, IsTrue, IfOk, OnOk, map};
ghost use Rattle.dialogue.specs.Dialogue.{In};
ghost use Rattle.dialogue.specs.Told.{Told, Heard};
ghost use Rattle.jtypes.specs.Subtype.{Reaches, class_subtype, longest_row, object_name};
ghost use Rattle.jtypes.specs.Grown.{Grown, Expanded, IsOnce};

use crate::ask::Ask;
use crate::asking::Asks;
use crate::classes::Classes;
use crate::name::Name;
use crate::name_set::NameSet;
use rw_base::Mem;
use std::alloc::Global;

/// Puts those names that are not there yet.
fn add_new(seen: &mut NameSet, names: &[Name]) -> Mem<()>
    ensures { OnOk result (Grown names.now seen.old seen.new) }
{
    for name in names {
        if !seen.has(name) {
            seen.put(name.copy()?)?;
        }
    }
    Ok(())
}

/// Puts the supertypes of the classes from one place to before another.
fn expand<C: Classes>(seen: &mut NameSet, from: usize, past: usize, c: &C) -> Mem<()>
    requires { past ≤ length seen.old }
    ensures { OnOk result (Expanded (C.world c.now) from past seen.old seen.new) }
{
    for i in from..past {
        if let Some(header) = c.class(seen.at(i)) {
            add_new(seen, header.supertypes.as_slice())?;
        }
    }
    Ok(())
}

/// The classes reached by at most so many supertypes in a row, each once. A class is looked up
/// once at most.
fn reach<C: Classes>(alloc: Global, name: &Name, most: u32, c: &C) -> Mem<NameSet>
    ensures reached { IfOk result (λ names. (b : List ℕ) → In b names ↔ Reaches (C.world c.now) most name.now b) }
    ensures once { IfOk result IsOnce }
{
    let mut seen = NameSet::new(alloc);
    seen.put(name.copy()?)?;
    let mut from = 0;
    for _level in 0..most {
        let past = seen.len();
        expand(&mut seen, from, past, c)?;
        from = past;
    }
    Ok(seen)
}

/// How many supertypes in a row count.
fn longest_row() -> u32
    ensures { result ≡ longest_row }
{
    64
}

#[tactic(auto, unfolding(crate::specs::Subtype::object_name))]
pub(crate) fn is_object(name: &Name) -> bool
    ensures { IsTrue result ↔ (name.now ≡ object_name) }
{
    name.reads(b"java.lang.Object")
}

/// Whether a class is a subtype of another (JLS 4.10.2).
pub(crate) fn is_class_subtype<C: Classes>(
    alloc: Global,
    a: &Name,
    b: &Name,
    c: &C,
    asks: &mut Asks,
) -> Mem<bool>
    ensures { IfOk result (λ r. Told (class_subtype a.now b.now) (C.world c.now) asks.old asks.new r) }
{
    if a.is(b) {
        return Ok(true);
    }
    if is_object(b) {
        return Ok(true);
    }
    let names = reach(alloc, a, longest_row(), c)?;
    let found = names.has(b);
    names.ask_classes(asks)?;
    Ok(found)
}
