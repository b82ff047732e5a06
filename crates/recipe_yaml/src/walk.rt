// The walk through the lists of a recipe.
ghost use Rattle.std.specs.Prelude.{◌≡◌, ◌<◌, ◌≤◌, nat_le, ◌&&◌, ◌||◌, ◌-◌, ◌==◌, ◌++◌, ◌∷◌, []};
ghost use Rattle.std.specs.Prelude.{OnOk, length, false, Some, None};
ghost use Rattle.std.specs.List.{list_any};
ghost use Rattle.recipe_yaml.specs.KeyPathTexts.{KeyPathsOf, AreKeyPaths};
ghost use Rattle.recipe_yaml.specs.Leading.{leads, column};
ghost use Rattle.recipe_yaml.specs.Walks.{recipe_fault, leaf_fault, leaf_entry, entry, recipe, each};
ghost use Rattle.recipe_yaml.specs.Walks.{condition, conditions, opened, closed, noted, IsGone, IsListed};

use crate::book::{Written, WrittenEntry};
use crate::fault::{RecipeFault, wrong};
use crate::leading::{place_of, scans};
use crate::leaf::leaf_recipe;
use crate::plans::{Condition, PlannedLeaf};
use rw_base::{Mem, NoMemory, Text};
use sqlite_items::Items;
use std::alloc::Global;
use std::mem;

/// How many entries a walk may meet.
pub const MOST_ENTRIES: u32 = 1000;

/// How deep entries may lie in one another: no walk comes so far.
pub const LEVELS: u32 = MOST_ENTRIES + 1;

/// How far a walk came.
#[derive(Debug, Drop)]
pub struct Walked {
    pub met: u32,
    pub conditions: Items<Condition>,
    pub again: bool,
    pub leaves: Items<PlannedLeaf>,
}

#[tactic(auto, using(crate::proofs::Gone::any_by))]
fn is_around(around: &[usize], number: usize) -> bool
    ensures { result ≡ list_any (λ a. a == number) around.now }
{
    for outer in around {
        if *outer == number {
            return true;
        }
    }
    false
}

#[tactic(auto, unfolding(crate::specs::Leading::leads))]
fn leads(book: &[Written], leading: &[bool], number: usize) -> bool
    requires { leading.now ≡ column book.now (length book.now) }
    ensures { result ≡ leads book.now number }
{
    let _ = book;
    match leading.get(number) {
        Some(leads) => *leads,
        None => false,
    }
}

// So many entries were met that no more may be.
fn is_full(met: u32) -> bool
    ensures { result ≡ nat_le MOST_ENTRIES met }
{
    met >= MOST_ENTRIES
}

// The fault of an entry that names a recipe of the book, where so many entries were met before it.
#[tactic(auto, unfolding(crate::specs::Walks::recipe_fault))]
fn recipe_fault(
    book: &[Written],
    leading: &[bool],
    around: &[usize],
    is_condition: bool,
    number: usize,
    listed: &WrittenEntry,
    met: u32,
) -> Option<RecipeFault>
    requires there { number < length book.now }
    requires leading { leading.now ≡ column book.now (length book.now) }
    ensures fault { result ≡ recipe_fault book.now around.now is_condition number listed.now met }
    ensures few { result ≡ None → met < MOST_ENTRIES }
{
    if let Some(option) = listed.options.get(0) {
        return Some(wrong(6, option.key_place));
    }
    if is_around(around, number) {
        return Some(wrong(8, listed.place));
    }
    if is_condition && leads(book, leading, number) {
        return Some(wrong(9, listed.place));
    }
    if is_full(met) {
        return Some(wrong(10, listed.place));
    }
    None
}

// The fault of an entry that names a leaf recipe, where so many entries were met before it.
#[tactic(auto, unfolding(crate::specs::Walks::leaf_fault))]
fn leaf_fault(is_condition: bool, listed: &WrittenEntry, met: u32) -> Option<RecipeFault>
    ensures fault { result ≡ leaf_fault is_condition listed.now met }
    ensures few { result ≡ None → met < MOST_ENTRIES }
{
    if is_condition && scans(listed.name.as_slice()) {
        return Some(wrong(9, listed.place));
    }
    if is_full(met) {
        return Some(wrong(10, listed.place));
    }
    None
}

// An entry that names no recipe of the book.
#[tactic(auto, using(crate::proofs::Gone::leaf_entries))]
fn leaf_entry(
    alloc: Global,
    is_condition: bool,
    above: &[u32],
    listed: &WrittenEntry,
    walked: &mut Walked,
) -> Result<(), RecipeFault>
    requires { walked.old.met ≤ MOST_ENTRIES }
    ensures gone { (paths : KeyPathsOf) → AreKeyPaths paths →
        IsGone (leaf_entry paths is_condition above.now listed.now walked.old) result walked.new }
    ensures few { OnOk result (walked.new.met ≤ MOST_ENTRIES) }
{
    let recipe = leaf_recipe(alloc, listed)?;
    if let Some(fault) = leaf_fault(is_condition, listed, walked.met) {
        return Err(fault);
    }
    let leaf = PlannedLeaf {
        recipe,
        name: Text::from_slice(alloc, listed.name.as_slice())?,
        conditions: Items::from_slice(alloc, above)?,
    };
    walked.leaves.push(leaf)?;
    walked.met += 1;
    Ok(())
}

// Begins the leaves of a precondition, and gives those so far.
fn open(alloc: Global, walked: &mut Walked) -> Items<PlannedLeaf>
    ensures opened { walked.new ≡ opened walked.old }
    ensures outer { result ≡ walked.old.leaves }
{
    mem::replace(&mut walked.leaves, Items::new(alloc))
}

// Ends them.
fn close(walked: &mut Walked, outer: Items<PlannedLeaf>) -> Mem<()>
    ensures { OnOk result (walked.new ≡ closed outer walked.old) }
{
    let leaves = mem::replace(&mut walked.leaves, outer);
    walked.conditions.push(Condition { leaves })?;
    Ok(())
}

fn either(a: bool, b: bool) -> bool
    ensures { result ≡ (a || b) }
{
    a || b
}

fn note(walked: &mut Walked, again: bool)
    ensures { walked.new ≡ noted again walked.old }
{
    walked.again = either(walked.again, again);
}

// The position of the last precondition, behind others.
fn push_position(positions: &mut Vec<u32>, walked: &Walked) -> Mem<()>
    ensures { OnOk result (positions.new.items ≡ positions.old.items ++ (length walked.now.conditions - 1) ∷ []) }
{
    let Ok(count) = u32::try_from(walked.conditions.len()) else {
        return Err(NoMemory);
    };
    positions.push(count.saturating_sub(1))?;
    Ok(())
}

// An entry, where these recipes are around it.
#[cycle(walk)]
#[tactic(auto, using(crate::proofs::Gone::walks))]
fn walk_entry(
    alloc: Global,
    book: &[Written],
    leading: &[bool],
    levels: u32,
    around: &[usize],
    is_condition: bool,
    above: &[u32],
    listed: &WrittenEntry,
    walked: &mut Walked,
) -> Result<(), RecipeFault>
    requires few { walked.old.met ≤ MOST_ENTRIES }
    requires leading { leading.now ≡ column book.now (length book.now) }
    ensures gone { (paths : KeyPathsOf) → AreKeyPaths paths →
        IsGone (entry book.now paths levels around.now is_condition above.now listed.now walked.old) result walked.new }
    ensures few { OnOk result (walked.new.met ≤ MOST_ENTRIES) }
{
    if levels == 0 {
        return Err(wrong(10, listed.place));
    }
    let Some(number) = place_of(book, listed.name.as_slice()) else {
        return leaf_entry(alloc, is_condition, above, listed, walked);
    };
    if let Some(fault) = recipe_fault(
        book,
        leading,
        around,
        is_condition,
        number,
        listed,
        walked.met,
    ) {
        return Err(fault);
    }
    walked.met += 1;
    let mut inside = Vec::from_slice(alloc, around)?;
    inside.push(number)?;
    walk_recipe(
        alloc,
        book,
        leading,
        levels - 1,
        &inside,
        above,
        &book[number],
        walked,
    )
}

// A recipe: its preconditions, then its list.
#[cycle(walk)]
#[tactic(auto, using(crate::proofs::Gone::walks))]
pub(crate) fn walk_recipe(
    alloc: Global,
    book: &[Written],
    leading: &[bool],
    levels: u32,
    around: &[usize],
    above: &[u32],
    written: &Written,
    walked: &mut Walked,
) -> Result<(), RecipeFault>
    requires few { walked.old.met ≤ MOST_ENTRIES }
    requires leading { leading.now ≡ column book.now (length book.now) }
    ensures gone { (paths : KeyPathsOf) → AreKeyPaths paths →
        IsGone (recipe (entry book.now paths levels around.now) above.now written.now walked.old) result walked.new }
    ensures few { OnOk result (walked.new.met ≤ MOST_ENTRIES) }
{
    note(walked, written.again);
    let conditions = written.conditions.as_slice();
    let positions = walk_conditions(
        alloc, book, leading, levels, around, above, conditions, walked,
    )?;
    let list = written.list.as_slice();
    walk_list(
        alloc, book, leading, levels, around, &positions, list, walked,
    )?;
    Ok(())
}

// Preconditions one after another, and the positions of those around and of these.
#[cycle(walk)]
#[tactic(auto, using(crate::proofs::Gone::walks))]
fn walk_conditions(
    alloc: Global,
    book: &[Written],
    leading: &[bool],
    levels: u32,
    around: &[usize],
    above: &[u32],
    entries: &[WrittenEntry],
    walked: &mut Walked,
) -> Result<Vec<u32>, RecipeFault>
    requires few { walked.old.met ≤ MOST_ENTRIES }
    requires leading { leading.now ≡ column book.now (length book.now) }
    ensures gone { (paths : KeyPathsOf) → AreKeyPaths paths → IsListed
        (conditions (entry book.now paths levels around.now) above.now entries.now walked.old) result walked.new }
    ensures few { OnOk result (walked.new.met ≤ MOST_ENTRIES) }
{
    let mut positions = Vec::from_slice(alloc, above)?;
    for listed in entries {
        walk_condition(alloc, book, leading, levels, around, listed, walked)?;
        push_position(&mut positions, walked)?;
    }
    Ok(positions)
}

// A precondition.
#[cycle(walk)]
#[tactic(auto, using(crate::proofs::Gone::walks))]
fn walk_condition(
    alloc: Global,
    book: &[Written],
    leading: &[bool],
    levels: u32,
    around: &[usize],
    listed: &WrittenEntry,
    walked: &mut Walked,
) -> Result<(), RecipeFault>
    requires few { walked.old.met ≤ MOST_ENTRIES }
    requires leading { leading.now ≡ column book.now (length book.now) }
    ensures gone { (paths : KeyPathsOf) → AreKeyPaths paths →
        IsGone (condition (entry book.now paths levels around.now) listed.now walked.old) result walked.new }
    ensures few { OnOk result (walked.new.met ≤ MOST_ENTRIES) }
{
    let outer = open(alloc, walked);
    walk_entry(
        alloc,
        book,
        leading,
        levels,
        around,
        true,
        &[],
        listed,
        walked,
    )?;
    close(walked, outer)?;
    Ok(())
}

// The list of a recipe, under the preconditions at these positions.
#[cycle(walk)]
#[tactic(auto, using(crate::proofs::Gone::walks))]
fn walk_list(
    alloc: Global,
    book: &[Written],
    leading: &[bool],
    levels: u32,
    around: &[usize],
    above: &[u32],
    entries: &[WrittenEntry],
    walked: &mut Walked,
) -> Result<(), RecipeFault>
    requires few { walked.old.met ≤ MOST_ENTRIES }
    requires leading { leading.now ≡ column book.now (length book.now) }
    ensures gone { (paths : KeyPathsOf) → AreKeyPaths paths → IsGone
        (each (entry book.now paths levels around.now false above.now) entries.now walked.old) result walked.new }
    ensures few { OnOk result (walked.new.met ≤ MOST_ENTRIES) }
{
    for listed in entries {
        walk_entry(
            alloc, book, leading, levels, around, false, above, listed, walked,
        )?;
    }
    Ok(())
}
