// The plan that a repository's recipe file gives.
ghost use Rattle.std.specs.Prelude.{◌≡◌, ◌≢◌, ◌≤◌, ◌++◌, [], IsTrue, IfOk, IfErr, OnOk, Ok, Err};
ghost use Rattle.std.specs.Option.{option_map};
ghost use Rattle.rw_host.specs.Files.{Rose};
ghost use Rattle.kept_files.specs.Readings.{AreReadings, Reads};
ghost use Rattle.rewrite_cli.specs.Answers.{at_place, recipe_fault_line};
ghost use Rattle.rewrite_cli.specs.Ends.{IsPlanStop, IsRecipeFile, IsSilent, IsToldBy, TellsFault};
ghost use Rattle.rewrite_cli.specs.Journals.{laid};
ghost use Rattle.rewrite_cli.specs.Moments.{Idle};
ghost use Rattle.journal_text.specs.Changes.{Rises, changes_of};
ghost use Rattle.rewrite_cli.specs.Meanings.{AreMeanings, Meanings};
ghost use Rattle.rewrite_cli.specs.Opening.{book_by, plan_in};

use crate::sources::MOST_READ;
use crate::stop::Stop;
use crate::text::put_number;
use kept_files::Readers;
use recipe_yaml::{Plan, RecipeBook, RecipeFault, plan, read_recipes};
use run_journal::Entry;
use rw_base::{Mem, Place, Text};
use rw_host::{Steps, Store};
use sqlite_items::Items;
use standing_files::read_standing;
use std::alloc::Global;
use std::sync::ledger::Ledger;

fn put_place(line: &mut Vec<u8>, place: Option<Place>) -> Mem<()>
    ensures { OnOk result (line.new.items ≡ line.old.items ++ at_place place) }
{
    if let Some(place) = place {
        line.extend_from_slice(b" at ")?;
        put_number(line, place.line as u64)?;
        line.extend_from_slice(b":")?;
        put_number(line, place.column as u64)?;
    }
    Ok(())
}

// The line of a fault.
#[tactic(auto, using(crate::proofs::PlanSteps::lines))]
fn fault_line(alloc: Global, number: u8, place: Option<Place>) -> Mem<Text>
    ensures { IfOk result (λ line. line ≡ recipe_fault_line (RecipeFault.Wrong number place)) }
{
    let mut line = Vec::from_slice(alloc, b"recipe fault ")?;
    put_number(&mut line, number as u64)?;
    put_place(&mut line, place)?;
    line.extend_from_slice(b"\n")?;
    Ok(Text::from_vec(line))
}

// How a fault ends a command.
#[tactic(auto, using(crate::proofs::PlanSteps::stops))]
fn stop_of(alloc: Global, fault: RecipeFault) -> Stop
    ensures stop { IsPlanStop result }
    ensures told { IsToldBy fault result }
    ensures memory { fault ≡ RecipeFault.NoMemory → result ≡ Stop.NoMemory }
    ensures not_read { result ≢ Stop.ReadFault }
{
    match fault {
        RecipeFault::NoMemory => Stop::NoMemory,
        RecipeFault::Wrong { number, place } => match fault_line(alloc, number, place) {
            Ok(line) => Stop::Recipe(line),
            Err(_) => Stop::NoMemory,
        },
    }
}

// The first bytes of the recipe file.
#[tactic(auto, using(crate::proofs::PlanSteps::bytes, crate::proofs::Idling::idling))]
fn read_recipe_file<S: Store>(
    alloc: Global,
    store: &mut S,
    entries: &[Entry],
) -> Result<Option<Vec<u8>>, Stop>
    requires { Rises [] (changes_of entries.now) }
    ensures bytes { IsTrue S.tells_files → IfOk result (λ found.
        IsRecipeFile (laid entries.now (S.files store.old)) (option_map (λ v. v.items) found)) }
    ensures silent { IfErr result IsSilent }
    ensures stop { IfErr result IsPlanStop }
    ensures files { S.files store.new ≡ S.files store.old }
    ensures idle { Idle S.tells_images S.is_unsynced S.moment S.left_since S.image store.old store.new }
    ensures cause { result ≡ Err Stop.ReadFault → Rose (S.read_faults store.old) (S.read_faults store.new) }
    ensures count { S.read_faults store.old ≤ S.read_faults store.new }
    ensures other_count { S.write_faults store.new ≡ S.write_faults store.old }
{
    match read_standing(alloc, store, entries, "rewrite.yml", MOST_READ) {
        Ok(found) => Ok(found),
        Err(fault) => Err(Stop::from(fault)),
    }
}

// The recipes of a recipe file of these bytes, or of none.
#[tactic(auto, using(crate::proofs::PlanSteps::books))]
fn read_book<L: Ledger>(
    alloc: Global,
    readers: &Readers,
    found: Option<Vec<u8>>,
    steps: &mut Steps<L>,
) -> Result<RecipeBook, Stop>
    ensures book { (read : Reads) → AreReadings read →
        IfOk result (λ book. book_by read (option_map (λ v. v.items) found) ≡ Ok book) }
    ensures fault { (read : Reads) → AreReadings read →
        IfErr result (λ stop. TellsFault (book_by read (option_map (λ v. v.items) found)) stop) }
    ensures stop { IfErr result IsPlanStop }
    ensures not_read { result ≢ Err Stop.ReadFault }
{
    match found {
        None => Ok(RecipeBook {
            recipes: Items::new(alloc),
        }),
        Some(bytes) => match read_recipes(alloc, readers, &bytes, steps) {
            Ok(book) => Ok(book),
            Err(fault) => Err(stop_of(alloc, fault)),
        },
    }
}

/// The plan of the recipe of this name.
#[tactic(auto, using(crate::proofs::PlanSteps::plans, crate::proofs::Idling::idling))]
pub fn plan_of<S: Store, L: Ledger>(
    alloc: Global,
    store: &mut S,
    entries: &[Entry],
    readers: &Readers,
    name: &[u8],
    steps: &mut Steps<L>,
) -> Result<Plan, Stop>
    requires { Rises [] (changes_of entries.now) }
    ensures plan { IsTrue S.tells_files → (meanings : Meanings) → AreMeanings meanings →
        IfOk result (λ plan. plan_in meanings (laid entries.now (S.files store.old)) name.now ≡ Ok plan) }
    ensures fault { IsTrue S.tells_files → (meanings : Meanings) → AreMeanings meanings →
        IfErr result (λ stop. TellsFault (plan_in meanings (laid entries.now (S.files store.old)) name.now) stop) }
    ensures stop { IfErr result IsPlanStop }
    ensures files { S.files store.new ≡ S.files store.old }
    ensures idle { Idle S.tells_images S.is_unsynced S.moment S.left_since S.image store.old store.new }
    ensures cause { result ≡ Err Stop.ReadFault → Rose (S.read_faults store.old) (S.read_faults store.new) }
    ensures count { S.read_faults store.old ≤ S.read_faults store.new }
    ensures other_count { S.write_faults store.new ≡ S.write_faults store.old }
{
    let found = read_recipe_file(alloc, store, entries)?;
    let book = read_book(alloc, readers, found, steps)?;
    match plan(alloc, &book, name) {
        Ok(plan) => Ok(plan),
        Err(fault) => Err(stop_of(alloc, fault)),
    }
}
