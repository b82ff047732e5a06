// A run of a recipe over a repository.
ghost use Rattle.std.specs.Prelude.{◌≡◌, ◌≢◌, ◌≤◌, ◌<◌, [], false, Err, IsTrue, IfOk, IfErr, OnOk};
ghost use Rattle.rw_host.specs.Crash.{Leaves, Only};
ghost use Rattle.rw_host.specs.Files.{IsInOrder, Rose};
ghost use Rattle.journal_text.specs.Changes.{Rises, changes_of};
ghost use Rattle.run_journal.specs.Standing.{is_open};
ghost use Rattle.kept_files.specs.States.{AreKept};
ghost use Rattle.j_repair.specs.Changes.{paths_of};
ghost use Rattle.command_words.specs.Asking.{asked_told};
ghost use Rattle.rewrite_cli.specs.Answers.{dry_answer, run_answer};
ghost use Rattle.run_history.specs.History.{AreNumbered};
ghost use Rattle.rewrite_cli.specs.Changes.{changes as all_changes};
ghost use Rattle.rewrite_cli.specs.Ends.{IsEnd, IsRunStop, IsRunStopOf, ran_told};
ghost use Rattle.rewrite_cli.specs.Prepared.{IsLeftByPrepared, IsReady, IsRunEnd};
ghost use Rattle.rewrite_cli.specs.Journals.{laid};
ghost use Rattle.rewrite_cli.specs.Meanings.{AreMeanings, Meanings};
ghost use Rattle.rewrite_cli.specs.Moments.{Idle, IsLeftByRun};
ghost use Rattle.rewrite_cli.specs.Running.{ended};
ghost use Rattle.rewrite_cli.specs.Sources.{sources_of};
ghost use Rattle.rewrite_cli.specs.Statuses.{IsAnswered};
ghost use Rattle.rewrite_cli.specs.Stubs.{stubs_of};

use crate::changes::{Change, changes_between};
use crate::commits::commit_changes;
use crate::histories::runs_of;
use crate::limits::Limit;
use crate::opening::opening_events;
use crate::planning::plan_of;
use crate::report::report;
use crate::sources::{Sources, read_sources};
use crate::stop::{Done, Stop};
use command_words::Asked;
use j_repair::{Attributed, attribute_all};
use kept_files::{KeptFile, Readers};
use run_history::RunRow;
use run_journal::{Entry, a_commit_makes_the_repository};
use rw_base::{Mem, Shared};
use rw_host::{Steps, Store};
use scheduler::{Event, RunFault, run_plan};
use sqlite_items::Items;
use std::alloc::Global;
use std::marker::Brand;
use std::sync::ledger::{Blank, Ledger};

/// A run: the files that it began with, those that it ended in, and what it tells, first of those that it began with
/// and of stubs.
#[derive(Drop)]
pub struct Ran {
    pub first: Vec<Shared<KeptFile>>,
    pub kept: Attributed,
    pub refused: Vec<Event>,
    pub events: Items<Event>,
    pub cycles: u32,
    pub still_changing: bool,
}

// How a run that ends early ends a command.
#[tactic(auto, using(crate::proofs::Performing::stops))]
fn stop_of(fault: RunFault) -> Stop
    ensures { IsRunStopOf fault result }
{
    match fault {
        RunFault::TooMuch { .. } => Stop::Limit(Limit::StepBytes),
        RunFault::NoMemory => Stop::NoMemory,
    }
}

// The same files, each with one owner more.
fn copies(alloc: Global, files: &[Shared<KeptFile>]) -> Mem<Vec<Shared<KeptFile>>>
    ensures { IfOk result (λ out. out.items ≡ files.now) }
{
    let mut out = Vec::with_capacity(alloc, files.len())?;
    for file in files {
        out.push(file.copy()?)?;
    }
    Ok(out)
}

// Runs a recipe over these source files, with the recipe file of a store, and writes none. Stubs are only read.
#[tactic(auto, using(crate::proofs::Performing::runs, crate::proofs::Idling::idling))]
fn run_recipe<S: Store, L: Ledger>(
    alloc: Global,
    store: &mut S,
    entries: &[Entry],
    sources: Sources,
    asked: Asked,
    blank: Blank,
) -> Result<Ran, Stop>
    requires rises { Rises [] (changes_of entries.now) }
    requires sources { IsTrue S.tells_files →
        sources.files.items ≡ sources_of (laid entries.now (S.files store.old)) }
    requires stubs { IsTrue S.tells_files →
        sources.stubs.items ≡ stubs_of (laid entries.now (S.files store.old)) }
    requires in_order { IsInOrder (paths_of sources.files.items) }
    requires name { blank.name ≡ L.name }
    requires parts { blank.parts ≡ L.parts }
    requires some_part { 0 < L.parts }
    ensures end { IsTrue S.tells_files → (meanings : Meanings) → AreMeanings meanings →
        IsEnd (ended meanings (laid entries.now (S.files store.old)) (asked_told asked.entry)) result }
    ensures first { IfOk result (λ ran. AreKept (ran_told ran).first) }
    ensures files { S.files store.new ≡ S.files store.old }
    ensures idle { Idle S.tells_images S.is_unsynced S.moment S.left_since S.image store.old store.new }
    ensures cause { result ≡ Err Stop.ReadFault → Rose (S.read_faults store.old) (S.read_faults store.new) }
    ensures stop { IfErr result IsRunStop }
    ensures count { S.read_faults store.old ≤ S.read_faults store.new }
    ensures other_count { S.write_faults store.new ≡ S.write_faults store.old }
{
    let readers = Readers::new(alloc)?;
    let mut steps = Steps::<L>::new(blank);
    let plan = plan_of(alloc, store, entries, &readers, asked.recipe, &mut steps)?;
    let mut kept = attribute_all(alloc, readers, sources.files, &mut steps)?;
    let refused = opening_events(alloc, &kept, sources.stubs, &mut steps)?;
    let first = copies(alloc, kept.files())?;
    match run_plan(alloc, &mut kept, &plan, asked.cycles, &mut steps) {
        Ok(outcome) => Ok(Ran {
            first,
            kept,
            refused,
            events: outcome.events,
            cycles: outcome.cycles,
            still_changing: outcome.still_changing,
        }),
        Err(fault) => Err(stop_of(fault)),
    }
}

/// Tells what a run of the recipe would do, over the files of a store with these entries laid over them.
#[tactic(auto, using(crate::proofs::Answering::recipes, crate::proofs::Idling::idling))]
pub fn dry_run<S: Store>(
    alloc: Global,
    store: &mut S,
    entries: &[Entry],
    asked: Asked,
) -> Result<Done, Stop>
    requires { Rises [] (changes_of entries.now) }
    ensures answer { IsTrue S.tells_files → (meanings : Meanings) → AreMeanings meanings →
        IsAnswered (dry_answer meanings (S.files store.old) (asked_told asked.entry)
        (laid entries.now (S.files store.old))) result (S.files store.new) }
    ensures files { S.files store.new ≡ S.files store.old }
    ensures idle { Idle S.tells_images S.is_unsynced S.moment S.left_since S.image store.old store.new }
    ensures cause { result ≡ Err Stop.ReadFault → Rose (S.read_faults store.old) (S.read_faults store.new) }
    ensures stop { IfErr result IsRunStop }
{
    let sources = read_sources(alloc, store, entries)?;
    let ran = run_recipe::<S, Brand>(alloc, store, entries, sources, asked, Blank::new(1))?;
    let changes = changes_between(alloc, &ran.first, ran.kept.files())?;
    let done = report(alloc, asked, &ran, &changes)?;
    Ok(done)
}

// A run that is still to be committed: the runs before it, what it came to, and what is told of it.
#[derive(Drop)]
struct Prepared {
    runs: Vec<RunRow>,
    ran: Ran,
    changes: Vec<Change>,
    done: Done,
}

// Runs the recipe, and writes nothing.
#[tactic(auto, using(crate::proofs::Answering::preparing, crate::proofs::Idling::idling))]
fn prepare<S: Store>(alloc: Global, store: &mut S, asked: Asked) -> Result<Prepared, Stop>
    ensures ready { IsTrue S.tells_files → (meanings : Meanings) → AreMeanings meanings →
        IfOk result (λ p. IsReady meanings (S.files store.old) (asked_told asked.entry) p) }
    ensures numbered { IfOk result (λ p. AreNumbered 1 p.runs.items) }
    ensures changes { IfOk result (λ p. p.changes.items ≡ all_changes (ran_told p.ran).first (ran_told p.ran).last) }
    ensures first { IfOk result (λ p. AreKept (ran_told p.ran).first) }
    ensures last { IfOk result (λ p. AreKept (ran_told p.ran).last) }
    ensures stopped { IsTrue S.tells_files → (meanings : Meanings) → AreMeanings meanings → IfErr result (λ stop.
        IsAnswered (run_answer meanings (asked_told asked.entry) (S.files store.old)) (Err stop) (S.files store.new)) }
    ensures files { S.files store.new ≡ S.files store.old }
    ensures idle { Idle S.tells_images S.is_unsynced S.moment S.left_since S.image store.old store.new }
    ensures cause { result ≡ Err Stop.ReadFault → Rose (S.read_faults store.old) (S.read_faults store.new) }
    ensures no_write { result ≢ Err Stop.WriteFault }
    ensures count { S.read_faults store.old ≤ S.read_faults store.new }
    ensures other_count { S.write_faults store.new ≡ S.write_faults store.old }
{
    let sources = read_sources(alloc, store, &[])?;
    let runs = runs_of(alloc, store, &[])?;
    let ran = match run_recipe::<S, Brand>(alloc, store, &[], sources, asked, Blank::new(1)) {
        Ok(ran) => ran,
        Err(stop) => return Err(stop),
    };
    let changes = changes_between(alloc, &ran.first, ran.kept.files())?;
    let done = report(alloc, asked, &ran, &changes)?;
    Ok(Prepared {
        runs,
        ran,
        changes,
        done,
    })
}

// Commits a run that was prepared.
#[tactic(auto, using(crate::proofs::Answering::committing))]
fn commit_prepared<S: Store>(
    alloc: Global,
    store: &mut S,
    asked: Asked,
    prepared: Prepared,
) -> Result<Done, Stop>
    requires numbered { AreNumbered 1 prepared.runs.items }
    requires changes { prepared.changes.items ≡ all_changes (ran_told prepared.ran).first (ran_told prepared.ran).last }
    requires first { AreKept (ran_told prepared.ran).first }
    requires last { AreKept (ran_told prepared.ran).last }
    requires one_image { IsTrue S.tells_images → Only (S.files store.old) (S.image store.old) }
    requires closed { IsTrue S.tells_files → is_open (S.files store.old) ≡ false }
    requires synced { S.is_unsynced store.old ≡ false }
    ensures end { IsTrue S.tells_files → IsRunEnd (asked_told asked.entry) prepared (S.files store.old) result
        (S.files store.new) }
    ensures any_moment { IsTrue S.tells_images → Leaves S.moment S.left_since S.image store.old store.new
        (IsLeftByPrepared (asked_told asked.entry) prepared (S.files store.old))
        (IsLeftByPrepared (asked_told asked.entry) prepared (S.files store.old)) }
    ensures one_image { IsTrue S.tells_images → OnOk result (Only (S.files store.new) (S.image store.new)) }
    ensures synced { OnOk result (S.is_unsynced store.new ≡ false) }
    ensures read_fault { result ≡ Err Stop.ReadFault → Rose (S.read_faults store.old) (S.read_faults store.new) }
    ensures write_fault { result ≡ Err Stop.WriteFault → Rose (S.write_faults store.old) (S.write_faults store.new) }
    ensures unchanged { IfErr result (λ stop. stop ≢ Stop.WriteFault → S.files store.new ≡ S.files store.old) }
{
    match commit_changes(
        alloc,
        store,
        &prepared.runs,
        asked,
        &prepared.ran,
        &prepared.changes,
    ) {
        Ok(()) => Ok(prepared.done),
        Err(stop) => Err(stop),
    }
}

/// Runs the recipe, and commits what it changes. The store has been recovered.
#[tactic(auto, using(crate::proofs::Answering::recipes))]
pub fn apply_recipe<S: Store>(alloc: Global, store: &mut S, asked: Asked) -> Result<Done, Stop>
    requires one_image { IsTrue S.tells_images → Only (S.files store.old) (S.image store.old) }
    requires closed { IsTrue S.tells_files → is_open (S.files store.old) ≡ false }
    requires synced { S.is_unsynced store.old ≡ false }
    ensures answer { IsTrue S.tells_files → (meanings : Meanings) → AreMeanings meanings →
        IsAnswered (run_answer meanings (asked_told asked.entry) (S.files store.old)) result (S.files store.new) }
    ensures any_moment { IsTrue S.tells_images → (meanings : Meanings) → AreMeanings meanings →
        Leaves S.moment S.left_since S.image store.old store.new
        (IsLeftByRun meanings (asked_told asked.entry) (S.files store.old))
        (IsLeftByRun meanings (asked_told asked.entry) (S.files store.old)) }
    ensures one_image { IsTrue S.tells_images → OnOk result (Only (S.files store.new) (S.image store.new)) }
    ensures synced { OnOk result (S.is_unsynced store.new ≡ false) }
    ensures read_fault { result ≡ Err Stop.ReadFault → Rose (S.read_faults store.old) (S.read_faults store.new) }
    ensures write_fault { result ≡ Err Stop.WriteFault → Rose (S.write_faults store.old) (S.write_faults store.new) }
    ensures unchanged { IfErr result (λ stop. stop ≢ Stop.WriteFault → S.files store.new ≡ S.files store.old) }
{
    a_commit_makes_the_repository();
    match prepare(alloc, store, asked) {
        Ok(prepared) => commit_prepared(alloc, store, asked, prepared),
        Err(stop) => Err(stop),
    }
}
