// A run: cycles until nothing changes.
ghost use Rattle.std.specs.Prelude.{◌≡◌, ◌&&◌, ℕ, [], not, IfOk, Err};
ghost use Rattle.kept_files.specs.Readings.{AreReadings, Reads};
ghost use Rattle.scheduler.specs.Came.{CameRun, Stands};
ghost use Rattle.scheduler.specs.Runs.{end, reached, run, same_files, too_much};

use crate::cycling::cycle;
use crate::event::Event;
use crate::fault::RunFault;
use crate::generating::again;
use crate::same::same_files;
use j_repair::Attributed;
use kept_files::KeptFile;
use recipe_yaml::Plan;
use rw_base::{Mem, Shared};
use rw_host::Steps;
use sqlite_items::Items;
use std::alloc::Global;
use std::sync::ledger::Ledger;

// How a run ended.
#[derive(Clone, Copy, Debug, PartialEq, Eq)]
pub struct Ended {
    pub cycles: u32,
    pub still_changing: bool,
}

// The files of a state, each with one owner more.
fn files_of(alloc: Global, kept: &Attributed) -> Mem<Vec<Shared<KeptFile>>>
    ensures { IfOk result (λ files. files.items ≡ kept.now) }
{
    let files = again(alloc, kept.files())?;
    Ok(files)
}

// Whether a further cycle comes after one that began with these files.
fn goes_on(plan: &Plan, before: &Vec<Shared<KeptFile>>, kept: &Attributed) -> bool
    ensures { result ≡ (plan.now.again && not (same_files before.now.items kept.now)) }
{
    plan.again && !same_files(before.as_slice(), kept.files())
}

#[tactic(auto, using(crate::proofs::RunsOn::runs_by))]
fn run_cycles<L: Ledger>(
    alloc: Global,
    kept: &mut Attributed,
    events: &mut Items<Event>,
    plan: &Plan,
    cycles: u32,
    steps: &mut Steps<L>,
) -> Result<Ended, RunFault>
    ensures { (read : Reads) → AreReadings read
        → CameRun result kept.old events.old (run read plan.now cycles kept.old) kept.new events.new }
{
    for done in 0..cycles {
        let before = files_of(alloc, kept)?;
        cycle(alloc, kept, events, plan, steps)?;
        if !goes_on(plan, &before, kept) {
            return Ok(Ended {
                cycles: done + 1,
                still_changing: false,
            });
        }
    }
    Ok(Ended {
        cycles,
        still_changing: true,
    })
}

/// What a run did.
#[derive(Debug, Drop)]
pub struct Outcome {
    pub events: Items<Event>,
    pub cycles: u32,
    pub still_changing: bool,
}

#[tactic(auto, using(crate::proofs::RunsOn::outcome_by))]
/// Runs a plan on a state, so many cycles at most.
pub fn run_plan<L: Ledger>(
    alloc: Global,
    kept: &mut Attributed,
    plan: &Plan,
    cycles: u32,
    steps: &mut Steps<L>,
) -> Result<Outcome, RunFault>
    // The last state, and all events.
    ensures done { (read : Reads) → AreReadings read
        → IfOk result (λ o. reached kept.old [] (run read plan.now cycles kept.old).stages ≡ end kept.new o.events) }
    ensures cycles { (read : Reads) → AreReadings read
        → IfOk result (λ o. (run read plan.now cycles kept.old).cycles ≡ o.cycles) }
    ensures still { (read : Reads) → AreReadings read
        → IfOk result (λ o. (run read plan.now cycles kept.old).still_changing ≡ o.still_changing) }

    // The state before the first that holds too much, and how much that holds.
    ensures too_much { (read : Reads) → AreReadings read → (bytes : ℕ) → result ≡ Err (RunFault.TooMuch bytes)
        → reached kept.old [] (run read plan.now cycles kept.old).stages ≡ too_much kept.new bytes }

    // One of the states on the way.
    ensures memory { (read : Reads) → AreReadings read → result ≡ Err RunFault.NoMemory
        → Stands kept.new kept.old (run read plan.now cycles kept.old).stages }
{
    let mut events = Items::new(alloc);
    let ended = run_cycles(alloc, kept, &mut events, plan, cycles, steps)?;
    Ok(Outcome {
        events,
        cycles: ended.cycles,
        still_changing: ended.still_changing,
    })
}
