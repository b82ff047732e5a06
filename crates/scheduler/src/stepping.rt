// One edit step over a state.
ghost use Rattle.std.specs.Prelude.{◌≡◌, ◌<◌, ◌≤◌, ℕ, length, not, IfOk, OnOk, OnErr, Err};
ghost use Rattle.kept_files.specs.Readings.{AreReadings, Reads};
ghost use Rattle.kept_files.specs.States.{AreKept, held_bytes};
ghost use Rattle.scheduler.specs.Fates.{fates_from};
ghost use Rattle.scheduler.specs.Runs.{edit_step, same_files};
ghost use Rattle.scheduler.specs.Steps.{AreFatesKept, IsOver, leaf_at, step_fates};

use crate::decide::fate_at;
use crate::event::Event;
use crate::fate::Fate;
use crate::fault::{MOST_HELD, RunFault};
use crate::next::{events_of, next};
use crate::same::same_files;
use crate::settle::settle;
use j_repair::Attributed;
use kept_files::{KeptFile, KeptFiles, ScanValue, held_bytes};
use recipe_yaml::{Plan, PlannedLeaf};
use rw_base::{Mem, NoMemory, Shared};
use rw_host::Steps;
use sqlite_items::Items;
use std::alloc::Global;
use std::sync::ledger::Ledger;

/// What a step did.
#[derive(Debug, Drop)]
pub struct StepReport {
    pub events: Items<Event>,
    /// Whether some path or byte is another one now.
    pub changed: bool,
}

// What becomes of each file, before it is known whose new path is free.
#[tactic(auto, using(crate::proofs::Beside::fates_by))]
fn fates<L: Ledger>(
    alloc: Global,
    kept: &Attributed,
    plan: &Plan,
    leaf: &PlannedLeaf,
    value: &ScanValue,
    steps: &mut Steps<L>,
) -> Mem<Vec<Fate>>
    ensures fates { (read : Reads) → AreReadings read
        → IfOk result (λ ds. ds.items ≡ fates_from read plan.now leaf.now value.now.texts kept.now 0 kept.now) }
    ensures count { IfOk result (λ ds. length ds.items ≡ length kept.now) }
    ensures kept { IfOk result (λ ds. AreFatesKept ds.items) }
{
    let Ok(count) = u32::try_from(kept.file_count()) else {
        return Err(NoMemory);
    };
    let mut all = Vec::with_capacity(alloc, count as usize)?;
    for file in 0..count {
        all.push(fate_at(alloc, kept, plan, leaf, value, file, steps)?)?;
    }
    Ok(all)
}

// What becomes of each file at a step.
#[tactic(auto, using(crate::proofs::Whole::settled_fates))]
fn step_fates<L: Ledger>(
    alloc: Global,
    kept: &Attributed,
    plan: &Plan,
    leaf: &PlannedLeaf,
    value: &ScanValue,
    steps: &mut Steps<L>,
) -> Mem<Vec<Fate>>
    ensures fates { (read : Reads) → AreReadings read
        → IfOk result (λ ds. ds.items ≡ step_fates read plan.now leaf.now value.now.texts kept.now) }
    ensures count { IfOk result (λ ds. length ds.items ≡ length kept.now) }
    ensures kept { IfOk result (λ ds. AreFatesKept ds.items) }
{
    let fates = fates(alloc, kept, plan, leaf, value, steps)?;
    let settled = settle(alloc, kept.files(), &fates)?;
    Ok(settled)
}

/// The files that a phase makes, and its events.
#[derive(Drop)]
pub(crate) struct Made {
    pub(crate) files: Vec<Shared<KeptFile>>,
    pub(crate) events: Vec<Event>,
}

/// What an edit step makes.
#[tactic(auto, using(crate::proofs::Whole::stepped_by))]
pub(crate) fn make_step<L: Ledger>(
    alloc: Global,
    kept: &Attributed,
    plan: &Plan,
    leaf: &PlannedLeaf,
    value: &ScanValue,
    steps: &mut Steps<L>,
) -> Mem<Made>
    ensures made { (read : Reads) → AreReadings read
        → IfOk result (λ m. edit_step read plan.now leaf.now value.now.texts kept.now
        ≡ record { state = m.files.items; events = m.events.items }) }
    ensures kept { IfOk result (λ m. AreKept m.files.items) }
{
    let fates = step_fates(alloc, kept, plan, leaf, value, steps)?;
    let files = next(alloc, kept.files(), &fates)?;
    let events = events_of(alloc, leaf.name.as_slice(), kept.files(), &fates)?;
    Ok(Made { files, events })
}

#[tactic(auto, using(crate::proofs::Whole::leaf_is))]
fn leaf_of(plan: &Plan, leaf: u32) -> &PlannedLeaf
    requires { leaf < length plan.now.leaves }
    ensures { result.now ≡ leaf_at plan.now leaf }
{
    &plan.leaves.as_slice()[leaf as usize]
}

/// One edit step: each file on which the leaf runs becomes what its edits make of it, all seen from the state before
/// the step.
#[tactic(auto, using(crate::proofs::Whole::over))]
pub fn step<L: Ledger>(
    alloc: Global,
    kept: &mut Attributed,
    plan: &Plan,
    leaf: u32,
    value: &ScanValue,
    steps: &mut Steps<L>,
) -> Result<StepReport, RunFault>
    requires { leaf < length plan.now.leaves }

    // The state after the step, and its events.
    ensures made { (read : Reads) → AreReadings read
        → IfOk result (λ report. edit_step read plan.now (leaf_at plan.now leaf) value.now.texts kept.old
        ≡ record { state = kept.new; events = report.events }) }
    ensures changed { IfOk result (λ report. report.changed ≡ not (same_files kept.old kept.new)) }
    ensures little { OnOk result (held_bytes kept.new ≤ MOST_HELD) }

    // It would hold too much, and so much.
    ensures too_much { (read : Reads) → AreReadings read → (bytes : ℕ) → result ≡ Err (RunFault.TooMuch bytes)
        → IsOver (edit_step read plan.now (leaf_at plan.now leaf) value.now.texts kept.old).state bytes }
    ensures unchanged { OnErr result (kept.new ≡ kept.old) }
{
    let made = make_step(alloc, kept, plan, leaf_of(plan, leaf), value, steps)?;
    let bytes = held_bytes(&made.files);
    if bytes > MOST_HELD {
        return Err(RunFault::TooMuch { bytes });
    }
    let changed = !same_files(kept.files(), &made.files);
    let Made { files, events } = made;
    *kept = kept.rebuilt(Items::from_vec(files))?;
    Ok(StepReport {
        events: Items::from_vec(events),
        changed,
    })
}
