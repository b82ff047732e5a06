// One cycle over a state.
ghost use Rattle.std.specs.Prelude.{◌≡◌, ◌∷◌, [], length, IfOk, IfErr};
ghost use Rattle.kept_files.specs.Readings.{AreReadings, Reads};
ghost use Rattle.kept_files.specs.States.{AreKept, State};
ghost use Rattle.scheduler.specs.Came.{Came, phase_of};
ghost use Rattle.scheduler.specs.Runs.{cycle, each_leaf, values_for};

use crate::event::Event;
use crate::fault::{MOST_HELD, RunFault};
use crate::generating::generation;
use crate::scanning::scan_all;
use crate::stepping::{Made, make_step};
use j_repair::Attributed;
use kept_files::{ScanValue, held_bytes};
use recipe_yaml::{Plan, PlannedLeaf};
use rw_host::Steps;
use sqlite_items::Items;
use std::alloc::Global;
use std::sync::ledger::Ledger;

/// The two phases of a cycle.
#[derive(Clone, Copy, Debug, PartialEq, Eq)]
pub enum PhaseKind {
    Generate,
    Edit,
}

// Goes on to what a phase made, where it doesn't hold too much.
#[tactic(auto, using(crate::proofs::Onward::accepted_by))]
fn accept(kept: &mut Attributed, events: &mut Items<Event>, made: Made) -> Result<(), RunFault>
    requires { AreKept made.files.items }
    ensures { Came result kept.old events.old (record { state = made.files.items; events = made.events.items } ∷ [])
        kept.new events.new }
{
    let bytes = held_bytes(&made.files);
    if bytes > MOST_HELD {
        return Err(RunFault::TooMuch { bytes });
    }
    let Made {
        files,
        events: more,
    } = made;
    let rebuilt = kept.rebuilt(Items::from_vec(files))?;
    events.append(Items::from_vec(more))?;
    *kept = rebuilt;
    Ok(())
}

// What a phase makes for a leaf.
fn made_by<L: Ledger>(
    alloc: Global,
    kept: &Attributed,
    plan: &Plan,
    phase: PhaseKind,
    leaf: &PlannedLeaf,
    value: &ScanValue,
    steps: &mut Steps<L>,
) -> Result<Made, RunFault>
    ensures made { (read : Reads) → AreReadings read
        → IfOk result (λ m. phase_of read plan.now phase leaf.now value.now.texts kept.now
        ≡ record { state = m.files.items; events = m.events.items }) }
    ensures kept { IfOk result (λ m. AreKept m.files.items) }
    ensures fault { IfErr result (λ fault. fault ≡ RunFault.NoMemory) }
{
    match phase {
        PhaseKind::Generate => {
            let made = generation(alloc, kept, leaf, value, steps)?;
            Ok(made)
        }
        PhaseKind::Edit => {
            let made = make_step(alloc, kept, plan, leaf, value, steps)?;
            Ok(made)
        }
    }
}

// A phase for one leaf.
#[tactic(auto, using(crate::proofs::Onward::leaf_by))]
fn phase_at<L: Ledger>(
    alloc: Global,
    kept: &mut Attributed,
    events: &mut Items<Event>,
    plan: &Plan,
    phase: PhaseKind,
    leaf: &PlannedLeaf,
    value: &ScanValue,
    steps: &mut Steps<L>,
) -> Result<(), RunFault>
    ensures { (read : Reads) → AreReadings read
        → Came result kept.old events.old (phase_of read plan.now phase leaf.now value.now.texts kept.old ∷ [])
        kept.new events.new }
{
    let made = made_by(alloc, kept, plan, phase, leaf, value, steps)?;
    accept(kept, events, made)?;
    Ok(())
}

// A phase for one leaf after another, each with what its scanner found.
#[tactic(auto, using(crate::proofs::Onward::leaves_by))]
fn each_leaf<L: Ledger>(
    alloc: Global,
    kept: &mut Attributed,
    events: &mut Items<Event>,
    plan: &Plan,
    phase: PhaseKind,
    values: &[ScanValue],
    steps: &mut Steps<L>,
) -> Result<(), RunFault>
    requires { length values.now ≡ length plan.now.leaves }
    ensures { (read : Reads) → AreReadings read → (first : State) → values.now ≡ values_for first plan.now.leaves
        → Came result kept.old events.old
        (each_leaf (phase_of read plan.now phase) first plan.now.leaves kept.old) kept.new events.new }
{
    for (i, leaf) in plan.leaves.as_slice().iter().enumerate() {
        phase_at(alloc, kept, events, plan, phase, leaf, &values[i], steps)?;
    }
    Ok(())
}

/// A cycle: each leaf generates, then each edits, by what their scanners find in the state before.
#[tactic(auto, using(crate::proofs::Onward::cycle_by))]
pub(crate) fn cycle<L: Ledger>(
    alloc: Global,
    kept: &mut Attributed,
    events: &mut Items<Event>,
    plan: &Plan,
    steps: &mut Steps<L>,
) -> Result<(), RunFault>
    ensures { (read : Reads) → AreReadings read
        → Came result kept.old events.old (cycle read plan.now kept.old) kept.new events.new }
{
    let values = scan_all(alloc, plan.leaves.as_slice(), kept)?;
    each_leaf(
        alloc,
        kept,
        events,
        plan,
        PhaseKind::Generate,
        &values,
        steps,
    )?;
    each_leaf(alloc, kept, events, plan, PhaseKind::Edit, &values, steps)?;
    Ok(())
}
