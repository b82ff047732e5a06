// What scanners find in a state.
ghost use Rattle.std.specs.Prelude.{◌≡◌, length, IfOk};
ghost use Rattle.scheduler.specs.Runs.{scanned, values_for};

use crate::dispatch::scan;
use j_repair::Attributed;
use kept_files::{KeptFiles, ScanValue};
use recipe_yaml::{LeafRecipe, PlannedLeaf};
use rw_base::{Mem, NoMemory};
use sqlite_items::Items;
use std::alloc::Global;

#[tactic(auto, using(crate::proofs::Scans::scans))]
fn scanned(alloc: Global, leaf: &LeafRecipe, kept: &Attributed) -> Mem<ScanValue>
    ensures { IfOk result (λ v. v.texts ≡ scanned leaf.now kept.now) }
{
    let Ok(count) = u32::try_from(kept.file_count()) else {
        return Err(NoMemory);
    };
    let mut value = ScanValue {
        texts: Items::new(alloc),
    };
    for file in 0..count {
        scan(leaf, kept, file, &mut value);
    }
    Ok(value)
}

/// What the scanner of each leaf finds in a state.
#[tactic(auto, using(crate::proofs::Scans::all_scans))]
pub(crate) fn scan_all(
    alloc: Global,
    leaves: &[PlannedLeaf],
    kept: &Attributed,
) -> Mem<Vec<ScanValue>>
    ensures values { IfOk result (λ vs. vs.items ≡ values_for kept.now leaves.now) }
    ensures count { IfOk result (λ vs. length vs.items ≡ length leaves.now) }
{
    let mut values = Vec::with_capacity(alloc, leaves.len())?;
    for leaf in leaves {
        values.push(scanned(alloc, &leaf.recipe, kept)?)?;
    }
    Ok(values)
}
