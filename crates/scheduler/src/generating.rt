// The files that a leaf generates.
ghost use Rattle.std.specs.Prelude.{◌≡◌, ◌++◌, IfOk, OnOk};
ghost use Rattle.kept_files.specs.Readings.{AreReadings, Reads};
ghost use Rattle.kept_files.specs.States.{AreKept};
ghost use Rattle.scheduler.specs.Runs.{generation, refusal_of, with_file};

use crate::dispatch::generated;
use crate::event::Event;
use crate::stepping::Made;
use j_repair::Attributed;
use kept_files::{KeptFile, Reading, ScanValue, has_path, put_file};
use recipe_yaml::PlannedLeaf;
use rw_base::{Mem, Shared};
use rw_host::{SourceFile, Steps};
use std::alloc::Global;
use std::sync::ledger::Ledger;

/// The same files, each with one owner more.
pub(crate) fn again(alloc: Global, files: &[Shared<KeptFile>]) -> Mem<Vec<Shared<KeptFile>>>
    ensures { IfOk result (λ out. out.items ≡ files.now) }
{
    let mut out = Vec::with_capacity(alloc, files.len())?;
    for file in files {
        out.push(file.copy()?)?;
    }
    Ok(out)
}

// Tells of a file where it is refused.
fn push_refusal(alloc: Global, events: &mut Vec<Event>, file: &KeptFile) -> Mem<()>
    ensures { OnOk result (events.new.items ≡ events.old.items ++ refusal_of file.now) }
{
    match &file.reading {
        Reading::Refused(refused) => {
            events.push(Event::Refused {
                path: file.path.copy(alloc)?,
                place: refused.place,
                cause: refused.cause,
            })?;
        }
        _ => {}
    }
    Ok(())
}

// Adds a file, where none stands at its path.
#[tactic(auto, using(crate::proofs::Generated::file_added))]
fn with_file<L: Ledger>(
    alloc: Global,
    kept: &Attributed,
    made: &mut Made,
    file: SourceFile,
    steps: &mut Steps<L>,
) -> Mem<()>
    requires { AreKept made.old.files.items }
    ensures made { (read : Reads) → AreReadings read
        → OnOk result (with_file read file (record { state = made.old.files.items; events = made.old.events.items })
        ≡ record { state = made.new.files.items; events = made.new.events.items }) }
    ensures kept { OnOk result (AreKept made.new.files.items) }
{
    if has_path(&made.files, file.path.as_str()) {
        return Ok(());
    }
    let file = kept.file_of(alloc, file, steps)?;
    push_refusal(alloc, &mut made.events, &file)?;
    put_file(&mut made.files, Shared::new(alloc, file)?)?;
    Ok(())
}

/// What the files that a leaf generates make of a state.
#[tactic(auto, using(crate::proofs::Generated::all_added))]
pub(crate) fn generation<L: Ledger>(
    alloc: Global,
    kept: &Attributed,
    leaf: &PlannedLeaf,
    value: &ScanValue,
    steps: &mut Steps<L>,
) -> Mem<Made>
    ensures made { (read : Reads) → AreReadings read
        → IfOk result (λ m. generation read leaf.now value.now.texts kept.now
        ≡ record { state = m.files.items; events = m.events.items }) }
    ensures kept { IfOk result (λ m. AreKept m.files.items) }
{
    let mut made = Made {
        files: again(alloc, kept.files())?,
        events: Vec::new(alloc),
    };
    for file in generated(alloc, &leaf.recipe, value)? {
        with_file(alloc, kept, &mut made, file, steps)?;
    }
    Ok(made)
}
