// What is told of the files that a run opens: which of them are refused.
ghost use Rattle.std.specs.Prelude.{◌≡◌, ◌≢◌, ◌≤◌, ◌++◌, Some, length, true, false, IfOk, OnOk};
ghost use Rattle.std.specs.declared.cmp.Ordering.TheVariants.{Less};
ghost use Rattle.std.specs.List.{flat_map};
ghost use Rattle.std.specs.Ordering.{nat_cmp};
ghost use Rattle.std.specs.Cmp.Lexicographic.{slice_cmp};
ghost use Rattle.rw_host.specs.Files.{Files};
ghost use Rattle.kept_files.specs.Readings.{AreReadings, Reads};
ghost use Rattle.scheduler.specs.Runs.{refusal_of};
ghost use Rattle.rewrite_cli.specs.Checking.{refusal_in};
ghost use Rattle.rewrite_cli.specs.Ends.{count_before};
ghost use Rattle.rewrite_cli.specs.Opening.{opening};
ghost use Rattle.rewrite_cli.specs.Running.{event_of, refusals};
ghost use Rattle.rewrite_cli.specs.Stubs.{stub_reading, stubs_of};

use crate::checking::refusal_in;
use crate::stubs::{STUB_NAME, Stub};
use j_repair::Attributed;
use kept_files::{KeptFile, Reading};
use rw_base::{Mem, Shared};
use rw_host::Steps;
use scheduler::Event;
use std::alloc::Global;
use std::cmp::Ordering;
use std::sync::ledger::Ledger;

// Tells of a file, if it is refused.
#[tactic(auto, using(crate::proofs::Weaving::told))]
fn push_file(alloc: Global, events: &mut Vec<Event>, file: &KeptFile) -> Mem<()>
    ensures { OnOk result (events.new.items ≡ events.old.items ++ refusal_of file.now) }
{
    if let Reading::Refused(refused) = &file.reading {
        events.push(Event::Refused {
            path: file.path.copy(alloc)?,
            place: refused.place,
            cause: refused.cause,
        })?;
    }
    Ok(())
}

// Tells of those of these files that are refused.
#[tactic(auto, using(crate::proofs::Weaving::all_told))]
fn push_files(alloc: Global, events: &mut Vec<Event>, files: &[Shared<KeptFile>]) -> Mem<()>
    ensures { OnOk result (events.new.items ≡ events.old.items ++ flat_map refusal_of files.now) }
{
    for file in files {
        push_file(alloc, events, file.get())?;
    }
    Ok(())
}

// Reads a stub, and tells of it, if it is refused.
#[tactic(auto, using(crate::proofs::Weaving::told))]
fn push_stub<L: Ledger>(
    alloc: Global,
    events: &mut Vec<Event>,
    kept: &Attributed,
    stub: Stub,
    steps: &mut Steps<L>,
) -> Mem<()>
    ensures { (read : Reads) → AreReadings read → OnOk result (
        let refusal = refusal_in (stub_reading read (Some stub.bytes)) in
        events.new.items ≡ events.old.items ++ event_of stub.path refusal) }
{
    let Stub { path, bytes } = stub;
    let bytes = Shared::new(alloc, bytes)?;
    let reading = kept.read_file(alloc, STUB_NAME, &bytes, steps)?;
    if let Some(refused) = refusal_in(reading) {
        events.push(Event::Refused {
            path,
            place: refused.place,
            cause: refused.cause,
        })?;
    }
    Ok(())
}

fn is_before(file: &KeptFile, path: &str) -> bool
    ensures before { result ≡ true → slice_cmp nat_cmp file.now.path path.now ≡ Less }
    ensures behind { result ≡ false → slice_cmp nat_cmp file.now.path path.now ≢ Less }
{
    matches!(file.path.as_str().cmp(path), Ordering::Less)
}

// How many of these files, from the first on, stand before a path.
#[tactic(auto, using(crate::proofs::Weaving::counted))]
fn count_before(files: &[Shared<KeptFile>], path: &str) -> usize
    ensures count { result ≡ count_before files.now path.now }
    ensures in_range { result ≤ length files.now }
{
    let mut at = 0;
    while at < files.len() {
        if !is_before(files[at].get(), path) {
            return at;
        }
        at += 1;
    }
    at
}

/// What is told of a repository's files as they were read, and of its stubs, in the order of their paths: of each that
/// is refused. The stubs are read here, one after another, and not kept.
#[tactic(auto, using(crate::proofs::Weaving::woven_all))]
pub fn opening_events<L: Ledger>(
    alloc: Global,
    kept: &Attributed,
    stubs: Vec<Stub>,
    steps: &mut Steps<L>,
) -> Mem<Vec<Event>>
    ensures { (read : Reads) → AreReadings read → (files : Files) → kept.now ≡ opening read files →
        stubs.items ≡ stubs_of files → IfOk result (λ events. events.items ≡ refusals read files) }
{
    let files = kept.files();
    let mut events = Vec::new(alloc);
    let mut from = 0;
    for stub in stubs {
        let to = from + count_before(&files[from..], stub.path.as_str());
        push_files(alloc, &mut events, &files[from..to])?;
        push_stub(alloc, &mut events, kept, stub, steps)?;
        from = to;
    }
    push_files(alloc, &mut events, &files[from..])?;
    Ok(events)
}
