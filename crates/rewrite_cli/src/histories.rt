// The history of the runs of a repository.
ghost use Rattle.std.specs.Prelude.{◌≡◌, ◌≢◌, ◌≤◌, ◌++◌, [], Err, IsTrue, IfOk, IfErr, OnOk, unwrap_or};
ghost use Rattle.std.specs.Option.{option_map};
ghost use Rattle.rw_host.specs.Files.{Rose};
ghost use Rattle.journal_text.specs.Changes.{Rises, changes_of};
ghost use Rattle.run_history.specs.declared.row.RunRow.{RunRow};
ghost use Rattle.run_history.specs.History.{AreNumbered};
ghost use Rattle.rewrite_cli.specs.Answers.{history_answer};
ghost use Rattle.hex.specs.Hex.{encode_lower};
ghost use Rattle.rewrite_cli.specs.Ends.{IsFault, IsHistoryEnd, IsStopOfHistory};
ghost use Rattle.rewrite_cli.specs.Histories.{count_text, history_bytes, history_path, run_line, run_lines};
ghost use Rattle.rewrite_cli.specs.Journals.{laid};
ghost use Rattle.rewrite_cli.specs.Meanings.{AreMeanings, Meanings};
ghost use Rattle.rewrite_cli.specs.Moments.{Idle};
ghost use Rattle.rewrite_cli.specs.Statuses.{IsAnswered};

use crate::stop::{Done, Stop, damaged};
use crate::text::put_number;
use run_history::{HistoryFault, RunRow, read_history};
use run_journal::Entry;
use rw_base::Mem;
use rw_host::{PathText, Store};
use standing_files::read_standing;
use std::alloc::Global;

/// The path of the history.
pub const HISTORY: &str = ".rewrite/history.csv";

/// One byte more than a history may have, so that one that is too large is seen to be.
pub const MOST_HISTORY: u32 = 1_073_741_825;

#[tactic(auto, unfolding(crate::specs::Histories::history_path))]
pub fn history_path(alloc: Global) -> Mem<PathText>
    ensures { IfOk result (λ path. path ≡ history_path) }
{
    Ok(PathText::new(alloc, HISTORY)?.unwrap())
}

// The bytes that were found, or none.
fn found_bytes(alloc: Global, found: Option<Vec<u8>>) -> Vec<u8>
    ensures { result.items ≡ unwrap_or (option_map (λ bytes. bytes.items) found) [] }
{
    match found {
        Some(bytes) => bytes,
        None => Vec::new(alloc),
    }
}

// What is read of the history.
#[tactic(auto, using(crate::proofs::HistorySteps::read, crate::proofs::Idling::idling))]
fn read_file<S: Store>(alloc: Global, store: &mut S, entries: &[Entry]) -> Result<Vec<u8>, Stop>
    requires { Rises [] (changes_of entries.now) }
    ensures bytes { IsTrue S.tells_files →
        IfOk result (λ bytes. bytes.items ≡ history_bytes (laid entries.now (S.files store.old))) }
    ensures stop { IfErr result IsFault }
    ensures files { S.files store.new ≡ S.files store.old }
    ensures idle { Idle S.tells_images S.is_unsynced S.moment S.left_since S.image store.old store.new }
    ensures cause { result ≡ Err Stop.ReadFault → Rose (S.read_faults store.old) (S.read_faults store.new) }
    ensures no_write { result ≢ Err Stop.WriteFault }
    ensures count { S.read_faults store.old ≤ S.read_faults store.new }
    ensures other_count { S.write_faults store.new ≡ S.write_faults store.old }
{
    match read_standing(alloc, store, entries, HISTORY, MOST_HISTORY) {
        Ok(found) => Ok(found_bytes(alloc, found)),
        Err(fault) => Err(Stop::from(fault)),
    }
}

// How a fault of the history ends a command.
#[tactic(auto, using(crate::proofs::HistorySteps::stops))]
fn stop_of(alloc: Global, fault: HistoryFault) -> Stop
    ensures { IsStopOfHistory fault result }
{
    match fault {
        HistoryFault::At(at) => damaged(alloc, HISTORY, at),
        HistoryFault::NoMemory => Stop::NoMemory,
    }
}

// The runs that a history of these bytes tells of.
#[tactic(auto, using(crate::proofs::HistorySteps::ends))]
fn runs_in(alloc: Global, bytes: &[u8]) -> Result<Vec<RunRow>, Stop>
    ensures end { (meanings : Meanings) → AreMeanings meanings →
        IsHistoryEnd (meanings.history bytes.now) result }
    ensures numbered { IfOk result (λ runs. AreNumbered 1 runs.items) }
    ensures no_read { result ≢ Err Stop.ReadFault }
    ensures no_write { result ≢ Err Stop.WriteFault }
{
    match read_history(alloc, bytes) {
        Ok(runs) => Ok(runs),
        Err(fault) => Err(stop_of(alloc, fault)),
    }
}

/// The runs of the history, over the files of a store with these entries laid over them.
#[tactic(auto, using(crate::proofs::HistorySteps::ends, crate::proofs::Idling::idling))]
pub fn runs_of<S: Store>(
    alloc: Global,
    store: &mut S,
    entries: &[Entry],
) -> Result<Vec<RunRow>, Stop>
    requires { Rises [] (changes_of entries.now) }
    ensures end { IsTrue S.tells_files → (meanings : Meanings) → AreMeanings meanings →
        IsHistoryEnd (meanings.history (history_bytes (laid entries.now (S.files store.old)))) result }
    ensures numbered { IfOk result (λ runs. AreNumbered 1 runs.items) }
    ensures files { S.files store.new ≡ S.files store.old }
    ensures idle { Idle S.tells_images S.is_unsynced S.moment S.left_since S.image store.old store.new }
    ensures cause { result ≡ Err Stop.ReadFault → Rose (S.read_faults store.old) (S.read_faults store.new) }
    ensures no_write { result ≢ Err Stop.WriteFault }
    ensures count { S.read_faults store.old ≤ S.read_faults store.new }
    ensures other_count { S.write_faults store.new ≡ S.write_faults store.old }
{
    let bytes = read_file(alloc, store, entries)?;
    match runs_in(alloc, &bytes) {
        Ok(runs) => Ok(runs),
        Err(stop) => Err(stop),
    }
}

fn put_digest(alloc: Global, text: &mut Vec<u8>, digest: &[u8; 32]) -> Mem<()>
    ensures { OnOk result (text.new.items ≡ text.old.items ++ encode_lower digest.now) }
{
    let digits = hex::encode(alloc, digest.as_slice())?;
    text.extend_from_slice(digits.as_bytes())?;
    Ok(())
}

fn put_count(text: &mut Vec<u8>, name: &[u8], count: u32) -> Mem<()>
    ensures { OnOk result (text.new.items ≡ text.old.items ++ count_text name.now count) }
{
    text.extend_from_slice(name)?;
    put_number(text, count as u64)
}

#[tactic(auto, using(crate::proofs::HistorySteps::lines))]
fn put_run(alloc: Global, text: &mut Vec<u8>, run: &RunRow) -> Mem<()>
    ensures { OnOk result (text.new.items ≡ text.old.items ++ run_line run.now) }
{
    put_number(text, run.run as u64)?;
    text.extend_from_slice(b" ")?;
    text.extend_from_slice(run.recipe.as_slice())?;
    put_count(text, b" cycles ", run.cycles)?;
    put_count(text, b" changed ", run.changed)?;
    put_count(text, b" created ", run.created)?;
    put_count(text, b" removed ", run.removed)?;
    text.extend_from_slice(b" ")?;
    put_digest(alloc, text, &run.digest)?;
    text.extend_from_slice(b"\n")?;
    Ok(())
}

#[tactic(auto, using(crate::proofs::HistorySteps::listed))]
fn put_runs(alloc: Global, text: &mut Vec<u8>, runs: &[RunRow]) -> Mem<()>
    ensures { OnOk result (text.new.items ≡ text.old.items ++ run_lines runs.now) }
{
    for run in runs {
        put_run(alloc, text, run)?;
    }
    Ok(())
}

/// Tells of each run of the history.
#[tactic(auto, using(crate::proofs::HistorySteps::told, crate::proofs::Idling::idling))]
pub fn tell_history<S: Store>(alloc: Global, store: &mut S, entries: &[Entry]) -> Result<Done, Stop>
    requires { Rises [] (changes_of entries.now) }
    ensures answer { IsTrue S.tells_files → (meanings : Meanings) → AreMeanings meanings →
        IsAnswered (history_answer meanings (S.files store.old) (laid entries.now (S.files store.old))) result
        (S.files store.new) }
    ensures files { S.files store.new ≡ S.files store.old }
    ensures idle { Idle S.tells_images S.is_unsynced S.moment S.left_since S.image store.old store.new }
    ensures cause { result ≡ Err Stop.ReadFault → Rose (S.read_faults store.old) (S.read_faults store.new) }
    ensures no_write { result ≢ Err Stop.WriteFault }
{
    let runs = runs_of(alloc, store, entries)?;
    let mut text = Vec::new(alloc);
    put_runs(alloc, &mut text, &runs)?;
    Ok(Done {
        text,
        tells_of_files: false,
    })
}
