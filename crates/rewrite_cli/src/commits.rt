// What a run commits.
ghost use Rattle.std.specs.Prelude.{◌≡◌, ◌≢◌, ◌≤◌, ◌<◌, ◌+◌, [], length, true, false, Err};
ghost use Rattle.std.specs.Prelude.{IsTrue, IfOk, IfErr, OnOk};
ghost use Rattle.rw_host.specs.Crash.{Leaves, Only};
ghost use Rattle.rw_host.specs.Files.{Rose};
ghost use Rattle.journal_text.specs.Changes.{AllFree, ArePaths, Rises, changes_of};
ghost use Rattle.journal_text.specs.Text.{journal_text};
ghost use Rattle.run_journal.specs.Standing.{OldOrNew, committed, is_open};
ghost use Rattle.run_history.specs.History.{AreNumbered};
ghost use Rattle.kept_files.specs.States.{AreKept};
ghost use Rattle.command_words.specs.Asking.{asked_told};
ghost use Rattle.rewrite_cli.specs.Answers.{row_of, run_batch};
ghost use Rattle.rewrite_cli.specs.Changes.{batch_of, changes as all_changes};
ghost use Rattle.rewrite_cli.specs.Ends.{IsBatchEnd, IsCommitEnd, IsFault, ran_told};
ghost use Rattle.rewrite_cli.specs.Histories.{digest_of};
ghost use Rattle.rewrite_cli.specs.Moments.{Idle, IsLeftByBatch, IsLeftByCommit};
ghost use Rattle.rewrite_cli.specs.Report.{count_of};

use crate::changes::{Change, batch_of, put_history};
use crate::limits::{Limit, MOST_JOURNAL};
use crate::report::{ChangeKind, count_of};
use crate::running::Ran;
use crate::stop::Stop;
use command_words::Asked;
use journal_text::{Batch, Entry, journal_digest, journal_len, seal};
use run_history::{RunRow, history_with};
use run_journal::commit;
use rw_base::{Mem, NoMemory, Text};
use rw_host::Store;
use standing_files::entry_at;
use std::alloc::Global;

// How many changes are of a kind, as the history keeps it. More than fit are more than memory holds.
fn counted(changes: &[Change], kind: ChangeKind) -> Mem<u32>
    ensures { IfOk result (λ n. n ≡ count_of kind changes.now) }
{
    u32::try_from(count_of(changes, kind)).map_err(|_| NoMemory)
}

fn next_run(runs: &[RunRow]) -> Mem<u32>
    ensures { IfOk result (λ n. n ≡ length runs.now + 1) }
{
    u32::try_from(runs.len().saturating_add(1)).map_err(|_| NoMemory)
}

// The row of a run in the history.
#[tactic(auto, using(crate::proofs::CommitSteps::rows))]
fn row_of(
    alloc: Global,
    runs: &[RunRow],
    asked: Asked,
    ran: &Ran,
    changes: &[Change],
    digest: [u8; 32],
) -> Mem<RunRow>
    requires changes { changes.now ≡ all_changes (ran_told ran.now).first (ran_told ran.now).last }
    requires digest { digest ≡ digest_of (batch_of changes.now) }
    ensures { IfOk result (λ row. row ≡ row_of runs.now (asked_told asked.entry) (ran_told ran.now)) }
{
    Ok(RunRow {
        run: next_run(runs)?,
        recipe: Text::from_slice(alloc, asked.recipe)?,
        cycles: ran.cycles,
        changed: counted(changes, ChangeKind::Changed)?,
        created: counted(changes, ChangeKind::Created)?,
        removed: counted(changes, ChangeKind::Removed)?,
        digest,
    })
}

// Puts the history, with a row for the run, into its batch.
#[tactic(auto, using(crate::proofs::CommitSteps::batches))]
fn add_history(
    alloc: Global,
    runs: &[RunRow],
    asked: Asked,
    ran: &Ran,
    changes: &[Change],
    batch: &mut Batch,
) -> Mem<()>
    requires changes { changes.now ≡ all_changes (ran_told ran.now).first (ran_told ran.now).last }
    requires batch { changes_of batch.old.entries.items ≡ batch_of changes.now }
    requires numbered { AreNumbered 1 runs.now }
    ensures batch { OnOk result (changes_of batch.new.entries.items
        ≡ run_batch runs.now (asked_told asked.entry) (ran_told ran.now)) }
    ensures paths { OnOk result (ArePaths (batch_of changes.now)) }
{
    let digest = journal_digest(alloc, batch)?;
    let row = row_of(alloc, runs, asked, ran, changes, digest)?;
    let bytes = history_with(alloc, runs, &row)?;
    put_history(alloc, batch, bytes)
}

// Whether the batch takes away a file where this path needs a folder.
fn is_freed(batch: &Batch, path: &str) -> bool
    requires { Rises [] (changes_of batch.now.entries.items) }
{
    for (at, _) in path.match_indices('/') {
        if let Some(entry) = entry_at(&batch.entries, &path[..at]) {
            if entry.bytes.is_none() {
                return true;
            }
        }
    }
    false
}

// Looks at a path at which a file is to be created: what is in its way is a fault.
#[tactic(auto, using(crate::proofs::Idling::idling))]
fn look_at_path<S: Store>(alloc: Global, store: &mut S, path: &str) -> Result<(), Stop>
    ensures stop { IfErr result IsFault }
    ensures files { S.files store.new ≡ S.files store.old }
    ensures idle { Idle S.tells_images S.is_unsynced S.moment S.left_since S.image store.old store.new }
    ensures cause { result ≡ Err Stop.ReadFault → Rose (S.read_faults store.old) (S.read_faults store.new) }
    ensures no_write { result ≢ Err Stop.WriteFault }
    ensures count { S.read_faults store.old ≤ S.read_faults store.new }
    ensures other_count { S.write_faults store.new ≡ S.write_faults store.old }
{
    match store.read(alloc, path, 0) {
        Ok(_found) => Ok(()),
        Err(fault) => Err(Stop::from(fault)),
    }
}

#[tactic(auto, using(crate::proofs::Idling::idling))]
fn look_at<S: Store>(
    alloc: Global,
    store: &mut S,
    batch: &Batch,
    change: &Change,
) -> Result<(), Stop>
    requires { Rises [] (changes_of batch.now.entries.items) }
    ensures stop { IfErr result IsFault }
    ensures files { S.files store.new ≡ S.files store.old }
    ensures idle { Idle S.tells_images S.is_unsynced S.moment S.left_since S.image store.old store.new }
    ensures cause { result ≡ Err Stop.ReadFault → Rose (S.read_faults store.old) (S.read_faults store.new) }
    ensures no_write { result ≢ Err Stop.WriteFault }
    ensures count { S.read_faults store.old ≤ S.read_faults store.new }
    ensures other_count { S.write_faults store.new ≡ S.write_faults store.old }
{
    let Change::Created(file) = change else {
        return Ok(());
    };
    let path = file.get().path.as_str();
    if is_freed(batch, path) {
        return Ok(());
    }
    look_at_path(alloc, store, path)
}

#[tactic(auto, using(crate::proofs::Idling::idling))]
fn look_at_all<S: Store>(
    alloc: Global,
    store: &mut S,
    batch: &Batch,
    changes: &[Change],
) -> Result<(), Stop>
    requires { Rises [] (changes_of batch.now.entries.items) }
    ensures stop { IfErr result IsFault }
    ensures files { S.files store.new ≡ S.files store.old }
    ensures idle { Idle S.tells_images S.is_unsynced S.moment S.left_since S.image store.old store.new }
    ensures cause { result ≡ Err Stop.ReadFault → Rose (S.read_faults store.old) (S.read_faults store.new) }
    ensures no_write { result ≢ Err Stop.WriteFault }
    ensures count { S.read_faults store.old ≤ S.read_faults store.new }
    ensures other_count { S.write_faults store.new ≡ S.write_faults store.old }
{
    for change in changes {
        look_at(alloc, store, batch, change)?;
    }
    Ok(())
}

// How many writes a commit needs room for.
#[tactic(auto, using(crate::proofs::Batches::length_changes))]
fn room_for(batch: &Batch) -> Mem<u32>
    ensures { IfOk result (λ room. room ≡ length batch.now.entries.items + 2) }
{
    u32::try_from(batch.entries.len().saturating_add(2)).map_err(|_| NoMemory)
}

// Commits a batch whose journal isn't too long.
#[tactic(auto, using(crate::proofs::CommitSteps::commits))]
fn commit_batch<S: Store>(alloc: Global, store: &mut S, batch: Batch) -> Result<(), Stop>
    requires rises { Rises [] (changes_of batch.entries.items) }
    requires free { AllFree (changes_of batch.entries.items) }
    requires short { length (journal_text (changes_of batch.entries.items)) ≤ MOST_JOURNAL }
    requires one_image { IsTrue S.tells_images → Only (S.files store.old) (S.image store.old) }
    requires closed { IsTrue S.tells_files → is_open (S.files store.old) ≡ false }
    ensures files { IsTrue S.tells_files →
        OnOk result (S.files store.new ≡ committed (changes_of batch.entries.items) (S.files store.old)) }
    ensures stop { IfErr result IsFault }
    ensures synced { OnOk result (S.is_unsynced store.new ≡ false) }
    ensures one_image { IsTrue S.tells_images → OnOk result (Only (S.files store.new) (S.image store.new)) }
    ensures any_moment { IsTrue S.tells_images → Leaves S.moment S.left_since S.image store.old store.new
        (OldOrNew (changes_of batch.entries.items) (S.files store.old))
        (OldOrNew (changes_of batch.entries.items) (S.files store.old)) }
    ensures unchanged { IfErr result (λ stop. stop ≢ Stop.WriteFault → S.files store.new ≡ S.files store.old) }
    ensures read_fault { result ≡ Err Stop.ReadFault → Rose (S.read_faults store.old) (S.read_faults store.new) }
    ensures write_fault { result ≡ Err Stop.WriteFault → Rose (S.write_faults store.old) (S.write_faults store.new) }
    ensures count { S.read_faults store.old ≤ S.read_faults store.new }
    ensures write_count { S.write_faults store.old ≤ S.write_faults store.new }
{
    let room = room_for(&batch)?;
    let sealed = seal(alloc, batch)?;
    store.reserve(room)?;
    commit(store, sealed)?;
    Ok(())
}

// Whether the journal of a batch isn't too long.
fn is_short(batch: &Batch) -> bool
    ensures short { result ≡ true → length (journal_text (changes_of batch.now.entries.items)) ≤ MOST_JOURNAL }
    ensures long { result ≡ false → MOST_JOURNAL < length (journal_text (changes_of batch.now.entries.items)) }
{
    journal_len(batch) <= MOST_JOURNAL
}

fn is_nothing(entries: &[Entry]) -> bool
    ensures none { result ≡ true → entries.now ≡ [] }
    ensures some { result ≡ false → entries.now ≢ [] }
{
    match entries {
        [] => true,
        [_, ..] => false,
    }
}

// Commits what is written, where its journal isn't too long.
#[tactic(auto, using(crate::proofs::CommitSteps::commits))]
fn commit_checked<S: Store>(
    alloc: Global,
    store: &mut S,
    batch: Batch,
    changes: &[Change],
) -> Result<(), Stop>
    requires rises { Rises [] (changes_of batch.entries.items) }
    requires free { AllFree (changes_of batch.entries.items) }
    requires one_image { IsTrue S.tells_images → Only (S.files store.old) (S.image store.old) }
    requires closed { IsTrue S.tells_files → is_open (S.files store.old) ≡ false }
    ensures end { IsTrue S.tells_files →
        IsBatchEnd (changes_of batch.entries.items) (S.files store.old) result (S.files store.new) }
    ensures synced { OnOk result (S.is_unsynced store.new ≡ false) }
    ensures one_image { IsTrue S.tells_images → OnOk result (Only (S.files store.new) (S.image store.new)) }
    ensures any_moment { IsTrue S.tells_images → Leaves S.moment S.left_since S.image store.old store.new
        (IsLeftByBatch (changes_of batch.entries.items) (S.files store.old))
        (IsLeftByBatch (changes_of batch.entries.items) (S.files store.old)) }
    ensures unchanged { IfErr result (λ stop. stop ≢ Stop.WriteFault → S.files store.new ≡ S.files store.old) }
    ensures read_fault { result ≡ Err Stop.ReadFault → Rose (S.read_faults store.old) (S.read_faults store.new) }
    ensures write_fault { result ≡ Err Stop.WriteFault → Rose (S.write_faults store.old) (S.write_faults store.new) }
{
    if !is_short(&batch) {
        return Err(Stop::Limit(Limit::JournalBytes));
    }
    look_at_all(alloc, store, &batch, changes)?;
    commit_batch(alloc, store, batch)
}

/// Commits what has changed, with a row in the history. Where nothing has changed, nothing is committed.
#[tactic(auto, using(crate::proofs::CommitSteps::commits))]
pub fn commit_changes<S: Store>(
    alloc: Global,
    store: &mut S,
    runs: &[RunRow],
    asked: Asked,
    ran: &Ran,
    changes: &[Change],
) -> Result<(), Stop>
    requires changes { changes.now ≡ all_changes (ran_told ran.now).first (ran_told ran.now).last }
    requires first { AreKept (ran_told ran.now).first }
    requires last { AreKept (ran_told ran.now).last }
    requires numbered { AreNumbered 1 runs.now }
    requires one_image { IsTrue S.tells_images → Only (S.files store.old) (S.image store.old) }
    requires closed { IsTrue S.tells_files → is_open (S.files store.old) ≡ false }
    requires synced { S.is_unsynced store.old ≡ false }
    ensures end { IsTrue S.tells_files → IsCommitEnd (batch_of changes.now)
        (run_batch runs.now (asked_told asked.entry) (ran_told ran.now)) (S.files store.old) result
        (S.files store.new) }
    ensures synced { OnOk result (S.is_unsynced store.new ≡ false) }
    ensures one_image { IsTrue S.tells_images → OnOk result (Only (S.files store.new) (S.image store.new)) }
    ensures any_moment { IsTrue S.tells_images → Leaves S.moment S.left_since S.image store.old store.new
        (IsLeftByCommit (batch_of changes.now)
        (run_batch runs.now (asked_told asked.entry) (ran_told ran.now)) (S.files store.old))
        (IsLeftByCommit (batch_of changes.now)
        (run_batch runs.now (asked_told asked.entry) (ran_told ran.now)) (S.files store.old)) }
    ensures unchanged { IfErr result (λ stop. stop ≢ Stop.WriteFault → S.files store.new ≡ S.files store.old) }
    ensures read_fault { result ≡ Err Stop.ReadFault → Rose (S.read_faults store.old) (S.read_faults store.new) }
    ensures write_fault { result ≡ Err Stop.WriteFault → Rose (S.write_faults store.old) (S.write_faults store.new) }
{
    let mut batch = batch_of(alloc, changes)?;
    if is_nothing(&batch.entries) {
        return Ok(());
    }
    add_history(alloc, runs, asked, ran, changes, &mut batch)?;
    commit_checked(alloc, store, batch, changes)
}
