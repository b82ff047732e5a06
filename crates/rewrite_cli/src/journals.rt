// The journal of a repository.
ghost use Rattle.std.specs.Prelude.{◌≡◌, ◌≢◌, ◌≤◌, ◌⊎◌, [], false, Err, IsTrue, IfOk, IfErr, OnOk};
ghost use Rattle.rw_host.specs.Crash.{Leaves, Only};
ghost use Rattle.rw_host.specs.Files.{Rose};
ghost use Rattle.journal_text.specs.Changes.{Rises, changes_of};
ghost use Rattle.run_journal.specs.Standing.{StandAlike, is_open};
ghost use Rattle.rewrite_cli.specs.Answers.{recovered_line};
ghost use Rattle.rewrite_cli.specs.Ends.{IsRecoveryEnd, IsStandingEnd, IsStopOf};
ghost use Rattle.rewrite_cli.specs.Meanings.{AreMeanings, Meanings};
ghost use Rattle.rewrite_cli.specs.Moments.{Idle};

use crate::stop::{Done, Stop, damaged};
use crate::text::put_number;
use journal_text::{a_batch_has_one_spelling, a_fault_has_one_place};
use run_journal::{
    Entry, RecoverFault, a_recovery_makes_the_repository, called_changes_make_the_repository,
    damaged_files_stand_for_nothing, recover, standing,
};
use rw_base::Mem;
use rw_host::Store;
use std::alloc::Global;

const JOURNAL: &str = ".rewrite/journal";

// How a fault of a recovery ends a command.
#[tactic(auto, using(crate::proofs::JournalSteps::stops))]
fn stop_of(alloc: Global, fault: RecoverFault) -> Stop
    ensures { IsStopOf fault result }
{
    match fault {
        RecoverFault::ReadFailed => Stop::ReadFault,
        RecoverFault::WriteFailed => Stop::WriteFault,
        RecoverFault::NoMemory => Stop::NoMemory,
        RecoverFault::Damaged(at) => damaged(alloc, JOURNAL, at),
    }
}

/// Makes the changes of an open journal, and tells how many there were.
#[tactic(auto, using(crate::proofs::JournalSteps::stops))]
pub fn recover_first<S: Store>(alloc: Global, store: &mut S) -> Result<u32, Stop>
    ensures end { IsTrue S.tells_files → (meanings : Meanings) → AreMeanings meanings →
        IsRecoveryEnd (meanings.journal (S.files store.old)) (S.files store.old) result (S.files store.new) }
    ensures closed { IsTrue S.tells_files → OnOk result (is_open (S.files store.new) ≡ false) }
    ensures stands { IsTrue S.tells_files → OnOk result (StandAlike (S.files store.old) (S.files store.new)) }
    ensures synced { OnOk result (S.is_unsynced store.new ≡ false) }
    ensures one_image { IsTrue S.tells_images → OnOk result (Only (S.files store.new) (S.image store.new)) }
    ensures any_moment { IsTrue S.tells_images → Leaves S.moment S.left_since S.image store.old store.new
        (λ c. S.image store.old c ⊎ StandAlike (S.files store.old) c)
        (λ c. S.image store.old c ⊎ StandAlike (S.files store.old) c) }
    ensures read_fault { result ≡ Err Stop.ReadFault → Rose (S.read_faults store.old) (S.read_faults store.new) }
    ensures write_fault { result ≡ Err Stop.WriteFault → Rose (S.write_faults store.old) (S.write_faults store.new) }
    ensures unchanged { IfErr result (λ stop. stop ≢ Stop.WriteFault → S.files store.new ≡ S.files store.old) }
    ensures count { S.read_faults store.old ≤ S.read_faults store.new }
    ensures write_count { S.write_faults store.old ≤ S.write_faults store.new }
{
    a_batch_has_one_spelling();
    a_fault_has_one_place();
    damaged_files_stand_for_nothing();
    called_changes_make_the_repository();
    a_recovery_makes_the_repository();
    match recover(alloc, store) {
        Ok(count) => Ok(count),
        Err(fault) => Err(stop_of(alloc, fault)),
    }
}

/// The entries of an open journal.
#[tactic(auto, using(crate::proofs::JournalSteps::stops, crate::proofs::Idling::idling))]
pub fn standing_entries<S: Store>(alloc: Global, store: &mut S) -> Result<Vec<Entry>, Stop>
    ensures end { IsTrue S.tells_files → (meanings : Meanings) → AreMeanings meanings →
        IsStandingEnd (meanings.journal (S.files store.old)) (S.files store.old) result }
    ensures rises { IfOk result (λ entries. Rises [] (changes_of entries.items)) }
    ensures files { S.files store.new ≡ S.files store.old }
    ensures idle { Idle S.tells_images S.is_unsynced S.moment S.left_since S.image store.old store.new }
    ensures cause { result ≡ Err Stop.ReadFault → Rose (S.read_faults store.old) (S.read_faults store.new) }
    ensures no_write { result ≢ Err Stop.WriteFault }
    ensures count { S.read_faults store.old ≤ S.read_faults store.new }
    ensures other_count { S.write_faults store.new ≡ S.write_faults store.old }
{
    a_batch_has_one_spelling();
    a_fault_has_one_place();
    damaged_files_stand_for_nothing();
    called_changes_make_the_repository();
    match standing(alloc, store) {
        Ok(entries) => Ok(entries),
        Err(fault) => Err(stop_of(alloc, fault)),
    }
}

#[tactic(auto, unfolding(crate::specs::Answers::recovered_line))]
fn recovered_text(alloc: Global, count: u32) -> Mem<Vec<u8>>
    ensures { IfOk result (λ text. text.items ≡ recovered_line count) }
{
    let mut text = Vec::from_slice(alloc, b"recovered ")?;
    put_number(&mut text, count as u64)?;
    text.extend_from_slice(b"\n")?;
    Ok(text)
}

/// What is told of a recovery that made so many changes.
pub fn recovered(alloc: Global, count: u32) -> Result<Done, Stop>
    ensures text { IfOk result (λ done. done.text.items ≡ recovered_line count) }
    ensures silent { IfOk result (λ done. done.tells_of_files ≡ false) }
    ensures memory { IfErr result (λ stop. stop ≡ Stop.NoMemory) }
{
    match recovered_text(alloc, count) {
        Ok(text) => Ok(Done {
            text,
            tells_of_files: false,
        }),
        Err(_) => Err(Stop::NoMemory),
    }
}
