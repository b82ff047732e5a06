// How a batch is finished after a stop.
ghost use Rattle.std.specs.Prelude.{◌≡◌, ◌≢◌, ◌≤◌, ◌⊎◌, ℕ, List, false, IsTrue, IfOk, IfErr, OnOk, vec_len, length};
ghost use Rattle.std.specs.FinMap as map;
ghost use Rattle.rw_host.specs.Crash.{Goes, Leaves, Only, Same};
ghost use Rattle.rw_host.specs.Files.{Files, Rose};
ghost use Rattle.journal_text.specs.Changes.{Change, IsBatch, changes_of, gate};
ghost use Rattle.run_journal.specs.Standing.{CallsFor, IsDamaged, IsRead, IsRecovered, StandAlike, applied};

use crate::commits::finish;
use crate::fault::RecoverFault;
use crate::pending::pending;
use journal_text::Entry;
use rw_host::{Store, StoreFault};
use std::alloc::Global;

// Makes room for this many writes.
fn make_room<S: Store>(store: &mut S, paths: u32) -> Result<(), RecoverFault>
    ensures room { OnOk result (paths ≤ S.spare store.new) }
    ensures undamaged { (n : ℕ) → result ≢ Err (RecoverFault.Damaged n) }
    ensures no_write { result ≢ Err RecoverFault.WriteFailed }
    ensures files { S.files store.new ≡ S.files store.old }
    ensures cause { result ≡ Err RecoverFault.ReadFailed → Rose (S.read_faults store.old) (S.read_faults store.new) }
    ensures count { S.read_faults store.old ≤ S.read_faults store.new }
    ensures other_count { S.write_faults store.new ≡ S.write_faults store.old }
    ensures crash { IsTrue S.tells_images → Goes (S.moment store.old) (S.moment store.new) (S.left_since store.old)
        (S.left_since store.new) (S.image store.old) (S.image store.new) Same }
{
    match store.reserve(paths) {
        Ok(()) => Ok(()),
        Err(StoreFault::NoMemory) => Err(RecoverFault::NoMemory),
        Err(StoreFault::Failed | StoreFault::TooMany) => Err(RecoverFault::ReadFailed),
    }
}

// Makes room, lets what reads give outlast a crash, and then finishes the batch.
#[tactic(auto, using(crate::proofs::Committing::lengths))]
fn settle<S: Store>(store: &mut S, entries: Vec<Entry>) -> Result<u32, RecoverFault>
    requires pending { IsTrue S.tells_files → IsRead (S.files store.old) (changes_of entries.items) }
    requires short { vec_len entries ≤ 1073741824 }
    ensures any_moment { IsTrue S.tells_images → Leaves S.moment S.left_since S.image store.old store.new
        (λ c. S.image store.old c ⊎ StandAlike (S.files store.old) c)
        (λ c. S.image store.old c ⊎ StandAlike (S.files store.old) c) }
    ensures one_image { IsTrue S.tells_images → OnOk result (Only (S.files store.new) (S.image store.new)) }
    ensures synced { OnOk result (S.is_unsynced store.new ≡ false) }
    ensures files { IsTrue S.tells_files →
        OnOk result (S.files store.new ≡ map.remove (applied (changes_of entries.items) (S.files store.old)) gate) }
    ensures number { IfOk result (λ count. count ≡ length (changes_of entries.items)) }
    ensures undamaged { (n : ℕ) → result ≢ Err (RecoverFault.Damaged n) }
    ensures unwritten { IfErr result (λ fault. fault ≢ RecoverFault.WriteFailed →
        S.files store.new ≡ S.files store.old) }
    ensures images { IsTrue S.tells_images → IfErr result (λ fault. fault ≢ RecoverFault.WriteFailed →
        Leaves S.moment S.left_since S.image store.old store.new (S.image store.old) (S.image store.old)) }
    ensures read_cause { result ≡ Err RecoverFault.ReadFailed →
        Rose (S.read_faults store.old) (S.read_faults store.new) }
    ensures write_cause { result ≡ Err RecoverFault.WriteFailed →
        Rose (S.write_faults store.old) (S.write_faults store.new) }
    ensures read_count { S.read_faults store.old ≤ S.read_faults store.new }
    ensures write_count { S.write_faults store.old ≤ S.write_faults store.new }
{
    let count = entries.len() as u32;
    make_room(store, count)?;
    store.sync()?;
    finish(store, entries)?;
    Ok(count)
}

/// Finishes the batch of an open journal, and answers how many changes were made, 0 where the gate is closed. After its
/// reads it makes room for the changes and syncs, also where the gate is closed, so that what reads gave outlasts a
/// crash; its writes come then. `Damaged` says where the journal of an open gate has no reading. Room that was made
/// before may be used up.
pub fn recover<S: Store>(alloc: Global, store: &mut S) -> Result<u32, RecoverFault>
    ensures any_moment { IsTrue S.tells_images → Leaves S.moment S.left_since S.image store.old store.new
        (λ c. S.image store.old c ⊎ StandAlike (S.files store.old) c)
        (λ c. S.image store.old c ⊎ StandAlike (S.files store.old) c) }
    ensures one_image { IsTrue S.tells_images → OnOk result (Only (S.files store.new) (S.image store.new)) }
    ensures synced { OnOk result (S.is_unsynced store.new ≡ false) }
    ensures files { IsTrue S.tells_files → IfOk result (λ count.
        (changes : List Change) × IsRecovered (S.files store.old) (S.files store.new) count changes) }
    ensures stands { IsTrue S.tells_files → OnOk result (StandAlike (S.files store.old) (S.files store.new)) }
    ensures damaged { IsTrue S.tells_files → (n : ℕ) → result ≡ Err (RecoverFault.Damaged n) →
        IsDamaged (S.files store.old) n }
    // After a failed write too the journal had a reading.
    ensures undamaged { IsTrue S.tells_files → result ≡ Err RecoverFault.WriteFailed →
        (changes : List Change) × CallsFor (S.files store.old) changes }
    ensures unwritten { IfErr result (λ fault. fault ≢ RecoverFault.WriteFailed →
        S.files store.new ≡ S.files store.old) }
    ensures images { IsTrue S.tells_images → IfErr result (λ fault. fault ≢ RecoverFault.WriteFailed →
        Leaves S.moment S.left_since S.image store.old store.new (S.image store.old) (S.image store.old)) }
    ensures read_cause { result ≡ Err RecoverFault.ReadFailed →
        Rose (S.read_faults store.old) (S.read_faults store.new) }
    ensures write_cause { result ≡ Err RecoverFault.WriteFailed →
        Rose (S.write_faults store.old) (S.write_faults store.new) }
    ensures read_count { S.read_faults store.old ≤ S.read_faults store.new }
    ensures write_count { S.write_faults store.old ≤ S.write_faults store.new }
{
    match pending(alloc, store)? {
        Some(entries) => settle(store, entries),
        None => {
            store.sync()?;
            Ok(0)
        }
    }
}

/// The changes that an open journal lays over the files, none where the gate is closed. It writes nothing.
pub fn standing<S: Store>(alloc: Global, store: &mut S) -> Result<Vec<Entry>, RecoverFault>
    ensures entries { IsTrue S.tells_files →
        IfOk result (λ entries. CallsFor (S.files store.old) (changes_of entries.items)) }
    ensures batch { IfOk result (λ entries. IsBatch (changes_of entries.items)) }
    ensures damaged { IsTrue S.tells_files → (n : ℕ) → result ≡ Err (RecoverFault.Damaged n) →
        IsDamaged (S.files store.old) n }
    ensures no_write { result ≢ Err RecoverFault.WriteFailed }
    ensures files { S.files store.new ≡ S.files store.old }
    ensures images { IsTrue S.tells_images → Leaves S.moment S.left_since S.image store.old store.new
        (S.image store.old) (S.image store.old) }
    ensures unsynced { S.is_unsynced store.new ≡ S.is_unsynced store.old }
    ensures spare { S.spare store.old ≤ S.spare store.new }
    ensures cause { result ≡ Err RecoverFault.ReadFailed → Rose (S.read_faults store.old) (S.read_faults store.new) }
    ensures count { S.read_faults store.old ≤ S.read_faults store.new }
    ensures other_count { S.write_faults store.new ≡ S.write_faults store.old }
{
    match pending(alloc, store)? {
        Some(entries) => Ok(entries),
        None => Ok(Vec::new(alloc)),
    }
}
