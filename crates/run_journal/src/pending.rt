// What the gate and the journal say.
ghost use Rattle.std.specs.Prelude.{◌≡◌, ◌≢◌, ◌≤◌, ℕ, false, IsTrue, IfOk, IfSome, IfNone, vec_len};
ghost use Rattle.std.specs.Option.{option_map};
ghost use Rattle.std.specs.FinMap as map;
ghost use Rattle.rw_host.specs.Crash.{Goes, Leaves, Same};
ghost use Rattle.rw_host.specs.Files.{Rose, first_bytes};
ghost use Rattle.journal_text.specs.Changes.{IsBatch, changes_of, gate, journal};
ghost use Rattle.journal_text.specs.Reading.{HasNoReading, IsPlace, Reads};
ghost use Rattle.run_journal.specs.Standing.{IsDamaged, IsRead, is_one, is_open, journal_bytes};

use crate::commits::gate;
use crate::fault::RecoverFault;
use journal_text::{Batch, Entry, JournalFault, read_journal};
use rw_host::{Store, StoreFault};
use std::alloc::Global;

const JOURNAL: &str = ".rewrite/journal";

// One byte more than a journal may have.
const MOST: u32 = 1_073_741_825;

#[tactic(auto, unfolding(journal_text::specs::Changes::journal))]
fn journal() -> &'static str
    ensures { result.now ≡ journal }
{
    JOURNAL
}

// The first bytes of a file.
fn read_front<S: Store>(
    alloc: Global,
    store: &mut S,
    path: &str,
    most: u32,
) -> Result<Option<Vec<u8>>, RecoverFault>
    ensures bytes { IsTrue S.tells_files → IfOk result (λ found.
        option_map (λ v. v.items) found ≡ option_map (first_bytes most) (map.get (S.files store.old) path.now)) }
    ensures at_most { IfOk result (λ found. IfSome found (λ v. vec_len v ≤ most)) }
    ensures undamaged { (n : ℕ) → result ≢ Err (RecoverFault.Damaged n) }
    ensures no_write { result ≢ Err RecoverFault.WriteFailed }
    ensures files { S.files store.new ≡ S.files store.old }
    ensures spare { S.spare store.old ≤ S.spare store.new }
    ensures cause { result ≡ Err RecoverFault.ReadFailed → Rose (S.read_faults store.old) (S.read_faults store.new) }
    ensures count { S.read_faults store.old ≤ S.read_faults store.new }
    ensures other_count { S.write_faults store.new ≡ S.write_faults store.old }
    ensures unsynced { S.is_unsynced store.new ≡ S.is_unsynced store.old }
    ensures crash { IsTrue S.tells_images → Goes (S.moment store.old) (S.moment store.new) (S.left_since store.old)
        (S.left_since store.new) (S.image store.old) (S.image store.new) Same }
{
    match store.read(alloc, path, most) {
        Ok(found) => Ok(found),
        Err(StoreFault::NoMemory) => Err(RecoverFault::NoMemory),
        Err(StoreFault::Failed | StoreFault::TooMany) => Err(RecoverFault::ReadFailed),
    }
}

fn is_one(found: &Option<Vec<u8>>) -> bool
    ensures { result ≡ is_one (option_map (λ v. v.items) found.now) }
{
    match found {
        Some(bytes) => bytes.as_slice() == b"1".as_slice(),
        None => false,
    }
}

// Whether the gate is open.
#[tactic(auto, using(crate::proofs::Reading::one_of_front))]
fn is_open<S: Store>(alloc: Global, store: &mut S) -> Result<bool, RecoverFault>
    ensures opened { IsTrue S.tells_files → IfOk result (λ opened. opened ≡ is_open (S.files store.old)) }
    ensures undamaged { (n : ℕ) → result ≢ Err (RecoverFault.Damaged n) }
    ensures no_write { result ≢ Err RecoverFault.WriteFailed }
    ensures files { S.files store.new ≡ S.files store.old }
    ensures spare { S.spare store.old ≤ S.spare store.new }
    ensures cause { result ≡ Err RecoverFault.ReadFailed → Rose (S.read_faults store.old) (S.read_faults store.new) }
    ensures count { S.read_faults store.old ≤ S.read_faults store.new }
    ensures other_count { S.write_faults store.new ≡ S.write_faults store.old }
    ensures unsynced { S.is_unsynced store.new ≡ S.is_unsynced store.old }
    ensures crash { IsTrue S.tells_images → Goes (S.moment store.old) (S.moment store.new) (S.left_since store.old)
        (S.left_since store.new) (S.image store.old) (S.image store.new) Same }
{
    let found = read_front(alloc, store, gate(), 2)?;
    Ok(is_one(&found))
}

// The entries that these bytes read as.
#[tactic(auto, using(crate::proofs::Reading::reads_short))]
fn entries_of(alloc: Global, bytes: &[u8]) -> Result<Vec<Entry>, RecoverFault>
    ensures reading { IfOk result (λ entries. Reads bytes.now (changes_of entries.items)) }
    ensures batch { IfOk result (λ entries. IsBatch (changes_of entries.items)) }
    ensures short { IfOk result (λ entries. vec_len entries ≤ 1073741824) }
    ensures unread { (n : ℕ) → result ≡ Err (RecoverFault.Damaged n) → HasNoReading bytes.now }
    ensures place { (n : ℕ) → result ≡ Err (RecoverFault.Damaged n) → IsPlace bytes.now n }
    ensures no_read { result ≢ Err RecoverFault.ReadFailed }
    ensures no_write { result ≢ Err RecoverFault.WriteFailed }
{
    match read_journal(alloc, bytes) {
        Ok(Batch { entries }) => Ok(entries),
        Err(JournalFault::At(n)) => Err(RecoverFault::Damaged(n)),
        Err(JournalFault::NoMemory) => Err(RecoverFault::NoMemory),
    }
}

// The entries of the journal. An absent one has no bytes.
fn read_entries<S: Store>(alloc: Global, store: &mut S) -> Result<Vec<Entry>, RecoverFault>
    ensures reading { IsTrue S.tells_files →
        IfOk result (λ entries. Reads (journal_bytes (S.files store.old)) (changes_of entries.items)) }
    ensures batch { IfOk result (λ entries. IsBatch (changes_of entries.items)) }
    ensures short { IfOk result (λ entries. vec_len entries ≤ 1073741824) }
    ensures damaged { IsTrue S.tells_files → (n : ℕ) → result ≡ Err (RecoverFault.Damaged n) →
        HasNoReading (journal_bytes (S.files store.old)) }
    ensures place { IsTrue S.tells_files → (n : ℕ) → result ≡ Err (RecoverFault.Damaged n) →
        IsPlace (journal_bytes (S.files store.old)) n }
    ensures no_write { result ≢ Err RecoverFault.WriteFailed }
    ensures files { S.files store.new ≡ S.files store.old }
    ensures spare { S.spare store.old ≤ S.spare store.new }
    ensures cause { result ≡ Err RecoverFault.ReadFailed → Rose (S.read_faults store.old) (S.read_faults store.new) }
    ensures count { S.read_faults store.old ≤ S.read_faults store.new }
    ensures other_count { S.write_faults store.new ≡ S.write_faults store.old }
    ensures unsynced { S.is_unsynced store.new ≡ S.is_unsynced store.old }
    ensures crash { IsTrue S.tells_images → Goes (S.moment store.old) (S.moment store.new) (S.left_since store.old)
        (S.left_since store.new) (S.image store.old) (S.image store.new) Same }
{
    match read_front(alloc, store, journal(), MOST)? {
        Some(bytes) => entries_of(alloc, &bytes),
        None => entries_of(alloc, &[]),
    }
}

// The entries of an open journal, or `None` where the gate is closed.
pub(crate) fn pending<S: Store>(
    alloc: Global,
    store: &mut S,
) -> Result<Option<Vec<Entry>>, RecoverFault>
    ensures closed { IsTrue S.tells_files →
        IfOk result (λ found. IfNone found (is_open (S.files store.old) ≡ false)) }
    ensures read { IsTrue S.tells_files →
        IfOk result (λ found. IfSome found (λ entries. IsRead (S.files store.old) (changes_of entries.items))) }
    ensures batch { IfOk result (λ found. IfSome found (λ entries. IsBatch (changes_of entries.items))) }
    ensures short { IfOk result (λ found. IfSome found (λ entries. vec_len entries ≤ 1073741824)) }
    ensures damaged { IsTrue S.tells_files → (n : ℕ) → result ≡ Err (RecoverFault.Damaged n) →
        IsDamaged (S.files store.old) n }
    ensures no_write { result ≢ Err RecoverFault.WriteFailed }
    ensures files { S.files store.new ≡ S.files store.old }
    ensures spare { S.spare store.old ≤ S.spare store.new }
    ensures cause { result ≡ Err RecoverFault.ReadFailed → Rose (S.read_faults store.old) (S.read_faults store.new) }
    ensures count { S.read_faults store.old ≤ S.read_faults store.new }
    ensures other_count { S.write_faults store.new ≡ S.write_faults store.old }
    ensures unsynced { S.is_unsynced store.new ≡ S.is_unsynced store.old }
    ensures images { IsTrue S.tells_images → Leaves S.moment S.left_since S.image store.old store.new
        (S.image store.old) (S.image store.old) }
{
    if is_open(alloc, store)? {
        Ok(Some(read_entries(alloc, store)?))
    } else {
        Ok(None)
    }
}
