// How a batch is committed.
ghost use Rattle.std.specs.Prelude.{◌≡◌, ◌≤◌, ◌+◌, ℕ, false, IsTrue, OnOk, OnErr, vec_len, length};
ghost use Rattle.std.specs.FinMap as map;
ghost use Rattle.rw_host.specs.Crash.{Goes, Leaves, Only};
ghost use Rattle.rw_host.specs.Files.{Rose, SameElsewhere};
ghost use Rattle.journal_text.specs.Changes.{change_of, changes_of, gate};
ghost use Rattle.run_journal.specs.Standing.{OldOrNew, SameBut, applied, committed, is_open, put};
ghost use Rattle.run_journal.specs.Steps.{Unfinished};

use journal_text::{Entry, Sealed, SealedParts};
use rw_host::{Failed, PathText, Store};

const GATE: &str = ".rewrite/gate";

#[tactic(auto, unfolding(journal_text::specs::Changes::gate))]
pub(crate) fn gate() -> &'static str
    ensures { result.now ≡ gate }
{
    GATE
}

// Writes a file so that it outlasts a crash.
fn put_synced<S: Store>(store: &mut S, path: PathText, bytes: Vec<u8>) -> Result<(), Failed>
    requires room { 1 ≤ S.spare store.old }
    requires one_image { IsTrue S.tells_images → Only (S.files store.old) (S.image store.old) }
    ensures any_moment { IsTrue S.tells_images → Leaves S.moment S.left_since S.image store.old store.new
        (SameElsewhere path (S.files store.old)) (SameElsewhere path (S.files store.old)) }
    ensures one_image { IsTrue S.tells_images → OnOk result (Only (S.files store.new) (S.image store.new)) }
    ensures files { IsTrue S.tells_files →
        OnOk result (S.files store.new ≡ map.insert (S.files store.old) path bytes.items) }
    ensures spare { S.spare store.old ≤ S.spare store.new + 1 }
    ensures cause { OnErr result (Rose (S.write_faults store.old) (S.write_faults store.new)) }
    ensures count { S.write_faults store.old ≤ S.write_faults store.new }
    ensures other_count { S.read_faults store.new ≡ S.read_faults store.old }
{
    store.write(path, bytes)?;
    store.sync()?;
    Ok(())
}

// Removes the gate so that this outlasts a crash.
fn shut<S: Store>(store: &mut S) -> Result<(), Failed>
    requires one_image { IsTrue S.tells_images → Only (S.files store.old) (S.image store.old) }
    ensures any_moment { IsTrue S.tells_images → Leaves S.moment S.left_since S.image store.old store.new
        (SameElsewhere gate (S.files store.old)) (SameElsewhere gate (S.files store.old)) }
    ensures one_image { IsTrue S.tells_images → OnOk result (Only (S.files store.new) (S.image store.new)) }
    ensures synced { OnOk result (S.is_unsynced store.new ≡ false) }
    ensures files { IsTrue S.tells_files → OnOk result (S.files store.new ≡ map.remove (S.files store.old) gate) }
    ensures cause { OnErr result (Rose (S.write_faults store.old) (S.write_faults store.new)) }
    ensures count { S.write_faults store.old ≤ S.write_faults store.new }
    ensures other_count { S.read_faults store.new ≡ S.read_faults store.old }
{
    store.remove(gate())?;
    store.sync()?;
    Ok(())
}

// Makes one change.
fn apply_one<S: Store>(store: &mut S, entry: Entry) -> Result<(), Failed>
    requires room { 1 ≤ S.spare store.old }
    ensures crash { IsTrue S.tells_images → Goes (S.moment store.old) (S.moment store.new) (S.left_since store.old)
        (S.left_since store.new) (S.image store.old) (S.image store.new) (SameElsewhere entry.path) }
    ensures files { IsTrue S.tells_files →
        OnOk result (S.files store.new ≡ put (S.files store.old) (change_of entry).0 (change_of entry).1) }
    ensures spare { S.spare store.old ≤ S.spare store.new + 1 }
    ensures cause { OnErr result (Rose (S.write_faults store.old) (S.write_faults store.new)) }
    ensures count { S.write_faults store.old ≤ S.write_faults store.new }
    ensures other_count { S.read_faults store.new ≡ S.read_faults store.old }
{
    let Entry { path, bytes } = entry;
    match bytes {
        Some(bytes) => store.write(path, bytes),
        None => store.remove(path.as_str()),
    }
}

// Makes the changes in order, and stops at the first that fails.
fn apply_all<S: Store>(store: &mut S, entries: Vec<Entry>) -> Result<(), Failed>
    requires room { vec_len entries ≤ S.spare store.old }
    requires one_image { IsTrue S.tells_images → Only (S.files store.old) (S.image store.old) }
    ensures any_moment { IsTrue S.tells_images → Leaves S.moment S.left_since S.image store.old store.new
        (SameBut (changes_of entries.items) (S.files store.old))
        (SameBut (changes_of entries.items) (S.files store.old)) }
    ensures files { IsTrue S.tells_files →
        OnOk result (S.files store.new ≡ applied (changes_of entries.items) (S.files store.old)) }
    ensures cause { OnErr result (Rose (S.write_faults store.old) (S.write_faults store.new)) }
    ensures count { S.write_faults store.old ≤ S.write_faults store.new }
    ensures other_count { S.read_faults store.new ≡ S.read_faults store.old }
{
    for entry in entries {
        apply_one(store, entry)?;
    }
    Ok(())
}

// Makes the changes and removes the gate, behind a journal that outlasts a crash.
pub(crate) fn finish<S: Store>(store: &mut S, entries: Vec<Entry>) -> Result<(), Failed>
    requires room { vec_len entries ≤ S.spare store.old }
    requires one_image { IsTrue S.tells_images → Only (S.files store.old) (S.image store.old) }
    ensures any_moment { IsTrue S.tells_images → Leaves S.moment S.left_since S.image store.old store.new
        (Unfinished (changes_of entries.items) (S.files store.old))
        (Unfinished (changes_of entries.items) (S.files store.old)) }
    ensures one_image { IsTrue S.tells_images → OnOk result (Only (S.files store.new) (S.image store.new)) }
    ensures synced { OnOk result (S.is_unsynced store.new ≡ false) }
    ensures files { IsTrue S.tells_files →
        OnOk result (S.files store.new ≡ map.remove (applied (changes_of entries.items) (S.files store.old)) gate) }
    ensures cause { OnErr result (Rose (S.write_faults store.old) (S.write_faults store.new)) }
    ensures count { S.write_faults store.old ≤ S.write_faults store.new }
    ensures other_count { S.read_faults store.new ≡ S.read_faults store.old }
{
    apply_all(store, entries)?;
    store.sync()?;
    shut(store)
}

/// Makes the changes of a sealed batch, all or none at each moment: whenever the process stops, inside of a store call
/// too, the files stand for what they were or for what they become. Needs room for the entries and two writes more,
/// one image, and a closed gate. Takes no memory. It stops at the first failure.
#[tactic(auto, using(crate::proofs::Committing::lengths))]
pub fn commit<S: Store>(store: &mut S, sealed: Sealed) -> Result<(), Failed>
    requires room { length sealed + 2 ≤ S.spare store.old }
    requires one_image { IsTrue S.tells_images → Only (S.files store.old) (S.image store.old) }
    requires closed { IsTrue S.tells_files → is_open (S.files store.old) ≡ false }
    ensures any_moment { IsTrue S.tells_images → Leaves S.moment S.left_since S.image store.old store.new
        (OldOrNew sealed (S.files store.old)) (OldOrNew sealed (S.files store.old)) }
    ensures one_image { IsTrue S.tells_images → OnOk result (Only (S.files store.new) (S.image store.new)) }
    ensures synced { OnOk result (S.is_unsynced store.new ≡ false) }
    ensures files { IsTrue S.tells_files →
        OnOk result (S.files store.new ≡ committed sealed (S.files store.old)) }
    ensures cause { OnErr result (Rose (S.write_faults store.old) (S.write_faults store.new)) }
    ensures count { S.write_faults store.old ≤ S.write_faults store.new }
    ensures other_count { S.read_faults store.new ≡ S.read_faults store.old }
{
    let SealedParts {
        entries,
        text,
        journal_path,
        gate_path,
        gate_byte,
    } = sealed.into_parts();
    put_synced(store, journal_path, text)?;
    put_synced(store, gate_path, gate_byte)?;
    finish(store, entries)
}
