// A file of what a store stands for.
ghost use Rattle.std.specs.Prelude.{◌≡◌, [], ◌≢◌, ◌≤◌, length, vec_len, IsTrue, IfOk, IfSome};
ghost use Rattle.std.specs.Option.{option_map};
ghost use Rattle.std.specs.FinMap as map;
ghost use Rattle.rw_host.specs.Crash.{Goes, Same};
ghost use Rattle.rw_host.specs.Files.{Rose, first_bytes};
ghost use Rattle.journal_text.specs.Changes.{change_of, changes_of, Rises};
ghost use Rattle.run_journal.specs.Standing.{applied};

use crate::entry::search;
use journal_text::Entry;
use rw_base::Mem;
use rw_host::{Store, StoreFault};
use std::alloc::Global;

// The first `most` bytes.
fn first_bytes(bytes: &[u8], most: u32) -> &[u8]
    ensures bytes { result.now ≡ first_bytes most bytes.now }
    ensures at_most { length result.now ≤ most }
{
    &bytes[..bytes.len().min(most as usize)]
}

// The first `most` bytes that the entry gives, or `None` where it removes the file.
fn read_entry(alloc: Global, entry: &Entry, most: u32) -> Mem<Option<Vec<u8>>>
    ensures bytes { IfOk result (λ found.
        option_map (λ v. v.items) found ≡ option_map (first_bytes most) (change_of entry.now).1) }
    ensures at_most { IfOk result (λ found. IfSome found (λ v. vec_len v ≤ most)) }
{
    match &entry.bytes {
        None => Ok(None),
        Some(bytes) => {
            let first = Vec::from_slice(alloc, first_bytes(bytes, most))?;
            Ok(Some(first))
        }
    }
}

/// The first `most` bytes of the file that the store stands for at this path, or `None` where there is none. Needs the
/// entries in the order of their paths, each once. Answers `Failed` where the store fails, and `NoMemory`, and never
/// `TooMany`. The store is asked only where no entry has the path.
pub fn read_standing<S: Store>(
    alloc: Global,
    store: &mut S,
    entries: &[Entry],
    path: &str,
    most: u32,
) -> Result<Option<Vec<u8>>, StoreFault>
    requires { Rises [] (changes_of entries.now) }
    ensures bytes { IsTrue S.tells_files → IfOk result (λ found.
        let file = map.get (applied (changes_of entries.now) (S.files store.old)) path.now in
        option_map (λ v. v.items) found ≡ option_map (first_bytes most) file) }
    ensures at_most { IfOk result (λ found. IfSome found (λ v. vec_len v ≤ most)) }
    ensures not_many { result ≢ Err StoreFault.TooMany }
    ensures files { S.files store.new ≡ S.files store.old }
    ensures spare { S.spare store.old ≤ S.spare store.new }
    ensures cause { result ≡ Err StoreFault.Failed → Rose (S.read_faults store.old) (S.read_faults store.new) }
    ensures count { S.read_faults store.old ≤ S.read_faults store.new }
    ensures other_count { S.write_faults store.new ≡ S.write_faults store.old }
    ensures unsynced { S.is_unsynced store.new ≡ S.is_unsynced store.old }
    ensures crash { IsTrue S.tells_images → Goes (S.moment store.old) (S.moment store.new) (S.left_since store.old)
        (S.left_since store.new) (S.image store.old) (S.image store.new) Same }
{
    match search(entries, path) {
        Ok(at) => {
            let found = read_entry(alloc, &entries[at], most)?;
            Ok(found)
        }
        Err(_) => store.read(alloc, path, most),
    }
}
