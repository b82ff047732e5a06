// The paths of what a store stands for.
ghost use Rattle.std.specs.Prelude.{◌≡◌, [], ◌≢◌, ◌≤◌, ◌<◌, ◌⊎◌, ◌++◌, vec_len, IsTrue, IfOk, OnOk};
ghost use Rattle.std.specs.FinMap as map;
ghost use Rattle.rw_host.specs.Crash.{Goes, Same};
ghost use Rattle.rw_host.specs.Files.{Files, Rose, IsInOrder};
ghost use Rattle.journal_text.specs.Changes.{change_of, changes_of, Rises};
ghost use Rattle.run_journal.specs.Standing.{applied};
ghost use Rattle.standing_files.specs.Merged.{held, created, created_before, from_on, kept, behind};

use crate::entry::{has_path, is_before};
use journal_text::Entry;
use rw_base::Mem;
use rw_host::{PathText, Store, StoreFault};
use std::alloc::Global;

// Adds the entry's path, where the entry gives bytes.
fn push_held(alloc: Global, out: &mut Vec<PathText>, entry: &Entry) -> Mem<()>
    ensures { OnOk result (out.new.items ≡ out.old.items ++ held (change_of entry.now).0 (change_of entry.now).1) }
{
    if entry.bytes.is_some() {
        out.push(entry.path.copy(alloc)?)?;
    }
    Ok(())
}

// Adds the paths of all entries that give bytes.
fn push_created(alloc: Global, out: &mut Vec<PathText>, entries: &[Entry]) -> Mem<()>
    ensures { OnOk result (out.new.items ≡ out.old.items ++ created (changes_of entries.now)) }
{
    for entry in entries {
        push_held(alloc, out, entry)?;
    }
    Ok(())
}

// Adds the paths of the entries before this path that give bytes, and returns the entries from it on.
fn push_before<'a>(
    alloc: Global,
    out: &mut Vec<PathText>,
    entries: &'a [Entry],
    path: &str,
) -> Mem<&'a [Entry]>
    ensures paths { OnOk result (out.new.items ≡ out.old.items ++ created_before path.now (changes_of entries.now)) }
    ensures rest { IfOk result (λ rest. changes_of rest.now ≡ from_on path.now (changes_of entries.now)) }
{
    for (at, entry) in entries.iter().enumerate() {
        if !is_before(entry, path) {
            return Ok(&entries[at..]);
        }
        push_held(alloc, out, entry)?;
    }
    Ok(&entries[entries.len()..])
}

// Adds a path of the store, unless the first of the entries removes it, and returns the entries behind it.
fn push_kept<'a>(out: &mut Vec<PathText>, entries: &'a [Entry], path: PathText) -> Mem<&'a [Entry]>
    ensures paths { OnOk result (out.new.items ≡ out.old.items ++ kept path (changes_of entries.now)) }
    ensures rest { IfOk result (λ rest. changes_of rest.now ≡ behind path (changes_of entries.now)) }
{
    if let [entry, rest @ ..] = entries {
        if has_path(entry, path.as_str()) {
            if entry.bytes.is_some() {
                out.push(path)?;
            }
            return Ok(rest);
        }
    }
    out.push(path)?;
    Ok(entries)
}

// The paths of the files that have these paths with the entries laid over them, in order. Takes both in order.
fn merge(alloc: Global, paths: Vec<PathText>, entries: &[Entry]) -> Mem<Vec<PathText>>
    requires paths { IsInOrder paths.items }
    requires entries { Rises [] (changes_of entries.now) }
    ensures keys { IfOk result (λ merged. (files : Files) → paths.items ≡ map.keys files →
        merged.items ≡ map.keys (applied (changes_of entries.now) files)) }
    ensures in_order { IfOk result (λ merged. IsInOrder merged.items) }
{
    let mut merged = Vec::with_capacity(alloc, paths.len())?;
    let mut rest = entries;
    for path in paths {
        rest = push_before(alloc, &mut merged, rest, path.as_str())?;
        rest = push_kept(&mut merged, rest, path)?;
    }
    push_created(alloc, &mut merged, rest)?;
    Ok(merged)
}

/// All paths of the files that the store stands for, in the order of their bytes, each once. Needs the entries in the
/// order of their paths, each once. Answers `TooMany` where the store lists more than `most`, or the files that it
/// stands for are more, `Failed` where the store fails, and `NoMemory`. Without entries it hands on the store's list.
pub fn list_standing<S: Store>(
    alloc: Global,
    store: &mut S,
    entries: &[Entry],
    most: u32,
) -> Result<Vec<PathText>, StoreFault>
    requires { Rises [] (changes_of entries.now) }
    ensures paths { IsTrue S.tells_files → IfOk result (λ paths.
        paths.items ≡ map.keys (applied (changes_of entries.now) (S.files store.old))) }
    ensures in_order { IfOk result (λ paths. IsInOrder paths.items) }
    ensures at_most { IfOk result (λ paths. vec_len paths ≤ most) }
    ensures store_fits { IsTrue S.tells_files → OnOk result (map.len (S.files store.old) ≤ most) }
    ensures all_fit { IsTrue S.tells_files →
        OnOk result (map.len (applied (changes_of entries.now) (S.files store.old)) ≤ most) }
    ensures too_many { IsTrue S.tells_files → result ≡ Err StoreFault.TooMany → most < map.len (S.files store.old)
        ⊎ most < map.len (applied (changes_of entries.now) (S.files store.old)) }
    ensures files { S.files store.new ≡ S.files store.old }
    ensures spare { S.spare store.old ≤ S.spare store.new }
    ensures cause { result ≡ Err StoreFault.Failed → Rose (S.read_faults store.old) (S.read_faults store.new) }
    ensures count { S.read_faults store.old ≤ S.read_faults store.new }
    ensures other_count { S.write_faults store.new ≡ S.write_faults store.old }
    ensures unsynced { S.is_unsynced store.new ≡ S.is_unsynced store.old }
    ensures crash { IsTrue S.tells_images → Goes (S.moment store.old) (S.moment store.new) (S.left_since store.old)
        (S.left_since store.new) (S.image store.old) (S.image store.new) Same }
{
    let paths = match store.list(alloc, most) {
        Ok(paths) => paths,
        Err(fault) => return Err(fault),
    };
    if entries.is_empty() {
        return Ok(paths);
    }
    let merged = merge(alloc, paths, entries)?;
    if merged.len() > most as usize {
        return Err(StoreFault::TooMany);
    }
    Ok(merged)
}
