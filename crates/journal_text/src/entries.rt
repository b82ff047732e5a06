// The entries of a journal, read from a place in its bytes.
ghost use Rattle.std.specs.Prelude.{◌≡◌, ◌≤◌, ◌-◌, ◌^◌, ◌++◌, ℕ, [], min, length, drop, true, IfOk, IfErr};
ghost use Rattle.journal_text.specs.Changes.{change_of, changes_of, IsBatch};
ghost use Rattle.journal_text.specs.Forms.{Took, StuckAt};
ghost use Rattle.journal_text.specs.Parts.{TookBytes, LacksBytes, Put, Del, IsEntry, last_path};
ghost use Rattle.journal_text.specs.Parts.{Going, Finished, BodyStops};
ghost use Rattle.journal_text.specs.Reading.{OnAt};
ghost use Rattle.journal_text.specs.Stops.{IsBefore};

use crate::batch::Entry;
use crate::fault::{JournalFault, stop_at};
use crate::parts::{holds, number, word};
use crate::paths::path;
use std::alloc::Global;

// A copy of so many bytes. The number is the greatest of its type where the journal says a greater one.
fn counted(
    alloc: Global,
    bytes: &[u8],
    at: usize,
    count: u64,
) -> Result<(Vec<u8>, usize), JournalFault>
    requires inside { at ≤ length bytes.now }
    requires size { length bytes.now ≤ 1073741824 }
    ensures took { IfOk result (λ found. TookBytes count bytes.now at found.1 found.0.items) }
    ensures stuck { IfErr result (λ fault. OnAt fault (LacksBytes count bytes.now at)) }
{
    if ((bytes.len() - at) as u64) < count {
        return Err(stop_at(bytes.len()));
    }
    let end = at + count as usize;
    let copy = Vec::from_slice(alloc, &bytes[at..end])?;
    Ok((copy, end))
}

fn put_entry(
    alloc: Global,
    bytes: &[u8],
    at: usize,
    before: &[u8],
) -> Result<(Entry, usize), JournalFault>
    requires before { IsBefore before.now }
    requires inside { at ≤ length bytes.now }
    requires size { length bytes.now ≤ 1073741824 }
    ensures took { IfOk result (λ found. Took (IsEntry before.now) bytes.now at found.1 (change_of found.0)) }
    ensures stuck { IfErr result (λ fault. OnAt fault (StuckAt (Put before.now) bytes.now at)) }
{
    let size_at = word(bytes, at, b"put ")?;
    let (size, path_at) = number(bytes, size_at, b' ')?;
    let (path, contents_at) = path(alloc, bytes, path_at, before)?;
    let (contents, end_at) = counted(alloc, bytes, contents_at, size)?;
    let behind = word(bytes, end_at, b"\n")?;
    let entry = Entry {
        path,
        bytes: Some(contents),
    };
    Ok((entry, behind))
}

fn del_entry(
    alloc: Global,
    bytes: &[u8],
    at: usize,
    before: &[u8],
) -> Result<(Entry, usize), JournalFault>
    requires before { IsBefore before.now }
    requires inside { at ≤ length bytes.now }
    requires size { length bytes.now ≤ 1073741824 }
    ensures took { IfOk result (λ found. Took (IsEntry before.now) bytes.now at found.1 (change_of found.0)) }
    ensures stuck { IfErr result (λ fault. OnAt fault (StuckAt (Del before.now) bytes.now at)) }
{
    let path_at = word(bytes, at, b"del ")?;
    let (path, behind) = path(alloc, bytes, path_at, before)?;
    let entry = Entry { path, bytes: None };
    Ok((entry, behind))
}

fn entry(
    alloc: Global,
    bytes: &[u8],
    at: usize,
    before: &[u8],
) -> Result<(Entry, usize), JournalFault>
    requires before { IsBefore before.now }
    requires inside { at ≤ length bytes.now }
    requires size { length bytes.now ≤ 1073741824 }
    ensures took { IfOk result (λ found. Took (IsEntry before.now) bytes.now at found.1 (change_of found.0)) }
    ensures stuck { IfErr result (λ fault. OnAt fault (StuckAt (IsEntry before.now) bytes.now at)) }
{
    if holds(bytes, at, b'd') {
        del_entry(alloc, bytes, at, before)
    } else {
        put_entry(alloc, bytes, at, before)
    }
}

fn last_path(entries: &[Entry]) -> &[u8]
    ensures { result.now ≡ last_path [] (changes_of entries.now) }
{
    match entries {
        [.., last] => last.path.as_str().as_bytes(),
        [] => b"",
    }
}

// So many entries, up to the last line. The number is the greatest of its type where the journal says a greater one.
pub fn entries(
    alloc: Global,
    bytes: &[u8],
    at: usize,
    count: u64,
) -> Result<(Vec<Entry>, usize), JournalFault>
    requires begun { Going bytes.now at count [] }
    requires size { length bytes.now ≤ 1073741824 }
    ensures took { IfOk result (λ found. Finished bytes.now found.1 (changes_of found.0.items)) }
    ensures stuck { IfErr result (λ fault. OnAt fault (BodyStops bytes.now)) }
{
    // Each entry has at least six bytes.
    let room = count.min((bytes.len() / 6) as u64);
    let mut entries = Vec::with_capacity(alloc, room as usize)?;
    let mut end = at;
    for index in 0..count {
        let (next, behind) = entry(alloc, bytes, end, last_path(&entries))?;
        entries.push(next)?;
        end = behind;
    }
    Ok((entries, end))
}
