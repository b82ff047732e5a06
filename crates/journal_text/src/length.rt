// How long the journal of a batch is.
ghost use Rattle.std.specs.Prelude.{◌≡◌, ◌+◌, ◌-◌, ◌^◌, ◌≤◌, min, length};
ghost use Rattle.journal_text.specs.Changes.{change_of, changes_of};
ghost use Rattle.journal_text.specs.Numerals.{numeral};
ghost use Rattle.journal_text.specs.Text.{entry_text, entries_text, journal_text};

use crate::batch::{Batch, Entry};
use itoa::Buffer;

// `rewrite-journal 1` and LF, the LF behind the number of entries, and the line of the digest.
const FIXED: u64 = 18 + 1 + 72;

fn numeral_len(n: u64) -> u64
    ensures value { result ≡ length (numeral n) }
    ensures short { result ≤ 20 }
{
    Buffer::new().format(n).len() as u64
}

fn entry_len(entry: &Entry) -> u64
    ensures { result ≡ min (length (entry_text (change_of entry.now))) (2 ^ 64 - 1) }
{
    let path = entry.path.as_str().len() as u64;
    match &entry.bytes {
        None => path.saturating_add(5),
        Some(bytes) => {
            let size = bytes.len() as u64;
            path.saturating_add(size)
                .saturating_add(numeral_len(size) + 7)
        }
    }
}

fn entries_len(entries: &[Entry]) -> u64
    ensures { result ≡ min (length (entries_text (changes_of entries.now))) (2 ^ 64 - 1) }
{
    let mut len: u64 = 0;
    for entry in entries {
        len = len.saturating_add(entry_len(entry));
    }
    len
}

/// The number of bytes of the batch's journal, or `u64::MAX` where there are more. Takes no memory.
pub fn journal_len(batch: &Batch) -> u64
    ensures { result ≡ min (length (journal_text (changes_of batch.now.entries.items))) (2 ^ 64 - 1) }
{
    let count = numeral_len(batch.entries.len() as u64);
    entries_len(&batch.entries).saturating_add(count + FIXED)
}
