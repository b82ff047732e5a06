// A journal, read.
ghost use Rattle.std.specs.Prelude.{◌≡◌, ◌≤◌, length, take, drop, IfOk, IfErr, OnOk};
ghost use Rattle.std.specs.List.{list_all};
ghost use Rattle.journal_text.specs.Changes.{changes_of};
ghost use Rattle.journal_text.specs.Parts.{LineStops, LineFault};
ghost use Rattle.journal_text.specs.Reading.{OnAt, Reads, HasNoReading, is_lower_digit, is_digest_line, IsPlace};
ghost use Rattle.journal_text.specs.Text.{digest_line};

use crate::batch::Batch;
use crate::entries::entries;
use crate::fault::{JournalFault, stop_at};
use crate::parts::{number, word};
use crate::text::digest_digits;
use std::alloc::Global;

/// The most bytes that a journal may have.
pub const MOST_BYTES: usize = 1_073_741_824;

fn right_line(bytes: &[u8], at: usize) -> Result<(), JournalFault>
    requires inside { at ≤ length bytes.now }
    requires size { length bytes.now ≤ 1073741824 }
    ensures right { OnOk result (drop at bytes.now ≡ digest_line (take at bytes.now)) }
    ensures wrong { IfErr result (λ fault. OnAt fault (LineStops (take at bytes.now) bytes.now at)) }
{
    let digits = digest_digits(&bytes[..at]);
    let digits_at = word(bytes, at, b"sha256 ")?;
    let end_at = word(bytes, digits_at, &digits)?;
    let behind = word(bytes, end_at, b"\n")?;
    if behind < bytes.len() {
        return Err(stop_at(behind));
    }
    Ok(())
}

fn is_lower_digit(b: u8) -> bool
    ensures { result ≡ is_lower_digit b }
{
    b'0' <= b && b <= b'9' || b'a' <= b && b <= b'f'
}

fn are_lower_digits(text: &[u8]) -> bool
    ensures { result ≡ list_all is_lower_digit text.now }
{
    text.iter().all(|b| is_lower_digit(*b))
}

fn is_digest_line(line: &[u8]) -> bool
    ensures { result ≡ is_digest_line line.now }
{
    line.len() == 72
        && &line[..7] == b"sha256 ".as_slice()
        && are_lower_digits(&line[7..71])
        && line[71] == b'\n'
}

// The last line, from a place on. Where it is that of another digest, the fault is at that digest.
fn last_line(bytes: &[u8], at: usize) -> Result<(), JournalFault>
    requires inside { at ≤ length bytes.now }
    requires size { length bytes.now ≤ 1073741824 }
    ensures right { OnOk result (drop at bytes.now ≡ digest_line (take at bytes.now)) }
    ensures wrong { IfErr result (λ fault. OnAt fault (LineFault (take at bytes.now) bytes.now at)) }
{
    match right_line(bytes, at) {
        Ok(()) => Ok(()),
        Err(JournalFault::NoMemory) => Err(JournalFault::NoMemory),
        Err(JournalFault::At(place)) => {
            if is_digest_line(&bytes[at..]) {
                Err(stop_at(at + 7))
            } else {
                Err(JournalFault::At(place))
            }
        }
    }
}

/// The batch of which these bytes are the journal.
///
/// # Errors
///
/// `At` exactly where the bytes are no batch's journal, or more than `MOST_BYTES`: the length of the longest front of
/// any journal, of whatever length and with whatever numbers. Where only the digest is another it is the place of its
/// first digit, and where there are too many bytes it is `MOST_BYTES`. `NoMemory` where the system refused memory.
pub fn read_journal(alloc: Global, bytes: &[u8]) -> Result<Batch, JournalFault>
    ensures read { IfOk result (λ batch. Reads bytes.now (changes_of batch.entries.items)) }
    ensures unread { IfErr result (λ fault. OnAt fault (λ _. HasNoReading bytes.now)) }
    ensures place { IfErr result (λ fault. OnAt fault (IsPlace bytes.now)) }
{
    if bytes.len() > MOST_BYTES {
        return Err(stop_at(MOST_BYTES));
    }
    let count_at = word(bytes, 0, b"rewrite-journal 1\n")?;
    let (count, entries_at) = number(bytes, count_at, b'\n')?;
    let (entries, line_at) = entries(alloc, bytes, entries_at, count)?;
    last_line(bytes, line_at)?;
    Ok(Batch { entries })
}
