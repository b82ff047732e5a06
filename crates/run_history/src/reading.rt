// A history read.
ghost use Rattle.std.specs.Prelude.{◌≡◌, ℕ, ◌+◌, ◌^◌, ◌<◌, List, [], ◌∷◌, length, true, false, vec_len};
ghost use Rattle.std.specs.Prelude.{IfOk, IfErr, IsErrAnd, OnOk, MatchResult};
ghost use Rattle.csv.specs.Reading.{error_kind};
ghost use Rattle.csv.specs.Records.{fields_of};
ghost use Rattle.run_history.specs.declared.row.RunRow.{RunRow};
ghost use Rattle.run_history.specs.History.{IsHistory};
ghost use Rattle.run_history.specs.Faults.{IfAt, IsOutOfForm, StopsAt};
ghost use Rattle.run_history.specs.Reader.{IsBetween, IsOfMemory, OneMore, left_in};

use crate::record::row_of;
use crate::row::RunRow;
use csv::{ByteRecord, Error, Reader, ReaderBuilder};
use rw_base::{Mem, NoMemory};
use std::alloc::Global;

/// The most bytes that a history may have.
pub const MOST_BYTES: usize = 1_073_741_824;

/// Why bytes aren't read as a history.
#[derive(Clone, Copy, Debug, PartialEq, Eq)]
pub enum HistoryFault {
    /// The number, from 0, of the first record that isn't in form; `MOST_BYTES` where there are more bytes than that.
    At(u32),
    /// The system refused memory.
    NoMemory,
}

// What the failure of a read means. Reading records of any length from a slice fails for memory alone.
fn memory_of(failure: Error) -> NoMemory
    requires of_memory { IsOfMemory (error_kind failure) }
{
    drop(failure);
    NoMemory
}

// Reads the next record, and tells whether there was one.
fn next_record(reader: &mut Reader<&[u8]>, entry: &mut ByteRecord) -> Mem<bool>
    requires between { IsBetween reader.old }
    ensures between { IfOk result (λ found. found ≡ true → IsBetween reader.new) }
    ensures next { IfOk result (λ found. found ≡ true → left_in reader.old ≡ fields_of entry.new ∷ left_in reader.new) }
    ensures none { IfOk result (λ found. found ≡ false → left_in reader.old ≡ []) }
{
    match reader.read_byte_record(entry) {
        Ok(found) => Ok(found),
        Err(failure) => Err(memory_of(failure)),
    }
}

// Puts the run of a record behind those before it.
fn take_row(alloc: Global, entry: &ByteRecord, rows: &mut Vec<RunRow>) -> Result<(), HistoryFault>
    requires few { vec_len rows.old + 1 < 2 ^ 32 }
    ensures run { OnOk result (OneMore rows.old.items rows.new.items (fields_of entry.now)) }
    ensures at { IfErr result (λ fault. IfAt fault (λ n. n ≡ length rows.old.items)) }
    ensures out { IfErr result (λ fault. IfAt fault (λ n. IsOutOfForm (n + 1) (fields_of entry.now))) }
{
    let before = rows.len() as u32;
    match row_of(alloc, entry, before + 1) {
        Err(NoMemory) => Err(HistoryFault::NoMemory),
        Ok(None) => Err(HistoryFault::At(before)),
        Ok(Some(row)) => match rows.push(row) {
            Ok(()) => Ok(()),
            Err(_) => Err(HistoryFault::NoMemory),
        },
    }
}

/// The runs of a history, in order. Digests in upper case, quoted numbers, empty lines, a byte order mark, any line
/// ends and a last record without one are read too. Takes memory for the runs and for one record.
pub fn read_history(alloc: Global, bytes: &[u8]) -> Result<Vec<RunRow>, HistoryFault>
    ensures ok { IfOk result (λ rows. IsHistory bytes.now rows.items) }
    ensures at { IfErr result (λ fault. IfAt fault (StopsAt bytes.now)) }
    ensures reading { (rows : List RunRow) → IsHistory bytes.now rows
        → MatchResult result (λ read. read.items ≡ rows) (λ fault. fault ≡ HistoryFault.NoMemory) }
    ensures no_reading { (place : ℕ) → StopsAt bytes.now place
        → IsErrAnd result (λ fault. IfAt fault (λ at. at ≡ place)) }
{
    if bytes.len() > MOST_BYTES {
        return Err(HistoryFault::At(MOST_BYTES as u32));
    }
    let mut reader = ReaderBuilder::new()
        .has_headers(false)
        .flexible(true)
        .from_reader(alloc, bytes);
    let mut entry = ByteRecord::new(alloc);
    let mut rows = Vec::new(alloc);
    loop {
        match next_record(&mut reader, &mut entry) {
            Err(NoMemory) => return Err(HistoryFault::NoMemory),
            Ok(false) => return Ok(rows),
            Ok(true) => take_row(alloc, &entry, &mut rows)?,
        }
    }
}
