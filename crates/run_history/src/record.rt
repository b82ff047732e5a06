// The record of a run.
ghost use Rattle.std.specs.Prelude.{◌≡◌, ℕ, ◌+◌, ◌^◌, ◌<◌, ◌↔◌, List, Some, Ok, decimal, IfOk, IfSome, IfNone};
ghost use Rattle.csv.specs.Records.{field_at, fields_of};
ghost use Rattle.run_history.specs.declared.row.RunRow.{RunRow};
ghost use Rattle.run_history.specs.History.{IsRecordOf};
ghost use Rattle.run_history.specs.Faults.{IsOutOfForm};
ghost use Rattle.run_history.specs.Said.{digest_told, row_said};

use crate::number::number_of;
use crate::row::RunRow;
use csv::ByteRecord;
use hex::FromHex;
use rw_base::{Mem, Text};
use std::alloc::Global;

const FIELD_COUNT: usize = 7;

// What a record says of a run, with the recipe still in the record.
#[derive(Clone, Copy)]
struct Said<'r> {
    run: u32,
    recipe: &'r [u8],
    cycles: u32,
    changed: u32,
    created: u32,
    removed: u32,
    digest: [u8; 32],
}

// The number in a field.
fn number_at(entry: &ByteRecord, field: usize) -> Option<u32>
    ensures exact { (n : ℕ) → n < 2 ^ 32
        → (result ≡ Some n) ↔ (field_at (fields_of entry.now) field ≡ Some (decimal n)) }
    ensures small { IfSome result (λ n. n < 2 ^ 32) }
{
    number_of(entry.get(field)?)
}

// The digest in a field.
fn digest_at(entry: &ByteRecord, field: usize) -> Option<[u8; 32]>
    ensures { result ≡ digest_told (field_at (fields_of entry.now) field) }
{
    <[u8; 32] as FromHex>::from_hex(entry.get(field)?).ok()
}

// What the fields say, where they are the record of a run.
fn said_by(entry: &ByteRecord) -> Option<Said>
    ensures some { IfSome result (λ said. IsRecordOf (row_said said) (fields_of entry.now)) }
    ensures none { IfNone result ((row : RunRow) → IsRecordOf row (fields_of entry.now) → ⊥) }
{
    if entry.len() != FIELD_COUNT {
        return None;
    }
    Some(Said {
        run: number_at(entry, 0)?,
        recipe: entry.get(1)?,
        cycles: number_at(entry, 2)?,
        changed: number_at(entry, 3)?,
        created: number_at(entry, 4)?,
        removed: number_at(entry, 5)?,
        digest: digest_at(entry, 6)?,
    })
}

// The run of this number, where the record is its.
pub(crate) fn row_of(alloc: Global, entry: &ByteRecord, run: u32) -> Mem<Option<RunRow>>
    ensures number { IfOk result (λ found. IfSome found (λ row. row.run ≡ run)) }
    ensures row { IfOk result (λ found. IfSome found (λ row. IsRecordOf row (fields_of entry.now))) }
    ensures out { IfOk result (λ found. IfNone found (IsOutOfForm run (fields_of entry.now))) }
{
    let said = match said_by(entry) {
        Some(said) if said.run == run => said,
        _ => return Ok(None),
    };
    let recipe = Text::from_slice(alloc, said.recipe)?;
    Ok(Some(RunRow {
        run,
        recipe,
        cycles: said.cycles,
        changed: said.changed,
        created: said.created,
        removed: said.removed,
        digest: said.digest,
    }))
}
