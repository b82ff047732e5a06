// A history written.
ghost use Rattle.std.specs.Prelude.{◌≡◌, ◌∷◌, [], ◌++◌, ◌^◌, ◌<◌, ◌≤◌, length, decimal, flat_map, Ok, IfOk, OnOk};
ghost use Rattle.hex.specs.Hex.{decode_sized, encode_lower};
ghost use Rattle.run_history.specs.History.{AreNumbered, IsHistory, IsRecordOf, most_bytes, row_line, written};
ghost use Rattle.run_history.specs.Writer.{IsFresh, text_in};

use crate::row::RunRow;
use csv::{Writer, WriterBuilder};
use itoa::Buffer;
use rw_base::{Mem, NoMemory};
use std::alloc::Global;

// The text of a number, in the buffer.
fn number_text(buffer: &mut Buffer, number: u32) -> &[u8]
    ensures text { result.now ≡ decimal number }
    ensures small { number < 2 ^ 32 }
{
    buffer.format(number).as_bytes()
}

// The digits of a digest. They always fit.
fn digits_of(digest: &[u8; 32]) -> [u8; 64]
    ensures digits { result ≡ encode_lower digest.now }
    ensures digest { decode_sized (encode_lower digest.now) 32 ≡ Ok digest.now }
{
    let mut digits = [0; 64];
    let _ = hex::encode_to_slice(digest.as_slice(), &mut digits);
    digits
}

// Writes the record of a run.
fn write_row(writer: &mut Writer<Vec<u8>>, row: &RunRow) -> Mem<()>
    requires fresh { IsFresh writer.old }
    ensures text { OnOk result (text_in writer.new ≡ text_in writer.old ++ row_line row.now) }
    ensures fresh { OnOk result (IsFresh writer.new) }
    ensures in_form { OnOk result (IsRecordOf row.now (written row.now)) }
{
    let digits = digits_of(&row.digest);
    let mut run = Buffer::new();
    let mut cycles = Buffer::new();
    let mut changed = Buffer::new();
    let mut created = Buffer::new();
    let mut removed = Buffer::new();
    let fields = [
        number_text(&mut run, row.run),
        row.recipe.as_slice(),
        number_text(&mut cycles, row.cycles),
        number_text(&mut changed, row.changed),
        number_text(&mut created, row.created),
        number_text(&mut removed, row.removed),
        digits.as_slice(),
    ];
    let Ok(()) = writer.write_fields(&fields) else {
        return Err(NoMemory);
    };
    Ok(())
}

/// The text of a history of these runs and one more. Their numbers must be 1, 2, 3 and on.
pub fn history_with(alloc: Global, rows: &[RunRow], row: &RunRow) -> Mem<Vec<u8>>
    requires numbered { AreNumbered 1 (rows.now ++ row.now ∷ []) }
    ensures text { IfOk result (λ bytes. bytes.items ≡ flat_map row_line (rows.now ++ row.now ∷ [])) }
    // What is written reads back.
    ensures reads { IfOk result (λ bytes. length bytes.items ≤ most_bytes
        → IsHistory bytes.items (rows.now ++ row.now ∷ [])) }
{
    let mut writer = WriterBuilder::new().from_writer(Vec::new(alloc));
    for past in rows {
        write_row(&mut writer, past)?;
    }
    write_row(&mut writer, row)?;
    match writer.into_inner() {
        Ok(bytes) => Ok(bytes),
        Err(_) => Err(NoMemory),
    }
}
