// What a crash makes of the files of a store in memory, where a number says which of its images.
ghost use Rattle.std.specs.Prelude.{◌≡◌, IsTrue, IfOk, Some, reverse};
ghost use Rattle.std.specs.Option.{option_map};
ghost use Rattle.memory_stores.specs.Past.{past_by};
ghost use Rattle.memory_stores.specs.Picked.{chosen, file_picked, picks_left, picked_entries, last_states};
ghost use Rattle.memory_stores.specs.Rows.{row_entries, states_of, are_in_order, stored};
ghost use Rattle.memory_stores.specs.States.{is_changed_since};
ghost use Rattle.memory_stores.specs.Walk.{is_sync, is_insertion, place_before, file_before, synced_file};

use crate::row::{FileRow, state_of_write};
use crate::undo::Undo;
use rw_base::{Mem, Text};
use std::alloc::Global;

fn bytes_of(file: &Option<Text>) -> Option<&[u8]>
    ensures { option_map (λ bytes. bytes.now) result ≡ file.now }
{
    match file {
        Some(text) => Some(text.as_slice()),
        None => None,
    }
}

fn is_sync(undo: &Undo) -> bool
    ensures { result ≡ is_sync undo.now }
{
    match undo {
        Undo::Synced(_) => true,
        _ => false,
    }
}

// Whether the call inserted the row that is at this place behind it.
fn is_insertion(undo: &Undo, at: usize) -> bool
    ensures { result ≡ is_insertion at undo.now }
{
    match undo {
        Undo::Inserted(place) => *place == at,
        _ => false,
    }
}

// Where the row was before the call that is at this place behind it.
fn place_before(undo: &Undo, at: usize) -> usize
    ensures { result ≡ place_before undo.now at }
{
    match undo {
        Undo::Inserted(place) if *place < at => at - 1,
        _ => at,
    }
}

// The file that it had before the call, where this is the one behind it.
fn file_before<'a>(undo: &'a Undo, at: usize, file: &'a Option<Text>) -> &'a Option<Text>
    ensures { result.now ≡ file_before undo.now at file.now }
{
    match undo {
        Undo::Changed(place, old) if *place == at => &old.now,
        _ => file,
    }
}

// The file that a row had at the last sync, where it is at this place and has this file now.
fn synced_file<'a>(log: &'a [Undo], row_at: usize, row_file: &'a Option<Text>) -> Option<&'a [u8]>
    ensures { option_map (λ bytes. bytes.now) result ≡ synced_file (reverse log.now) row_at row_file.now }
{
    let mut at = row_at;
    let mut file = row_file;
    for left in (0..log.len()).rev() {
        let undo = &log[left];
        if is_sync(undo) {
            return bytes_of(file);
        }
        if is_insertion(undo, at) {
            return None;
        }
        file = file_before(undo, at, file);
        at = place_before(undo, at);
    }
    bytes_of(file)
}

// The file that this choice means for the row at this place.
fn chosen<'a>(log: &'a [Undo], row: &'a FileRow, at: usize, choice: u32) -> Option<&'a [u8]>
    ensures { let file = row.now.state.now in
        option_map (λ bytes. bytes.now) result ≡ chosen choice (synced_file (reverse log.now) at file) file }
{
    match choice {
        0 => synced_file(log, at, &row.state.now),
        1 => bytes_of(&row.state.now),
        2 => None,
        _ => Some(b"?".as_slice()),
    }
}

fn is_changed_since(row: &FileRow, sync: u32) -> bool
    ensures { result ≡ is_changed_since sync (Some row.now.state) }
{
    sync < row.state.changed || row.state.late
}

// The file that the path of this row gets.
fn file_picked<'a>(
    log: &'a [Undo],
    row: &'a FileRow,
    at: usize,
    sync: u32,
    pick: u32,
) -> Option<&'a [u8]>
    ensures { let synced = synced_file (reverse log.now) at row.now.state.now in
        option_map (λ bytes. bytes.now) result ≡ file_picked sync pick synced row.now.state }
{
    if is_changed_since(row, sync) {
        chosen(log, row, at, pick % 4)
    } else {
        bytes_of(&row.state.now)
    }
}

fn picks_left(row: &FileRow, sync: u32, pick: u32) -> u32
    ensures { result ≡ picks_left sync pick row.now.state }
{
    if is_changed_since(row, sync) {
        pick / 4
    } else {
        pick
    }
}

// The rows that a crash leaves.
pub(crate) fn picked_rows(
    alloc: Global,
    rows: &[FileRow],
    log: &[Undo],
    sync: u32,
    pick: u32,
) -> Mem<Vec<FileRow>>
    requires { IsTrue (are_in_order rows.now) }
    ensures { let last = last_states (past_by log.now (states_of rows.now)) in
        let files = picked_entries sync last pick (row_entries rows.now) in
        IfOk result (λ picked. row_entries picked.items ≡ stored files) }
{
    let mut left = pick;
    let mut picked = Vec::with_capacity(alloc, rows.len())?;
    for (at, row) in rows.iter().enumerate() {
        let file = file_picked(log, row, at, sync, left);
        left = picks_left(row, sync, left);
        let Some(bytes) = file else {
            continue;
        };
        let bytes = Vec::from_slice(alloc, bytes)?;
        picked.push(FileRow {
            path: row.path.copy(alloc)?,
            state: state_of_write(bytes, 0),
        })?;
    }
    Ok(picked)
}
