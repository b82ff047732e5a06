// Rows of a path and what is known of it, in the order of the paths.
ghost use Rattle.std.specs.Prelude.{◌≡◌, ◌≤◌, ◌<◌, ◌+◌, IsTrue, IfOk, IfErr, None};
ghost use Rattle.std.specs.Prelude.{length, vec_len, vec_capacity};
ghost use Rattle.std.specs.Option.{is_some};
ghost use Rattle.std.specs.Ordering.{nat_cmp};
ghost use Rattle.std.specs.Cmp.Lexicographic.{slice_cmp};
ghost use Rattle.std.specs.FinMap as map;
ghost use Rattle.rw_host.specs.Files.{first_bytes};
ghost use Rattle.memory_stores.specs.States.{state_of_write, state_of_failed_write, state_of_late_write};
ghost use Rattle.memory_stores.specs.States.{state_of_removal, state_of_failed_removal, state_of_late_removal};
ghost use Rattle.memory_stores.specs.Table.{initial_states};
ghost use Rattle.memory_stores.specs.Rows.{row_entries, are_in_order, states_of};
ghost use Rattle.memory_stores.specs.Rows.{IsPlaceOf, IsGapFor, IsPut, IsTaken, IsChanged, RowsGoBack};

use crate::state::FileState;
use crate::undo::Undo;
use rw_base::{Mem, Text};
use rw_host::PathText;
use std::alloc::Global;
use std::cmp::Ordering;
use std::mem;

// A path and what is known of it.
#[derive(Debug, Drop)]
pub(crate) struct FileRow {
    pub(crate) path: PathText,
    pub(crate) state: FileState,
}

// How a row stands to a path in the order of paths.
pub(crate) fn order_of(row: &FileRow, path: &str) -> Ordering
    ensures { result ≡ slice_cmp nat_cmp row.now.path path.now }
{
    row.path.as_str().cmp(path)
}

pub(crate) fn has_file(row: &FileRow) -> bool
    ensures { result ≡ is_some row.now.state.now }
{
    row.state.now.is_some()
}

pub(crate) fn rows_of(alloc: Global, files: Vec<(PathText, Vec<u8>)>) -> Mem<Vec<FileRow>>
    ensures { IfOk result (λ rows. row_entries rows.items ≡ initial_states files.items) }
{
    let mut rows = Vec::with_capacity(alloc, files.len())?;
    for (path, bytes) in files {
        rows.push(FileRow {
            path,
            state: state_of_write(bytes, 0),
        })?;
    }
    Ok(rows)
}

// A file with these bytes, put there by this call.
pub(crate) fn state_of_write(bytes: Vec<u8>, call: u32) -> FileState
    ensures { result ≡ state_of_write bytes.items call }
{
    FileState {
        now: Some(Text::from_vec(bytes)),
        was_held: true,
        changed: call,
        late: false,
    }
}

// Where the row with this path is, or where it would go.
pub(crate) fn search(rows: &[FileRow], path: &str) -> Result<usize, usize>
    requires { IsTrue (are_in_order rows.now) }
    ensures found { IfOk result (IsPlaceOf rows.now path.now) }
    ensures absent { IfErr result (IsGapFor rows.now path.now) }
{
    rows.binary_search_by(|row| order_of(row, path))
}

// Puts a row at the place of its path, and tells how to go back.
pub(crate) fn put_row(rows: &mut Vec<FileRow>, row: FileRow) -> Option<Undo>
    requires sorted { IsTrue (are_in_order rows.old.items) }
    requires room { vec_len rows.old < vec_capacity rows.old }
    ensures put { IsPut rows.old.items row.path row.state rows.new.items }
    ensures past { RowsGoBack result rows.old.items rows.new.items }
    ensures len { vec_len rows.new ≤ vec_len rows.old + 1 }
    ensures capacity { vec_capacity rows.old ≤ vec_capacity rows.new }
{
    match search(rows, row.path.as_str()) {
        Ok(at) => {
            let old = mem::replace(&mut rows[at].state, row.state);
            Some(Undo::Changed(at, old))
        }
        Err(at) => {
            let put = rows.insert(at, row);
            prove!(put.is_ok());
            Some(Undo::Inserted(at))
        }
    }
}

// Notes a write of this path that failed.
pub(crate) fn touch_row(rows: &mut Vec<FileRow>, path: PathText, call: u32) -> Option<Undo>
    requires sorted { IsTrue (are_in_order rows.old.items) }
    requires room { vec_len rows.old < vec_capacity rows.old }
    ensures put { let state = state_of_failed_write (map.get (states_of rows.old.items) path) call in
        IsPut rows.old.items path state rows.new.items }
    ensures past { RowsGoBack result rows.old.items rows.new.items }
    ensures len { vec_len rows.new ≤ vec_len rows.old + 1 }
    ensures capacity { vec_capacity rows.old ≤ vec_capacity rows.new }
{
    match search(rows, path.as_str()) {
        Ok(at) => {
            let old = mem::replace(&mut rows[at].state.changed, call);
            Some(Undo::Marked(at, old))
        }
        Err(at) => {
            let state = FileState {
                now: None,
                was_held: false,
                changed: call,
                late: false,
            };
            let put = rows.insert(at, FileRow { path, state });
            prove!(put.is_ok());
            Some(Undo::Inserted(at))
        }
    }
}

// Notes a write of this path from the stop on.
pub(crate) fn touch_row_late(rows: &mut Vec<FileRow>, path: PathText) -> Option<Undo>
    requires sorted { IsTrue (are_in_order rows.old.items) }
    requires room { vec_len rows.old < vec_capacity rows.old }
    ensures put { let state = state_of_late_write (map.get (states_of rows.old.items) path) in
        IsPut rows.old.items path state rows.new.items }
    ensures past { RowsGoBack result rows.old.items rows.new.items }
    ensures len { vec_len rows.new ≤ vec_len rows.old + 1 }
    ensures capacity { vec_capacity rows.old ≤ vec_capacity rows.new }
{
    match search(rows, path.as_str()) {
        Ok(at) => {
            rows[at].state.late = true;
            None
        }
        Err(at) => {
            let state = FileState {
                now: None,
                was_held: false,
                changed: 0,
                late: true,
            };
            let put = rows.insert(at, FileRow { path, state });
            prove!(put.is_ok());
            Some(Undo::Inserted(at))
        }
    }
}

// Takes the row with this path away.
pub(crate) fn take_row(rows: &mut Vec<FileRow>, path: &str)
    requires { IsTrue (are_in_order rows.old.items) }
    ensures taken { IsTaken rows.old.items path.now rows.new.items }
    ensures len { vec_len rows.new ≤ vec_len rows.old }
    ensures capacity { vec_capacity rows.old ≤ vec_capacity rows.new }
{
    if let Ok(at) = search(rows, path) {
        rows.remove(at);
    }
}

// Removes the file with this path, keeps the row, and tells how to go back.
pub(crate) fn empty_row(rows: &mut Vec<FileRow>, path: &str, call: u32) -> Option<Undo>
    requires { IsTrue (are_in_order rows.old.items) }
    ensures changed { IsChanged rows.old.items path.now (λ state. state_of_removal state call) rows.new.items }
    ensures past { RowsGoBack result rows.old.items rows.new.items }
    ensures len { vec_len rows.new ≤ vec_len rows.old }
    ensures capacity { vec_capacity rows.old ≤ vec_capacity rows.new }
{
    match search(rows, path) {
        Ok(at) => {
            let old = rows[at].state.remove(call);
            Some(Undo::Changed(at, old))
        }
        Err(_) => None,
    }
}

// Notes a removal of this path that failed.
pub(crate) fn mark_row(rows: &mut Vec<FileRow>, path: &str, call: u32) -> Option<Undo>
    requires { IsTrue (are_in_order rows.old.items) }
    ensures changed { IsChanged rows.old.items path.now (λ state. state_of_failed_removal state call) rows.new.items }
    ensures past { RowsGoBack result rows.old.items rows.new.items }
    ensures len { vec_len rows.new ≤ vec_len rows.old }
    ensures capacity { vec_capacity rows.old ≤ vec_capacity rows.new }
{
    match search(rows, path) {
        Ok(at) => {
            let state = &mut rows[at].state;
            let old = state.changed;
            state.mark(call);
            Some(Undo::Marked(at, old))
        }
        Err(_) => None,
    }
}

// Notes a removal of this path from the stop on. There is nothing to go back to.
pub(crate) fn mark_row_late(rows: &mut Vec<FileRow>, path: &str)
    requires { IsTrue (are_in_order rows.old.items) }
    ensures changed { IsChanged rows.old.items path.now state_of_late_removal rows.new.items }
    ensures past { RowsGoBack None rows.old.items rows.new.items }
    ensures len { vec_len rows.new ≤ vec_len rows.old }
    ensures capacity { vec_capacity rows.old ≤ vec_capacity rows.new }
{
    if let Ok(at) = search(rows, path) {
        rows[at].state.mark_late();
    }
}

// The first `most` bytes.
pub(crate) fn first_bytes(bytes: &[u8], most: u32) -> &[u8]
    ensures bytes { result.now ≡ first_bytes most bytes.now }
    ensures at_most { length result.now ≤ most }
{
    &bytes[..bytes.len().min(most as usize)]
}
