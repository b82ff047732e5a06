// Files in memory: what is known of each path.
ghost use Rattle.std.specs.Prelude.{◌≡◌, ◌≢◌, ◌≤◌, ◌<◌, ◌+◌, IfOk, IfSome, OnOk, None, vec_len};
ghost use Rattle.std.specs.Option.{option_map};
ghost use Rattle.std.specs.FinMap as map;
ghost use Rattle.rw_host.specs.Files.{first_bytes, IsInOrder};
ghost use Rattle.memory_stores.specs.States.{state_of_write, state_of_failed_write, state_of_late_write};
ghost use Rattle.memory_stores.specs.States.{state_of_removal, state_of_failed_removal, state_of_late_removal};
ghost use Rattle.memory_stores.specs.States.{change_state, now_of};
ghost use Rattle.memory_stores.specs.Table.{IsEachOnce, initial_states};
ghost use Rattle.memory_stores.specs.Past.{StatesGoBack, past_by};
ghost use Rattle.memory_stores.specs.Picked.{picked_entries, last_states};

use crate::crash::picked_rows;
use crate::row::{
    FileRow, empty_row, first_bytes, has_file, mark_row, mark_row_late, order_of, put_row, rows_of,
    search, state_of_write, take_row, touch_row, touch_row_late,
};
use crate::state::FileState;
use crate::undo::Undo;
use rw_base::Mem;
use rw_host::{PathText, StoreFault};
use std::alloc::Global;
use std::marker::Model;

// Files in memory. Contracts see the map from paths to what is known of them, and for how many more paths there is
// room.
#[derive(Debug, Drop)]
pub(crate) struct Table {
    rows: Vec<FileRow>,
}

impl Model for Table {
    ghost use Rattle.std.specs.Prelude.{◌-◌, IsTrue, vec_len, vec_capacity};
    ghost use Rattle.memory_stores.specs.Table.{Knowledge, knowledge_code};

    ghost Value = { Knowledge };

    ghost coded = { knowledge_code };

    ghost use Rattle.memory_stores.specs.Rows.{states_of, are_in_order};

    ghost view = { λ t. record { states = states_of t.rows.items; spare = vec_capacity t.rows - vec_len t.rows } };

    ghost invariant = { λ t. IsTrue (are_in_order t.rows.items) };
}

impl Table {
    pub(crate) fn new(alloc: Global, files: Vec<(PathText, Vec<u8>)>) -> Mem<Table>
        requires { IsEachOnce files.items }
        ensures { IfOk result (λ table. table.states ≡ map.from_entries (initial_states files.items)) }
    {
        let mut rows = rows_of(alloc, files)?;
        rows.sort_unstable_by(|one, other| order_of(one, other.path.as_str()));
        Ok(Table { rows })
    }

    // How many paths have a file.
    fn len(&self) -> usize
        ensures { result ≡ map.len (now_of self.now.states) }
    {
        let mut len = 0;
        for row in &self.rows {
            if !has_file(row) {
                continue;
            }
            len += 1;
        }
        len
    }

    // All paths that have a file, in order.
    fn paths(&self, alloc: Global) -> Mem<Vec<PathText>>
        ensures { IfOk result (λ paths. paths.items ≡ map.keys (now_of self.now.states)) }
    {
        let mut paths = Vec::with_capacity(alloc, self.rows.len())?;
        for row in &self.rows {
            if !has_file(row) {
                continue;
            }
            paths.push(row.path.copy(alloc)?)?;
        }
        Ok(paths)
    }

    // What a store with these files answers to `list` where it doesn't fail.
    pub(crate) fn list(&self, alloc: Global, most: u32) -> Result<Vec<PathText>, StoreFault>
        ensures paths { IfOk result (λ paths. paths.items ≡ map.keys (now_of self.now.states)) }
        ensures in_order { IfOk result (λ paths. IsInOrder paths.items) }
        ensures at_most { IfOk result (λ paths. vec_len paths ≤ most) }
        ensures all_fit { OnOk result (map.len (now_of self.now.states) ≤ most) }
        ensures too_many { result ≡ Err StoreFault.TooMany → most < map.len (now_of self.now.states) }
        ensures no_fault { result ≢ Err StoreFault.Failed }
    {
        if self.len() > most as usize {
            return Err(StoreFault::TooMany);
        }
        Ok(self.paths(alloc)?)
    }

    // What is known of this path.
    fn state(&self, path: &str) -> Option<&FileState>
        ensures { option_map (λ state. state.now) result ≡ map.get self.now.states path.now }
    {
        match search(&self.rows, path) {
            Ok(at) => Some(&self.rows[at].state),
            Err(_) => None,
        }
    }

    // The bytes of the file with this path.
    fn get(&self, path: &str) -> Option<&[u8]>
        ensures { option_map (λ bytes. bytes.now) result ≡ map.get (now_of self.now.states) path.now }
    {
        let state = self.state(path)?;
        match &state.now {
            Some(bytes) => Some(bytes.as_slice()),
            None => None,
        }
    }

    // What a store with these files answers to `read` where it doesn't fail.
    pub(crate) fn read(
        &self,
        alloc: Global,
        path: &str,
        most: u32,
    ) -> Result<Option<Vec<u8>>, StoreFault>
        ensures bytes { IfOk result (λ found.
            let file = map.get (now_of self.now.states) path.now in
            option_map (λ v. v.items) found ≡ option_map (first_bytes most) file) }
        ensures at_most { IfOk result (λ found. IfSome found (λ v. vec_len v ≤ most)) }
        ensures not_many { result ≢ Err StoreFault.TooMany }
        ensures no_fault { result ≢ Err StoreFault.Failed }
    {
        let Some(bytes) = self.get(path) else {
            return Ok(None);
        };
        let first = Vec::from_slice(alloc, first_bytes(bytes, most))?;
        Ok(Some(first))
    }

    // The table of an image that a crash may leave, where the calls left this log, and the last sync had this number.
    pub(crate) fn picked(&self, alloc: Global, log: &[Undo], sync: u32, pick: u32) -> Mem<Table>
        ensures { let last = last_states (past_by log.now self.now.states) in
            let files = picked_entries sync last pick (map.entries self.now.states) in
            IfOk result (λ table. now_of table.states ≡ map.from_sorted files) }
    {
        let rows = picked_rows(alloc, &self.rows, log, sync, pick)?;
        Ok(Table { rows })
    }

    // Makes room for this many rows more.
    pub(crate) fn reserve(&mut self, rows: u32) -> Mem<()>
        ensures states { self.new.states ≡ self.old.states }
        ensures room { OnOk result (rows ≤ self.new.spare) }
        ensures spare { self.old.spare ≤ self.new.spare }
    {
        self.rows.reserve(rows as usize)?;
        Ok(())
    }

    // Puts the file in place of the one that has the path, or as a new one, and tells how to go back.
    pub(crate) fn put(&mut self, path: PathText, bytes: Vec<u8>, call: u32) -> Option<Undo>
        requires { 1 ≤ self.old.spare }
        ensures states { self.new.states ≡ map.insert self.old.states path (state_of_write bytes.items call) }
        ensures past { StatesGoBack result self.old.states self.new.states }
        ensures spare { self.old.spare ≤ self.new.spare + 1 }
    {
        let state = state_of_write(bytes, call);
        put_row(&mut self.rows, FileRow { path, state })
    }

    // Notes a write of this path that failed.
    pub(crate) fn touch(&mut self, path: PathText, call: u32) -> Option<Undo>
        requires { 1 ≤ self.old.spare }
        ensures states { let state = state_of_failed_write (map.get self.old.states path) call in
            self.new.states ≡ map.insert self.old.states path state }
        ensures past { StatesGoBack result self.old.states self.new.states }
        ensures spare { self.old.spare ≤ self.new.spare + 1 }
    {
        touch_row(&mut self.rows, path, call)
    }

    // Notes a write of this path from the stop on.
    pub(crate) fn touch_late(&mut self, path: PathText) -> Option<Undo>
        requires { 1 ≤ self.old.spare }
        ensures states { let state = state_of_late_write (map.get self.old.states path) in
            self.new.states ≡ map.insert self.old.states path state }
        ensures past { StatesGoBack result self.old.states self.new.states }
        ensures spare { self.old.spare ≤ self.new.spare + 1 }
    {
        touch_row_late(&mut self.rows, path)
    }

    // Forgets this path.
    pub(crate) fn take(&mut self, path: &str)
        ensures states { self.new.states ≡ map.remove self.old.states path.now }
        ensures spare { self.old.spare ≤ self.new.spare }
    {
        take_row(&mut self.rows, path);
    }

    // Removes the file with this path, and tells how to go back.
    pub(crate) fn empty(&mut self, path: &str, call: u32) -> Option<Undo>
        ensures states { self.new.states ≡
            change_state self.old.states path.now (λ state. state_of_removal state call) }
        ensures past { StatesGoBack result self.old.states self.new.states }
        ensures spare { self.old.spare ≤ self.new.spare }
    {
        empty_row(&mut self.rows, path, call)
    }

    // Notes a removal of this path that failed.
    pub(crate) fn mark(&mut self, path: &str, call: u32) -> Option<Undo>
        ensures states { self.new.states ≡
            change_state self.old.states path.now (λ state. state_of_failed_removal state call) }
        ensures past { StatesGoBack result self.old.states self.new.states }
        ensures spare { self.old.spare ≤ self.new.spare }
    {
        mark_row(&mut self.rows, path, call)
    }

    // Notes a removal of this path from the stop on.
    pub(crate) fn mark_late(&mut self, path: &str)
        ensures states { self.new.states ≡ change_state self.old.states path.now state_of_late_removal }
        ensures past { StatesGoBack None self.old.states self.new.states }
        ensures spare { self.old.spare ≤ self.new.spare }
    {
        mark_row_late(&mut self.rows, path);
    }
}
