// Files in memory with how to go back behind each call.
ghost use Rattle.std.specs.Prelude.{◌≡◌, ◌≤◌, ◌+◌, IfOk, OnOk, [], ◌∷◌};
ghost use Rattle.std.specs.FinMap as map;
ghost use Rattle.memory_stores.specs.States.{state_of_write, state_of_failed_write, state_of_late_write};
ghost use Rattle.memory_stores.specs.States.{state_of_removal, state_of_failed_removal, state_of_late_removal};
ghost use Rattle.memory_stores.specs.States.{change_state, now_of};
ghost use Rattle.memory_stores.specs.Picked.{picked_entries, last_states};
ghost use Rattle.memory_stores.specs.Table.{IsEachOnce, initial_states};
ghost use Rattle.memory_stores.specs.Past.{IsEarly};

use crate::table::Table;
use crate::undo::{Undo, note};
use rw_base::Mem;
use rw_host::PathText;
use std::alloc::Global;
use std::marker::Model;

// A table with its log. Contracts see what the table knows, what the syncs found, and for how many more calls the log
// has room.
#[derive(Debug, Drop)]
pub(crate) struct LoggedTable {
    pub(crate) table: Table,
    log: Vec<Undo>,
}

impl Model for LoggedTable {
    ghost use Rattle.std.specs.Prelude.{◌-◌, vec_len, vec_capacity};
    ghost use Rattle.memory_stores.specs.Past.{past_by};
    ghost use Rattle.memory_stores.specs.Log.{LoggedKnowledge, logged_code};

    ghost Value = { LoggedKnowledge };

    ghost coded = { logged_code };

    ghost view = { λ t. record {
      states = t.table.states;
      spare = t.table.spare;
      past = past_by t.log.items t.table.states;
      room = vec_capacity t.log - vec_len t.log;
    } };
}

impl LoggedTable {
    // The table of these files, with room for this many calls.
    pub(crate) fn new(
        alloc: Global,
        files: Vec<(PathText, Vec<u8>)>,
        calls: u32,
    ) -> Mem<LoggedTable>
        requires { IsEachOnce files.items }
        ensures states { IfOk result (λ table. table.states ≡ map.from_entries (initial_states files.items)) }
        ensures past { IfOk result (λ table. table.past ≡ (table.states, 0) ∷ []) }
        ensures room { IfOk result (λ table. calls ≤ table.room) }
    {
        let table = Table::new(alloc, files)?;
        let log = Vec::with_capacity(alloc, calls as usize)?;
        Ok(LoggedTable { table, log })
    }

    // The table of an image that a crash may leave, where the last sync had this number.
    pub(crate) fn picked(&self, alloc: Global, sync: u32, pick: u32) -> Mem<Table>
        ensures { let files = picked_entries sync (last_states self.now.past) pick (map.entries self.now.states) in
            IfOk result (λ table. now_of table.states ≡ map.from_sorted files) }
    {
        self.table.picked(alloc, &self.log, sync, pick)
    }

    // Makes room for this many rows more, and for this many calls beside the writes of those.
    pub(crate) fn reserve(&mut self, rows: u32, calls: u32) -> Mem<()>
        ensures states { self.new.states ≡ self.old.states }
        ensures past { self.new.past ≡ self.old.past }
        ensures spare { OnOk result (rows ≤ self.new.spare) }
        ensures room { OnOk result (rows + calls ≤ self.new.room) }
        ensures spare_kept { self.old.spare ≤ self.new.spare }
        ensures room_kept { self.old.room ≤ self.new.room }
    {
        self.table.reserve(rows)?;
        self.log.reserve(rows as usize + calls as usize)?;
        Ok(())
    }

    // Puts the file in place of the one that has the path, or as a new one.
    pub(crate) fn put(&mut self, path: PathText, bytes: Vec<u8>, call: u32)
        requires spare { 1 ≤ self.old.spare }
        requires room { 1 ≤ self.old.room }
        ensures states { self.new.states ≡ map.insert self.old.states path (state_of_write bytes.items call) }
        ensures past { self.new.past ≡ self.old.past }
        ensures spare { self.old.spare ≤ self.new.spare + 1 }
        ensures room { self.old.room ≤ self.new.room + 1 }
    {
        let undo = self.table.put(path, bytes, call);
        note(&mut self.log, undo);
    }

    // Notes a write of this path that failed.
    pub(crate) fn touch(&mut self, path: PathText, call: u32)
        requires spare { 1 ≤ self.old.spare }
        requires room { 1 ≤ self.old.room }
        ensures states { let state = state_of_failed_write (map.get self.old.states path) call in
            self.new.states ≡ map.insert self.old.states path state }
        ensures past { self.new.past ≡ self.old.past }
        ensures spare { self.old.spare ≤ self.new.spare + 1 }
        ensures room { self.old.room ≤ self.new.room + 1 }
    {
        let undo = self.table.touch(path, call);
        note(&mut self.log, undo);
    }

    // Notes a write of this path from the stop on.
    pub(crate) fn touch_late(&mut self, path: PathText)
        requires spare { 1 ≤ self.old.spare }
        requires room { 1 ≤ self.old.room }
        ensures states { let state = state_of_late_write (map.get self.old.states path) in
            self.new.states ≡ map.insert self.old.states path state }
        ensures past { self.new.past ≡ self.old.past }
        ensures spare { self.old.spare ≤ self.new.spare + 1 }
        ensures room { self.old.room ≤ self.new.room + 1 }
    {
        let undo = self.table.touch_late(path);
        note(&mut self.log, undo);
    }

    // Removes the file with this path.
    pub(crate) fn empty(&mut self, path: &str, call: u32)
        requires { 1 ≤ self.old.room }
        ensures states { self.new.states ≡
            change_state self.old.states path.now (λ state. state_of_removal state call) }
        ensures past { self.new.past ≡ self.old.past }
        ensures spare { self.old.spare ≤ self.new.spare }
        ensures room { self.old.room ≤ self.new.room + 1 }
    {
        let undo = self.table.empty(path, call);
        note(&mut self.log, undo);
    }

    // Notes a removal of this path that failed.
    pub(crate) fn mark(&mut self, path: &str, call: u32)
        requires { 1 ≤ self.old.room }
        ensures states { self.new.states ≡
            change_state self.old.states path.now (λ state. state_of_failed_removal state call) }
        ensures past { self.new.past ≡ self.old.past }
        ensures spare { self.old.spare ≤ self.new.spare }
        ensures room { self.old.room ≤ self.new.room + 1 }
    {
        let undo = self.table.mark(path, call);
        note(&mut self.log, undo);
    }

    // Notes a removal of this path from the stop on.
    pub(crate) fn mark_late(&mut self, path: &str)
        ensures states { self.new.states ≡ change_state self.old.states path.now state_of_late_removal }
        ensures past { self.new.past ≡ self.old.past }
        ensures spare { self.old.spare ≤ self.new.spare }
        ensures room { self.old.room ≤ self.new.room }
    {
        self.table.mark_late(path);
    }

    // Notes a sync, where this was the last one before.
    pub(crate) fn sync(&mut self, before: u32)
        requires room { 1 ≤ self.old.room }
        requires early { IsEarly self.old.states }
        ensures states { self.new.states ≡ self.old.states }
        ensures past { self.new.past ≡ (self.old.states, before) ∷ self.old.past }
        ensures spare { self.old.spare ≤ self.new.spare }
        ensures room { self.old.room ≤ self.new.room + 1 }
    {
        note(&mut self.log, Some(Undo::Synced(before)));
    }
}
