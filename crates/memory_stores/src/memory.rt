// A store in memory whose calls can be made to fail.
ghost use Rattle.std.specs.Prelude.{◌≡◌, ◌≢◌, ◌≤◌, ◌<◌, ◌+◌, ◌-◌, ◌↔◌, ℕ, List, [], ◌∷◌, true, false, vec_len};
ghost use Rattle.std.specs.Prelude.{IsTrue, IsErr, IfOk, IfSome, OnOk, OnErr, if◌then◌else◌};
ghost use Rattle.std.specs.Option.{option_map};
ghost use Rattle.std.specs.FinMap as map;
ghost use Rattle.rw_host.specs.Crash.{Only, Same};
ghost use Rattle.rw_host.specs.Files.{Rose, SameElsewhere, IsInOrder, first_bytes};
ghost use Rattle.memory_stores.specs.States.{state_of_write, state_of_write_fault, state_of_removal};
ghost use Rattle.memory_stores.specs.States.{state_of_removal_fault, change_state, now_of};
ghost use Rattle.memory_stores.specs.Table.{IsEachOnce, entries_of, initial_states};
ghost use Rattle.memory_stores.specs.Images.{moments};
ghost use Rattle.memory_stores.specs.Picked.{picked};
ghost use Rattle.memory_stores.specs.ImageLaws.{left_now, now_counts, reads_left};
ghost use Rattle.memory_stores.specs.Memory.{IsNextCall, IsUnsynced, GoesBy, now, image, moment, left_since};
ghost use Rattle.memory_stores.specs.Memory.{next_call, is_to_fail, count_after, stop_of};

use crate::SteadyStore;
use crate::log::LoggedTable;
use rw_base::Mem;
use rw_host::{Failed, PathText, Store, StoreFault};
use std::alloc::Global;
use std::marker::Model;

// From this call on every call fails, whatever was asked.
const LAST_STOP: u32 = 65_536;

/// Files in memory. It tells its files, and what crashes leave. Calls are numbered from 1; those whose number was asked
/// to fail change no file, and so do all from a given one on. It keeps what it knows of each path: its file, whether it
/// ever had one, and the last call that wrote or removed it, so that the paths that changed since the last sync are
/// known. A path counts as changed by a write or a removal that failed too, but never by a removal where it never had a
/// file. How to go back behind each call is kept too, so that what each sync found is known.
#[derive(Debug, Drop)]
pub struct MemoryStore {
    table: LoggedTable,
    fail: Vec<u32>,
    stop: u32,
    calls: u32,
    synced: u32,
    is_unsynced: bool,
    read_faults: u64,
    write_faults: u64,
}

impl Model for MemoryStore {
    ghost use Rattle.std.specs.Prelude.{◌-◌, min};
    ghost use Rattle.memory_stores.specs.Memory.{Record, record_code};

    ghost Value = { Record };

    ghost coded = { record_code };

    ghost view = { λ s. record {
      states = s.table.states;
      past = s.table.past;
      spare = min s.table.spare (s.table.room - (65536 - s.calls));
      room = s.table.room;
      fail = s.fail.items;
      stop = s.stop;
      calls = s.calls;
      synced = s.synced;
      is_unsynced = s.is_unsynced;
      read_faults = s.read_faults;
      write_faults = s.write_faults;
    } };

    ghost use Rattle.memory_stores.specs.Memory.{IsRecord};

    ghost invariant = { λ s. IsRecord s.table.states s.stop s.calls s.synced s.table.room };
}

impl MemoryStore {
    /// The store of these files, in any order. Needs each path once. The calls whose numbers stand in `fail` fail, and
    /// from the call `stop` on all do; 0, and each number above 65,536, mean 65,536.
    pub fn new(
        alloc: Global,
        files: Vec<(PathText, Vec<u8>)>,
        fail: Vec<u32>,
        stop: u32,
    ) -> Mem<MemoryStore>
        requires each_once { IsEachOnce files.items }
        ensures files { IfOk result (λ store. now_of store.states ≡ map.from_entries (entries_of files.items)) }
        ensures states { IfOk result (λ store. store.states ≡ map.from_entries (initial_states files.items)) }
        ensures fail { IfOk result (λ store. store.fail ≡ fail.items) }
        ensures stop { IfOk result (λ store. store.stop ≡ stop_of stop) }
        ensures past { IfOk result (λ store. store.past ≡ (store.states, 0) ∷ []) }
        ensures all_synced { IfOk result (λ store. (path : List ℕ) → ¬ (IsUnsynced store path)) }
        ensures unsynced { IfOk result (λ store. store.is_unsynced ≡ false) }
        ensures no_calls { IfOk result (λ store. store.calls ≡ 0) }
        ensures synced { IfOk result (λ store. store.synced ≡ 0) }
        ensures no_read_faults { IfOk result (λ store. store.read_faults ≡ 0) }
        ensures no_write_faults { IfOk result (λ store. store.write_faults ≡ 0) }
    {
        let table = LoggedTable::new(alloc, files, LAST_STOP)?;
        Ok(MemoryStore {
            table,
            fail,
            stop: real_stop(stop),
            calls: 0,
            synced: 0,
            is_unsynced: false,
            read_faults: 0,
            write_faults: 0,
        })
    }

    /// One of the images that a crash at this moment may leave, as a store of its own. The digits of `pick` to the base
    /// 4 choose the files of the unsynced paths in their order, the last digit that of the first path: 0 the file of
    /// the last sync, 1 the one that reads give, 2 none, 3 the one byte `?`. Behind the sixteenth path it is always 0.
    pub fn crash(&self, alloc: Global, pick: u32) -> Mem<SteadyStore>
        ensures files { IfOk result (λ store. store.files ≡ picked pick self.now) }
        ensures image { IfOk result (λ store. image self.now store.files) }
        ensures unsynced { IfOk result (λ store. store.is_unsynced ≡ false) }
    {
        let table = self.table.picked(alloc, self.synced, pick)?;
        Ok(SteadyStore::of(table))
    }

    // Counts the call that begins, and tells whether it is to fail.
    fn begin(&mut self) -> bool
        ensures fails { result ≡ is_to_fail self.old }
        ensures counted { self.new ≡ record self.old { calls = next_call self.old; spare = self.new.spare } }
        ensures spare { self.old.spare ≤ self.new.spare }
        ensures room { 65537 ≤ self.new.room + self.new.calls }
        ensures room_left { self.new.calls < 65536 → self.old.spare ≤ self.new.room - 1 - (65536 - self.new.calls) }
        ensures early { result ≡ false → self.new.calls < self.new.stop }
        ensures later { self.new.synced < self.new.calls }
    {
        self.calls = self.calls.saturating_add(1);
        self.fail.contains(&self.calls) || self.calls >= self.stop
    }

    // Counts a fault of `list`, `read` or `reserve`.
    fn read_fault(&mut self) -> StoreFault
        ensures fault { result ≡ StoreFault.Failed }
        ensures counted { self.new ≡ record self.old { read_faults = count_after true self.old.read_faults } }
        ensures rose { self.old.read_faults ≤ self.new.read_faults }
    {
        self.read_faults = self.read_faults.saturating_add(1);
        StoreFault::Failed
    }

    // Counts a fault of `write`, `remove` or `sync`.
    fn write_fault(&mut self) -> Failed
        ensures counted { self.new ≡ record self.old { write_faults = count_after true self.old.write_faults } }
        ensures rose { self.old.write_faults ≤ self.new.write_faults }
    {
        self.write_faults = self.write_faults.saturating_add(1);
        Failed
    }
}

fn real_stop(asked: u32) -> u32
    ensures { result ≡ stop_of asked }
{
    if asked == 0 || asked > LAST_STOP {
        LAST_STOP
    } else {
        asked
    }
}

// Notes a write that failed.
fn touch(table: &mut LoggedTable, path: PathText, call: u32, stop: u32)
    requires spare { 1 ≤ table.old.spare }
    requires room { 1 ≤ table.old.room }
    ensures states { let state = state_of_write_fault call stop (map.get table.old.states path) in
        table.new.states ≡ map.insert table.old.states path state }
    ensures past { table.new.past ≡ table.old.past }
    ensures spare { table.old.spare ≤ table.new.spare + 1 }
    ensures room { table.old.room ≤ table.new.room + 1 }
{
    if call < stop {
        table.touch(path, call);
    } else {
        table.touch_late(path);
    }
}

// Notes a removal that failed.
fn mark(table: &mut LoggedTable, path: &str, call: u32, stop: u32)
    requires { call < stop → 1 ≤ table.old.room }
    ensures states { table.new.states ≡ change_state table.old.states path.now (state_of_removal_fault call stop) }
    ensures past { table.new.past ≡ table.old.past }
    ensures spare { table.old.spare ≤ table.new.spare }
    ensures room { table.old.room ≤ table.new.room + 1 }
    ensures late_room { stop ≤ call → table.old.room ≤ table.new.room }
{
    if call < stop {
        table.mark(path, call);
    } else {
        table.mark_late(path);
    }
}

impl Store for MemoryStore {
    ghost tells_files = { true };

    ghost files = { λ s. now_of s.states };

    ghost spare = { λ s. s.spare };

    ghost read_faults = { λ s. s.read_faults };

    ghost write_faults = { λ s. s.write_faults };

    ghost is_unsynced = { λ s. s.is_unsynced };

    ghost tells_images = { true };

    ghost image = { λ s c. image s c };

    ghost moment = { λ s. moment s };

    ghost left_since = { λ s t c. left_since s t c };

    ghost told_together = { λ told. told };

    ghost reads_are_left = { λ s. reads_left (now s) };

    ghost only_now = { λ s c left. left_now (now s) (moments s.past) c left };

    ghost counts_now = { λ s t c le is. now_counts (now s) (moments s.past) t c le is };

    fn list(&mut self, alloc: Global, most: u32) -> Result<Vec<PathText>, StoreFault>
        ensures paths { IsTrue true → IfOk result (λ paths. paths.items ≡ map.keys (now_of self.old.states)) }
        ensures in_order { IfOk result (λ paths. IsInOrder paths.items) }
        ensures at_most { IfOk result (λ paths. vec_len paths ≤ most) }
        ensures all_fit { IsTrue true → OnOk result (map.len (now_of self.old.states) ≤ most) }
        ensures too_many { IsTrue true → result ≡ Err StoreFault.TooMany → most < map.len (now_of self.old.states) }
        ensures files { now_of self.new.states ≡ now_of self.old.states }
        ensures spare { self.old.spare ≤ self.new.spare }
        ensures cause { result ≡ Err StoreFault.Failed → Rose self.old.read_faults self.new.read_faults }
        ensures count { self.old.read_faults ≤ self.new.read_faults }
        ensures other_count { self.new.write_faults ≡ self.old.write_faults }
        ensures unsynced { self.new.is_unsynced ≡ self.old.is_unsynced }
        ensures crash { IsTrue true → GoesBy self.old self.new Same }
        ensures failed { result ≡ Err StoreFault.Failed ↔ IsTrue (is_to_fail self.old) }
        ensures faults { self.new.read_faults ≡ count_after (is_to_fail self.old) self.old.read_faults }
        ensures next { IsNextCall self.old self.new }
        ensures states { self.new.states ≡ self.old.states }
        ensures past { self.new.past ≡ self.old.past }
        ensures last_sync { self.new.synced ≡ self.old.synced }
    {
        if self.begin() {
            return Err(self.read_fault());
        }
        self.table.table.list(alloc, most)
    }

    fn read(&mut self, alloc: Global, path: &str, most: u32) -> Result<Option<Vec<u8>>, StoreFault>
        ensures bytes { IsTrue true → IfOk result (λ found.
            let file = map.get (now_of self.old.states) path.now in
            option_map (λ v. v.items) found ≡ option_map (first_bytes most) file) }
        ensures at_most { IfOk result (λ found. IfSome found (λ v. vec_len v ≤ most)) }
        ensures not_many { result ≢ Err StoreFault.TooMany }
        ensures files { now_of self.new.states ≡ now_of self.old.states }
        ensures spare { self.old.spare ≤ self.new.spare }
        ensures cause { result ≡ Err StoreFault.Failed → Rose self.old.read_faults self.new.read_faults }
        ensures count { self.old.read_faults ≤ self.new.read_faults }
        ensures other_count { self.new.write_faults ≡ self.old.write_faults }
        ensures unsynced { self.new.is_unsynced ≡ self.old.is_unsynced }
        ensures crash { IsTrue true → GoesBy self.old self.new Same }
        ensures failed { result ≡ Err StoreFault.Failed ↔ IsTrue (is_to_fail self.old) }
        ensures faults { self.new.read_faults ≡ count_after (is_to_fail self.old) self.old.read_faults }
        ensures next { IsNextCall self.old self.new }
        ensures states { self.new.states ≡ self.old.states }
        ensures past { self.new.past ≡ self.old.past }
        ensures last_sync { self.new.synced ≡ self.old.synced }
    {
        if self.begin() {
            return Err(self.read_fault());
        }
        self.table.table.read(alloc, path, most)
    }

    fn reserve(&mut self, paths: u32) -> Result<(), StoreFault>
        ensures room { OnOk result (paths ≤ self.new.spare) }
        ensures not_many { result ≢ Err StoreFault.TooMany }
        ensures files { now_of self.new.states ≡ now_of self.old.states }
        ensures spare { self.old.spare ≤ self.new.spare }
        ensures cause { result ≡ Err StoreFault.Failed → Rose self.old.read_faults self.new.read_faults }
        ensures count { self.old.read_faults ≤ self.new.read_faults }
        ensures other_count { self.new.write_faults ≡ self.old.write_faults }
        ensures unsynced { self.new.is_unsynced ≡ self.old.is_unsynced }
        ensures crash { IsTrue true → GoesBy self.old self.new Same }
        ensures failed { result ≡ Err StoreFault.Failed ↔ IsTrue (is_to_fail self.old) }
        ensures faults { self.new.read_faults ≡ count_after (is_to_fail self.old) self.old.read_faults }
        ensures next { IsNextCall self.old self.new }
        ensures states { self.new.states ≡ self.old.states }
        ensures past { self.new.past ≡ self.old.past }
        ensures last_sync { self.new.synced ≡ self.old.synced }
    {
        if self.begin() {
            return Err(self.read_fault());
        }
        Ok(self.table.reserve(paths, LAST_STOP)?)
    }

    fn write(&mut self, path: PathText, bytes: Vec<u8>) -> Result<(), Failed>
        requires { 1 ≤ self.old.spare }
        ensures written { IsTrue true →
            OnOk result (now_of self.new.states ≡ map.insert (now_of self.old.states) path bytes.items) }
        ensures elsewhere { IsTrue true → SameElsewhere path (now_of self.old.states) (now_of self.new.states) }
        ensures spare { self.old.spare ≤ self.new.spare + 1 }
        ensures cause { OnErr result (Rose self.old.write_faults self.new.write_faults) }
        ensures count { self.old.write_faults ≤ self.new.write_faults }
        ensures other_count { self.new.read_faults ≡ self.old.read_faults }
        ensures unsynced { self.new.is_unsynced ≡ true }
        ensures crash { IsTrue true → GoesBy self.old self.new (SameElsewhere path) }
        ensures failed { IsErr result ↔ IsTrue (is_to_fail self.old) }
        ensures faults { self.new.write_faults ≡ count_after (is_to_fail self.old) self.old.write_faults }
        ensures next { IsNextCall self.old self.new }
        ensures kept { OnErr result (now_of self.new.states ≡ now_of self.old.states) }
        ensures states { OnOk result (
            let state = state_of_write bytes.items (next_call self.old) in
            self.new.states ≡ map.insert self.old.states path state) }
        ensures failed_states { OnErr result (
            let state = state_of_write_fault (next_call self.old) self.old.stop (map.get self.old.states path) in
            self.new.states ≡ map.insert self.old.states path state) }
        ensures past { self.new.past ≡ self.old.past }
        ensures last_sync { self.new.synced ≡ self.old.synced }
        ensures path_unsynced { IsUnsynced self.new path }
    {
        if self.begin() {
            touch(&mut self.table, path, self.calls, self.stop);
            self.is_unsynced = true;
            return Err(self.write_fault());
        }
        self.table.put(path, bytes, self.calls);
        self.is_unsynced = true;
        Ok(())
    }

    fn remove(&mut self, path: &str) -> Result<(), Failed>
        ensures removed { IsTrue true →
            OnOk result (now_of self.new.states ≡ map.remove (now_of self.old.states) path.now) }
        ensures elsewhere { IsTrue true → SameElsewhere path.now (now_of self.old.states) (now_of self.new.states) }
        ensures spare { self.old.spare ≤ self.new.spare }
        ensures cause { OnErr result (Rose self.old.write_faults self.new.write_faults) }
        ensures count { self.old.write_faults ≤ self.new.write_faults }
        ensures other_count { self.new.read_faults ≡ self.old.read_faults }
        ensures unsynced { self.new.is_unsynced ≡ true }
        ensures crash { IsTrue true → GoesBy self.old self.new (SameElsewhere path.now) }
        ensures failed { IsErr result ↔ IsTrue (is_to_fail self.old) }
        ensures faults { self.new.write_faults ≡ count_after (is_to_fail self.old) self.old.write_faults }
        ensures next { IsNextCall self.old self.new }
        ensures kept { OnErr result (now_of self.new.states ≡ now_of self.old.states) }
        ensures states { OnOk result (self.new.states ≡
            change_state self.old.states path.now (λ state. state_of_removal state (next_call self.old))) }
        ensures failed_states { OnErr result (self.new.states ≡
            change_state self.old.states path.now (state_of_removal_fault (next_call self.old) self.old.stop)) }
        ensures past { self.new.past ≡ self.old.past }
        ensures last_sync { self.new.synced ≡ self.old.synced }
    {
        if self.begin() {
            mark(&mut self.table, path, self.calls, self.stop);
            self.is_unsynced = true;
            return Err(self.write_fault());
        }
        self.table.empty(path, self.calls);
        self.is_unsynced = true;
        Ok(())
    }

    fn sync(&mut self) -> Result<(), Failed>
        ensures files { now_of self.new.states ≡ now_of self.old.states }
        ensures spare { self.old.spare ≤ self.new.spare }
        ensures cause { OnErr result (Rose self.old.write_faults self.new.write_faults) }
        ensures count { self.old.write_faults ≤ self.new.write_faults }
        ensures other_count { self.new.read_faults ≡ self.old.read_faults }
        ensures synced { OnOk result (self.new.is_unsynced ≡ false) }
        ensures durable { IsTrue true → OnOk result (Only (now_of self.new.states) (image self.new)) }
        ensures crash { IsTrue true → GoesBy self.old self.new Same }
        ensures failed { IsErr result ↔ IsTrue (is_to_fail self.old) }
        ensures faults { self.new.write_faults ≡ count_after (is_to_fail self.old) self.old.write_faults }
        ensures next { IsNextCall self.old self.new }
        ensures states { self.new.states ≡ self.old.states }
        ensures all_synced { OnOk result ((path : List ℕ) → ¬ (IsUnsynced self.new path)) }
        ensures past { OnOk result (self.new.past ≡ (self.old.states, self.old.synced) ∷ self.old.past) }
        ensures past_kept { OnErr result (self.new.past ≡ self.old.past) }
        ensures still_unsynced { OnErr result (self.new.is_unsynced ≡ self.old.is_unsynced) }
        ensures last_sync { self.new.synced ≡ (if is_to_fail self.old then self.old.synced else next_call self.old) }
    {
        if self.begin() {
            return Err(self.write_fault());
        }
        self.table.sync(self.synced);
        self.synced = self.calls;
        self.is_unsynced = false;
        Ok(())
    }
}
