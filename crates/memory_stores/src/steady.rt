// A store in memory that never fails.
ghost use Rattle.std.specs.Prelude.{◌≡◌, IfOk, true, false, refl};
ghost use Rattle.std.specs.FinMap as map;
ghost use Rattle.memory_stores.specs.States.{now_of};
ghost use Rattle.memory_stores.specs.Table.{IsEachOnce, entries_of};

use crate::table::Table;
use rw_base::Mem;
use rw_host::{Failed, PathText, Store, StoreFault};
use std::alloc::Global;
use std::marker::Model;

/// Files in memory. It tells its files, and no call fails but for want of memory. Contracts see the files, and for
/// how many writes there is room.
#[derive(Debug, Drop)]
pub struct SteadyStore {
    table: Table,
    is_unsynced: bool,
}

impl Model for SteadyStore {
    ghost use Rattle.memory_stores.specs.Table.{Content, content_code};

    ghost Value = { Content };

    ghost coded = { content_code };

    ghost use Rattle.memory_stores.specs.States.{now_of};

    ghost view = { λ s. record {
      files = now_of s.table.states;
      spare = s.table.spare;
      is_unsynced = s.is_unsynced;
    } };
}

impl SteadyStore {
    /// The store of these files, in any order. Needs each path once.
    pub fn new(alloc: Global, files: Vec<(PathText, Vec<u8>)>) -> Mem<SteadyStore>
        requires each_once { IsEachOnce files.items }
        ensures files { IfOk result (λ store. store.files ≡ map.from_entries (entries_of files.items)) }
        ensures unsynced { IfOk result (λ store. store.is_unsynced ≡ false) }
    {
        Ok(SteadyStore::of(Table::new(alloc, files)?))
    }

    // The store of this table.
    pub(crate) fn of(table: Table) -> SteadyStore
        ensures files { result.files ≡ now_of table.states }
        ensures unsynced { result.is_unsynced ≡ false }
    {
        SteadyStore {
            table,
            is_unsynced: false,
        }
    }
}

impl Store for SteadyStore {
    ghost tells_files = { true };

    ghost files = { λ s. s.files };

    ghost spare = { λ s. s.spare };

    ghost read_faults = { λ _. 0 };

    ghost write_faults = { λ _. 0 };

    ghost is_unsynced = { λ s. s.is_unsynced };

    ghost tells_images = { false };

    ghost image = { λ _ _. Unit {0} };

    ghost moment = { λ _. 0 };

    ghost left_since = { λ _ _ _. Unit {0} };

    ghost told_together = { λ _. refl };

    ghost reads_are_left = { λ _. tt };

    ghost only_now = { λ _ _ _. tt };

    ghost counts_now = { λ _ _ _ _ _. tt };

    fn list(&mut self, alloc: Global, most: u32) -> Result<Vec<PathText>, StoreFault> {
        self.table.list(alloc, most)
    }

    fn read(
        &mut self,
        alloc: Global,
        path: &str,
        most: u32,
    ) -> Result<Option<Vec<u8>>, StoreFault> {
        self.table.read(alloc, path, most)
    }

    fn reserve(&mut self, paths: u32) -> Result<(), StoreFault> {
        Ok(self.table.reserve(paths)?)
    }

    fn write(&mut self, path: PathText, bytes: Vec<u8>) -> Result<(), Failed> {
        self.table.put(path, bytes, 0);
        self.is_unsynced = true;
        Ok(())
    }

    fn remove(&mut self, path: &str) -> Result<(), Failed> {
        self.table.take(path);
        self.is_unsynced = true;
        Ok(())
    }

    fn sync(&mut self) -> Result<(), Failed> {
        self.is_unsynced = false;
        Ok(())
    }
}
