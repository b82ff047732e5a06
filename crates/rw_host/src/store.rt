// What a store of files promises.
ghost use Rattle.std.specs.Prelude.{◌≡◌, ◌≢◌, ◌≤◌, ◌<◌, ◌+◌, ℕ, Bool, true, false, IsTrue, IfOk, OnOk, OnErr, IfSome};
ghost use Rattle.std.specs.Prelude.{vec_len};
ghost use Rattle.std.specs.Option.{option_map};
ghost use Rattle.std.specs.FinMap as map;
ghost use Rattle.rw_host.specs.Crash.{Goes, Images, Only, Same};
ghost use Rattle.rw_host.specs.Files.{Files, Rose, SameElsewhere, IsInOrder, first_bytes};

use crate::{Failed, PathText, StoreFault};
use std::alloc::Global;

/// Files by their paths. Not every store tells its files to proofs, as a real folder may change by itself; the
/// clauses on files hold of a store that tells them, and those on crashes of one that tells its images.
///
/// Between two syncs a crash may leave any bytes, or no file, at a path that was written or removed, or whose write or
/// removal failed; other paths stay. After a sync that succeeds it leaves what reads give. (Clauses `crash` and
/// `durable`.)
///
/// A call that answers `Failed` raises the count of its own kind, and no call raises the other. No clause says that the
/// own count stays at another answer. After an error a store holds the files that it held before, but that the path of
/// a `write` or `remove` which failed may hold any bytes or none.
pub trait Store {
    /// Whether the files are told.
    ghost tells_files: { Bool };

    /// The files, as reads give them.
    ghost files: { Self → Files };

    /// For how many writes there is room.
    ghost spare: { Self → ℕ };

    /// How many calls of `list`, `read` and `reserve` have failed.
    ghost read_faults: { Self → ℕ };

    /// How many calls of `write`, `remove` and `sync` have failed.
    ghost write_faults: { Self → ℕ };

    /// Whether something may be lost in a crash: set by each write and removal, done or failed, and cleared by a sync
    /// that succeeds. A store over files that others may have left unsynced begins with it set.
    ghost is_unsynced: { Self → Bool };

    /// Whether it is told what a crash may leave.
    ghost tells_images: { Bool };

    /// What a crash at this moment may leave.
    ghost image: { Self → Images };

    /// The number of this moment, which doesn't fall.
    ghost moment: { Self → ℕ };

    /// What a crash at some moment from that one on might have left.
    ghost left_since: { Self → ℕ → Images };

    /// All paths in the order of their bytes, each once, or `TooMany` where there are more than `most`.
    fn list(&mut self, alloc: Global, most: u32) -> Result<Vec<PathText>, StoreFault>
        ensures paths { IsTrue tells_files → IfOk result (λ paths. paths.items ≡ map.keys (files self.old)) }
        ensures in_order { IfOk result (λ paths. IsInOrder paths.items) }
        ensures at_most { IfOk result (λ paths. vec_len paths ≤ most) }
        ensures all_fit { IsTrue tells_files → OnOk result (map.len (files self.old) ≤ most) }
        ensures too_many { IsTrue tells_files → result ≡ Err StoreFault.TooMany → most < map.len (files self.old) }
        ensures files { files self.new ≡ files self.old }
        ensures spare { spare self.old ≤ spare self.new }
        ensures cause { result ≡ Err StoreFault.Failed → Rose (read_faults self.old) (read_faults self.new) }
        ensures count { read_faults self.old ≤ read_faults self.new }
        ensures other_count { write_faults self.new ≡ write_faults self.old }
        ensures unsynced { is_unsynced self.new ≡ is_unsynced self.old }
        ensures crash { IsTrue tells_images → Goes (moment self.old) (moment self.new) (left_since self.old)
            (left_since self.new) (image self.old) (image self.new) Same };

    /// The first `most` bytes of the file, or `None` where no file has the path. It never answers `TooMany`.
    fn read(&mut self, alloc: Global, path: &str, most: u32) -> Result<Option<Vec<u8>>, StoreFault>
        ensures bytes { IsTrue tells_files → IfOk result (λ found.
            let file = map.get (files self.old) path.now in
            option_map (λ v. v.items) found ≡ option_map (first_bytes most) file) }
        ensures at_most { IfOk result (λ found. IfSome found (λ v. vec_len v ≤ most)) }
        ensures not_many { result ≢ Err StoreFault.TooMany }
        ensures files { files self.new ≡ files self.old }
        ensures spare { spare self.old ≤ spare self.new }
        ensures cause { result ≡ Err StoreFault.Failed → Rose (read_faults self.old) (read_faults self.new) }
        ensures count { read_faults self.old ≤ read_faults self.new }
        ensures other_count { write_faults self.new ≡ write_faults self.old }
        ensures unsynced { is_unsynced self.new ≡ is_unsynced self.old }
        ensures crash { IsTrue tells_images → Goes (moment self.old) (moment self.new) (left_since self.old)
            (left_since self.new) (image self.old) (image self.new) Same };

    /// Makes room for this many writes. It never answers `TooMany`.
    fn reserve(&mut self, paths: u32) -> Result<(), StoreFault>
        ensures room { OnOk result (paths ≤ spare self.new) }
        ensures not_many { result ≢ Err StoreFault.TooMany }
        ensures files { files self.new ≡ files self.old }
        ensures spare { spare self.old ≤ spare self.new }
        ensures cause { result ≡ Err StoreFault.Failed → Rose (read_faults self.old) (read_faults self.new) }
        ensures count { read_faults self.old ≤ read_faults self.new }
        ensures other_count { write_faults self.new ≡ write_faults self.old }
        ensures unsynced { is_unsynced self.new ≡ is_unsynced self.old }
        ensures crash { IsTrue tells_images → Goes (moment self.old) (moment self.new) (left_since self.old)
            (left_since self.new) (image self.old) (image self.new) Same };

    /// Puts the whole file, in place of one that has the path. It uses up the room of one write at most.
    fn write(&mut self, path: PathText, bytes: Vec<u8>) -> Result<(), Failed>
        requires { 1 ≤ spare self.old }
        ensures written { IsTrue tells_files →
            OnOk result (files self.new ≡ map.insert (files self.old) path bytes.items) }
        ensures elsewhere { IsTrue tells_files → SameElsewhere path (files self.old) (files self.new) }
        ensures spare { spare self.old ≤ spare self.new + 1 }
        ensures cause { OnErr result (Rose (write_faults self.old) (write_faults self.new)) }
        ensures count { write_faults self.old ≤ write_faults self.new }
        ensures other_count { read_faults self.new ≡ read_faults self.old }
        ensures unsynced { is_unsynced self.new ≡ true }
        ensures crash { IsTrue tells_images → Goes (moment self.old) (moment self.new) (left_since self.old)
            (left_since self.new) (image self.old) (image self.new) (SameElsewhere path) };

    /// Takes the file away. A path that no file has is `Ok`.
    fn remove(&mut self, path: &str) -> Result<(), Failed>
        ensures removed { IsTrue tells_files → OnOk result (files self.new ≡ map.remove (files self.old) path.now) }
        ensures elsewhere { IsTrue tells_files → SameElsewhere path.now (files self.old) (files self.new) }
        ensures spare { spare self.old ≤ spare self.new }
        ensures cause { OnErr result (Rose (write_faults self.old) (write_faults self.new)) }
        ensures count { write_faults self.old ≤ write_faults self.new }
        ensures other_count { read_faults self.new ≡ read_faults self.old }
        ensures unsynced { is_unsynced self.new ≡ true }
        ensures crash { IsTrue tells_images → Goes (moment self.old) (moment self.new) (left_since self.old)
            (left_since self.new) (image self.old) (image self.new) (SameElsewhere path.now) };

    /// Lets what was written and removed outlast a crash. It changes no file.
    fn sync(&mut self) -> Result<(), Failed>
        ensures files { files self.new ≡ files self.old }
        ensures spare { spare self.old ≤ spare self.new }
        ensures cause { OnErr result (Rose (write_faults self.old) (write_faults self.new)) }
        ensures count { write_faults self.old ≤ write_faults self.new }
        ensures other_count { read_faults self.new ≡ read_faults self.old }
        ensures synced { OnOk result (is_unsynced self.new ≡ false) }
        ensures durable { IsTrue tells_images → OnOk result (Only (files self.new) (image self.new)) }
        ensures crash { IsTrue tells_images → Goes (moment self.old) (moment self.new) (left_since self.old)
            (left_since self.new) (image self.old) (image self.new) Same };

    /// A store that tells what crashes leave tells its files, and what reads give is one of its images.
    ghost told_together: { IsTrue tells_images → IsTrue tells_files };

    ghost reads_are_left: { (store : Self) → image store (files store) };

    /// A crash at this moment leaves an image of this moment, and each of these may be left.
    ghost only_now: { (store : Self) (c : Files) → left_since store (moment store) c → image store c };

    ghost counts_now: { (store : Self) (t : ℕ) (c : Files) → t ≤ moment store → image store c → left_since store t c };
}
