// Commits over a store in memory of the given files. A case is the text of a journal, and its batch is committed behind
// a recovery.
ghost use Rattle.std.specs.Prelude.{◌≡◌, ◌≤◌, ◌+◌, false, length, IsTrue, IfSome, OnOk};
ghost use Rattle.rw_host.specs.Crash.{Only};
ghost use Rattle.run_journal.specs.Standing.{is_open};

use crate::journals::{Failing, File, files_of, files_read, put_files, store_with};
use crate::sinks::put_done;
use examples_base::Answer;
use memory_stores::MemoryStore;
use run_journal::{Sealed, a_recovery_makes_the_repository, commit, read_journal, recover, seal};
use rw_host::{Failed, Store, StoreFault};
use std::alloc::Global;

// From this call on all fail, so that it is known how many were made before.
const STOP: u32 = 10_000;

// These choose the same file for each of the first sixteen unsynced paths.
const PICKS: [u32; 4] = [0, 0x5555_5555, 0xaaaa_aaaa, 0xffff_ffff];

// A sealed batch, and for how many writes its commit needs room.
#[derive(Drop)]
struct ToCommit {
    sealed: Sealed,
    room: u32,
}

// The batch of a journal.
#[tactic(auto, using(run_journal::proofs::Committing::lengths))]
fn batch_in(alloc: Global, text: &[u8]) -> Option<ToCommit>
    ensures { IfSome result (λ batch. length batch.sealed + 2 ≤ batch.room) }
{
    let batch = read_journal(alloc, text).ok()?;
    let room = u32::try_from(batch.entries.len().saturating_add(2)).ok()?;
    let sealed = seal(alloc, batch).ok()?;
    Some(ToCommit { sealed, room })
}

// Closes the gate and makes room.
fn make_ready<S: Store>(alloc: Global, store: &mut S, room: u32) -> Result<(), Failed>
    ensures room { OnOk result (room ≤ S.spare store.new) }
    ensures one_image { IsTrue S.tells_images → OnOk result (Only (S.files store.new) (S.image store.new)) }
    ensures closed { IsTrue S.tells_files → OnOk result (is_open (S.files store.new) ≡ false) }
{
    a_recovery_makes_the_repository();
    recover(alloc, store).map_err(|_| Failed)?;
    store.reserve(room).map_err(|_| Failed)?;
    Ok(())
}

fn commit_batch<S: Store>(alloc: Global, store: &mut S, batch: ToCommit) -> Result<(), Failed>
    requires { length batch.sealed + 2 ≤ batch.room }
{
    make_ready(alloc, store, batch.room)?;
    commit(store, batch.sealed)
}

// How many calls of a store succeed before one fails.
fn calls_left(store: &mut MemoryStore) -> u32 {
    for count in 0..STOP {
        if store.sync().is_err() {
            return count;
        }
    }
    STOP
}

// How many calls succeed where a store is made ready for a commit.
fn calls_left_before(alloc: Global, givens: &[String], room: u32, out: &mut Answer) -> Option<u32> {
    let mut store = store_with(alloc, givens, Failing::From(STOP), out)?;
    make_ready(alloc, &mut store, room).ok()?;
    Some(calls_left(&mut store))
}

// Whether a crash at this moment leaves these files, whichever image is chosen.
fn is_one_image(alloc: Global, store: &MemoryStore, files: &[File]) -> Result<bool, StoreFault> {
    for pick in PICKS {
        let mut image = store.crash(alloc, pick)?;
        if files_of(alloc, &mut image)?.as_slice() != files {
            return Ok(false);
        }
    }
    Ok(true)
}

/// What is known behind a commit.
#[derive(Drop)]
pub struct Committed {
    pub done: Result<(), Failed>,
    pub files: Vec<File>,
    pub one_image: bool,
    pub calls: u32,
}

/// Commits the batch of a journal over the given files. `None` says that the text is no journal, or that there is no
/// memory.
pub fn commit_given(
    alloc: Global,
    givens: &[String],
    text: &[u8],
    out: &mut Answer,
) -> Option<Committed> {
    let batch = batch_in(alloc, text)?;
    let before = calls_left_before(alloc, givens, batch.room, out)?;
    let mut store = store_with(alloc, givens, Failing::From(STOP), out)?;
    let done = commit_batch(alloc, &mut store, batch);
    let files = files_read(alloc, &store).ok()?;
    let one_image = is_one_image(alloc, &store, &files).ok()?;
    let calls = before.saturating_sub(calls_left(&mut store));
    Some(Committed {
        done,
        files,
        one_image,
        calls,
    })
}

/// Writes whether a crash leaves one image alone, and how many calls the commit made.
pub fn put_end(committed: &Committed, out: &mut Answer) {
    out.put(if committed.one_image {
        ", one image, "
    } else {
        ", other images, "
    });
    out.put_number(committed.calls as usize);
    out.put(" calls");
}

/// Writes what a commit of the batch of this journal answers, and the files then.
pub fn put_commit(alloc: Global, givens: &[String], text: &[u8], out: &mut Answer) {
    match commit_given(alloc, givens, text, out) {
        Some(committed) => {
            put_done(committed.done, out);
            out.put(", ");
            put_files(&committed.files, text, out);
            put_end(&committed, out);
        }
        None => out.refuse("commit"),
    }
}
