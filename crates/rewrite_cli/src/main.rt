//! The program: applies the recipes of a `rewrite.yml` to the files of the current folder, or tells which files aren't
//! read, what a stopped run still has to do, and which runs there were.
//!
//! ```text
//! rewrite run --recipe shop.Upgrade
//! rewrite dry --recipe shop.Upgrade
//! rewrite check
//! rewrite recover
//! rewrite history
//! ```
//!
//! `main` hands the words, the real folder and standard output to the call `rewrite`, which is written for any store
//! and sink and answers the exit status. What a command answers over a repository is one definition, `answer`: the
//! status, the text and the files that are left. Where no fault comes in between, the status is that of the answer
//! (`rewrite`, clause `status`), the files are those that it leaves (`files`), and its text was put (`text`, `line`). 2
//! comes exactly where the words are others (`usage`), and then the store isn't used (`unused`). 4, 5 and 7 come only
//! where a count of faults rose (`read_fault`, `write_fault`, `sink_fault`). At 3, 4, 6, 8 and 9 no file has changed
//! but by the recovery that `run` and `recover` begin with (`unchanged`). Wherever a command is stopped, a crash leaves
//! files that stand for the old repository or for the new one (`any_moment`); after `run` and `recover` answer 0, 1 or
//! 7 for the new one alone (`one_image`), with nothing left to sync (`synced`). No clause speaks of workers.
//!
//! Definitions, in this order: `Stubs`, `Sources` and `Limits` (which files are read, and how many there may be),
//! `Checking` (which are refused, and the text of `check`), `Meanings` and `Opening` (the state and the plan that a run
//! begins with), `Running` (how a recipe ends over a repository, by the scheduler's `run`), `Changes` (what is
//! written), `Report` (its text), `Histories` and `Journals` (the runs before, and what a stopped one left), `Answers`,
//! `Statuses`, `Moments` (old or new). The words are those of the crate `command_words`. `Ends` and `Prepared` serve
//! private functions alone.
#![tactic(auto)]

mod changes;
mod checking;
mod commits;
mod histories;
mod journals;
mod limits;
mod opening;
mod planning;
mod report;
mod rewrite;
mod running;
mod sources;
mod stop;
mod stubs;
#[cfg(test)]
mod tests;
mod text;

use crate::rewrite::rewrite;
use crate::stop::NO_MEMORY;
use rw_base::Mem;
use rw_host::{FolderStore, OpenGate, StdSink};
use std::alloc::Global;
use std::env::Env;
use std::io::ErrorKind;
use std::process::ExitCode;

// The words behind the program's name. Where some word isn't UTF-8 there are none: they ask for no command either.
fn words_of<R: Env + AllocGlobal>(rt: &R, alloc: Global) -> Result<Vec<String>, u8> {
    let words = match std::env::args(rt) {
        Ok(words) => words,
        Err(e) if e.kind() == ErrorKind::OutOfMemory => return Err(NO_MEMORY),
        Err(_) => return Ok(Vec::new(alloc)),
    };
    words.skip(1).collect(alloc).map_err(|_| NO_MEMORY)
}

fn run(rt: HostRuntime, alloc: Global) -> Result<u8, u8> {
    let words = words_of(&rt, alloc)?;
    let host = rt.clone().map_err(|_| NO_MEMORY)?;
    let mut out = StdSink::new(host);
    let mut store = FolderStore::new(rt, alloc, ".").map_err(|_| NO_MEMORY)?;
    Ok(rewrite(alloc, &words, &mut store, &mut out, &OpenGate))
}

fn main(rt: HostRuntime) -> ExitCode {
    let alloc = rt.alloc();
    match run(rt, alloc) {
        Ok(status) | Err(status) => ExitCode::from(status),
    }
}
