// The paths of entries, read from a place in a journal's bytes.
ghost use Rattle.std.specs.Prelude.{◌≡◌, ◌↔◌, ◌≤◌, ℕ, IsTrue, length, drop, IfOk, IfErr, IfSome, IfNone, MatchOption};
ghost use Rattle.journal_text.specs.Changes.{IsFree};
ghost use Rattle.journal_text.specs.Forms.{StuckAt};
ghost use Rattle.journal_text.specs.Parts.{Lacks, Ended, MayFollow, IsPathBehind, IsLine, TookPath};
ghost use Rattle.journal_text.specs.Reading.{OnAt};
ghost use Rattle.journal_text.specs.Stops.{IsBefore};

use crate::fault::{JournalFault, stop_at};
use crate::stops::path_stop;
use rw_base::{Mem, NoMemory};
use rw_host::PathText;
use std::alloc::Global;
use std::cmp::Ordering;

pub const GATE: &str = ".rewrite/gate";

pub const JOURNAL: &str = ".rewrite/journal";

// The place of the next LF.
fn line_end(bytes: &[u8], at: usize) -> Option<usize>
    requires { at ≤ length bytes.now }
    ensures some { IfSome result (λ end. IsLine bytes.now at end) }
    ensures none { IfNone result (Lacks 10 (drop at bytes.now)) }
{
    for end in at..bytes.len() {
        if bytes[end] == b'\n' {
            return Some(end);
        }
    }
    None
}

// Whether the path is neither the gate's nor the journal's.
#[tactic(auto, unfolding(crate::specs::Changes::gate, crate::specs::Changes::journal))]
fn is_free(path: &str) -> bool
    ensures { IsTrue result ↔ IsFree path.now }
{
    path != GATE && path != JOURNAL
}

// The path of these bytes, or `None` where no entry behind that path may have them.
fn allowed_path(alloc: Global, text: &[u8], before: &[u8]) -> Mem<Option<PathText>>
    ensures { IfOk result (λ made. MatchOption made
        (MayFollow before.now text.now → ⊥)
        (λ path. MayFollow before.now text.now × (path ≡ text.now))) }
{
    if before.cmp(text) != Ordering::Less {
        return Ok(None);
    }
    let Ok(text) = str::from_utf8(text) else {
        return Ok(None)
    };
    if is_free(text) {
        PathText::new(alloc, text)
    } else {
        Ok(None)
    }
}

pub fn path(
    alloc: Global,
    bytes: &[u8],
    at: usize,
    before: &[u8],
) -> Result<(PathText, usize), JournalFault>
    requires before { IsBefore before.now }
    requires inside { at ≤ length bytes.now }
    requires size { length bytes.now ≤ 1073741824 }
    ensures took { IfOk result (λ found. TookPath before.now bytes.now at found.1 found.0) }
    ensures stuck { IfErr result (λ fault. OnAt fault (StuckAt (Ended (IsPathBehind before.now) 10) bytes.now at)) }
{
    match line_end(bytes, at) {
        None => Err(stop_at(at + path_stop(before, &bytes[at..]))),
        Some(end) => {
            let line = &bytes[at..end];
            match allowed_path(alloc, line, before) {
                Err(NoMemory) => Err(JournalFault::NoMemory),
                Ok(None) => Err(stop_at(at + path_stop(before, line))),
                Ok(Some(path)) => Ok((path, end + 1)),
            }
        }
    }
}
