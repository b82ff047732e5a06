// A batch with all that its commit writes.
ghost use Rattle.std.specs.Prelude.{◌≡◌, ◌≤◌, [], ◌∷◌, length, IfOk};
ghost use Rattle.journal_text.specs.Changes.{changes_of, gate, journal, Rises, AllFree, IsBatch};
ghost use Rattle.journal_text.specs.Text.{journal_text};

use crate::batch::{Batch, Entry};
use crate::paths::{GATE, JOURNAL};
use crate::text::journal_of;
use rw_base::Mem;
use rw_host::PathText;
use std::alloc::Global;
use std::marker::Model;

/// A batch with its journal, the two paths and the gate's byte, so that its commit takes no memory. Contracts see the
/// changes.
#[derive(Debug, Drop)]
pub struct Sealed {
    entries: Vec<Entry>,
    text: Vec<u8>,
    journal_path: PathText,
    gate_path: PathText,
    gate_byte: Vec<u8>,
}

impl Model for Sealed {
    ghost use Rattle.std.specs.Prelude.{List};
    ghost use Rattle.journal_text.specs.Changes.{Change, changes_of};
    ghost use Rattle.journal_text.specs.Sealing.{IsSealed};

    ghost Value = { List Change };

    ghost view = { λ s. changes_of s.entries.items };

    ghost invariant = { λ s. IsSealed (changes_of s.entries.items) s.text.items s.journal_path s.gate_path
        s.gate_byte.items };
}

/// What a commit writes: the journal at its path, the gate's byte at its path, and the entries.
#[derive(Debug, Drop)]
pub struct SealedParts {
    pub entries: Vec<Entry>,
    pub text: Vec<u8>,
    pub journal_path: PathText,
    pub gate_path: PathText,
    pub gate_byte: Vec<u8>,
}

impl Sealed {
    /// All that a commit writes. Takes no memory.
    pub fn into_parts(self) -> SealedParts
        ensures entries { changes_of result.entries.items ≡ self }
        ensures batch { IsBatch self }
        ensures text { result.text.items ≡ journal_text self }
        ensures size { length result.text.items ≤ 1073741824 }
        ensures journal_path { result.journal_path ≡ journal }
        ensures gate_path { result.gate_path ≡ gate }
        ensures gate_byte { result.gate_byte.items ≡ 49 ∷ [] }
    {
        let Sealed {
            entries,
            text,
            journal_path,
            gate_path,
            gate_byte,
        } = self;
        SealedParts {
            entries,
            text,
            journal_path,
            gate_path,
            gate_byte,
        }
    }
}

#[tactic(auto, unfolding(crate::specs::Changes::gate))]
fn gate_path(alloc: Global) -> Mem<PathText>
    ensures { IfOk result (λ path. path ≡ gate) }
{
    Ok(PathText::new(alloc, GATE)?.unwrap())
}

#[tactic(auto, unfolding(crate::specs::Changes::journal))]
fn journal_path(alloc: Global) -> Mem<PathText>
    ensures { IfOk result (λ path. path ≡ journal) }
{
    Ok(PathText::new(alloc, JOURNAL)?.unwrap())
}

/// The batch with its journal, which has at most 1,073,741,824 bytes (`journal_len`).
pub fn seal(alloc: Global, batch: Batch) -> Mem<Sealed>
    requires rise { Rises [] (changes_of batch.entries.items) }
    requires free { AllFree (changes_of batch.entries.items) }
    requires size { length (journal_text (changes_of batch.entries.items)) ≤ 1073741824 }
    ensures { IfOk result (λ sealed. sealed ≡ changes_of batch.entries.items) }
{
    let text = journal_of(alloc, &batch)?;
    let journal_path = journal_path(alloc)?;
    let gate_path = gate_path(alloc)?;
    let gate_byte = Vec::from_slice(alloc, b"1")?;
    let Batch { entries } = batch;
    Ok(Sealed {
        entries,
        text,
        journal_path,
        gate_path,
        gate_byte,
    })
}
