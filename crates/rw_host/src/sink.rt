// Where a text goes.
ghost use Rattle.std.specs.Prelude.{◌≡◌, ◌≤◌, ◌<◌, ◌+◌, ◌++◌, ◌↔◌, ℕ, Bool, true, false, List, [], length};
ghost use Rattle.std.specs.Prelude.{IsErr, IsTrue, IfOk, OnErr, OnOk};
ghost use Rattle.rw_host.specs.Files.{Rose};
ghost use Rattle.rw_host.specs.Sink.{PutsPrefix};

use crate::Failed;
use rw_base::Mem;
use std::alloc::Global;
use std::io;
use std::io::Write;
use std::marker::Model;

/// Takes pieces of a text in order. Not every sink tells its bytes to proofs; the clauses on bytes hold of a sink
/// that tells them.
pub trait Sink {
    /// Whether the bytes that were put are told.
    ghost tells_bytes: { Bool };

    /// The bytes that were put.
    ghost bytes_put: { Self → List ℕ };

    /// How many calls have failed.
    ghost faults: { Self → ℕ };

    /// Puts the whole piece behind what was put before. Where it fails, it has put a prefix of the piece.
    fn put(&mut self, bytes: &[u8]) -> Result<(), Failed>
        ensures whole { IsTrue tells_bytes → OnOk result (bytes_put self.new ≡ bytes_put self.old ++ bytes.now) }
        ensures part { IsTrue tells_bytes →
            OnErr result (PutsPrefix (bytes_put self.old) bytes.now (bytes_put self.new)) }
        ensures cause { OnErr result (Rose (faults self.old) (faults self.new)) }
        ensures count { faults self.old ≤ faults self.new };
}

/// A sink in memory, which takes a given number of bytes. Contracts see its bytes, this number and how many calls
/// have failed.
#[derive(Debug, Drop)]
pub struct MemorySink {
    bytes: Vec<u8>,
    room: u32,
    faults: u64,
}

impl Model for MemorySink {
    ghost use Rattle.std.specs.Prelude.{◌≤◌, length, vec_capacity};
    ghost use Rattle.rw_host.specs.Sink.{Filling};

    ghost Value = { Filling };

    ghost view = { λ s. record { bytes = s.bytes.items; room = s.room; faults = s.faults } };

    ghost invariant = { λ s. (length s.bytes.items ≤ s.room) × (s.room ≤ vec_capacity s.bytes) };
}

impl MemorySink {
    /// An empty sink that takes `n` bytes in all.
    pub fn with_room(alloc: Global, n: u32) -> Mem<MemorySink>
        ensures empty { IfOk result (λ sink. sink.bytes ≡ []) }
        ensures room { IfOk result (λ sink. sink.room ≡ n) }
        ensures no_faults { IfOk result (λ sink. sink.faults ≡ 0) }
    {
        let bytes = Vec::with_capacity(alloc, n as usize)?;
        Ok(MemorySink {
            bytes,
            room: n,
            faults: 0,
        })
    }

    /// The bytes that were put.
    pub fn bytes(&self) -> &[u8]
        ensures { result.now ≡ self.now.bytes }
    {
        &self.bytes
    }
}

impl Sink for MemorySink {
    ghost tells_bytes = { true };

    ghost bytes_put = { λ s. s.bytes };

    ghost faults = { λ s. s.faults };

    /// Puts the whole piece, or nothing where it passes the room that is left.
    fn put(&mut self, bytes: &[u8]) -> Result<(), Failed>
        ensures whole { IsTrue true → OnOk result (self.new.bytes ≡ self.old.bytes ++ bytes.now) }
        ensures part { IsTrue true → OnErr result (PutsPrefix self.old.bytes bytes.now self.new.bytes) }
        ensures cause { OnErr result (Rose self.old.faults self.new.faults) }
        ensures count { self.old.faults ≤ self.new.faults }
        ensures full { IsErr result ↔ self.old.room < length self.old.bytes + length bytes.now }
        ensures room { self.new.room ≡ self.old.room }
        ensures unchanged { OnErr result (self.new.bytes ≡ self.old.bytes) }
        ensures no_fault { OnOk result (self.new.faults ≡ self.old.faults) }
    {
        let left = self.room as usize - self.bytes.len();
        if bytes.len() > left || self.bytes.extend_from_slice(bytes).is_err() {
            self.faults = self.faults.saturating_add(1);
            return Err(Failed);
        }
        Ok(())
    }
}

/// Standard output. It tells nothing.
#[derive(Drop)]
pub struct StdSink<R: Print> {
    rt: R,
    faults: u64,
}

impl<R: Print + Drop> StdSink<R> {
    /// The sink over this runtime's standard output.
    pub fn new(rt: R) -> StdSink<R> {
        StdSink { rt, faults: 0 }
    }
}

impl<R: Print> Sink for StdSink<R> {
    ghost tells_bytes = { false };

    ghost bytes_put = { λ _. [] };

    ghost faults = { λ s. s.faults };

    /// A write that takes nothing of a piece that isn't empty is a fault too.
    fn put(&mut self, bytes: &[u8]) -> Result<(), Failed> {
        match io::writer(&self.rt).write_all(bytes) {
            Ok(()) => Ok(()),
            Err(_) => {
                self.faults = self.faults.saturating_add(1);
                Err(Failed)
            }
        }
    }
}
