// Texts that grow at their front.
ghost use Rattle.std.specs.Prelude.{◌≡◌, ◌≤◌, ◌++◌, [], length, drop, IfOk, OnOk};

use crate::Mem;
use std::alloc::Global;
use std::marker::Model;

/// A text that grows at its front. Contracts see the list of its bytes. It stands at the end of a buffer, and
/// moves to one with as much room again where a piece has no room.
#[derive(Drop)]
pub struct FrontBuffer {
    bytes: Vec<u8>,
    from: usize,
}

impl Model for FrontBuffer {
    ghost use Rattle.std.specs.Prelude.{List, ℕ, ◌≤◌, length, drop};

    ghost Value = { List ℕ };

    ghost view = { λ b. drop b.from b.bytes.items };

    ghost invariant = { λ b. b.from ≤ length b.bytes.items };
}

impl FrontBuffer {
    /// An empty text, with room for so many bytes.
    pub fn with_room(alloc: Global, room: usize) -> Mem<FrontBuffer>
        ensures { IfOk result (λ buffer. buffer ≡ []) }
    {
        let bytes = vec![in alloc; 0; room]?;
        let from = bytes.len();
        Ok(FrontBuffer { bytes, from })
    }

    pub fn len(&self) -> usize
        ensures { result ≡ length self.now }
    {
        self.bytes.len() - self.from
    }

    pub fn as_slice(&self) -> &[u8]
        ensures { result.now ≡ self.now }
    {
        &self.bytes[self.from..]
    }

    // Puts a piece before the text, in a larger buffer.
    fn grow(&mut self, alloc: Global, piece: &[u8]) -> Mem<()>
        ensures { OnOk result (self.new ≡ piece.now ++ self.old) }
    {
        let room = self.len().saturating_add(piece.len());
        let mut bytes = vec![in alloc; 0; room]?;
        bytes.extend_from_slice(piece)?;
        bytes.extend_from_slice(self.as_slice())?;
        self.bytes = bytes;
        self.from = room;
        Ok(())
    }

    /// Puts a piece before the text.
    pub fn prepend(&mut self, alloc: Global, piece: &[u8]) -> Mem<()>
        ensures { OnOk result (self.new ≡ piece.now ++ self.old) }
    {
        if self.from < piece.len() {
            return self.grow(alloc, piece);
        }
        let from = self.from - piece.len();
        self.bytes[from..self.from].copy_from_slice(piece);
        self.from = from;
        Ok(())
    }

    /// Takes so many bytes off the front.
    pub fn drop_front(&mut self, count: usize)
        requires { count ≤ length self.old }
        ensures { self.new ≡ drop count self.old }
    {
        self.from += count;
    }

    /// The bytes.
    pub fn into_vec(self, alloc: Global) -> Mem<Vec<u8>>
        ensures { IfOk result (λ bytes. bytes.items ≡ self) }
    {
        let bytes = Vec::from_slice(alloc, self.as_slice())?;
        Ok(bytes)
    }
}
