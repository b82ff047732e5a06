// Places in a text, and why a text is refused.
ghost use Rattle.std.specs.Prelude.{◌≡◌, ◌<◌, ◌≤◌, ◌-◌, length};
ghost use Rattle.rw_base.specs.Places.{place_at, ends_line, is_continuation};

use crate::NoMemory;
use std::alloc::{AllocError, AllocFailed};

/// A place in a text: line and column from 1, byte from 0. Lines end at LF, at CR LF or at a CR alone. Columns count
/// the bytes that aren't UTF-8 continuation bytes.
#[derive(Clone, Copy, Debug, PartialEq, Eq)]
pub struct Place {
    pub line: u32,
    pub column: u32,
    pub byte: u32,
}

/// Why a text is refused.
#[derive(Clone, Copy, Debug, PartialEq, Eq)]
pub enum Cause {
    NotUtf8 = 1,
    BadLeaf = 2,
    Unexpected = 3,
    Unfinished = 4,
    TooLarge = 5,
    TooDeep = 6,
}

/// A text is refused at a place.
#[derive(Clone, Copy, Debug, PartialEq, Eq)]
pub struct Refused {
    pub place: Place,
    pub cause: Cause,
}

/// What a reader answers in place of a tree.
#[derive(Clone, Copy, Debug, PartialEq, Eq)]
pub enum ReadFault {
    Refused(Refused),
    NoMemory,
}

impl From<NoMemory> for ReadFault {
    ghost use Rattle.std.specs.Prelude.{◌≡◌};
    ghost use Rattle.rw_base.specs.declared.place.ReadFault.TheVariants as fault;

    ghost from_gives = { λ _ e. e ≡ fault.NoMemory };

    fn from(_: NoMemory) -> Self {
        ReadFault::NoMemory
    }
}

impl From<AllocError> for ReadFault {
    ghost use Rattle.std.specs.Prelude.{◌≡◌};
    ghost use Rattle.rw_base.specs.declared.place.ReadFault.TheVariants as fault;

    ghost from_gives = { λ _ e. e ≡ fault.NoMemory };

    fn from(_: AllocError) -> Self {
        ReadFault::NoMemory
    }
}

impl<T: Drop> From<AllocFailed<T>> for ReadFault {
    ghost use Rattle.std.specs.Prelude.{◌≡◌};
    ghost use Rattle.rw_base.specs.declared.place.ReadFault.TheVariants as fault;

    ghost from_gives = { λ _ e. e ≡ fault.NoMemory };

    fn from(_: AllocFailed<T>) -> Self {
        ReadFault::NoMemory
    }
}

// Whether the byte at k ends a line.
fn ends_line(bytes: &[u8], k: usize) -> bool
    requires { k < length bytes.now }
    ensures { result ≡ ends_line bytes.now k }
{
    bytes[k] == b'\n' || (bytes[k] == b'\r' && !(k + 1 < bytes.len() && bytes[k + 1] == b'\n'))
}

// Whether a byte goes on with a character that began before it.
fn is_continuation(b: u8) -> bool
    ensures { result ≡ is_continuation b }
{
    128 <= b && b <= 191
}

/// The place of a byte, or of the end, from a place of the same bytes at or before it. It looks at the bytes between
/// the two alone, so that the places of one file, taken in order, cost one pass. Takes no memory.
#[tactic(auto, using(crate::proofs::PlaceLemmas::steps))]
pub fn place_after(bytes: &[u8], place: Place, at: usize) -> Place
    requires place { place ≡ place_at bytes.now place.byte }
    requires order { place.byte ≤ at }
    requires inside { at ≤ length bytes.now }
    requires size { at < u32.MAX }
    ensures { result ≡ place_at bytes.now at }
{
    let mut line = place.line;
    let mut column = place.column;
    for k in place.byte as usize..at {
        if ends_line(bytes, k) {
            line += 1;
            column = 1;
        } else if !is_continuation(bytes[k]) {
            column += 1;
        }
    }
    Place {
        line,
        column,
        byte: at as u32,
    }
}

/// The place of a byte, or of the end. Takes no memory.
#[tactic(auto, unfolding(crate::specs::Places::line_of, crate::specs::Places::column_of))]
pub fn place_of(bytes: &[u8], at: usize) -> Place
    requires inside { at ≤ length bytes.now }
    requires size { at < u32.MAX }
    ensures { result ≡ place_at bytes.now at }
{
    let first = Place {
        line: 1,
        column: 1,
        byte: 0,
    };
    place_after(bytes, first, at)
}
