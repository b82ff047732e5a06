// Files cut into leaves.
ghost use Rattle.std.specs.Prelude.{◌≡◌, ◌+◌, ◌≤◌, length, IfOk};
ghost use Rattle.rw_base.specs.Utf8.{utf8_front, mark_size};
ghost use Rattle.java_lex.specs.Leaves.{AreJavaLeaves};
ghost use Rattle.java_lex.specs.Tiles.{AreTiles};

use crate::blank::white_size;
use crate::class::END;
use crate::piece::{Piece, piece_of};
use bstr::ByteSlice;
use rw_base::{Bad, Leaf, Leaves, MOST_BYTES, Mem};
use std::alloc::Global;

// The longest front of a file that is UTF-8.
fn utf8_front(bytes: &[u8]) -> &[u8]
    ensures { result.now ≡ utf8_front bytes.now }
{
    match bytes.to_str() {
        Ok(_) => bytes,
        Err(error) => &bytes[..error.valid_up_to()],
    }
}

// The bytes of the byte order mark that a text begins with.
fn mark_size(text: &[u8]) -> usize
    ensures { result ≡ mark_size text.now }
{
    match text {
        [0xef, 0xbb, 0xbf, ..] => 3,
        _ => 0,
    }
}

/// The leaves of a Java 8 file of at most 2,097,152 bytes, each with the white space and comments before it as its
/// prefix, up to the first bad place.
pub fn java_leaves(alloc: Global, bytes: &[u8]) -> Mem<Leaves>
    requires { length bytes.now ≤ MOST_BYTES }
    ensures leaves { IfOk result (λ r. AreJavaLeaves bytes.now r.leaves.items r.bad) }
    ensures tiles { IfOk result (λ r. AreTiles bytes.now r.leaves.items r.bad) }
{
    let text = utf8_front(bytes);
    let broken = text.len() < bytes.len();
    // Room for the leaves of a file with comments.
    let mut leaves = Vec::with_capacity(alloc, text.len() / 8)?;
    let mut from = 0;
    let mut at = mark_size(text);
    'pieces: loop {
        at += white_size(&text[at..]);
        match piece_of(&text[at..], broken) {
            Piece::Comment(size) => at += size,
            Piece::Leaf(class, size) => {
                leaves.push(leaf_at(from, at, size, class))?;
                at += size;
                from = at;
            }
            Piece::Bad(size, cause) => {
                let byte = (at + size) as u32;
                leaves.push(leaf_at(from, at + size, 0, END))?;
                return Ok(Leaves {
                    leaves,
                    bad: Some(Bad { byte, cause }),
                });
            }
            Piece::End => {
                leaves.push(leaf_at(from, at, 0, END))?;
                return Ok(Leaves { leaves, bad: None });
            }
        }
    }
}

// A leaf of so many bytes.
fn leaf_at(from: usize, at: usize, size: usize, class: u16) -> Leaf
    requires order { from ≤ at }
    requires inside { at + size ≤ MOST_BYTES }
    ensures { result ≡ record { prefix_from = from; from = at; to = at + size; class = class } }
{
    Leaf {
        prefix_from: from as u32,
        from: at as u32,
        to: (at + size) as u32,
        class,
    }
}
