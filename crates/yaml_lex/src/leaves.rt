// Files cut into leaves.
ghost use Rattle.std.specs.Prelude.{◌≡◌, ◌+◌, ◌≤◌, length, IfOk};
ghost use Rattle.rw_base.specs.Utf8.{utf8_front, mark_size};
ghost use Rattle.yaml_lex.specs.Leaves.{AreYamlLeaves, leaf_from};
ghost use Rattle.yaml_lex.specs.Tiles.{AreTiles};

use crate::class::END;
use crate::collections::{Collection, push_closes, push_textless};
use crate::context::{past, past_leaf, start};
use crate::piece::{Piece, piece_of};
use bstr::ByteSlice;
use rw_base::{Bad, Leaf, Leaves, MOST_BYTES, Mem};
use std::alloc::Global;

// The longest front of a file that is UTF-8.
fn utf8_front(bytes: &[u8]) -> &[u8]
    ensures { result.now ≡ utf8_front bytes.now }
{
    match bytes.to_str() {
        Ok(_) => bytes,
        Err(error) => &bytes[..error.valid_up_to()],
    }
}

// The bytes of the byte order mark that a text begins with.
fn mark_size(text: &[u8]) -> usize
    ensures { result ≡ mark_size text.now }
{
    match text {
        [0xef, 0xbb, 0xbf, ..] => 3,
        _ => 0,
    }
}

/// The leaves of a YAML file of at most 2,097,152 bytes, each with the blanks, line ends and comments before it as its
/// prefix, and the leaves without text that say where block collections open and close, up to the first bad place.
pub fn yaml_leaves(alloc: Global, bytes: &[u8]) -> Mem<Leaves>
    requires { length bytes.now ≤ MOST_BYTES }
    ensures leaves { IfOk result (λ r. AreYamlLeaves bytes.now r.leaves.items r.bad) }
    ensures tiles { IfOk result (λ r. AreTiles bytes.now r.leaves.items r.bad) }
{
    let text = utf8_front(bytes);
    let broken = text.len() < bytes.len();
    // Room for the leaves of an ordinary file.
    let mut leaves = Vec::with_capacity(alloc, text.len() / 4)?;
    let mut collections: Vec<Collection> = Vec::new(alloc);
    let mut context = start();
    let mut from = 0;
    let mut at = mark_size(text);
    'pieces: loop {
        let rest = &text[at..];
        match piece_of(context, collections.as_slice(), rest, broken) {
            Piece::Passed(size) => {
                context = past(context, &rest[..size]);
                at += size;
            }
            Piece::Leaf(class, size) => {
                push_textless(&mut leaves, &mut collections, from as u32, context, class)?;
                leaves.push(leaf_at(from, at, size, class))?;
                context = past_leaf(class, rest, past(context, &rest[..size]));
                at += size;
                from = at;
            }
            Piece::Bad(size, cause) => {
                let byte = (at + size) as u32;
                leaves.push(leaf_at(from, at + size, 0, END))?;
                return Ok(Leaves {
                    leaves,
                    bad: Some(Bad { byte, cause }),
                });
            }
            Piece::End => {
                push_closes(&mut leaves, from as u32, collections.len())?;
                leaves.push(leaf_at(from, at, 0, END))?;
                return Ok(Leaves { leaves, bad: None });
            }
        }
    }
}

// A leaf of so many bytes.
fn leaf_at(from: usize, at: usize, size: usize, class: u16) -> Leaf
    requires order { from ≤ at }
    requires inside { at + size ≤ MOST_BYTES }
    ensures { result ≡ leaf_from from at size class }
{
    Leaf {
        prefix_from: from as u32,
        from: at as u32,
        to: (at + size) as u32,
        class,
    }
}
