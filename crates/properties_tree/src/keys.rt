// Entries looked up by their keys, without a tree.
ghost use Rattle.std.specs.Prelude.{◌≡◌, ◌+◌, ◌<◌, ◌≤◌, ℕ, List, false, length, IfOk};
ghost use Rattle.properties_tree.specs.Keys.{with_key, IsNextKey};
ghost use Rattle.properties_tree.specs.Starts.{IsKeyStart, BeginsKey, IsLineMatch};

use crate::lines::ending_length;
use crate::pieces::line_size;
use crate::starts::{KeyStart, Start, start_of};
use crate::tree::says_key;
use memchr::memmem;
use rw_base::Mem;
use std::alloc::Global;

/// Where an entry with a key stands: the bytes of its key lie from `from` to before `to`, and the next line begins at
/// `next`.
#[derive(Clone, Copy, Debug, PartialEq, Eq)]
pub struct KeyPlace {
    pub from: usize,
    pub to: usize,
    pub next: usize,
}

// What a text begins with: lines of so many bytes that aren't looked for, or an entry that is.
#[derive(Clone, Copy)]
enum LineMatch {
    Kept(usize),
    WithKey(KeyPlace),
}

// Where the key stands of the entry that a text begins with.
fn key_place(text: &[u8], start: KeyStart) -> KeyPlace
    requires { IsKeyStart text.now start }
    ensures place { BeginsKey text.now result }
    ensures from { result.from ≡ start.blanks }
    ensures to { result.to ≡ start.blanks + start.key }
{
    let to = start.blanks + start.key;
    let behind_key = &text[to..];
    let rest = line_size(behind_key);
    let ending = ending_length(&behind_key[rest..]);
    KeyPlace {
        from: start.blanks,
        to,
        next: to + rest + ending,
    }
}

// What a text begins with, where a line begins and this key is looked for.
fn match_line(alloc: Global, text: &[u8], key: &[u8]) -> Mem<LineMatch>
    requires { 0 < length text.now }
    ensures { IfOk result (λ line. IsLineMatch key.now text.now line) }
{
    match start_of(text) {
        Start::Passed(size) => Ok(LineMatch::Kept(size)),
        Start::Entry(start) => {
            let place = key_place(text, start);
            let part = &text[place.from..place.to];
            if says_key(alloc, text, 0, part, start.plain, key)? {
                Ok(LineMatch::WithKey(place))
            } else {
                Ok(LineMatch::Kept(place.next))
            }
        }
    }
}

// Whether an entry with this key may stand in a text: the key does, or a backslash does, so that some other bytes may
// say the key.
fn may_stand(text: &[u8], key: &[u8]) -> bool
    ensures { result ≡ false → (written : List ℕ) → with_key key.now written text.now ≡ text.now }
{
    memmem::find(text, key).is_some() || text.contains(&b'\\')
}

/// The next entry with this key, from a place on at which a line begins, and `None` where there is none. Makes no tree,
/// and takes no memory where no key has a backslash.
pub fn next_with_key(alloc: Global, bytes: &[u8], at: usize, key: &[u8]) -> Mem<Option<KeyPlace>>
    requires { at ≤ length bytes.now }
    ensures { IfOk result (λ found. IsNextKey key.now bytes.now at found) }
{
    if !may_stand(&bytes[at..], key) {
        return Ok(None);
    }
    let mut line = at;
    while line < bytes.len() {
        match match_line(alloc, &bytes[line..], key)? {
            LineMatch::Kept(size) => line += size,
            LineMatch::WithKey(place) => {
                return Ok(Some(KeyPlace {
                    from: line + place.from,
                    to: line + place.to,
                    next: line + place.next,
                }));
            }
        }
    }
    Ok(None)
}
