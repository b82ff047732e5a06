// What the tree of a properties file says of its entries.
ghost use Rattle.std.specs.Prelude.{◌≡◌, ◌<◌, ◌+◌, ◌*◌, ◌↔◌, false, IsTrue, IfOk, length};
ghost use Rattle.properties_tree.specs.Plain.{has_backslash};
ghost use Rattle.properties_tree.specs.Entries.{properties_of, bytes_of};
ghost use Rattle.properties_tree.specs.Decoding.{key_text, value_text, entry_at};
ghost use Rattle.properties_tree.specs.Layout.{tree_of, key_leaf_of};

use crate::decoding::decode_part;
use rw_base::{Mem, NodeId, Tree};
use std::alloc::Global;

/// How many entries a file has, whose tree this is. They are the nodes before this number, in the file's order.
#[tactic(auto, using(crate::proofs::InTree::in_tree))]
pub fn entry_count(tree: &Tree, bytes: &[u8]) -> u32
    requires { tree.now ≡ tree_of bytes.now }
    ensures count { result ≡ length (properties_of bytes.now).entries }
    ensures leaves { length tree.now.leaves ≡ 4 * result + 1 }
{
    let _ = bytes;
    tree.root().0
}

/// The number of the leaf that is an entry's key.
#[tactic(auto, using(crate::proofs::InTree::in_tree))]
pub fn key_leaf(tree: &Tree, bytes: &[u8], entry: NodeId) -> u32
    requires tree { tree.now ≡ tree_of bytes.now }
    requires there { entry.0 < length (properties_of bytes.now).entries }
    ensures number { result ≡ key_leaf_of entry.0 }
    ensures inside { result < length tree.now.leaves }
{
    let _ = bytes;
    tree.leaves_of(entry).0
}

// The bytes of an entry's key, as they stand in the file.
#[tactic(auto, using(crate::proofs::InTree::in_tree))]
fn key_bytes<'b>(tree: &Tree, bytes: &'b [u8], entry: NodeId) -> &'b [u8]
    requires tree { tree.now ≡ tree_of bytes.now }
    requires there { entry.0 < length (properties_of bytes.now).entries }
    ensures { result.now ≡ bytes_of (entry_at bytes.now entry.0).key }
{
    tree.text(bytes, key_leaf(tree, bytes, entry))
}

/// What stands before an entry, back to the entry before it: lines that are passed over, and the blanks of its own
/// line.
#[tactic(auto, using(crate::proofs::InTree::in_tree, crate::proofs::Prefixed::prefix_is))]
pub fn prefix_of_entry<'b>(tree: &Tree, bytes: &'b [u8], entry: NodeId) -> &'b [u8]
    requires tree { tree.now ≡ tree_of bytes.now }
    requires there { entry.0 < length (properties_of bytes.now).entries }
    ensures { result.now ≡ (entry_at bytes.now entry.0).prefix }
{
    tree.prefix(bytes, key_leaf(tree, bytes, entry))
}

// The bytes of an entry's value, as they stand in the file.
#[tactic(auto, using(crate::proofs::InTree::in_tree))]
fn value_bytes<'b>(tree: &Tree, bytes: &'b [u8], entry: NodeId) -> &'b [u8]
    requires tree { tree.now ≡ tree_of bytes.now }
    requires there { entry.0 < length (properties_of bytes.now).entries }
    ensures { result.now ≡ bytes_of (entry_at bytes.now entry.0).value }
{
    tree.text(bytes, tree.leaves_of(entry).1 - 2)
}

/// The key of an entry, decoded: line ends behind a backslash and the blanks behind them are gone; `\t`, `\n`, `\r` and
/// `\f` are control characters; `\u` with four hex digits is a UTF-16 code unit, in UTF-8, where a surrogate that is in
/// no pair becomes U+FFFD; another backslash is dropped. (The documentation of `java.util.Properties`, Java SE 8.)
#[tactic(auto, using(crate::proofs::InTree::what_is_said))]
pub fn key_of(alloc: Global, tree: &Tree, bytes: &[u8], entry: NodeId) -> Mem<Vec<u8>>
    requires tree { tree.now ≡ tree_of bytes.now }
    requires there { entry.0 < length (properties_of bytes.now).entries }
    ensures { IfOk result (λ key. key.items ≡ key_text (entry_at bytes.now entry.0)) }
{
    decode_part(alloc, key_bytes(tree, bytes, entry))
}

/// The value of an entry, decoded as a key is.
#[tactic(auto, using(crate::proofs::InTree::what_is_said))]
pub fn value_of(alloc: Global, tree: &Tree, bytes: &[u8], entry: NodeId) -> Mem<Vec<u8>>
    requires tree { tree.now ≡ tree_of bytes.now }
    requires there { entry.0 < length (properties_of bytes.now).entries }
    ensures { IfOk result (λ value. value.items ≡ value_text (entry_at bytes.now entry.0)) }
{
    decode_part(alloc, value_bytes(tree, bytes, entry))
}

// Whether a backslash stands in these bytes, where it may be known that none does.
fn is_marked(part: &[u8], plain: bool) -> bool
    requires { IsTrue plain → has_backslash part.now ≡ false }
    ensures { result ≡ has_backslash part.now }
{
    if plain {
        return false;
    }
    part.contains(&b'\\')
}

// Whether these bytes, which are an entry's key, say this key. Takes no memory where they have no backslash, which may
// be known.
#[tactic(auto, using(crate::proofs::InTree::what_is_said))]
pub(crate) fn says_key(
    alloc: Global,
    bytes: &[u8],
    n: u32,
    part: &[u8],
    plain: bool,
    key: &[u8],
) -> Mem<bool>
    requires part { part.now ≡ bytes_of (entry_at bytes.now n).key }
    requires plain { IsTrue plain → has_backslash part.now ≡ false }
    ensures { IfOk result (λ same. IsTrue same ↔ (key_text (entry_at bytes.now n) ≡ key.now)) }
{
    let _ = bytes;
    let _ = n;
    if is_marked(part, plain) {
        let said = decode_part(alloc, part)?;
        return Ok(said.as_slice() == key);
    }
    Ok(part == key)
}

/// Whether an entry's key, decoded, is this one. Takes no memory where the key's bytes have no backslash.
pub fn has_key(alloc: Global, tree: &Tree, bytes: &[u8], entry: NodeId, key: &[u8]) -> Mem<bool>
    requires tree { tree.now ≡ tree_of bytes.now }
    requires there { entry.0 < length (properties_of bytes.now).entries }
    ensures { IfOk result (λ same. IsTrue same ↔ (key_text (entry_at bytes.now entry.0) ≡ key.now)) }
{
    says_key(
        alloc,
        bytes,
        entry.0,
        key_bytes(tree, bytes, entry),
        false,
        key,
    )
}
