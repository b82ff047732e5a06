// Properties files read into trees, in one pass.
ghost use Rattle.std.specs.Prelude.{◌≡◌, ◌+◌, ◌*◌, ◌<◌, ◌≤◌, ◌^◌, ◌++◌, ◌∷◌, [], length, IfOk, OnOk};
ghost use Rattle.rw_base.specs.Arena.{end_of};
ghost use Rattle.rw_base.specs.declared.place.Refused.{Refused};
ghost use Rattle.properties_tree.specs.Layout.{entry_row, tree_of};
ghost use Rattle.properties_tree.specs.Reading.{leaves_at, IsRead, numbered_parts};
ghost use Rattle.properties_tree.specs.Refusal.{too_large, IsTooLarge};
ghost use Rattle.properties_tree.specs.Sizes.{BeginsEntry, whole_size};
ghost use Rattle.properties_tree.specs.Starts.{IsKeyStart};

use crate::layout::{END, ENDING, ENTRY, FILE, KEY, SEPARATOR, VALUE};
use crate::lines::ending_length;
use crate::pieces::{line_size, separator_size};
use crate::starts::{KeyStart, Start, start_of};
use rw_base::{
    Cause, Leaf, MOST_BYTES, Mem, NodeId, NodeRow, Part, ReadFault, Refused, Tree, place_of,
};
use sqlite_items::Items;
use std::alloc::Global;

// How many bytes the parts of an entry have, and the blanks before it.
#[derive(Clone, Copy)]
struct Sizes {
    blanks: usize,
    key: usize,
    separator: usize,
    value: usize,
    ending: usize,
}

// How many bytes the parts of an entry have that a text begins with.
fn entry_sizes(text: &[u8], start: KeyStart) -> Sizes
    requires { IsKeyStart text.now start }
    ensures { BeginsEntry text.now result }
{
    let behind_key = &text[start.blanks + start.key..];
    let separator = separator_size(behind_key);
    let behind_separator = &behind_key[separator..];
    let value = line_size(behind_separator);
    let ending = ending_length(&behind_separator[value..]);
    Sizes {
        blanks: start.blanks,
        key: start.key,
        separator,
        value,
        ending,
    }
}

// The leaves of an entry, and its node.
fn push_entry(
    alloc: Global,
    leaves: &mut Vec<Leaf>,
    nodes: &mut Vec<NodeRow>,
    from: usize,
    at: usize,
    sizes: Sizes,
) -> Mem<()>
    requires ordered { from ≤ at }
    requires inside { at + whole_size sizes ≤ MOST_BYTES }
    requires four { length leaves.old.items ≡ 4 * length nodes.old.items }
    requires few { length nodes.old.items ≤ at }
    ensures leaves { OnOk result (leaves.new.items ≡ leaves.old.items ++ leaves_at from at sizes) }
    ensures nodes { OnOk result (nodes.new.items ≡ nodes.old.items ++ entry_row (length leaves.old.items) ∷ []) }
{
    let first = leaves.len() as u32;
    let key = (at + sizes.blanks) as u32;
    let separator = key + sizes.key as u32;
    let value = separator + sizes.separator as u32;
    let ending = value + sizes.value as u32;
    leaves.push(Leaf {
        prefix_from: from as u32,
        from: key,
        to: separator,
        class: KEY,
    })?;
    leaves.push(Leaf {
        prefix_from: separator,
        from: separator,
        to: value,
        class: SEPARATOR,
    })?;
    leaves.push(Leaf {
        prefix_from: value,
        from: value,
        to: ending,
        class: VALUE,
    })?;
    leaves.push(Leaf {
        prefix_from: ending,
        from: ending,
        to: ending + sizes.ending as u32,
        class: ENDING,
    })?;
    let parts = leaf_parts(alloc, first)?;
    nodes.push(NodeRow {
        kind: ENTRY,
        first,
        past: first + 4,
        parts: Items::from_vec(parts),
    })?;
    Ok(())
}

// Four leaves from this one on, as parts.
fn leaf_parts(alloc: Global, first: u32) -> Mem<Vec<Part>>
    requires { first + 4 < 2 ^ 32 }
    ensures { IfOk result (λ parts. parts.items ≡ (entry_row first).parts) }
{
    let mut parts = Vec::with_capacity(alloc, 4)?;
    parts.push(Part::Leaf(first))?;
    parts.push(Part::Leaf(first + 1))?;
    parts.push(Part::Leaf(first + 2))?;
    parts.push(Part::Leaf(first + 3))?;
    Ok(parts)
}

// So many entries and the end, as parts.
#[tactic(auto, using(crate::proofs::Goes::over_parts))]
fn file_parts(alloc: Global, count: u32) -> Mem<Vec<Part>>
    requires { 4 * count < 2 ^ 32 }
    ensures { IfOk result (λ parts. parts.items ≡ numbered_parts 0 count ++ Part.Leaf (4 * count) ∷ []) }
{
    let mut parts = Vec::with_capacity(alloc, count as usize + 1)?;
    for n in 0..count {
        parts.push(Part::Node(NodeId(n)))?;
    }
    parts.push(Part::Leaf(4 * count))?;
    Ok(parts)
}

// One line more. Gives where the prefix so far begins, and where the next line does.
#[tactic(auto, using(crate::proofs::Goes::over_lines))]
fn read_line(
    alloc: Global,
    leaves: &mut Vec<Leaf>,
    nodes: &mut Vec<NodeRow>,
    bytes: &[u8],
    from: usize,
    at: usize,
) -> Mem<(usize, usize)>
    requires size { length bytes.now ≤ MOST_BYTES }
    requires some { at < length bytes.now }
    requires read { IsRead bytes.now leaves.old.items nodes.old.items from at }
    ensures read { IfOk result (λ next. IsRead bytes.now leaves.new.items nodes.new.items next.0 next.1) }
    ensures further { IfOk result (λ next. at < next.1) }
{
    let text = &bytes[at..];
    match start_of(text) {
        Start::Passed(size) => Ok((from, at + size)),
        Start::Entry(start) => {
            let sizes = entry_sizes(text, start);
            push_entry(alloc, leaves, nodes, from, at, sizes)?;
            let next = at
                + (sizes.blanks + sizes.key + sizes.separator + sizes.value + sizes.ending);
            Ok((next, next))
        }
    }
}

// The tree of a file that is read to its end.
fn finish_tree(
    alloc: Global,
    bytes: &[u8],
    from: usize,
    leaves: Vec<Leaf>,
    nodes: Vec<NodeRow>,
) -> Mem<Tree>
    requires size { length bytes.now ≤ MOST_BYTES }
    requires read { IsRead bytes.now leaves.items nodes.items from (length bytes.now) }
    ensures { IfOk result (λ tree. tree ≡ tree_of bytes.now) }
{
    let mut leaves = leaves;
    let mut nodes = nodes;
    let end = bytes.len() as u32;
    let count = nodes.len() as u32;
    leaves.push(Leaf {
        prefix_from: from as u32,
        from: end,
        to: end,
        class: END,
    })?;
    let parts = file_parts(alloc, count)?;
    nodes.push(NodeRow {
        kind: FILE,
        first: 0,
        past: 4 * count + 1,
        parts: Items::from_vec(parts),
    })?;
    Ok(Tree::made(leaves, nodes, NodeId(count)))
}

/// Refuses a file of more bytes than are read.
pub(crate) fn refuse_large(bytes: &[u8]) -> Result<(), ReadFault>
    ensures fits { OnOk result (length bytes.now ≤ MOST_BYTES) }
    ensures refused { (why : Refused) → result ≡ Err (ReadFault.Refused why) → IsTooLarge bytes.now why }
    ensures too_large { MOST_BYTES < length bytes.now → result ≡ Err (ReadFault.Refused (too_large bytes.now)) }
{
    if bytes.len() > MOST_BYTES {
        let place = place_of(bytes, MOST_BYTES);
        return Err(ReadFault::Refused(Refused {
            place,
            cause: Cause::TooLarge,
        }));
    }
    Ok(())
}

/// The tree of a properties file, for any bytes: for each entry a node of the kind `ENTRY` with the leaves of its key,
/// separator, value and line end, each of which may be empty, and the file's node with the entries and the end.
/// Comments, lines of blanks and leading blanks are prefixes. Refused with `Cause::TooLarge`, at byte 2,097,152, where
/// the file is longer than that, and for no other cause. (The documentation of `java.util.Properties`, Java SE 8.)
#[tactic(auto, using(crate::proofs::InTree::in_tree))]
pub fn read_properties(alloc: Global, bytes: &[u8]) -> Result<Tree, ReadFault>
    ensures tree { IfOk result (λ tree. tree ≡ tree_of bytes.now) }
    ensures size { IfOk result (λ tree. length bytes.now ≡ end_of tree) }
    ensures fits { OnOk result (length bytes.now ≤ MOST_BYTES) }
    ensures refused { (why : Refused) → result ≡ Err (ReadFault.Refused why) → IsTooLarge bytes.now why }
    ensures too_large { MOST_BYTES < length bytes.now → result ≡ Err (ReadFault.Refused (too_large bytes.now)) }
{
    refuse_large(bytes)?;
    // Room for the entries of a file with lines of usual length.
    let mut leaves = Vec::with_capacity(alloc, bytes.len() / 12)?;
    let mut nodes = Vec::with_capacity(alloc, bytes.len() / 48)?;
    let mut from = 0;
    let mut at = 0;
    while at < bytes.len() {
        let next = read_line(alloc, &mut leaves, &mut nodes, bytes, from, at)?;
        from = next.0;
        at = next.1;
    }
    Ok(finish_tree(alloc, bytes, from, leaves, nodes)?)
}
