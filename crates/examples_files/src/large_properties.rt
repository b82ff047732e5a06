// Large properties files. The answers are counts, and the checksums of texts, which can be worked out without the
// program.
use crate::properties::{put_made, tree_in};
use crate::recipes::put_renaming;
use examples_base::{Answer, put_refused, repeated};
use properties_tree::{entry_count, key_of, read_properties, spell_key, spell_value, value_of};
use rw_base::NodeId;
use std::alloc::Global;

// Writes how many entries a file has, or where it is refused.
fn put_read(alloc: Global, bytes: &[u8], out: &mut Answer) {
    match read_properties(alloc, bytes) {
        Ok(tree) => {
            out.put_number(entry_count(&tree, bytes) as usize);
            out.put(" entries");
        }
        Err(fault) => put_refused(fault, out),
    }
}

// Writes how many entries and leaves a file has.
fn put_counts(alloc: Global, bytes: &[u8], out: &mut Answer) {
    if let Some(tree) = tree_in(alloc, bytes, out) {
        out.put_number(entry_count(&tree, bytes) as usize);
        out.put(" entries, ");
        out.put_number(tree.leaf_count() as usize);
        out.put(" leaves");
    }
}

// Writes the key and the value of the first entry.
fn put_first(alloc: Global, bytes: &[u8], out: &mut Answer) {
    let Some(tree) = tree_in(alloc, bytes, out) else {
        return;
    };
    if entry_count(&tree, bytes) == 0 {
        out.refuse("entry");
        return;
    }
    put_made(key_of(alloc, &tree, bytes, NodeId(0)), out);
    out.put(", ");
    put_made(value_of(alloc, &tree, bytes, NodeId(0)), out);
}

// An entry with so many escapes in its key and in its value.
fn escapes(alloc: Global, count: u32, out: &mut Answer) -> Vec<u8> {
    let mut bytes = repeated(alloc, b"\\u0041", count, out);
    let value = repeated(alloc, b"\\ud83d\\ude00", count, out);
    if bytes.push(b'=').is_err() || bytes.extend_from_slice(&value).is_err() {
        out.refuse("memory");
    }
    bytes
}

// Writes the answer of a case on so many entries.
fn put_entries_answer(alloc: Global, call: &str, count: u32, out: &mut Answer) {
    let bytes = repeated(alloc, b"a=1\n", count, out);
    match call {
        "entries" => put_counts(alloc, &bytes, out),
        "renamed" => put_renaming(alloc, &bytes, b"a", b"b c", out),
        _ => out.refuse("large call"),
    }
}

/// Writes the answer of a case.
pub fn put_answer(alloc: Global, call: &str, count: u32, out: &mut Answer) {
    match call {
        "read_properties" => put_read(alloc, &repeated(alloc, b"a", count, out), out),
        "key_of" => put_first(alloc, &escapes(alloc, count, out), out),
        "spell_key" => put_made(spell_key(alloc, &repeated(alloc, b"=", count, out)), out),
        "spell_value" => put_made(spell_value(alloc, &repeated(alloc, b"=", count, out)), out),
        _ => put_entries_answer(alloc, call, count, out),
    }
}
