// Key paths, and what they find.
use examples_base::{Answer, put_refused};
use rw_base::{MOST_BYTES, NodeId, Tree};
use std::alloc::Global;
use yaml_tree::{KeyPath, PathFault, PathStep, YamlReader};

fn put_step(step: &PathStep, out: &mut Answer) {
    match step {
        PathStep::Name(name) => out.put_quoted(name.as_slice()),
        PathStep::AnyName => out.put("any name"),
        PathStep::AnyItem => out.put("any item"),
    }
}

fn put_fault(fault: PathFault, out: &mut Answer) {
    match fault {
        PathFault::At(byte) => {
            out.put("wrong at byte ");
            out.put_number(byte as usize);
        }
        PathFault::NoMemory => out.refuse("memory"),
    }
}

// The key path of a text, or why there is none.
fn path_of(alloc: Global, text: &[u8], out: &mut Answer) -> Option<KeyPath> {
    if text.len() > MOST_BYTES {
        out.refuse("key path of that size");
        return None;
    }
    match KeyPath::read(alloc, text) {
        Ok(path) => Some(path),
        Err(fault) => {
            put_fault(fault, out);
            None
        }
    }
}

/// Writes the steps of a key path.
pub fn put_path(alloc: Global, text: &[u8], out: &mut Answer) {
    if let Some(path) = path_of(alloc, text, out) {
        for (at, step) in path.steps().iter().enumerate() {
            out.put_between(at, ", ");
            put_step(step, out);
        }
    }
}

// Writes the text of a node, from its first leaf to its last.
fn put_node_text(tree: &Tree, bytes: &[u8], n: NodeId, out: &mut Answer) {
    if n.0 >= tree.node_count() {
        return out.refuse("node");
    }
    let (first, past) = tree.leaves_of(n);
    if first >= past || past > tree.leaf_count() {
        return out.refuse("leaves");
    }
    let from = tree.leaf(first).from as usize;
    let to = tree.leaf(past - 1).to as usize;
    match bytes.get(from..to) {
        Some(text) => out.put_quoted(text),
        None => out.refuse("text"),
    }
}

/// Writes the entries that a key path finds in a text.
pub fn put_found(alloc: Global, reader: &YamlReader, path: &[u8], text: &[u8], out: &mut Answer) {
    let tree = match reader.read(alloc, text) {
        Ok(tree) => tree,
        Err(fault) => return put_refused(fault, out),
    };
    let Some(path) = path_of(alloc, path, out) else {
        return;
    };
    match path.finds(alloc, &tree, text) {
        Ok(found) => {
            if found.is_empty() {
                out.put("none");
            }
            for (at, n) in found.iter().enumerate() {
                out.put_between(at, " | ");
                put_node_text(&tree, text, *n, out);
            }
        }
        Err(_) => out.refuse("memory"),
    }
}
