// Units of files, and their calls, as they are written.
ghost use Rattle.std.specs.Prelude.{◌≡◌, length};
ghost use Rattle.rw_base.specs.Arena.{end_of};
ghost use Rattle.java_reader.specs.Units.{HasFewNodes};

use crate::reads::{What, read};
use crate::trees::put_leaf;
use examples_base::{Answer, put_refused};
use java_reader::{CallView, JavaReader, UnitRef, calls, units};
use rw_base::Tree;
use std::alloc::Global;

// The units of a tree, none where memory is refused.
fn units_of(alloc: Global, tree: &Tree, out: &mut Answer) -> Vec<UnitRef>
    requires { HasFewNodes tree.now }
{
    match units(alloc, tree) {
        Ok(all) => all,
        Err(_) => {
            out.refuse("memory");
            Vec::new(alloc)
        }
    }
}

// The calls of a unit, none where memory is refused.
fn calls_of(alloc: Global, tree: &Tree, unit: UnitRef, out: &mut Answer) -> Vec<CallView> {
    match calls(alloc, tree, unit) {
        Ok(all) => all,
        Err(_) => {
            out.refuse("memory");
            Vec::new(alloc)
        }
    }
}

// Writes the text of the leaf at a place.
fn put_leaf_at(tree: &Tree, bytes: &[u8], i: u32, out: &mut Answer)
    requires { length bytes.now ≡ end_of tree.now }
{
    if i < tree.leaf_count() {
        put_leaf(tree.text(bytes, i), out);
    } else {
        out.refuse("leaf");
    }
}

// Writes a unit: its kind, its leaves with the texts of the first and of the last, and the head around it.
fn put_unit(tree: &Tree, bytes: &[u8], unit: UnitRef, out: &mut Answer)
    requires { length bytes.now ≡ end_of tree.now }
{
    out.put_debug(&unit.kind);
    out.put(" in ");
    out.put_number(unit.owner as usize);
    out.put(", leaves ");
    out.put_number(unit.first as usize);
    out.put("..");
    out.put_number(unit.past as usize);
    if unit.first < unit.past {
        out.put(" ");
        put_leaf_at(tree, bytes, unit.first, out);
        out.put("..");
        put_leaf_at(tree, bytes, unit.past - 1, out);
    }
}

// Writes the units of a tree.
fn put_all_units(alloc: Global, tree: &Tree, bytes: &[u8], out: &mut Answer)
    requires bytes { length bytes.now ≡ end_of tree.now }
    requires few { HasFewNodes tree.now }
{
    for (at, unit) in units_of(alloc, tree, out).iter().enumerate() {
        out.put_between(at, " | ");
        put_unit(tree, bytes, *unit, out);
    }
}

/// Writes the units of a file.
pub fn put_units(alloc: Global, reader: &JavaReader, text: &[u8], out: &mut Answer) {
    match read(reader, What::File, text) {
        Ok(tree) => put_all_units(alloc, &tree, text, out),
        Err(fault) => put_refused(fault, out),
    }
}

// How many leaves the arguments of a call are.
fn argument_leaves(tree: &Tree, call: CallView) -> u32 {
    if call.args.0 < tree.node_count() {
        let (first, past) = tree.leaves_of(call.args);
        past.saturating_sub(first)
    } else {
        0
    }
}

// Writes a call: its name, how many parts of its node are the receiver, and how many leaves the arguments are.
fn put_call(tree: &Tree, bytes: &[u8], call: CallView, out: &mut Answer)
    requires { length bytes.now ≡ end_of tree.now }
{
    out.put(if call.is_new { "new " } else { "" });
    put_leaf_at(tree, bytes, call.name_leaf, out);
    out.put(" ");
    out.put_number(call.receiver as usize);
    out.put(" ");
    out.put_number(argument_leaves(tree, call) as usize);
}

// Writes the calls of a unit.
fn put_unit_calls(alloc: Global, tree: &Tree, bytes: &[u8], unit: UnitRef, out: &mut Answer)
    requires { length bytes.now ≡ end_of tree.now }
{
    let all = calls_of(alloc, tree, unit, out);
    for (at, call) in all.iter().enumerate() {
        out.put_between(at, ", ");
        put_call(tree, bytes, *call, out);
    }
    if all.is_empty() {
        out.put("none");
    }
}

// Writes the calls of all units of a tree.
fn put_all_calls(alloc: Global, tree: &Tree, bytes: &[u8], out: &mut Answer)
    requires bytes { length bytes.now ≡ end_of tree.now }
    requires few { HasFewNodes tree.now }
{
    for (at, unit) in units_of(alloc, tree, out).iter().enumerate() {
        out.put_between(at, " | ");
        put_unit_calls(alloc, tree, bytes, *unit, out);
    }
}

/// Writes the calls of a file, unit by unit.
pub fn put_calls(alloc: Global, reader: &JavaReader, text: &[u8], out: &mut Answer) {
    match read(reader, What::File, text) {
        Ok(tree) => put_all_calls(alloc, &tree, text, out),
        Err(fault) => put_refused(fault, out),
    }
}

// Writes how many leaves a tree has, and each unit with its calls in a line of its own.
fn put_all(alloc: Global, tree: &Tree, bytes: &[u8], out: &mut Answer)
    requires bytes { length bytes.now ≡ end_of tree.now }
    requires few { HasFewNodes tree.now }
{
    out.put_number(tree.leaf_count() as usize);
    out.put(" leaves");
    for unit in &units_of(alloc, tree, out) {
        out.put("\n    ");
        put_unit(tree, bytes, *unit, out);
        out.put(": ");
        put_unit_calls(alloc, tree, bytes, *unit, out);
    }
}

/// Writes how many leaves a file has, and each unit with its calls.
pub fn put_file(alloc: Global, reader: &JavaReader, text: &[u8], out: &mut Answer) {
    match read(reader, What::File, text) {
        Ok(tree) => put_all(alloc, &tree, text, out),
        Err(fault) => put_refused(fault, out),
    }
}
