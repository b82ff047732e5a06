// Calls that take memory, with large inputs. The answers are counts, and the checksums of texts, which can be worked
// out without the program. A case is the name of a call and a number.
ghost use Rattle.std.specs.Prelude.{◌≡◌, length, IfSome};
ghost use Rattle.rw_base.specs.Arena.{end_of};

use crate::codes::put_row;
use crate::edits::{push_edit, put_edited, put_printed, text_items};
use crate::java::leaves_of;
use crate::places::put_end;
use crate::trees::tree_of;
use examples_base::{Answer, number_in, repeated};
use java_lex::class::{END, ID, SEMICOLON};
use rw_base::{Edit, NodeId, Spot, Tree};
use std::alloc::Global;

// Writes how many leaves a text has, and the bad place.
fn put_java(alloc: Global, text: &[u8], out: &mut Answer) {
    if let Some(cut) = leaves_of(alloc, text, out) {
        out.put_number(cut.leaves.len());
        out.put(" leaves, bad ");
        out.put_debug(&cut.bad);
    }
}

// The tree of a text of statements, by the rules `R1* END` and `ID SEMICOLON`.
fn statements(alloc: Global, text: &[u8], out: &mut Answer) -> Option<Tree>
    ensures { IfSome result (λ tree. length text.now ≡ end_of tree) }
{
    let codes = [2, 2, 2, 5, 1, 1, 0, END, 2, 2, 0, ID, 0, SEMICOLON];
    tree_of(alloc, &codes, text, out)
}

// Writes the counts of a tree of statements, and its text.
fn put_tree(alloc: Global, tree: &Tree, text: &[u8], out: &mut Answer)
    requires { length text.now ≡ end_of tree.now }
{
    out.put_number(tree.node_count() as usize);
    out.put(" nodes, ");
    out.put_number(tree.leaf_count() as usize);
    out.put(" leaves, ");
    put_printed(alloc, tree, text, out);
}

// Writes the tree of a text of statements.
fn put_derived(alloc: Global, text: &[u8], out: &mut Answer) {
    if let Some(tree) = statements(alloc, text, out) {
        put_tree(alloc, &tree, text, out);
    }
}

// An edit `bb` at each of so many nodes.
fn node_edits(alloc: Global, count: u32, out: &mut Answer) -> Vec<Edit> {
    let mut edits = Vec::new(alloc);
    for k in 0..count {
        let items = text_items(alloc, b"bb", out);
        push_edit(&mut edits, Spot::Node(NodeId(k)), items, out);
    }
    edits
}

// An edit `bb` at the first leaf of each of so many statements.
fn leaf_edits(alloc: Global, count: u32, out: &mut Answer) -> Vec<Edit> {
    let mut edits = Vec::new(alloc);
    for k in 0..count {
        let items = text_items(alloc, b"bb", out);
        push_edit(&mut edits, Spot::Leaf(k.saturating_mul(2)), items, out);
    }
    edits
}

// Writes the new text of statements with edits.
fn put_new_text(alloc: Global, text: &[u8], edits: &[Edit], out: &mut Answer) {
    if let Some(tree) = statements(alloc, text, out) {
        put_edited(alloc, &tree, text, edits, out);
    }
}

// Writes the answer of a case on so many statements `a;`.
fn put_statements(alloc: Global, call: &str, count: u32, out: &mut Answer) {
    let text = repeated(alloc, b"a;", count, out);
    match call {
        "java_leaves" => put_java(alloc, &text, out),
        "derive" => put_derived(alloc, &text, out),
        "node_edits" => put_new_text(alloc, &text, &node_edits(alloc, count, out), out),
        "leaf_edits" => put_new_text(alloc, &text, &leaf_edits(alloc, count, out), out),
        _ => out.refuse("large call"),
    }
}

/// Writes the answer of a case.
pub fn put_answer(alloc: Global, case: &str, out: &mut Answer) {
    let Some((call, count)) = case.split_once(' ') else {
        out.refuse("number behind a call");
        return;
    };
    let count = number_in(count, out);
    match call {
        "shapes" => put_row(alloc, count, out),
        "place_of" => put_end(&repeated(alloc, b"a\r\n", count, out), out),
        _ => put_statements(alloc, call, count, out),
    }
}
