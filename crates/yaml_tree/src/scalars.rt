// What the scalars of a tree say.
ghost use Rattle.std.specs.Prelude.{◌≡◌, ℕ, List, false, ◌+◌, ◌<◌, ◌≤◌, ◌^◌, length, drop, Option, Some, None};
ghost use Rattle.std.specs.Prelude.{MatchOption, IfSome, IfNone, IfOk};
ghost use Rattle.rw_base.specs.Arena.{Runs, end_of, row_at, parts_of, past_of};
ghost use Rattle.rw_base.specs.Utf8.{mark_size};
ghost use Rattle.yaml_lex.specs.Characters.{is_continuation};
ghost use Rattle.yaml_texts.specs.Texts.{scalar_text};
ghost use Rattle.yaml_tree.specs.Scalars.{is_around, opening_around, column_at, column_around, scalar_of};
ghost use Rattle.yaml_tree.specs.Decoding.{HasLeaf, next_column, column_behind};

use crate::finding::SEQ;
use crate::kind::Kind;
use rw_base::{Mem, NodeId, Part, Tree};
use std::alloc::Global;
use yaml_lex::class::BLOCK;
use yaml_lex::{digit_of, is_line_end};
use yaml_texts::decoded;

const MAP: u16 = Kind::Map as u16;

// Whether a node is a block collection, of which a leaf is one behind the leaf that opens it.
fn is_around(tree: &Tree, n: NodeId, i: u32) -> bool
    requires { n.0 < length tree.now.nodes }
    ensures { result ≡ is_around i (row_at tree.now.nodes n.0) }
{
    let kind = tree.kind(n);
    let (first, past) = tree.leaves_of(n);
    (kind == MAP || kind == SEQ) && first < i && i < past
}

// The leaf where the parts of a node begin that stand from a position on.
fn start_at(tree: &Tree, n: NodeId, k: usize) -> u32
    requires node { n.0 < length tree.now.nodes }
    requires part { k < length (parts_of tree.now.nodes n.0) }
    ensures { let nodes = tree.now.nodes in Runs nodes (drop k (parts_of nodes n.0)) result (past_of nodes n.0) }
{
    let _ = tree.root();
    let parts = tree.parts(n);
    match parts[k] {
        Part::Leaf(i) => i,
        Part::Node(m) => tree.leaves_of(m).0,
    }
}

// The part of a node that has a leaf, if it is a node, found by halves.
fn node_around(tree: &Tree, n: NodeId, i: u32) -> Option<NodeId>
    requires node { n.0 < length tree.now.nodes }
    requires inside { HasLeaf tree.now.nodes i n.0 }
    ensures below { IfSome result (λ m. m.0 < n.0) }
    ensures inside { IfSome result (λ m. HasLeaf tree.now.nodes i m.0) }
    ensures some { let nodes = tree.now.nodes in
        IfSome result (λ m. opening_around i (drop (m.0 + 1) nodes) ≡ opening_around i (drop n.0 nodes)) }
    ensures none { let nodes = tree.now.nodes in
        IfNone result (opening_around i nodes ≡ opening_around i (drop n.0 nodes)) }
{
    let _ = tree.root();
    let parts = tree.parts(n);
    let mut from = 0;
    let mut to = parts.len();
    while from + 1 < to {
        let middle = from + (to - from) / 2;
        if start_at(tree, n, middle) <= i {
            from = middle;
        } else {
            to = middle;
        }
    }
    match parts[from] {
        Part::Leaf(_) => None,
        Part::Node(m) => Some(m),
    }
}

// The leaf that opens a node, if that is a block collection around a leaf, else the one given.
fn opening_at(tree: &Tree, n: NodeId, i: u32, outer: Option<u32>) -> Option<u32>
    requires node { n.0 < length tree.now.nodes }
    requires outer { outer ≡ opening_around i (drop (n.0 + 1) tree.now.nodes) }
    requires before { IfSome outer (λ opening. opening < i) }
    ensures opening { result ≡ opening_around i (drop n.0 tree.now.nodes) }
    ensures before { IfSome result (λ opening. opening < i) }
{
    if is_around(tree, n, i) {
        return Some(tree.leaves_of(n).0);
    }
    outer
}

// The leaf that opens the innermost block collection around a leaf, found from the root down.
fn opening_around(tree: &Tree, i: u32) -> Option<u32>
    requires { i < length tree.now.leaves }
    ensures leaf { result ≡ opening_around i tree.now.nodes }
    ensures before { IfSome result (λ opening. opening < i) }
{
    let mut n = tree.root();
    let mut outer = None;
    loop {
        let opening = opening_at(tree, n, i, outer);
        match node_around(tree, n, i) {
            None => return opening,
            Some(m) => {
                n = m;
                outer = opening;
            }
        }
    }
}

// Whether a byte goes on with a character that began before it.
fn is_continuation(b: u8) -> bool
    ensures { result ≡ is_continuation b }
{
    128 <= b && b <= 191
}

// The column behind one more byte.
fn next_column(column: u32, b: u8) -> u32
    requires { column + 1 < 2 ^ 32 }
    ensures next { result ≡ next_column column b }
    ensures most { result ≤ column + 1 }
{
    if is_line_end(b) {
        0
    } else if is_continuation(b) {
        column
    } else {
        column + 1
    }
}

// The column behind a text that begins at the start of a line.
fn column_behind(text: &[u8]) -> u32
    requires { length text.now < 2 ^ 32 }
    ensures { result ≡ column_behind 0 text.now }
{
    let mut column = 0;
    for b in text {
        column = next_column(column, *b);
    }
    column
}

// The bytes of the byte order mark that a text begins with.
fn mark_size(text: &[u8]) -> usize
    ensures { result ≡ mark_size text.now }
{
    match text {
        [0xef, 0xbb, 0xbf, ..] => 3,
        _ => 0,
    }
}

// Where the last line of a text begins.
fn line_start(text: &[u8]) -> usize
    ensures line { column_behind 0 (drop result text.now) ≡ column_behind 0 text.now }
    ensures inside { result ≤ length text.now }
{
    let mut at = text.len();
    while at > 0 && !is_line_end(text[at - 1]) {
        at -= 1;
    }
    at
}

// The column of a byte, by which a file is cut into leaves.
fn column_at(bytes: &[u8], at: u32) -> u32
    requires { at ≤ length bytes.now }
    ensures { result ≡ column_at bytes.now at }
{
    let front = &bytes[..at as usize];
    let text = &front[mark_size(bytes).min(front.len())..];
    column_behind(&text[line_start(text)..])
}

// The column of the innermost block collection around a leaf.
fn column_around(tree: &Tree, bytes: &[u8], i: u32) -> Option<u32>
    requires leaf { i < length tree.now.leaves }
    requires bytes { length bytes.now ≡ end_of tree.now }
    ensures { result ≡ column_around bytes.now tree.now i }
{
    match opening_around(tree, i) {
        None => None,
        Some(opening) => Some(column_at(bytes, tree.leaf(opening + 1).from)),
    }
}

// Whether what a leaf says depends on that column.
fn needs_column(class: u16, text: &[u8]) -> bool
    ensures { result ≡ false → (column : Option ℕ) (rest : List ℕ)
        → scalar_text class None text.now rest ≡ scalar_text class column text.now rest }
{
    class == BLOCK && !text.is_empty() && digit_of(text).is_some()
}

/// The text that a KEY, SCALAR, FSCALAR or BLOCK leaf stands for: a plain scalar is its text, a quoted one what stands
/// between the quotes, and `|` its lines without their indentation. None for folded scalars, for quoted ones over
/// several lines, and for other escapes than those that `yaml_texts::decoded` lists. A leaf of another class is taken
/// for a plain scalar. It looks at the leaf alone, and behind `|+` at the blank lines that follow it; where the head of
/// a block scalar has a digit, it goes down from the root to the collection around it, by halves at each node.
pub fn scalar(alloc: Global, tree: &Tree, bytes: &[u8], leaf: u32) -> Mem<Option<Vec<u8>>>
    requires leaf { leaf < length tree.now.leaves }
    requires bytes { length bytes.now ≡ end_of tree.now }
    ensures { let said = scalar_of bytes.now tree.now leaf in
        IfOk result (λ r. MatchOption r (said ≡ None) (λ text. said ≡ Some text.items)) }
{
    let row = tree.leaf(leaf);
    let text = tree.text(bytes, leaf);
    let column = if needs_column(row.class, text) {
        column_around(tree, bytes, leaf)
    } else {
        None
    };
    decoded(alloc, row.class, column, text, &bytes[row.to as usize..])
}
