// Edits of a tree, as people write them: `N1=` or `L4=` and behind it what takes the place of node 1 or leaf 4: texts
// in quotes, `N0` and `L0` for the new text of a node or leaf, and `n0` and `l0` for the same without its prefix.
ghost use Rattle.std.specs.Prelude.{◌≡◌, ◌≢◌, IsTrue, All, length};
ghost use Rattle.rw_base.specs.Arena.{end_of};
ghost use Rattle.rw_base.specs.NewText.{IsSpot, IsItemOf, AreEdits};

use crate::rules::codes_in;
use crate::trees::tree_of;
use examples_base::{Answer, Words, number_in, text_of, words_of};
use rw_base::{Edit, Item, NodeId, Spot, Text, Tree, print, rearranged};
use sqlite_items::Items;
use std::alloc::Global;

// The spot of a word such as `N1=`, where it is one.
fn spot_in(word: &str, out: &mut Answer) -> Option<Spot> {
    let name = word.strip_suffix('=')?;
    if let Some(digits) = name.strip_prefix('N') {
        return Some(Spot::Node(NodeId(number_in(digits, out))));
    }
    match name.strip_prefix('L') {
        Some(digits) => Some(Spot::Leaf(number_in(digits, out))),
        None => {
            out.refuse("spot");
            None
        }
    }
}

// The spot of the word at a place, where it is one.
fn spot_at(words: &Words, at: usize, out: &mut Answer) -> Option<Spot> {
    if words.is_quoted(at) {
        None
    } else {
        spot_in(words.plain(at, out), out)
    }
}

// The item of a plain word.
fn named_item(name: &str, out: &mut Answer) -> Option<Item> {
    if let Some(digits) = name.strip_prefix('N') {
        return Some(Item::Node(NodeId(number_in(digits, out))));
    }
    if let Some(digits) = name.strip_prefix('n') {
        return Some(Item::NodeBody(NodeId(number_in(digits, out))));
    }
    if let Some(digits) = name.strip_prefix('L') {
        return Some(Item::Leaf(number_in(digits, out)));
    }
    match name.strip_prefix('l') {
        Some(digits) => Some(Item::LeafBody(number_in(digits, out))),
        None => None,
    }
}

// A text as an item.
fn text_item(alloc: Global, text: &[u8]) -> Option<Item> {
    match Text::from_slice(alloc, text) {
        Ok(text) => Some(Item::Text(text)),
        Err(_) => None,
    }
}

// The item of the word at a place.
fn item_at(alloc: Global, words: &Words, at: usize, out: &mut Answer) -> Option<Item> {
    if words.is_quoted(at) {
        text_item(alloc, words.quoted(at, out))
    } else {
        named_item(words.plain(at, out), out)
    }
}

// Adds an item to others.
fn push_item(items: &mut Vec<Item>, item: Option<Item>, out: &mut Answer) {
    match item {
        Some(item) => {
            if items.push(item).is_err() {
                out.refuse("memory");
            }
        }
        None => out.refuse("item"),
    }
}

/// Adds an edit to others.
pub fn push_edit(edits: &mut Vec<Edit>, spot: Spot, items: Vec<Item>, out: &mut Answer) {
    let items = Items::from_vec(items);
    if edits.push(Edit { spot, items }).is_err() {
        out.refuse("memory");
    }
}

/// An item alone.
pub fn text_items(alloc: Global, text: &[u8], out: &mut Answer) -> Vec<Item> {
    let mut items = Vec::new(alloc);
    push_item(&mut items, text_item(alloc, text), out);
    items
}

// The items of the words from a place on, up to the next spot.
fn items_from(alloc: Global, words: &Words, first: usize, out: &mut Answer) -> Vec<Item> {
    let mut items = Vec::new(alloc);
    for at in first..words.count() {
        if spot_at(words, at, out).is_some() {
            break;
        }
        push_item(&mut items, item_at(alloc, words, at, out), out);
    }
    items
}

// The edits of a case.
fn edits_in(alloc: Global, words: &Words, out: &mut Answer) -> Vec<Edit> {
    let mut edits = Vec::new(alloc);
    for at in 0..words.count() {
        if let Some(spot) = spot_at(words, at, out) {
            let items = items_from(alloc, words, at.saturating_add(1), out);
            push_edit(&mut edits, spot, items, out);
        }
    }
    edits
}

fn is_spot(tree: &Tree, spot: Spot) -> bool
    ensures { IsTrue result → IsSpot tree.now spot }
{
    match spot {
        Spot::Node(n) => n.0 < tree.node_count(),
        Spot::Leaf(i) => i < tree.leaf_count(),
    }
}

fn is_item_of(tree: &Tree, spot: Spot, item: &Item) -> bool
    ensures { IsTrue result → IsItemOf tree.now spot item.now }
{
    match spot {
        Spot::Leaf(_) => match item {
            Item::Text(_) => true,
            _ => false,
        },
        Spot::Node(n) => match item {
            Item::Text(_) => true,
            Item::Node(m) => m.0 < n.0,
            Item::NodeBody(m) => m.0 < n.0,
            Item::Leaf(i) => *i < tree.leaf_count(),
            Item::LeafBody(i) => *i < tree.leaf_count(),
        },
    }
}

fn are_items_of(tree: &Tree, spot: Spot, items: &[Item]) -> bool
    ensures { IsTrue result → All (IsItemOf tree.now spot) items.now }
{
    for item in items {
        if !is_item_of(tree, spot, item) {
            return false;
        }
    }
    true
}

fn is_free(edits: &[Edit], spot: Spot) -> bool
    ensures { IsTrue result → All (λ f. f.spot ≢ spot) edits.now }
{
    for edit in edits {
        if edit.spot == spot {
            return false;
        }
    }
    true
}

// Whether these are edits of a tree.
#[tactic(auto, unfolding(rw_base::specs::NewText::AreEdits))]
fn are_edits(tree: &Tree, edits: &[Edit]) -> bool
    ensures { IsTrue result → AreEdits tree.now edits.now }
{
    match edits {
        [] => true,
        [edit, rest @ ..] => {
            is_spot(tree, edit.spot)
                && are_items_of(tree, edit.spot, edit.items.as_slice())
                && is_free(rest, edit.spot)
                && are_edits(tree, rest)
        }
    }
}

/// Writes the new text of a tree with edits.
pub fn put_edited(alloc: Global, tree: &Tree, text: &[u8], edits: &[Edit], out: &mut Answer)
    requires { length text.now ≡ end_of tree.now }
{
    if !are_edits(tree, edits) {
        out.refuse("edits of the tree");
        return;
    }
    match rearranged(alloc, tree, text, edits) {
        Ok(new_text) => out.put_text(&new_text),
        Err(_) => out.refuse("memory"),
    }
}

// The text that the first line gives.
fn given_text(alloc: Global, givens: &[String], out: &mut Answer) -> Vec<u8> {
    match givens.first() {
        Some(first) => text_of(alloc, first.as_str(), out),
        None => Vec::new(alloc),
    }
}

// The codes of the rules that the lines behind it give.
fn given_codes(alloc: Global, givens: &[String], out: &mut Answer) -> Vec<u16> {
    codes_in(alloc, givens.get(1..).unwrap_or(&[]), out)
}

/// Writes the prefixes and texts of a tree.
pub fn put_printed(alloc: Global, tree: &Tree, text: &[u8], out: &mut Answer)
    requires { length text.now ≡ end_of tree.now }
{
    let mut printed = Vec::new(alloc);
    match print(tree, text, &mut printed) {
        Ok(()) => out.put_text(&printed),
        Err(_) => out.refuse("memory"),
    }
}

/// Writes the prefixes and texts of a tree.
pub fn put_print(alloc: Global, givens: &[String], out: &mut Answer) {
    let text = given_text(alloc, givens, out);
    let codes = given_codes(alloc, givens, out);
    if let Some(tree) = tree_of(alloc, &codes, &text, out) {
        put_printed(alloc, &tree, &text, out);
    }
}

/// Writes the new text of a tree with the edits of a case.
pub fn put_new_text(alloc: Global, givens: &[String], case: &str, out: &mut Answer) {
    let text = given_text(alloc, givens, out);
    let codes = given_codes(alloc, givens, out);
    let edits = edits_in(alloc, &words_of(alloc, case, out), out);
    if let Some(tree) = tree_of(alloc, &codes, &text, out) {
        put_edited(alloc, &tree, &text, &edits, out);
    }
}
