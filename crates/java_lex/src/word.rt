// Identifiers and keywords.
ghost use Rattle.std.specs.Prelude.{◌≡◌, ◌<◌, ◌≤◌, ◌*◌, ◌+◌, ◌%◌, ◌-◌, length, slice_index, if◌then◌else◌};
ghost use Rattle.std.specs.Prelude.{◌↔◌, IsTrue};
ghost use Rattle.java_lex.specs.Words.{word_class, begins_word, continues_word};
ghost use Rattle.java_lex.specs.Kinds.{IsLeaf};
ghost use Rattle.java_lex.specs.Scanning.{IsFirstSize, IsWordSize, slot_of, slot_word, slot_class};

use crate::class::ID;
use crate::slots::{LETTER_COUNT, LETTERS, MOST_LETTERS, SLOTS, WORD_CLASS};

// 1 for each byte below 128 that begins a word.
static BEGINS: [u8; 128] = [
    0, 0, 0, 0, 0, 0, 0, 0, 0, 0, 0, 0, 0, 0, 0, 0, 0, 0, 0, 0, 0, 0, 0, 0, 0, 0, 0, 0, 0, 0, 0, 0,
    0, 0, 0, 0, 1, 0, 0, 0, 0, 0, 0, 0, 0, 0, 0, 0, 0, 0, 0, 0, 0, 0, 0, 0, 0, 0, 0, 0, 0, 0, 0, 0,
    0, 1, 1, 1, 1, 1, 1, 1, 1, 1, 1, 1, 1, 1, 1, 1, 1, 1, 1, 1, 1, 1, 1, 1, 1, 1, 1, 0, 0, 0, 0, 1,
    0, 1, 1, 1, 1, 1, 1, 1, 1, 1, 1, 1, 1, 1, 1, 1, 1, 1, 1, 1, 1, 1, 1, 1, 1, 1, 1, 0, 0, 0, 0, 0,
];

// 1 for each byte below 128 that goes on with one.
static CONTINUES: [u8; 128] = [
    0, 0, 0, 0, 0, 0, 0, 0, 0, 0, 0, 0, 0, 0, 0, 0, 0, 0, 0, 0, 0, 0, 0, 0, 0, 0, 0, 0, 0, 0, 0, 0,
    0, 0, 0, 0, 1, 0, 0, 0, 0, 0, 0, 0, 0, 0, 0, 0, 1, 1, 1, 1, 1, 1, 1, 1, 1, 1, 0, 0, 0, 0, 0, 0,
    0, 1, 1, 1, 1, 1, 1, 1, 1, 1, 1, 1, 1, 1, 1, 1, 1, 1, 1, 1, 1, 1, 1, 1, 1, 1, 1, 0, 0, 0, 0, 1,
    0, 1, 1, 1, 1, 1, 1, 1, 1, 1, 1, 1, 1, 1, 1, 1, 1, 1, 1, 1, 1, 1, 1, 1, 1, 1, 1, 0, 0, 0, 0, 0,
];

// 1 where a byte below 128 begins a word, else 0.
#[inline(always)]
fn begins_size(b: u8) -> usize
    requires { b < 128 }
    ensures { result ≡ (if begins_word b then 1 else 0) }
{
    BEGINS[b as usize] as usize
}

// 1 where it goes on with one, else 0.
#[inline(always)]
fn continues_size(b: u8) -> usize
    requires { b < 128 }
    ensures { result ≡ (if continues_word b then 1 else 0) }
{
    CONTINUES[b as usize] as usize
}

// The bytes of the character past ASCII that a text begins with, where it begins a word, else 0.
fn wide_begins_size(text: &[u8]) -> usize
    requires { 128 ≤ slice_index text.now 0 }
    ensures { IsFirstSize begins_word text.now result }
{
    let (found, size) = bstr::decode_utf8(text);
    match found {
        Some(c) if unicode_ident::is_xid_start(c) => size,
        _ => 0,
    }
}

// The same where it goes on with one.
fn wide_continues_size(text: &[u8]) -> usize
    requires { 128 ≤ slice_index text.now 0 }
    ensures { IsFirstSize continues_word text.now result }
{
    let (found, size) = bstr::decode_utf8(text);
    match found {
        Some(c) if unicode_ident::is_xid_continue(c) => size,
        _ => 0,
    }
}

// The bytes of the character that a text begins with, where it begins a word, else 0.
fn first_size(text: &[u8]) -> usize
    ensures { IsFirstSize begins_word text.now result }
{
    match text {
        [] => 0,
        [b, ..] if *b < 128 => begins_size(*b),
        _ => wide_begins_size(text),
    }
}

// The same where it goes on with one.
fn next_size(text: &[u8]) -> usize
    ensures { IsFirstSize continues_word text.now result }
{
    match text {
        [] => 0,
        [b, ..] if *b < 128 => continues_size(*b),
        _ => wide_continues_size(text),
    }
}

/// The bytes of the longest word that a text begins with, and 0 where it begins with none.
pub fn word_size(text: &[u8]) -> usize
    ensures { IsWordSize text.now result }
{
    let mut at = first_size(text);
    if at == 0 {
        return 0;
    }
    let mut size = next_size(&text[at..]);
    while size > 0 {
        at += size;
        size = next_size(&text[at..]);
    }
    at
}

// The slot of a word.
fn slot_of(word: &[u8]) -> usize
    requires { 2 ≤ length word.now }
    ensures value { result ≡ slot_of word.now }
    ensures inside { result < SLOTS }
{
    let first = word[0] as usize;
    let second = word[1] as usize;
    let last = word[word.len() - 1] as usize;
    (31 * first + 57 * second + 22 * last + word.len()) % SLOTS
}

// The word in a slot, which is empty where none is there.
#[inline(always)]
#[tactic(auto, unfolding(crate::specs::Scanning::slot_word))]
fn slot_word(slot: usize) -> &'static [u8]
    requires { slot < SLOTS }
    ensures { result.now ≡ slot_word slot }
{
    &LETTERS[slot][..LETTER_COUNT[slot] as usize]
}

// Its class.
#[inline(always)]
#[tactic(auto, unfolding(crate::specs::Scanning::slot_class))]
fn slot_class(slot: usize) -> u16
    requires { slot < SLOTS }
    ensures { result ≡ slot_class slot }
{
    WORD_CLASS[slot]
}

/// The class of a word.
pub fn word_class(word: &[u8]) -> u16
    ensures { result ≡ word_class word.now }
{
    if word.len() < 2 || MOST_LETTERS < word.len() {
        return ID;
    }
    let slot = slot_of(word);
    if slot_word(slot) == word {
        slot_class(slot)
    } else {
        ID
    }
}

/// Whether a text is one identifier leaf: a word that is neither a keyword nor `true`, `false` or `null`.
pub fn is_identifier(text: &[u8]) -> bool
    ensures { IsTrue result ↔ IsLeaf ID text.now }
{
    let size = word_size(text);
    if size == 0 || size < text.len() {
        return false;
    }
    word_class(text) == ID
}
