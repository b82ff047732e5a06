// Logical lines, piece by piece.
ghost use Rattle.std.specs.Prelude.{◌≡◌, ◌++◌, ◌∷◌, ◌+◌, ◌≤◌, length, take, drop, false, IfOk};
ghost use Rattle.properties_tree.specs.Plain.{has_backslash};
ghost use Rattle.properties_tree.specs.Entries.{characters_of};
ghost use Rattle.properties_tree.specs.Cutting.{joins, joint_size, key_size, separator_size, line_size, pieces_in};
ghost use Rattle.properties_tree.specs.Cutting.{key_end, IsNext};

use crate::bytes::{ends_key, is_blank, is_line_end, is_plain, is_plain_in_key, is_separator};
use crate::lines::{blanks_length, ending_length};
use rw_base::Mem;
use std::alloc::Global;

// What stands next in a text: the end of the logical line, a character, a backslash and the character behind it, or so
// many bytes that mean nothing.
#[derive(Clone, Copy)]
pub enum Next {
    End,
    Char(u8),
    Pair(u8),
    Joint(usize),
}

fn joins(text: &[u8]) -> bool
    ensures { result ≡ joins text.now }
{
    match text {
        [] => true,
        [b, ..] => is_line_end(*b),
    }
}

fn joint_size(text: &[u8]) -> usize
    ensures value { result ≡ joint_size text.now }
    ensures inside { result ≤ length text.now }
{
    let ending = ending_length(text);
    ending + blanks_length(&text[ending..])
}

// What stands next behind the first bytes of a text.
fn next_at(text: &[u8], at: usize) -> Next
    requires { at ≤ length text.now }
    ensures { IsNext text.now at result }
{
    if at == text.len() {
        return Next::End;
    }
    let b = text[at];
    if is_line_end(b) {
        return Next::End;
    }
    if b != b'\\' {
        return Next::Char(b);
    }
    let rest = &text[at + 1..];
    if joins(rest) {
        Next::Joint(1 + joint_size(rest))
    } else {
        Next::Pair(rest[0])
    }
}

// How many characters that stand for themselves a key begins with.
#[tactic(auto, using(crate::proofs::Loops::over_runs))]
pub fn plain_key_length(text: &[u8]) -> usize
    ensures value { key_size text.now ≡ key_end result result (pieces_in (drop result text.now)) }
    ensures plain { has_backslash (take result text.now) ≡ false }
    ensures inside { result ≤ length text.now }
{
    for (i, b) in text.iter().enumerate() {
        if !is_plain_in_key(*b) {
            return i;
        }
    }
    text.len()
}

// The bytes of the key that a text begins with, where so many characters are read.
#[tactic(auto, using(crate::proofs::Loops::over_key))]
pub fn key_size_behind(text: &[u8], read: usize) -> usize
    requires value { key_size text.now ≡ key_end read read (pieces_in (drop read text.now)) }
    requires inside { read ≤ length text.now }
    ensures value { result ≡ key_size text.now }
    ensures inside { result ≤ length text.now }
{
    let mut at = read;
    let mut end = read;
    while at < text.len() {
        match next_at(text, at) {
            Next::End => return end,
            Next::Char(b) => {
                if ends_key(b) {
                    return end;
                }
                at += 1;
                end = at;
            }
            Next::Pair(_) => {
                at += 2;
                end = at;
            }
            Next::Joint(size) => at += size,
        }
    }
    end
}

// The bytes of the separator that a text begins with.
#[tactic(auto, using(crate::proofs::Loops::over_separator))]
pub fn separator_size(text: &[u8]) -> usize
    ensures value { result ≡ separator_size text.now }
    ensures inside { result ≤ length text.now }
{
    let mut marked = false;
    let mut at = 0;
    let mut end = 0;
    while at < text.len() {
        match next_at(text, at) {
            Next::End => return end,
            Next::Pair(_) => return end,
            Next::Joint(size) => at += size,
            Next::Char(b) => {
                if !is_blank(b) {
                    if marked || !is_separator(b) {
                        return end;
                    }
                    marked = true;
                }
                at += 1;
                end = at;
            }
        }
    }
    end
}

// How many characters that stand for themselves a logical line begins with.
#[tactic(auto, using(crate::proofs::Loops::over_runs))]
fn plain_line_length(text: &[u8]) -> usize
    ensures value { line_size text.now ≡ result + line_size (drop result text.now) }
    ensures inside { result ≤ length text.now }
{
    for (i, b) in text.iter().enumerate() {
        if !is_plain(*b) {
            return i;
        }
    }
    text.len()
}

// The bytes of the logical line that a text begins with, without its line end.
#[tactic(auto, using(crate::proofs::Loops::over_line))]
pub fn line_size(text: &[u8]) -> usize
    ensures value { result ≡ line_size text.now }
    ensures inside { result ≤ length text.now }
{
    let mut at = 0;
    while at < text.len() {
        match next_at(text, at) {
            Next::End => return at,
            Next::Char(_) => at += 1 + plain_line_length(&text[at + 1..]),
            Next::Pair(_) => at += 2,
            Next::Joint(size) => at += size,
        }
    }
    at
}

// The characters of the logical line that a text begins with.
#[tactic(auto, using(crate::proofs::Loops::over_characters))]
pub fn characters_of(alloc: Global, text: &[u8]) -> Mem<Vec<u8>>
    ensures { IfOk result (λ out. out.items ≡ characters_of (pieces_in text.now)) }
{
    let mut out = Vec::new(alloc);
    let mut at = 0;
    while at < text.len() {
        match next_at(text, at) {
            Next::End => return Ok(out),
            Next::Char(b) => {
                out.push(b)?;
                at += 1;
            }
            Next::Pair(c) => {
                out.push(b'\\')?;
                out.push(c)?;
                at += 2;
            }
            Next::Joint(size) => at += size,
        }
    }
    Ok(out)
}
