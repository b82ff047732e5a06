// Block scalars.
ghost use Rattle.std.specs.Prelude.{◌≡◌, ◌≤◌, ◌<◌, ◌+◌, ◌^◌, MatchOption, IfSome, length, drop, false};
ghost use Rattle.yaml_lex.specs.BlockScalars.{is_chomp, is_digit, chomp_size, has_digit, signs_size, digit_of};
ghost use Rattle.yaml_lex.specs.BlockScalars.{is_head_over, IsHead, ending_size, is_blank_line, BlankLines, is_three};
ghost use Rattle.yaml_lex.specs.BlockScalars.{is_document_line, least_of, belongs, Lines, IsBlock};
ghost use Rattle.yaml_lex.specs.Scanning.{IsBlankLine, AtLineEnd, NoHead, NoBlock};

use crate::characters::{is_blank, is_gap, is_line_end};
use crate::runs::{indentation, is_line_over, line_size};

fn is_chomp(b: u8) -> bool
    ensures { result ≡ is_chomp b }
{
    b == b'+' || b == b'-'
}

fn is_digit(b: u8) -> bool
    ensures { result ≡ is_digit b }
{
    b'1' <= b && b <= b'9'
}

// The bytes of the `+` or `-` behind the first byte.
fn chomp_size(text: &[u8]) -> usize
    requires { 0 < length text.now }
    ensures value { result ≡ chomp_size text.now }
    ensures inside { 1 + result ≤ length text.now }
{
    match text {
        [_, b, ..] if is_chomp(*b) => 1,
        _ => 0,
    }
}

// Whether a digit stands behind that.
#[tactic(auto, using(crate::proofs::Heads::digit_by))]
fn has_digit(text: &[u8]) -> bool
    requires { 0 < length text.now }
    ensures { result ≡ has_digit text.now }
{
    let at = 1 + chomp_size(text);
    at < text.len() && is_digit(text[at])
}

/// The digit of the head of a block scalar.
#[tactic(auto, using(crate::proofs::Heads::digit_by))]
pub fn digit_of(text: &[u8]) -> Option<u8>
    requires { 0 < length text.now }
    ensures { result ≡ digit_of text.now }
{
    if !has_digit(text) {
        return None;
    }
    let at = 1 + chomp_size(text);
    Some(text[at] - b'0')
}

// The bytes of a head up to the digit.
#[tactic(auto, using(crate::proofs::Heads::digit_by))]
fn signs_size(text: &[u8]) -> usize
    requires { 0 < length text.now }
    ensures value { result ≡ signs_size text.now }
    ensures inside { result ≤ length text.now }
{
    let signs = 1 + chomp_size(text);
    if has_digit(text) { signs + 1 } else { signs }
}

// The line ends here, or a blank stands here and no more than blanks and a comment follow.
fn is_head_over(text: &[u8]) -> bool
    ensures { result ≡ is_head_over text.now }
{
    match text {
        [] => true,
        [b, rest @ ..] => is_line_end(*b) || (is_blank(*b) && is_line_over(rest)),
    }
}

// The bytes of the head of a block scalar, up to its line's end.
fn head_size(text: &[u8]) -> Option<usize>
    requires { 0 < length text.now }
    ensures head { MatchOption result (NoHead text.now) (IsHead text.now) }
    ensures line { IfSome result (λ n. (n ≤ length text.now) × AtLineEnd (drop n text.now)) }
{
    let signs = signs_size(text);
    if !is_head_over(&text[signs..]) {
        return None;
    }
    Some(signs + line_size(&text[signs..]))
}

/// Three times this byte before a blank, a line end or the end.
pub fn is_three(b: u8, text: &[u8]) -> bool
    requires { 0 < b }
    ensures { result ≡ is_three b text.now }
{
    match text {
        [c, d, e, rest @ ..] => *c == b && *d == b && *e == b && is_gap(rest),
        _ => false,
    }
}

// A line that isn't blank begins here, and belongs to the scalar.
#[tactic(auto, unfolding(crate::specs::BlockScalars::belongs, crate::specs::BlockScalars::is_document_line))]
fn belongs(least: usize, text: &[u8]) -> bool
    ensures { result ≡ belongs least text.now }
{
    if text.is_empty() {
        return false;
    }
    !(is_three(b'-', text) || is_three(b'.', text)) && least <= indentation(text)
}

/// The bytes of LF, CR LF or CR, where one stands.
pub fn ending_size(text: &[u8]) -> usize
    ensures value { result ≡ ending_size text.now }
    ensures inside { result ≤ length text.now }
{
    match text {
        [b'\n', ..] => 1,
        [b'\r', b'\n', ..] => 2,
        [b'\r', ..] => 1,
        _ => 0,
    }
}

// The blanks of a line that has nothing else.
fn blank_line_size(text: &[u8]) -> Option<usize>
    ensures { MatchOption result (is_blank_line text.now ≡ false) (IsBlankLine text.now) }
{
    for (at, b) in text.iter().enumerate() {
        if is_line_end(*b) {
            return Some(at);
        }
        if !is_blank(*b) {
            return None;
        }
    }
    Some(text.len())
}

// The bytes of a line's end and of all blank lines behind it.
fn blank_lines_size(text: &[u8]) -> usize
    requires { AtLineEnd text.now }
    ensures lines { BlankLines text.now result }
    ensures inside { result ≤ length text.now }
{
    let mut at = 0;
    while at < text.len() {
        let line = at + ending_size(&text[at..]);
        match blank_line_size(&text[line..]) {
            None => return line,
            Some(size) => at = line + size,
        }
    }
    at
}

// The bytes of the further lines of a block scalar.
fn lines_size(least: usize, text: &[u8]) -> usize
    requires { AtLineEnd text.now }
    ensures lines { Lines least text.now result }
    ensures inside { result ≤ length text.now }
{
    let mut at = 0;
    'lines: loop {
        let next = at + blank_lines_size(&text[at..]);
        let rest = &text[next..];
        if !belongs(least, rest) {
            return at;
        }
        at = next + line_size(rest);
    }
}

// The least indentation of a line of the scalar.
fn least_of(column: Option<u32>, digit: Option<u8>) -> usize
    ensures { result ≡ least_of column digit }
{
    match (column, digit) {
        (None, _) => 0,
        (Some(column), None) => column as usize + 1,
        (Some(column), Some(digit)) => column as usize + digit as usize,
    }
}

/// The bytes of the block scalar that a text begins with, where the innermost collection has this column.
pub fn block_size(column: Option<u32>, text: &[u8]) -> Option<usize>
    requires { 0 < length text.now }
    ensures { MatchOption result (NoBlock column text.now) (IsBlock column text.now) }
{
    let head = head_size(text)?;
    let least = least_of(column, digit_of(text));
    Some(head + lines_size(least, &text[head..]))
}
