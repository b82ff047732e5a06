// Plain and quoted scalars, and names.
ghost use Rattle.std.specs.Prelude.{◌≡◌, ◌<◌, MatchOption, length};
ghost use Rattle.yaml_lex.specs.Characters.{is_key_end};
ghost use Rattle.yaml_lex.specs.Scalars.{begins_plain, ends_plain, ends_in_flow, IsPlain, IsQuoted, is_pair, in_name};
ghost use Rattle.yaml_lex.specs.Scalars.{IsName, IsRun};
ghost use Rattle.yaml_lex.specs.Scanning.{IsPlainEnd, NoPlain, NoQuoted, NoName};

use crate::characters::{
    is_blank, is_colon_gap, is_flow_sign, is_gap, is_indicator, is_line_end, is_white, needs_more,
};

/// A plain scalar can begin here.
#[tactic(auto, unfolding(crate::specs::Scalars::begins_plain))]
pub fn begins_plain(text: &[u8]) -> bool
    ensures { result ≡ begins_plain text.now }
{
    match text {
        [] => false,
        [b, rest @ ..] => !is_white(*b) && !is_indicator(*b) && !(needs_more(*b) && is_gap(rest)),
    }
}

// What ends a plain scalar in flow context alone: a sign, or `:` before one.
fn ends_in_flow(text: &[u8]) -> bool
    ensures { result ≡ ends_in_flow text.now }
{
    match text {
        [b, c, ..] => is_flow_sign(*b) || (*b == b':' && is_flow_sign(*c)),
        [b] => is_flow_sign(*b),
        [] => false,
    }
}

/// What ends a plain scalar stands here.
#[tactic(auto, unfolding(crate::specs::Scalars::ends_plain))]
pub fn ends_plain(flow: bool, text: &[u8]) -> bool
    ensures { result ≡ ends_plain flow text.now }
{
    match text {
        [] => true,
        [b, ..] if is_line_end(*b) => true,
        [b, b'#', ..] if is_blank(*b) => true,
        _ => is_colon_gap(text) || (flow && ends_in_flow(text)),
    }
}

// The bytes up to what ends a plain scalar, without the blanks before that.
fn plain_end(text: &[u8], flow: bool) -> usize
    ensures { IsPlainEnd flow text.now result }
{
    let mut end = 0;
    for (at, b) in text.iter().enumerate() {
        if ends_plain(flow, &text[at..]) {
            return end;
        }
        if !is_blank(*b) {
            end = at + 1;
        }
    }
    end
}

/// The bytes of the plain scalar that a text begins with.
#[tactic(auto, using(crate::proofs::Plain::of_plain))]
pub fn plain_size(text: &[u8], flow: bool) -> Option<usize>
    ensures { MatchOption result (NoPlain flow text.now) (IsPlain flow text.now) }
{
    if !begins_plain(text) {
        return None;
    }
    let end = plain_end(text, flow);
    if end > 0 { Some(end) } else { None }
}

// Two bytes that belong together stand here: in double quotes a backslash and what follows it, in single quotes two
// quotes.
fn is_pair(quote: u8, text: &[u8]) -> bool
    ensures { result ≡ is_pair quote text.now }
{
    match text {
        [] => false,
        [b'\\', ..] if quote == b'"' => true,
        [b'\'', b'\'', ..] => quote == b'\'',
        _ => false,
    }
}

/// The bytes of the quoted scalar that a text begins with, or none where it isn't closed.
pub fn quoted_size(text: &[u8]) -> Option<usize>
    requires { 0 < length text.now }
    ensures { MatchOption result (NoQuoted text.now) (IsQuoted text.now) }
{
    let quote = text[0];
    let mut at = 1;
    while at < text.len() {
        if is_pair(quote, &text[at..]) {
            at += 2;
        } else if text[at] == quote {
            return Some(at + 1);
        } else {
            at += 1;
        }
    }
    None
}

/// Whether blanks and then `:` before a blank, a line end or the end stand here.
pub fn is_key_end(text: &[u8]) -> bool
    ensures { result ≡ is_key_end text.now }
{
    for (at, b) in text.iter().enumerate() {
        if !is_blank(*b) {
            return is_colon_gap(&text[at..]);
        }
    }
    false
}

// A character of a name.
#[tactic(auto, unfolding(crate::specs::Scalars::in_name))]
fn in_name(b: u8) -> bool
    ensures { result ≡ in_name b }
{
    !is_white(b) && !is_flow_sign(b)
}

// The characters of a name that a text begins with.
fn letters_size(text: &[u8]) -> usize
    ensures { IsRun in_name text.now result }
{
    for (at, b) in text.iter().enumerate() {
        if !in_name(*b) {
            return at;
        }
    }
    text.len()
}

/// The bytes of the anchor or alias that a text begins with, or none where no name follows its mark.
pub fn name_size(text: &[u8]) -> Option<usize>
    requires { 0 < length text.now }
    ensures { MatchOption result (NoName text.now) (IsName text.now) }
{
    let letters = letters_size(&text[1..]);
    if letters == 0 {
        return None;
    }
    Some(1 + letters)
}
