// What quoted scalars say.
ghost use Rattle.std.specs.Prelude.{◌≡◌, ◌++◌, ◌<◌, ◌≤◌, length, slice_index, Some, None};
ghost use Rattle.std.specs.Prelude.{MatchOption, IfSome, IfOk, OnOk, OnSome};
ghost use Rattle.yaml_texts.specs.Quoted.{hex_value, four_hex, is_surrogate, char_of, sign_of, escape_of};
ghost use Rattle.yaml_texts.specs.Quoted.{character_of, said_behind, inner, quoted_text};
ghost use Rattle.yaml_texts.specs.Steps.{bytes_said, character_said};

use rw_base::Mem;
use std::alloc::{AllocError, Global};
use yaml_lex::is_line_end;

fn hex_value(b: u8) -> Option<u8>
    ensures value { result ≡ hex_value b }
    ensures small { IfSome result (λ digit. digit < 16) }
{
    match b {
        b'0'..=b'9' => Some(b - b'0'),
        b'a'..=b'f' => Some(b - b'a' + 10),
        b'A'..=b'F' => Some(b - b'A' + 10),
        _ => None,
    }
}

fn four_hex(text: &[u8]) -> Option<u16>
    ensures { result ≡ four_hex text.now }
{
    if text.len() < 4 {
        return None;
    }
    let a = hex_value(text[0])? as u16;
    let b = hex_value(text[1])? as u16;
    let c = hex_value(text[2])? as u16;
    let d = hex_value(text[3])? as u16;
    Some(((a * 16 + b) * 16 + c) * 16 + d)
}

// The character of a number that is no surrogate.
fn char_of(unit: Option<u16>) -> Option<char>
    ensures { result ≡ char_of unit }
{
    let unit = unit?;
    if 0xd800 <= unit && unit <= 0xdfff {
        return None;
    }
    Some(char::from_u32(unit as u32).unwrap())
}

// What a sign behind a backslash stands for.
fn sign_of(b: u8) -> Option<u8>
    ensures { result ≡ sign_of b }
{
    match b {
        b'"' | b'\\' | b'/' => Some(b),
        b'n' => Some(b'\n'),
        b't' => Some(b'\t'),
        b'r' => Some(b'\r'),
        _ => None,
    }
}

// What a character says: a byte that stands for itself, or a character that an escape names.
#[derive(Clone, Copy)]
enum Said {
    Byte(u8),
    Char(char),
}

// What the escape says whose backslash stands before a text, and its bytes behind the backslash.
fn escape_of(text: &[u8]) -> Option<(Said, usize)>
    ensures said { MatchOption result (escape_of text.now ≡ None)
        (λ c. escape_of text.now ≡ Some (character_said c.0 c.1)) }
    ensures small { IfSome result (λ c. c.1 ≤ 5) }
{
    match text {
        [] => None,
        [b'u', rest @ ..] => match char_of(four_hex(rest)) {
            Some(c) => Some((Said::Char(c), 5)),
            None => None,
        },
        [b, ..] => match sign_of(*b) {
            Some(c) => Some((Said::Byte(c), 1)),
            None => None,
        },
    }
}

// What the first character of a text between such quotes says, and its bytes behind the first.
#[tactic(auto, unfolding(crate::specs::Quoted::character_of))]
fn character_of(quote: u8, text: &[u8]) -> Option<(Said, usize)>
    ensures said { MatchOption result (character_of quote text.now ≡ None)
        (λ c. character_of quote text.now ≡ Some (character_said c.0 c.1)) }
    ensures small { IfSome result (λ c. c.1 ≤ 5) }
{
    match text {
        [] => None,
        [b, rest @ ..] => {
            if is_line_end(*b) {
                None
            } else if quote == b'"' && *b == b'\\' {
                escape_of(rest)
            } else if quote == b'\'' && *b == b'\'' {
                Some((Said::Byte(*b), 1))
            } else {
                Some((Said::Byte(*b), 0))
            }
        }
    }
}

fn push_said(out: &mut Vec<u8>, said: Said) -> Result<(), AllocError>
    ensures { OnOk result (out.new.items ≡ out.old.items ++ bytes_said said) }
{
    match said {
        Said::Byte(b) => Ok(out.push(b)?),
        Said::Char(c) => {
            let mut buffer = [0; 4];
            out.extend_from_slice(c.encode_utf8(&mut buffer).as_bytes())
        }
    }
}

// What a text between such quotes says.
fn said_between(alloc: Global, quote: u8, text: &[u8]) -> Mem<Option<Vec<u8>>>
    ensures { IfOk result (λ r. MatchOption r (said_behind quote 0 text.now ≡ None)
        (λ said. said_behind quote 0 text.now ≡ Some said.items)) }
{
    let mut out = Vec::with_capacity(alloc, text.len())?;
    let mut at = 0;
    while at < text.len() {
        match character_of(quote, &text[at..]) {
            None => return Ok(None),
            Some((said, more)) => {
                push_said(&mut out, said)?;
                at += 1 + more;
            }
        }
    }
    Ok(Some(out))
}

/// What a quoted scalar says, or none where it goes over several lines or has an escape that isn't decoded.
pub fn quoted_text(alloc: Global, text: &[u8]) -> Mem<Option<Vec<u8>>>
    requires { 0 < length text.now }
    ensures { IfOk result (λ r. MatchOption r (quoted_text text.now ≡ None)
        (λ said. quoted_text text.now ≡ Some said.items)) }
{
    let inner = &text[1..];
    said_between(alloc, text[0], &inner[..inner.len().saturating_sub(1)])
}
