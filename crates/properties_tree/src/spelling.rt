// Keys written so that reading them gives them back.
ghost use Rattle.std.specs.Prelude.{◌≡◌, ◌++◌, IfOk, OnOk};
ghost use Rattle.properties_tree.specs.Spelling.{spell_byte, is_marked_in_key, spelled_key, spelled_rest};
ghost use Rattle.properties_tree.specs.Spelling.{spelled_value};

use crate::bytes::{is_comment_mark, is_separator};
use crate::lines::begins_with_separator;
use rw_base::Mem;
use std::alloc::{AllocError, Global};

fn is_marked_in_key(b: u8) -> bool
    ensures { result ≡ is_marked_in_key b }
{
    b == b' ' || is_separator(b) || is_comment_mark(b) || b == b'\\'
}

fn push_spelled(out: &mut Vec<u8>, marked: bool, b: u8) -> Result<(), AllocError>
    ensures { OnOk result (out.new.items ≡ out.old.items ++ spell_byte marked b) }
{
    match b {
        b'\t' => out.extend_from_slice(b"\\t"),
        b'\n' => out.extend_from_slice(b"\\n"),
        b'\r' => out.extend_from_slice(b"\\r"),
        12 => out.extend_from_slice(b"\\f"),
        _ => {
            if marked {
                out.extend_from_slice(&[b'\\', b])
            } else {
                out.extend_from_slice(&[b])
            }
        }
    }
}

/// The key as it is written in a properties file: a backslash before each space, `=`, `:`, `#`, `!` and backslash;
/// tab, line feed, carriage return and form feed as `\t`, `\n`, `\r` and `\f`. Bytes from hex 80 on stay as they are.
/// (The documentation of `java.util.Properties`, Java SE 8.)
#[tactic(auto, using(crate::proofs::KeySpelling::over_spelling))]
pub fn spell_key(alloc: Global, text: &[u8]) -> Mem<Vec<u8>>
    ensures { IfOk result (λ spelled. spelled.items ≡ spelled_key text.now) }
{
    let mut out = Vec::new(alloc);
    for b in text {
        push_spelled(&mut out, is_marked_in_key(*b), *b)?;
    }
    Ok(out)
}

// The characters of a value behind its leading spaces.
#[tactic(auto, using(crate::proofs::ValueSpelling::over_rest))]
fn push_rest(out: &mut Vec<u8>, text: &[u8]) -> Result<(), AllocError>
    ensures { OnOk result (out.new.items ≡ out.old.items ++ spelled_rest text.now) }
{
    for b in text {
        push_spelled(out, *b == b'\\', *b)?;
    }
    Ok(())
}

/// The value as it is written in a properties file: a backslash before each space of a leading run, before a first
/// character `=` or `:`, and before each backslash; tab, line feed, carriage return and form feed as `\t`, `\n`, `\r`
/// and `\f`. Bytes from hex 80 on stay as they are. (The documentation of `java.util.Properties`, Java SE 8.)
#[tactic(auto, using(crate::proofs::ValueSpelling::over_value))]
pub fn spell_value(alloc: Global, text: &[u8]) -> Mem<Vec<u8>>
    ensures { IfOk result (λ spelled. spelled.items ≡ spelled_value text.now) }
{
    let mut out = Vec::new(alloc);
    if begins_with_separator(text) {
        out.push(b'\\')?;
        out.push(text[0])?;
        push_rest(&mut out, &text[1..])?;
        return Ok(out);
    }
    let mut spaces = 0;
    while spaces < text.len() && text[spaces] == b' ' {
        out.extend_from_slice(b"\\ ")?;
        spaces += 1;
    }
    push_rest(&mut out, &text[spaces..])?;
    Ok(out)
}
