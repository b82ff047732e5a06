// What keys and values say.
ghost use Rattle.std.specs.Prelude.{◌≡◌, ◌++◌, ◌<◌, ◌≤◌, length, true, encode_utf8, IfSome, IfOk, OnOk, OnSome};
ghost use Rattle.properties_tree.specs.Entries.{characters_of};
ghost use Rattle.properties_tree.specs.Cutting.{pieces_in};
ghost use Rattle.properties_tree.specs.Decoding.{hex_value, four_hex, escaped_byte, is_high, is_low, lone_bytes};
ghost use Rattle.properties_tree.specs.Decoding.{pair_of, decode, utf8_of};
ghost use Rattle.properties_tree.specs.Steps.{IsStep, AddsCode, waiting_elements};

use crate::pieces::characters_of;
use rw_base::Mem;
use std::alloc::{AllocError, Global};

fn hex_value(b: u8) -> Option<u8>
    ensures value { result ≡ hex_value b }
    ensures small { IfSome result (λ digit. digit < 16) }
{
    match b {
        b'0'..=b'9' => Some(b - b'0'),
        b'a'..=b'f' => Some(b - b'a' + 10),
        b'A'..=b'F' => Some(b - b'A' + 10),
        _ => None,
    }
}

fn four_hex(text: &[u8]) -> Option<u16>
    ensures value { result ≡ four_hex text.now }
    ensures inside { OnSome result (4 ≤ length text.now) }
{
    if text.len() < 4 {
        return None;
    }
    let a = hex_value(text[0])? as u16;
    let b = hex_value(text[1])? as u16;
    let c = hex_value(text[2])? as u16;
    let d = hex_value(text[3])? as u16;
    Some(((a * 16 + b) * 16 + c) * 16 + d)
}

fn escaped_byte(b: u8) -> u8
    ensures { result ≡ escaped_byte b }
{
    match b {
        b't' => b'\t',
        b'n' => b'\n',
        b'r' => b'\r',
        b'f' => 12,
        _ => b,
    }
}

// The next element of a text, and how many bytes it is: a byte or a UTF-16 code unit, or nothing, for a backslash at
// the end.
#[derive(Clone, Copy)]
enum Step {
    Byte(u8, usize),
    Code(u16, usize),
    Nothing,
}

fn step_at(text: &[u8], at: usize) -> Step
    requires { at < length text.now }
    ensures { IsStep text.now at result }
{
    let b = text[at];
    if b != b'\\' {
        return Step::Byte(b, 1);
    }
    let rest = &text[at + 1..];
    if rest.len() == 0 {
        return Step::Nothing;
    }
    let c = rest[0];
    if c != b'u' {
        return Step::Byte(escaped_byte(c), 2);
    }
    match four_hex(&rest[1..]) {
        Some(unit) => Step::Code(unit, 6),
        None => Step::Byte(b'u', 2),
    }
}

fn is_high(unit: u16) -> bool
    ensures { result ≡ is_high unit }
{
    0xd800 <= unit && unit <= 0xdbff
}

fn is_low(unit: u16) -> bool
    ensures { result ≡ is_low unit }
{
    0xdc00 <= unit && unit <= 0xdfff
}

// The character of a code unit that is in no pair: a surrogate becomes U+FFFD.
fn lone_char(unit: u16) -> char
    ensures { encode_utf8 result ≡ lone_bytes unit }
{
    if 0xd800 <= unit && unit <= 0xdfff {
        char::REPLACEMENT_CHARACTER
    } else {
        char::from_u32(unit as u32).unwrap()
    }
}

fn pair_char(high: u16, low: u16) -> char
    requires high { is_high high ≡ true }
    requires low { is_low low ≡ true }
    ensures { result ≡ pair_of high low }
{
    char::from_u32(0x1_0000 + (high as u32 - 0xd800) * 0x400 + (low as u32 - 0xdc00)).unwrap()
}

fn push_char(out: &mut Vec<u8>, c: char) -> Result<(), AllocError>
    ensures { OnOk result (out.new.items ≡ out.old.items ++ encode_utf8 c) }
{
    let mut buffer = [0; 4];
    out.extend_from_slice(c.encode_utf8(&mut buffer).as_bytes())
}

// Writes a code unit that waits.
#[tactic(auto, using(crate::proofs::Decoded::over_codes))]
fn push_waiting(out: &mut Vec<u8>, pending: Option<u16>) -> Result<(), AllocError>
    ensures { OnOk result (out.new.items ≡ out.old.items ++ utf8_of (waiting_elements pending)) }
{
    match pending {
        None => Ok(()),
        Some(unit) => push_char(out, lone_char(unit)),
    }
}

// One code unit more. Gives the code unit that waits now.
#[tactic(auto, using(crate::proofs::Decoded::over_codes))]
fn push_code(out: &mut Vec<u8>, pending: Option<u16>, unit: u16) -> Result<Option<u16>, AllocError>
    ensures { IfOk result (λ next. AddsCode out.old.items pending unit out.new.items next) }
{
    match pending {
        None => Ok(Some(unit)),
        Some(high) => {
            if is_high(high) && is_low(unit) {
                push_char(out, pair_char(high, unit))?;
                Ok(None)
            } else {
                push_char(out, lone_char(high))?;
                Ok(Some(unit))
            }
        }
    }
}

// The text that characters of a logical line say.
#[tactic(auto, using(crate::proofs::Decoded::over_steps))]
fn decode(alloc: Global, text: &[u8]) -> Mem<Vec<u8>>
    ensures { IfOk result (λ out. out.items ≡ decode text.now) }
{
    let mut out = Vec::new(alloc);
    let mut pending = None;
    let mut at = 0;
    while at < text.len() {
        match step_at(text, at) {
            Step::Byte(b, size) => {
                push_waiting(&mut out, pending)?;
                out.push(b)?;
                pending = None;
                at += size;
            }
            Step::Code(unit, size) => {
                pending = push_code(&mut out, pending, unit)?;
                at += size;
            }
            Step::Nothing => at = text.len(),
        }
    }
    push_waiting(&mut out, pending)?;
    Ok(out)
}

// The text that the bytes of a key or a value say.
pub fn decode_part(alloc: Global, part: &[u8]) -> Mem<Vec<u8>>
    ensures { IfOk result (λ out. out.items ≡ decode (characters_of (pieces_in part.now))) }
{
    let characters = characters_of(alloc, part)?;
    decode(alloc, &characters)
}
