// The parts of a journal, read from a place in its bytes.
ghost use Rattle.std.specs.Prelude.{◌≡◌, ◌≤◌, ◌<◌, ◌+◌, length, drop, false, IfOk, IfErr, IfNone, IfSome};
ghost use Rattle.journal_text.specs.Forms.{Took, StuckAt};
ghost use Rattle.journal_text.specs.Parts.{is_digit, NoDigit, begins_with, IsWord, IsNumeral, Ended};
ghost use Rattle.journal_text.specs.Parts.{TookDigits, Digits, TookNumber};
ghost use Rattle.journal_text.specs.Reading.{OnAt};

use crate::fault::{JournalFault, stop_at};

#[tactic(auto, using(crate::proofs::Places::begins))]
pub fn holds(bytes: &[u8], at: usize, byte: u8) -> bool
    ensures { result ≡ begins_with byte (drop at bytes.now) }
{
    at < bytes.len() && bytes[at] == byte
}

pub fn word(bytes: &[u8], at: usize, word: &[u8]) -> Result<usize, JournalFault>
    requires inside { at ≤ length bytes.now }
    requires size { length bytes.now ≤ 1073741824 }
    ensures took { IfOk result (λ end. Took (IsWord word.now) bytes.now at end tt) }
    ensures stuck { IfErr result (λ fault. OnAt fault (StuckAt (IsWord word.now) bytes.now at)) }
{
    for (i, b) in word.iter().enumerate() {
        if !holds(bytes, at + i, *b) {
            return Err(stop_at(at + i));
        }
    }
    Ok(at + word.len())
}

fn is_digit(b: u8) -> bool
    ensures { result ≡ is_digit b }
{
    b'0' <= b && b <= b'9'
}

// The digits behind a first one that isn't 0: the value of all, and the place behind the last.
fn more_digits(bytes: &[u8], at: usize, first: u64) -> (u64, usize)
    requires first { Digits bytes.now at (at + 1) first }
    requires inside { at < length bytes.now }
    ensures { TookDigits bytes.now at result.1 result.0 }
{
    let mut value = first;
    for end in at + 1..bytes.len() {
        if !is_digit(bytes[end]) {
            return (value, end);
        }
        value = value
            .saturating_mul(10)
            .saturating_add((bytes[end] - b'0') as u64);
    }
    (value, bytes.len())
}

// The value of as many digits as can be one number, and the place behind them, or `None` where there is no digit.
fn digits(bytes: &[u8], at: usize) -> Option<(u64, usize)>
    requires { at ≤ length bytes.now }
    ensures none { IfNone result (NoDigit (drop at bytes.now)) }
    ensures some { IfSome result (λ found. TookDigits bytes.now at found.1 found.0) }
{
    if at < bytes.len() && is_digit(bytes[at]) {
        if bytes[at] == b'0' {
            return Some((0, at + 1));
        }
        return Some(more_digits(bytes, at, (bytes[at] - b'0') as u64));
    }
    None
}

pub fn number(bytes: &[u8], at: usize, end: u8) -> Result<(u64, usize), JournalFault>
    requires inside { at ≤ length bytes.now }
    requires size { length bytes.now ≤ 1073741824 }
    requires no_digit { is_digit end ≡ false }
    ensures took { IfOk result (λ found. TookNumber end bytes.now at found.1 found.0) }
    ensures stuck { IfErr result (λ fault. OnAt fault (StuckAt (Ended IsNumeral end) bytes.now at)) }
{
    match digits(bytes, at) {
        None => Err(stop_at(at)),
        Some((value, behind)) => {
            if holds(bytes, behind, end) {
                Ok((value, behind + 1))
            } else {
                Err(stop_at(behind))
            }
        }
    }
}
