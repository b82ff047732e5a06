// The texts of types, as type patterns and in parameters.
ghost use Rattle.std.specs.Prelude.{◌≡◌, ℕ, ◌==◌, ◌<◌, ◌^◌, true, Err, length, IfOk};
ghost use Rattle.std.specs.List.{list_any};
ghost use Rattle.method_pattern.specs.Texts.{IsWrongAt, IsTypePattern};
ghost use Rattle.method_pattern.specs.Reading.{outside, IsRunSize, IsTypeEnd, IsTypeText, IsJoint, written_as};
ghost use Rattle.method_pattern.specs.declared.fault.PatternFault.TheVariants as pattern_fault;

use crate::fault::PatternFault;
use crate::pattern::{NamePiece, TypePattern};
use crate::starred::{common, read_part, read_word};
use rw_base::Text;
use std::alloc::Global;

/// What stands behind the parts of a type.
#[derive(Clone, Copy, Debug)]
pub(crate) struct TypeEnd {
    /// So many `[]`.
    pub dimensions: usize,
    /// And `...` behind them.
    pub varargs: bool,
}

/// A type as it is written.
#[derive(Debug, Drop)]
pub(crate) struct Written {
    pub pieces: Vec<NamePiece>,
    pub end: TypeEnd,
}

// What stands behind a part.
#[derive(Clone, Copy, Debug)]
enum Joint {
    Dot,
    Gap,
    End,
}

fn is_one_of(b: u8, ends: &[u8]) -> bool
    ensures { result ≡ list_any (λ e. e == b) ends.now }
{
    ends.iter().any(|e| *e == b)
}

/// How many bytes stand before the first of these.
pub(crate) fn run_size(text: &[u8], ends: &[u8]) -> usize
    ensures { IsRunSize (outside ends.now) text.now result }
{
    for (at, b) in text.iter().enumerate() {
        if is_one_of(*b, ends) {
            return at;
        }
    }
    text.len()
}

// `...` ends the type of a parameter.
fn next_joint(rest: &[u8], of_parameter: bool) -> Joint
    ensures { IsJoint of_parameter result rest.now }
{
    match common(b"...", rest) {
        0 => Joint::End,
        1 => Joint::Dot,
        2 => Joint::Gap,
        _ if of_parameter => Joint::End,
        _ => Joint::Gap,
    }
}

// Reads the brackets of a parameter's type, and `...`.
fn read_brackets(text: &[u8]) -> Result<TypeEnd, PatternFault>
    requires { length text.now < 2 ^ 32 }
    ensures ok { IfOk result (λ end. IsTypeEnd true end text.now) }
    ensures fault { (n : ℕ) → result ≡ Err (pattern_fault.At n) → IsWrongAt (IsTypeEnd true) text.now n }
{
    let mut at = 0;
    let mut dimensions = 0;
    while text[at..].starts_with(b"[]") {
        at += 2;
        dimensions += 1;
    }
    let rest = &text[at..];
    if rest.is_empty() {
        let varargs = false;
        return Ok(TypeEnd {
            dimensions,
            varargs,
        });
    }
    if rest.starts_with(b"[") {
        return Err(PatternFault::At(at as u32 + 1));
    }
    match read_word(b"...", rest) {
        Ok(()) => Ok(TypeEnd {
            dimensions,
            varargs: true,
        }),
        Err(fault) => Err(fault.behind(at)),
    }
}

// Reads what stands behind the parts of a type.
fn read_end(text: &[u8], of_parameter: bool) -> Result<TypeEnd, PatternFault>
    requires { length text.now < 2 ^ 32 }
    ensures ok { IfOk result (λ end. IsTypeEnd of_parameter end text.now) }
    ensures fault { (n : ℕ) → result ≡ Err (pattern_fault.At n) → IsWrongAt (IsTypeEnd of_parameter) text.now n }
{
    if of_parameter {
        return read_brackets(text);
    }
    if !text.is_empty() {
        return Err(PatternFault::At(0));
    }
    Ok(TypeEnd {
        dimensions: 0,
        varargs: false,
    })
}

/// Reads a type, that of a parameter with what may stand behind its parts.
pub(crate) fn read_type(
    alloc: Global,
    text: &[u8],
    of_parameter: bool,
) -> Result<Written, PatternFault>
    requires { length text.now < 2 ^ 32 }
    ensures ok { IfOk result (λ w. IsTypeText of_parameter (written_as w) text.now) }
    ensures fault { (n : ℕ) → result ≡ Err (pattern_fault.At n) → IsWrongAt (IsTypeText of_parameter) text.now n }
{
    let mut pieces = Vec::new(alloc);
    let mut at = 0;
    loop {
        let behind = at + run_size(&text[at..], b".[");
        if let Err(fault) = read_part(&text[at..behind]) {
            return Err(fault.behind(at));
        }
        let part = Text::from_slice(alloc, &text[at..behind])?;
        pieces.push(NamePiece::Part(part))?;
        match next_joint(&text[behind..], of_parameter) {
            Joint::Dot => at = behind + 1,
            Joint::Gap => {
                pieces.push(NamePiece::AnyParts)?;
                at = behind + 2;
            }
            Joint::End => {
                return match read_end(&text[behind..], of_parameter) {
                    Ok(end) => Ok(Written { pieces, end }),
                    Err(fault) => Err(fault.behind(behind)),
                };
            }
        }
    }
}

impl TypePattern {
    /// The type pattern that a text spells.
    pub fn read(alloc: Global, text: &[u8]) -> Result<TypePattern, PatternFault>
        requires { length text.now < 2 ^ 32 }
        ensures pattern { IfOk result (λ pattern. IsTypePattern pattern text.now) }
        ensures fault { (n : ℕ) → result ≡ Err (pattern_fault.At n) → IsWrongAt IsTypePattern text.now n }
    {
        let written = read_type(alloc, text, false)?;
        Ok(TypePattern::new(written.pieces))
    }
}
