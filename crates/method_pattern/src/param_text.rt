// The texts of parameters.
ghost use Rattle.std.specs.Prelude.{◌≡◌, ℕ, ◌==◌, ◌<◌, ◌^◌, Err, length, IfOk};
ghost use Rattle.method_pattern.specs.Texts.{IsWrongAt, prim_named, param_of, AreParams};
ghost use Rattle.method_pattern.specs.Reading.{IsRunSize, IsParamText, IsBehindParam, IsComma};
ghost use Rattle.method_pattern.specs.declared.fault.PatternFault.TheVariants as pattern_fault;

use crate::fault::PatternFault;
use crate::pattern::{NamePiece, ParamPattern, TypePattern};
use crate::starred::read_word;
use crate::type_text::{TypeEnd, Written, read_type, run_size};
use jtypes::JPrim;
use std::alloc::Global;

/// A parameter as it is written.
#[derive(Debug, Drop)]
pub(crate) struct WrittenParam {
    pub param: ParamPattern,
    /// Whether it ends in `...`, so that none can follow.
    pub varargs: bool,
}

// The primitive type of a word.
#[tactic(auto, unfolding(crate::specs::Texts::prim_named))]
fn prim_named(word: &[u8]) -> Option<JPrim>
    ensures { result ≡ prim_named word.now }
{
    if word == b"boolean".as_slice() {
        Some(JPrim::Boolean)
    } else if word == b"byte".as_slice() {
        Some(JPrim::Byte)
    } else if word == b"short".as_slice() {
        Some(JPrim::Short)
    } else if word == b"char".as_slice() {
        Some(JPrim::Char)
    } else if word == b"int".as_slice() {
        Some(JPrim::Int)
    } else if word == b"long".as_slice() {
        Some(JPrim::Long)
    } else if word == b"float".as_slice() {
        Some(JPrim::Float)
    } else if word == b"double".as_slice() {
        Some(JPrim::Double)
    } else {
        None
    }
}

// The parameter of a type with so many `[]`.
fn param_of(pieces: Vec<NamePiece>, dimensions: usize) -> ParamPattern
    ensures { result ≡ param_of pieces.items dimensions }
{
    if let [NamePiece::Part(part)] = pieces.as_slice() {
        if let Some(p) = prim_named(part.as_slice()) {
            return ParamPattern::Primitive(p, dimensions);
        }
        if dimensions == 0 && part.as_slice() == b"*".as_slice() {
            return ParamPattern::AnyType;
        }
    }
    ParamPattern::Named(TypePattern::new(pieces), dimensions)
}

// Reads a parameter.
fn read_param(alloc: Global, text: &[u8]) -> Result<WrittenParam, PatternFault>
    requires { length text.now < 2 ^ 32 }
    ensures ok { IfOk result (λ w. IsParamText w text.now) }
    ensures fault { (n : ℕ) → result ≡ Err (pattern_fault.At n) → IsWrongAt IsParamText text.now n }
{
    if text.starts_with(b".") {
        read_word(b"..", text)?;
        return Ok(WrittenParam {
            param: ParamPattern::Rest,
            varargs: false,
        });
    }
    let written = read_type(alloc, text, true)?;
    let varargs = written.end.varargs;
    let dimensions = if varargs {
        written.end.dimensions + 1
    } else {
        written.end.dimensions
    };
    Ok(WrittenParam {
        param: param_of(written.pieces, dimensions),
        varargs,
    })
}

/// How many spaces a text begins with.
pub(crate) fn blanks_size(text: &[u8]) -> usize
    ensures { IsRunSize (λ b. b == 32) text.now result }
{
    for (at, b) in text.iter().enumerate() {
        if *b != b' ' {
            return at;
        }
    }
    text.len()
}

// Reads a comma and the spaces around it, and gives the byte behind those.
fn read_comma(text: &[u8]) -> Result<usize, PatternFault>
    requires small { length text.now < 2 ^ 32 }
    requires some { 0 < length text.now }
    ensures ok { IfOk result (λ size. IsComma text.now size) }
    ensures fault { (n : ℕ) → result ≡ Err (pattern_fault.At n) → IsWrongAt IsBehindParam text.now n }
{
    let comma = blanks_size(text);
    if comma == text.len() {
        return Err(PatternFault::At(comma as u32));
    }
    if text[comma] != b',' {
        return Err(PatternFault::At(comma as u32));
    }
    Ok(comma + 1 + blanks_size(&text[comma + 1..]))
}

/// Reads parameters with commas between them.
pub(crate) fn read_params(alloc: Global, text: &[u8]) -> Result<Vec<ParamPattern>, PatternFault>
    requires { length text.now < 2 ^ 32 }
    ensures ok { IfOk result (λ params. AreParams params.items text.now) }
    ensures fault { (n : ℕ) → result ≡ Err (pattern_fault.At n) → IsWrongAt AreParams text.now n }
{
    let mut params = Vec::new(alloc);
    let mut at = 0;
    loop {
        let behind = at + run_size(&text[at..], b" ,");
        let written = match read_param(alloc, &text[at..behind]) {
            Ok(written) => written,
            Err(fault) => return Err(fault.behind(at)),
        };
        params.push(written.param)?;
        if behind == text.len() {
            return Ok(params);
        }
        if written.varargs {
            return Err(PatternFault::At(behind as u32));
        }
        match read_comma(&text[behind..]) {
            Ok(size) => at = behind + size,
            Err(fault) => return Err(fault.behind(behind)),
        }
    }
}
