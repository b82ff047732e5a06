// Method patterns from their texts.
ghost use Rattle.std.specs.Prelude.{◌≡◌, ℕ, ◌<◌, ◌^◌, Err, length, IfOk};
ghost use Rattle.method_pattern.specs.Texts.{IsWrongAt, IsMethodPattern};
ghost use Rattle.method_pattern.specs.Reading.{IsParamList, IsClosed, IsCall};
ghost use Rattle.method_pattern.specs.declared.fault.PatternFault.TheVariants as pattern_fault;

use crate::fault::PatternFault;
use crate::param_text::{blanks_size, read_params};
use crate::pattern::{MethodPattern, ParamPattern, TypePattern};
use crate::starred::read_name;
use crate::type_text::run_size;
use rw_base::Text;
use std::alloc::Global;

// Reads parameters, or none.
fn read_list(alloc: Global, text: &[u8]) -> Result<Vec<ParamPattern>, PatternFault>
    requires { length text.now < 2 ^ 32 }
    ensures ok { IfOk result (λ params. IsParamList params.items text.now) }
    ensures fault { (n : ℕ) → result ≡ Err (pattern_fault.At n) → IsWrongAt IsParamList text.now n }
{
    if text.is_empty() {
        return Ok(Vec::new(alloc));
    }
    read_params(alloc, text)
}

// Reads what stands behind `(`: parameters, `)` and nothing more.
fn read_closed(alloc: Global, text: &[u8]) -> Result<Vec<ParamPattern>, PatternFault>
    requires { length text.now < 2 ^ 32 }
    ensures ok { IfOk result (λ params. IsClosed params.items text.now) }
    ensures fault { (n : ℕ) → result ≡ Err (pattern_fault.At n) → IsWrongAt IsClosed text.now n }
{
    let end = run_size(text, b")");
    let params = read_list(alloc, &text[..end])?;
    if end == text.len() {
        return Err(PatternFault::At(end as u32));
    }
    if end + 1 < text.len() {
        return Err(PatternFault::At(end as u32 + 1));
    }
    Ok(params)
}

// Reads the name of a method and its parameters.
fn read_call(alloc: Global, text: &[u8]) -> Result<(Text, Vec<ParamPattern>), PatternFault>
    requires { length text.now < 2 ^ 32 }
    ensures ok { IfOk result (λ call. IsCall (call.0, call.1.items) text.now) }
    ensures fault { (n : ℕ) → result ≡ Err (pattern_fault.At n) → IsWrongAt IsCall text.now n }
{
    let end = run_size(text, b"(");
    read_name(&text[..end])?;
    if end == text.len() {
        return Err(PatternFault::At(end as u32));
    }
    let name = Text::from_slice(alloc, &text[..end])?;
    match read_closed(alloc, &text[end + 1..]) {
        Ok(params) => Ok((name, params)),
        Err(fault) => Err(fault.behind(end + 1)),
    }
}

impl MethodPattern {
    /// The method pattern that a text spells.
    pub fn read(alloc: Global, text: &[u8]) -> Result<MethodPattern, PatternFault>
        requires { length text.now < 2 ^ 32 }
        ensures pattern { IfOk result (λ pattern. IsMethodPattern pattern text.now) }
        ensures fault { (n : ℕ) → result ≡ Err (pattern_fault.At n) → IsWrongAt IsMethodPattern text.now n }
    {
        let end = run_size(text, b" ");
        let owner = TypePattern::read(alloc, &text[..end])?;
        if end == text.len() {
            return Err(PatternFault::At(end as u32));
        }
        let name_at = end + 1 + blanks_size(&text[end + 1..]);
        match read_call(alloc, &text[name_at..]) {
            Ok((name, params)) => Ok(MethodPattern::new(owner, name, params)),
            Err(fault) => Err(fault.behind(name_at)),
        }
    }
}
