// Texts written as scalars.
ghost use Rattle.std.specs.Prelude.{◌≡◌, Some, None, MatchOption, IfOk};
ghost use Rattle.yaml_texts.specs.Spelled.{has_control, goes_on, is_plain, in_quotes, written, spelled};

use rw_base::Mem;
use std::alloc::Global;
use yaml_lex::{begins_plain, ends_plain, is_blank};

// A character below U+0020 stands in a text.
fn has_control(text: &[u8]) -> bool
    ensures { result ≡ has_control text.now }
{
    text.iter().any(|b| *b < 32)
}

// Nothing in a text ends a plain scalar.
#[tactic(auto, unfolding(crate::specs::Spelled::goes_on))]
fn goes_on(flow: bool, text: &[u8]) -> bool
    ensures { result ≡ goes_on flow text.now }
{
    for at in 0..text.len() {
        if ends_plain(flow, &text[at..]) {
            return false;
        }
    }
    true
}

// A whole text is one plain scalar.
#[tactic(auto, unfolding(yaml_lex::specs::Scalars::begins_plain))]
fn is_plain(flow: bool, text: &[u8]) -> bool
    ensures { result ≡ is_plain flow text.now }
{
    match text {
        [] => false,
        [.., last] => !is_blank(*last) && begins_plain(text) && goes_on(flow, text),
    }
}

// A text in single quotes, each quote in it twice.
fn in_quotes(alloc: Global, text: &[u8]) -> Mem<Vec<u8>>
    ensures { IfOk result (λ v. v.items ≡ in_quotes text.now) }
{
    let mut out = Vec::with_capacity(alloc, text.len() + 2)?;
    out.push(b'\'')?;
    for b in text {
        if *b == b'\'' {
            out.push(b'\'')?;
        }
        out.push(*b)?;
    }
    out.push(b'\'')?;
    Ok(out)
}

/// A text as a scalar that may stand as a key or a value, in block and in flow context: the text itself where it is one
/// plain scalar in both, else in single quotes with each `'` twice. None exactly where a character below U+0020 stands
/// in it. (YAML 1.2, chapters 7.3.2 and 7.3.3.)
pub fn spell_yaml(alloc: Global, text: &[u8]) -> Mem<Option<Vec<u8>>>
    ensures { IfOk result (λ r. MatchOption r (spelled text.now ≡ None) (λ v. spelled text.now ≡ Some v.items)) }
{
    if has_control(text) {
        return Ok(None);
    }
    if is_plain(false, text) && is_plain(true, text) {
        return Ok(Some(Vec::from_slice(alloc, text)?));
    }
    Ok(Some(in_quotes(alloc, text)?))
}
