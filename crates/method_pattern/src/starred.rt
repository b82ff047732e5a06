// Stars and letters: the parts of types, and the names of methods.
ghost use Rattle.std.specs.Prelude.{◌≡◌, ℕ, ◌<◌, ◌≤◌, ◌^◌, false, Err, length, IfOk, OnOk};
ghost use Rattle.method_pattern.specs.Texts.{IsPart, IsName, IsWrongAt};
ghost use Rattle.method_pattern.specs.Reading.{common, IsExactly, StarredFrom, IsPartText, IsNameText};
ghost use Rattle.method_pattern.specs.declared.fault.PatternFault.TheVariants as pattern_fault;

use crate::fault::PatternFault;
use crate::letters::{Front, letter_at_front};

/// How many bytes two texts begin with alike.
pub(crate) fn common(word: &[u8], text: &[u8]) -> usize
    ensures size { result ≡ common word.now text.now }
    ensures inside { result ≤ length text.now }
{
    for (at, b) in text.iter().enumerate() {
        if at >= word.len() || *b != word[at] {
            return at;
        }
    }
    text.len()
}

/// Whether a text is this word, and else where it stops being one.
pub(crate) fn read_word(word: &[u8], text: &[u8]) -> Result<(), PatternFault>
    requires { length text.now < 2 ^ 32 }
    ensures ok { OnOk result (text.now ≡ word.now) }
    ensures fault { (n : ℕ) → result ≡ Err (pattern_fault.At n) → IsWrongAt (IsExactly word.now) text.now n }
{
    if text == word {
        return Ok(());
    }
    Err(PatternFault::At(common(word, text) as u32))
}

// Whether letters are in a text of stars and letters of a word.
fn has_letters(text: &[u8]) -> Result<bool, PatternFault>
    requires { length text.now < 2 ^ 32 }
    ensures ok { IfOk result (λ has. StarredFrom false has text.now) }
    ensures fault { (n : ℕ) → result ≡ Err (pattern_fault.At n) → IsWrongAt (StarredFrom false) text.now n }
{
    let mut at = 0;
    let mut behind_letters = false;
    while at < text.len() {
        if text[at] == b'*' {
            at += 1;
            continue;
        }
        match letter_at_front(&text[at..], behind_letters) {
            Front::Letter(size) => {
                at += size;
                behind_letters = true;
            }
            Front::Begun(size) => return Err(PatternFault::At((at + size) as u32)),
        }
    }
    Ok(behind_letters)
}

/// Whether a text is a part of a type pattern.
pub(crate) fn read_part(text: &[u8]) -> Result<(), PatternFault>
    requires { length text.now < 2 ^ 32 }
    ensures ok { OnOk result (IsPart text.now) }
    ensures fault { (n : ℕ) → result ≡ Err (pattern_fault.At n) → IsWrongAt IsPartText text.now n }
{
    if text.is_empty() {
        return Err(PatternFault::At(0));
    }
    has_letters(text)?;
    Ok(())
}

/// Whether a text is the name of a method in a pattern.
pub(crate) fn read_name(text: &[u8]) -> Result<(), PatternFault>
    requires { length text.now < 2 ^ 32 }
    ensures ok { OnOk result (IsName text.now) }
    ensures fault { (n : ℕ) → result ≡ Err (pattern_fault.At n) → IsWrongAt IsNameText text.now n }
{
    if text.starts_with(b"<") {
        return read_word(b"<constructor>", text);
    }
    if has_letters(text)? || text == b"*".as_slice() {
        return Ok(());
    }
    Err(PatternFault::At(text.len() as u32))
}
