// The letters of words, and how far bytes begin one.
ghost use Rattle.std.specs.Prelude.{◌≡◌, ◌↔◌, ◌∷◌, ◌++◌, ◌<◌, ◌≤◌, ◌^◌, ℕ, List, IsTrue, length, encode_utf8};
ghost use Rattle.java_lex.specs.Words.{IsLetter};
ghost use Rattle.rw_base.specs.Fronts.{IsLongestFront};
ghost use Rattle.method_pattern.specs.Letters.{letter_test, BeginsLetter, IsLetterOf, IsFront};

/// What stands at the front of a text.
#[derive(Clone, Copy, Debug, PartialEq, Eq)]
pub(crate) enum Front {
    /// A letter of so many bytes.
    Letter(usize),
    /// None; so many bytes begin one.
    Begun(usize),
}

// Whether a character may stand in a word (JLS 3.8), behind letters or as the first of them.
fn is_letter(c: char, behind_letters: bool) -> bool
    ensures { result ≡ letter_test behind_letters c }
{
    let wide = if behind_letters {
        unicode_ident::is_xid_continue(c)
    } else {
        unicode_ident::is_xid_start(c)
    };
    wide || c == '_' || c == '$'
}

// The least code of the characters whose UTF-8 begins with a byte past ASCII, and the code behind the greatest.
fn codes_of(first: u8) -> (u32, u32)
    requires { 128 ≤ first }
    ensures { (c : ℕ) (more : List ℕ) → encode_utf8 c ≡ first ∷ more → (result.0 ≤ c) × (c < result.1) }
{
    let b = first as u32;
    if b < 0xC0 {
        (0, 0)
    } else if b < 0xE0 {
        ((b - 0xC0) * 0x40, (b - 0xBF) * 0x40)
    } else if b < 0xF0 {
        ((b - 0xE0) * 0x1000, (b - 0xDF) * 0x1000)
    } else {
        ((b - 0xF0) * 0x4_0000, (b - 0xEF) * 0x4_0000)
    }
}

// Whether this is the code of a letter whose UTF-8 begins with these bytes.
fn is_letter_of(code: u32, front: &[u8], behind_letters: bool) -> bool
    ensures { IsTrue result ↔ IsLetterOf behind_letters front.now code }
{
    let mut buffer = [0; 4];
    match char::from_u32(code) {
        Some(c) => {
            is_letter(c, behind_letters) && c.encode_utf8(&mut buffer).as_bytes().starts_with(front)
        }
        None => false,
    }
}

// Whether some letter begins with these bytes, the first of which is past ASCII.
fn begins_letter(first: u8, front: &[u8], behind_letters: bool) -> bool
    requires past_ascii { 128 ≤ first }
    requires first { (more : List ℕ) × (front.now ≡ first ∷ more) }
    ensures { IsTrue result ↔ ((c : ℕ) × IsLetterOf behind_letters front.now c) }
{
    let (low, high) = codes_of(first);
    for code in low..high {
        if is_letter_of(code, front, behind_letters) {
            return true;
        }
    }
    false
}

// How many bytes of a text that doesn't begin with a letter begin one.
fn begun(text: &[u8], behind_letters: bool) -> usize
    requires { (c : ℕ) → BeginsLetter behind_letters c text.now → ⊥ }
    ensures { IsLongestFront (BeginsLetter behind_letters) text.now result }
{
    match text {
        [first, ..] if *first >= 0x80 => {
            let mut at = 0;
            while at < text.len() && begins_letter(*first, &text[..at + 1], behind_letters) {
                at += 1;
            }
            at
        }
        _ => 0,
    }
}

/// The letter at the front of a text, or how far its bytes begin one.
pub(crate) fn letter_at_front(text: &[u8], behind_letters: bool) -> Front
    ensures { IsFront behind_letters result text.now }
{
    let (found, size) = bstr::decode_utf8(text);
    match found {
        Some(c) if is_letter(c, behind_letters) => Front::Letter(size),
        _ => Front::Begun(begun(text, behind_letters)),
    }
}
