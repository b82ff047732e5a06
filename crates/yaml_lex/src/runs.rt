// Runs of characters that are alike.
ghost use Rattle.std.specs.Prelude.{◌≡◌, ◌≤◌, length};
ghost use Rattle.yaml_lex.specs.Characters.{is_blank, is_line_over};
ghost use Rattle.yaml_lex.specs.Scalars.{IsRun, in_line};
ghost use Rattle.yaml_lex.specs.BlockScalars.{indentation};

use crate::characters::{is_blank, is_line_end};

/// The blanks that a text begins with.
pub fn blanks_size(text: &[u8]) -> usize
    ensures { IsRun is_blank text.now result }
{
    for (at, b) in text.iter().enumerate() {
        if !is_blank(*b) {
            return at;
        }
    }
    text.len()
}

/// The bytes up to the line's end.
pub fn line_size(text: &[u8]) -> usize
    ensures { IsRun in_line text.now result }
{
    for (at, b) in text.iter().enumerate() {
        if is_line_end(*b) {
            return at;
        }
    }
    text.len()
}

/// How many spaces a text begins with.
pub fn indentation(text: &[u8]) -> usize
    ensures value { result ≡ indentation text.now }
    ensures inside { result ≤ length text.now }
{
    for (at, b) in text.iter().enumerate() {
        if *b != b' ' {
            return at;
        }
    }
    text.len()
}

/// Whether nothing but blanks, and perhaps a comment, is left of the line.
pub fn is_line_over(text: &[u8]) -> bool
    ensures { result ≡ is_line_over text.now }
{
    for b in text {
        if !is_blank(*b) {
            return is_line_end(*b) || *b == b'#';
        }
    }
    true
}
