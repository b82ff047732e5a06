// Natural lines.
ghost use Rattle.std.specs.Prelude.{◌≡◌, ◌≤◌, length};
ghost use Rattle.properties_tree.specs.Lines.{leading_blanks};
ghost use Rattle.properties_tree.specs.Entries.{begins_with_separator};
ghost use Rattle.properties_tree.specs.Sizes.{text_length, ending_length, begins_no_entry};

use crate::bytes::{is_blank, is_comment_mark, is_line_end, is_separator};

#[tactic(auto, using(crate::proofs::Lengths::over_text))]
pub fn text_length(text: &[u8]) -> usize
    ensures value { result ≡ text_length text.now }
    ensures inside { result ≤ length text.now }
{
    for (i, b) in text.iter().enumerate() {
        if is_line_end(*b) {
            return i;
        }
    }
    text.len()
}

pub fn ending_length(text: &[u8]) -> usize
    ensures value { result ≡ ending_length text.now }
    ensures inside { result ≤ length text.now }
{
    match text {
        [b'\n', ..] => 1,
        [b'\r', b'\n', ..] => 2,
        [b'\r', ..] => 1,
        _ => 0,
    }
}

#[tactic(auto, using(crate::proofs::Lengths::over_blanks))]
pub fn blanks_length(text: &[u8]) -> usize
    ensures value { result ≡ length (leading_blanks text.now) }
    ensures inside { result ≤ length text.now }
{
    for (i, b) in text.iter().enumerate() {
        if !is_blank(*b) {
            return i;
        }
    }
    text.len()
}

pub fn begins_no_entry(text: &[u8]) -> bool
    ensures { result ≡ begins_no_entry text.now }
{
    match text {
        [] => true,
        [b, ..] => is_line_end(*b) || is_comment_mark(*b),
    }
}

pub fn begins_with_separator(text: &[u8]) -> bool
    ensures { result ≡ begins_with_separator text.now }
{
    match text {
        [] => false,
        [b, ..] => is_separator(*b),
    }
}
