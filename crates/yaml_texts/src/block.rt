// What block scalars say.
ghost use Rattle.std.specs.Prelude.{◌≡◌, ◌+◌, ◌++◌, ◌<◌, ◌≤◌, length, drop, replicate, slice_index, true, false};
ghost use Rattle.std.specs.Prelude.{Some, None, MatchOption, IfOk, OnOk};
ghost use Rattle.yaml_lex.specs.Characters.{begins};
ghost use Rattle.yaml_lex.specs.Scalars.{in_line};
ghost use Rattle.yaml_lex.specs.BlockScalars.{is_blank_line, digit_of};
ghost use Rattle.yaml_texts.specs.Texts.{further_lines, first_indentation, lost_spaces, contents_of, blank_lines};
ghost use Rattle.yaml_texts.specs.Texts.{chomped, block_text};
ghost use Rattle.yaml_texts.specs.Steps.{IsNextLine};

use rw_base::Mem;
use std::alloc::{AllocError, Global};
use yaml_lex::{digit_of, ending_size, indentation, is_blank, is_line_end, line_size};

// Nothing but blanks is left of the line.
fn is_blank_line(text: &[u8]) -> bool
    ensures { result ≡ is_blank_line text.now }
{
    for b in text {
        if !is_blank(*b) {
            return is_line_end(*b);
        }
    }
    true
}

// Where the line goes that follows the one which ends here.
fn next_line(text: &[u8], at: usize) -> (usize, usize)
    requires some { at < length text.now }
    requires ends { begins in_line (drop at text.now) ≡ false }
    ensures { IsNextLine text.now at result.0 result.1 }
{
    let from = at + ending_size(&text[at..]);
    (from, from + line_size(&text[from..]))
}

// The indentation of the first line behind the head that isn't blank.
fn first_indentation(text: &[u8]) -> usize
    ensures { result ≡ first_indentation (further_lines text.now) }
{
    let mut at = line_size(text);
    while at < text.len() {
        let (from, to) = next_line(text, at);
        let line = &text[from..to];
        if !is_blank_line(line) {
            return indentation(line);
        }
        at = to;
    }
    0
}

// How many spaces each line loses.
fn lost_spaces(column: Option<u32>, text: &[u8]) -> usize
    requires { 0 < length text.now }
    ensures { result ≡ lost_spaces column (digit_of text.now) (further_lines text.now) }
{
    match (column, digit_of(text)) {
        (_, None) => first_indentation(text),
        (None, Some(digit)) => digit as usize,
        (Some(column), Some(digit)) => column as usize + digit as usize,
    }
}

// Writes the lines behind the head, each without so many spaces and with LF behind it.
fn push_contents(out: &mut Vec<u8>, lost: usize, text: &[u8]) -> Result<(), AllocError>
    ensures { OnOk result (out.new.items ≡ out.old.items ++ contents_of lost (further_lines text.now)) }
{
    let mut at = line_size(text);
    while at < text.len() {
        let (from, to) = next_line(text, at);
        let line = &text[from..to];
        out.extend_from_slice(&line[lost.min(indentation(line))..])?;
        out.push(b'\n')?;
        at = to;
    }
    Ok(())
}

// How many blank lines with a line end follow the line that a text begins with.
fn count_blank_lines(text: &[u8]) -> usize
    ensures { result ≡ blank_lines (further_lines text.now) }
{
    let mut count = 0;
    let mut at = line_size(text);
    while at < text.len() {
        let (from, to) = next_line(text, at);
        if to == text.len() || !is_blank_line(&text[from..to]) {
            return count;
        }
        count += 1;
        at = to;
    }
    count
}

fn push_line_ends(out: &mut Vec<u8>, count: usize) -> Result<(), AllocError>
    ensures { OnOk result (out.new.items ≡ out.old.items ++ replicate count 10) }
{
    for _done in 0..count {
        out.push(b'\n')?;
    }
    Ok(())
}

// Takes the last line end away behind `-`, and writes one for each blank line that follows behind `+`.
fn chomp(out: &mut Vec<u8>, sign: u8, rest: &[u8]) -> Result<(), AllocError>
    ensures { OnOk result (out.new.items ≡ chomped sign out.old.items (blank_lines (further_lines rest.now))) }
{
    match sign {
        b'-' => {
            let size = out.len().saturating_sub(1);
            out.truncate(size);
            Ok(())
        }
        b'+' => push_line_ends(out, count_blank_lines(rest)),
        _ => Ok(()),
    }
}

// The sign behind the first byte, or whatever stands there.
fn chomp_sign(text: &[u8]) -> u8
    ensures { result ≡ slice_index text.now 1 }
{
    match text {
        [_, b, ..] => *b,
        _ => 0,
    }
}

/// What a block scalar says before the rest of its file, where the innermost collection has this column, or none where
/// it is folded.
pub fn block_text(
    alloc: Global,
    column: Option<u32>,
    text: &[u8],
    rest: &[u8],
) -> Mem<Option<Vec<u8>>>
    ensures { IfOk result (λ r. MatchOption r (block_text column text.now rest.now ≡ None)
        (λ said. block_text column text.now rest.now ≡ Some said.items)) }
{
    match text {
        [b'|', ..] => {
            let mut out = Vec::with_capacity(alloc, text.len())?;
            push_contents(&mut out, lost_spaces(column, text), text)?;
            chomp(&mut out, chomp_sign(text), rest)?;
            Ok(Some(out))
        }
        _ => Ok(None),
    }
}
