// What stands next in a file.
ghost use Rattle.std.specs.Prelude.{◌≡◌, Bool, true, false, ◌<◌, ◌≤◌, length};
ghost use Rattle.java_lex.specs.Leaves.{IsLeafPlace, IsLongest};
ghost use Rattle.java_lex.specs.Blanks.{is_white, IsComment};
ghost use Rattle.java_lex.specs.Kinds.{is_literal};
ghost use Rattle.java_lex.specs.Scanning.{IsEscape, IsPiece, IsOpenPiece, escape_of, slice_first};

use crate::automaton::longest;
use crate::blank::{block_comment_size, line_comment_size};
use crate::class::{CHAR, STRING};
use crate::escape::first_refused;
use crate::table::{COMMENT_ESCAPE, LEAF, LITERAL_ESCAPE};
use crate::word::{word_class, word_size};
use rw_base::Cause;

/// What a text begins with where no white space stands: the end, a comment of so many bytes, a leaf with its class, or
/// a bad place so many bytes on.
#[derive(Clone, Copy)]
pub enum Piece {
    End,
    Comment(usize),
    Leaf(u16, usize),
    Bad(usize, Cause),
}

/// What a text begins with. `broken` says that bytes follow it that aren't UTF-8.
pub fn piece_of(text: &[u8], broken: bool) -> Piece
    requires { slice_first is_white text.now ≡ false }
    ensures { IsPiece broken text.now result }
{
    match text {
        [] if broken => Piece::Bad(0, Cause::NotUtf8),
        [] => Piece::End,
        [b'/', b'/', ..] => comment_of(text, line_comment_size(text)),
        [b'/', b'*', ..] => match block_comment_size(text) {
            Some(size) => comment_of(text, size),
            None => open_piece(text, broken, COMMENT_ESCAPE),
        },
        _ => leaf_of(text, broken),
    }
}

// A comment of so many bytes.
fn comment_of(text: &[u8], size: usize) -> Piece
    requires { IsComment text.now size }
    ensures { (broken : Bool) → IsPiece broken text.now result }
{
    match first_refused(&text[..size], COMMENT_ESCAPE) {
        Some(at) => Piece::Bad(at, Cause::BadLeaf),
        None => Piece::Comment(size),
    }
}

// A comment or a literal that is open at the end of the text.
fn open_piece(text: &[u8], broken: bool, escape: u8) -> Piece
    requires { IsEscape escape }
    ensures { IsOpenPiece broken (escape_of escape) text.now result }
{
    if !broken {
        return Piece::Bad(0, Cause::BadLeaf);
    }
    match first_refused(text, escape) {
        Some(at) => Piece::Bad(at, Cause::BadLeaf),
        None => Piece::Bad(text.len(), Cause::NotUtf8),
    }
}

// The leaves in which escapes stand.
fn is_literal(class: u16) -> bool
    ensures { result ≡ is_literal class }
{
    class == CHAR || class == STRING
}

// A leaf, or a bad place where none begins.
fn leaf_of(text: &[u8], broken: bool) -> Piece
    requires { IsLeafPlace text.now }
    ensures { IsPiece broken text.now result }
{
    let size = word_size(text);
    if size > 0 {
        return Piece::Leaf(word_class(&text[..size]), size);
    }
    let found = longest(text, LEAF);
    if found.class == 0 {
        return if found.open {
            open_piece(text, broken, LITERAL_ESCAPE)
        } else {
            Piece::Bad(0, Cause::BadLeaf)
        };
    }
    if is_literal(found.class) {
        literal_of(text, found.class, found.size)
    } else {
        Piece::Leaf(found.class, found.size)
    }
}

// A literal of so many bytes.
fn literal_of(text: &[u8], class: u16, size: usize) -> Piece
    requires place { IsLeafPlace text.now }
    requires longest { IsLongest text.now class size }
    requires literal { is_literal class ≡ true }
    requires some { 0 < size }
    ensures { (broken : Bool) → IsPiece broken text.now result }
{
    match first_refused(&text[..size], LITERAL_ESCAPE) {
        Some(at) => Piece::Bad(at, Cause::BadLeaf),
        None => Piece::Leaf(class, size),
    }
}
