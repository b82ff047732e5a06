// What stands next in a file.
ghost use Rattle.std.specs.Prelude.{◌≡◌, ◌+◌, ◌<◌, ◌≤◌, ◌^◌, length, reverse, Bool, List, true};
ghost use Rattle.yaml_lex.specs.declared.collections.Collection.{Collection as Open};
ghost use Rattle.yaml_lex.specs.Characters.{begins, is_blank, is_white};
ghost use Rattle.yaml_lex.specs.Leaves.{begins_comment, forbids_tab, IsLeafPlace};
ghost use Rattle.yaml_lex.specs.Scanning.{IsPiece, bad_place};

use crate::characters::{is_line_end, is_white};
use crate::collections::{Collection, is_refused};
use crate::context::Context;
use crate::form::{LeafForm, class_of, form_of, text_size};
use crate::runs::{blanks_size, indentation, is_line_over, line_size};
use rw_base::Cause;

/// What a text begins with: the end, bytes that are passed over, a leaf with its class, or a bad place so many bytes
/// on.
#[derive(Clone, Copy)]
pub enum Piece {
    End,
    Passed(usize),
    Leaf(u16, usize),
    Bad(usize, Cause),
}

/// What a text begins with. `broken` says that bytes follow it that aren't UTF-8.
pub fn piece_of(context: Context, collections: &[Collection], text: &[u8], broken: bool) -> Piece
    requires { context.column + 1 < 2 ^ 32 }
    ensures { IsPiece broken context (reverse collections.now) text.now result }
{
    match text {
        [] if broken => Piece::Bad(0, Cause::NotUtf8),
        [] => Piece::End,
        [b, ..] if is_white(*b) => white_piece(context, text),
        _ if begins_comment(context, text) => Piece::Passed(line_size(text)),
        _ => leaf_piece(context, collections, text, broken),
    }
}

// `#` at a line's start or behind a blank.
fn begins_comment(context: Context, text: &[u8]) -> bool
    ensures { result ≡ begins_comment context text.now }
{
    match text {
        [b'#', ..] => context.spaced,
        _ => false,
    }
}

// White space: a line end, or a run of blanks up to a tab that is bad.
fn white_piece(context: Context, text: &[u8]) -> Piece
    requires { begins is_white text.now ≡ true }
    ensures { (broken : Bool) (os : List Open) → IsPiece broken context os text.now result }
{
    if is_line_end(text[0]) {
        return Piece::Passed(1);
    }
    if !forbids_tab(context, text) {
        return Piece::Passed(blanks_size(text));
    }
    let spaces = indentation(text);
    if spaces == 0 {
        return Piece::Bad(0, Cause::BadLeaf);
    }
    Piece::Passed(spaces)
}

// Whether no tab may stand here: before the first leaf of a line, where more than blanks and a comment follows.
fn forbids_tab(context: Context, text: &[u8]) -> bool
    ensures { result ≡ forbids_tab context text.now }
{
    context.first && !is_line_over(text)
}

// A leaf, or a bad place where none begins or none can stand.
fn leaf_piece(context: Context, collections: &[Collection], text: &[u8], broken: bool) -> Piece
    requires place { IsLeafPlace context text.now }
    requires column { context.column + 1 < 2 ^ 32 }
    ensures { IsPiece broken context (reverse collections.now) text.now result }
{
    let form = form_of(context, text);
    match text_size(form, context, collections, text) {
        None => bad_place(form, text, broken),
        Some(size) => {
            let class = class_of(form, context, text, size);
            if is_refused(context, class, collections) {
                Piece::Bad(0, Cause::BadLeaf)
            } else {
                Piece::Leaf(class, size)
            }
        }
    }
}

// The bad place where no leaf of this form begins.
fn bad_place(form: LeafForm, text: &[u8], broken: bool) -> Piece
    ensures { result ≡ bad_place form text.now broken }
{
    match form {
        LeafForm::Quoted if broken => Piece::Bad(text.len(), Cause::NotUtf8),
        _ => Piece::Bad(0, Cause::BadLeaf),
    }
}
