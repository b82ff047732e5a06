// Which kind of leaf can begin at a place, its text and its class.
ghost use Rattle.std.specs.Prelude.{◌≡◌, ◌≤◌, ◌<◌, ◌+◌, ◌^◌, MatchOption, length, reverse};
ghost use Rattle.yaml_lex.specs.Leaves.{is_colon, is_flow_colon, is_dash, is_key, is_quoted, form_of, class_of};
ghost use Rattle.yaml_lex.specs.Leaves.{sign_class, scalar_class, IsText, BeginsNone};
ghost use Rattle.yaml_lex.specs.Collections.{innermost};

use crate::block::{block_size, is_three};
use crate::characters::{is_block_mark, is_flow_sign, is_gap, is_name_mark, is_quote, is_white};
use crate::class::{
    ALIAS, ANCHOR, BLOCK, BRACE_CLOSE, BRACE_OPEN, BRACKET_CLOSE, BRACKET_OPEN, COLON, COMMA, DASH,
    DOC, DOCEND, FSCALAR, KEY, SCALAR,
};
use crate::collections::{Collection, count_left_open};
use crate::context::{Context, Previous, in_flow};
use crate::scalars::{is_key_end, name_size, plain_size, quoted_size};

/// The kinds of leaves that are told by what they begin with.
#[derive(Clone, Copy)]
pub enum LeafForm {
    Document,
    DocumentEnd,
    Colon,
    Dash,
    /// One of `[ ] { } ,`.
    Sign,
    /// An anchor or an alias.
    Name,
    /// A block scalar.
    Block,
    Quoted,
    Plain,
}

fn is_key(previous: Previous) -> bool
    ensures { result ≡ is_key previous }
{
    match previous {
        Previous::Key => true,
        _ => false,
    }
}

fn is_quoted(previous: Previous) -> bool
    ensures { result ≡ is_quoted previous }
{
    match previous {
        Previous::Quoted => true,
        _ => false,
    }
}

// A colon in flow context stands before this rest.
fn is_flow_colon(context: Context, rest: &[u8]) -> bool
    ensures { result ≡ is_flow_colon context rest.now }
{
    if !in_flow(context) {
        return false;
    }
    match rest {
        [] => is_quoted(context.previous),
        [b, ..] => is_quoted(context.previous) || is_white(*b) || is_flow_sign(*b),
    }
}

// `:` that is a leaf.
fn is_colon(context: Context, text: &[u8]) -> bool
    ensures { result ≡ is_colon context text.now }
{
    match text {
        [] => false,
        [b, rest @ ..] => *b == b':' && (is_key(context.previous) || is_flow_colon(context, rest)),
    }
}

// `-` that is a leaf.
fn is_dash(context: Context, text: &[u8]) -> bool
    ensures { result ≡ is_dash context text.now }
{
    match text {
        [] => false,
        [b, rest @ ..] => *b == b'-' && !in_flow(context) && is_gap(rest),
    }
}

/// What kind of leaf can begin here.
#[tactic(auto, unfolding(crate::specs::Leaves::form_of))]
pub fn form_of(context: Context, text: &[u8]) -> LeafForm
    ensures { result ≡ form_of context text.now }
{
    if context.column == 0 && is_three(b'-', text) {
        return LeafForm::Document;
    }
    if context.column == 0 && is_three(b'.', text) {
        return LeafForm::DocumentEnd;
    }
    if is_colon(context, text) {
        return LeafForm::Colon;
    }
    if is_dash(context, text) {
        return LeafForm::Dash;
    }
    match text {
        [] => LeafForm::Plain,
        [b, ..] if is_flow_sign(*b) => LeafForm::Sign,
        [b, ..] if is_name_mark(*b) => LeafForm::Name,
        [b, ..] if is_block_mark(*b) => LeafForm::Block,
        [b, ..] if is_quote(*b) => LeafForm::Quoted,
        _ => LeafForm::Plain,
    }
}

// The column of the innermost collection, if one is open.
#[tactic(auto, using(crate::proofs::Opened::innermost_by))]
fn innermost(collections: &[Collection]) -> Option<u32>
    ensures { result ≡ innermost (reverse collections.now) }
{
    if collections.is_empty() {
        return None;
    }
    Some(collections[collections.len() - 1].column)
}

/// The bytes of the leaf of this form that a text begins with.
pub fn text_size(
    form: LeafForm,
    context: Context,
    collections: &[Collection],
    text: &[u8],
) -> Option<usize>
    requires some { 0 < length text.now }
    requires column { context.column + 1 < 2 ^ 32 }
    ensures { MatchOption result (BeginsNone form context (reverse collections.now) text.now)
        (IsText form context (reverse collections.now) text.now) }
{
    match form {
        LeafForm::Document | LeafForm::DocumentEnd => Some(3),
        LeafForm::Colon | LeafForm::Dash | LeafForm::Sign => Some(1),
        LeafForm::Name => name_size(text),
        LeafForm::Block => {
            let count = count_left_open(context, BLOCK, collections);
            block_size(innermost(&collections[..count]), text)
        }
        LeafForm::Quoted => quoted_size(text),
        LeafForm::Plain => plain_size(text, in_flow(context)),
    }
}

#[tactic(auto, unfolding(crate::specs::Leaves::sign_class))]
fn sign_class(b: u8) -> u16
    ensures { result ≡ sign_class b }
{
    match b {
        b'[' => BRACKET_OPEN,
        b']' => BRACKET_CLOSE,
        b'{' => BRACE_OPEN,
        b'}' => BRACE_CLOSE,
        _ => COMMA,
    }
}

// The class of a scalar before this rest.
#[tactic(auto, unfolding(crate::specs::Leaves::scalar_class))]
fn scalar_class(context: Context, rest: &[u8]) -> u16
    ensures { result ≡ scalar_class context rest.now }
{
    if in_flow(context) {
        return FSCALAR;
    }
    if is_key_end(rest) { KEY } else { SCALAR }
}

/// The class of the leaf of this form whose text is so many bytes.
pub fn class_of(form: LeafForm, context: Context, text: &[u8], size: usize) -> u16
    requires some { 0 < length text.now }
    requires inside { size ≤ length text.now }
    ensures { result ≡ class_of form context text.now size }
{
    match form {
        LeafForm::Document => DOC,
        LeafForm::DocumentEnd => DOCEND,
        LeafForm::Colon => COLON,
        LeafForm::Dash => DASH,
        LeafForm::Sign => sign_class(text[0]),
        LeafForm::Name => { if text[0] == b'&' { ANCHOR } else { ALIAS } }
        LeafForm::Block => BLOCK,
        LeafForm::Quoted | LeafForm::Plain => scalar_class(context, &text[size..]),
    }
}
