// What a leaf depends on beside the text that is left.
ghost use Rattle.std.specs.Prelude.{◌≡◌, ◌+◌, ◌<◌, ◌≤◌, ◌^◌, length};
ghost use Rattle.yaml_lex.specs.Contexts.{start, past, past_byte, past_leaf, seen_as, depth_behind, in_flow};
ghost use Rattle.yaml_lex.specs.Characters.{begins, is_quote};

use crate::characters::{is_blank, is_continuation, is_line_end, is_quote};
use crate::class::{ANCHOR, BRACE_CLOSE, BRACE_OPEN, BRACKET_CLOSE, BRACKET_OPEN, FSCALAR, KEY};

/// What the last leaf was.
#[derive(Clone, Copy)]
pub enum Previous {
    Key,
    /// A quoted scalar in flow context.
    Quoted,
    Other,
}

/// Where on its line a leaf would stand, and between which leaves.
#[derive(Clone, Copy)]
pub struct Context {
    /// How many characters stand before on the line.
    pub column: u32,
    /// Whether no leaf stands before on the line.
    pub first: bool,
    /// Whether a line's start or a blank stands directly before.
    pub spaced: bool,
    /// Whether an anchor begins before on the line.
    pub anchored: bool,
    /// How many brackets are open.
    pub depth: u32,
    pub previous: Previous,
}

/// The context at the start of a text.
pub fn start() -> Context
    ensures { result ≡ start }
{
    Context {
        column: 0,
        first: true,
        spaced: true,
        anchored: false,
        depth: 0,
        previous: Previous::Other,
    }
}

/// Whether brackets are open.
pub fn in_flow(context: Context) -> bool
    ensures { result ≡ in_flow context }
{
    context.depth > 0
}

// The context behind one more byte.
#[tactic(auto, unfolding(crate::specs::Contexts::past_byte))]
fn past_byte(context: Context, b: u8) -> Context
    requires { context.column + 1 < 2 ^ 32 }
    ensures next { result ≡ past_byte context b }
    ensures column { result.column ≤ context.column + 1 }
    ensures depth { result.depth ≡ context.depth }
{
    if is_line_end(b) {
        return Context {
            column: 0,
            first: true,
            spaced: true,
            anchored: false,
            depth: context.depth,
            previous: context.previous,
        };
    }
    let column = if is_continuation(b) {
        context.column
    } else {
        context.column + 1
    };
    Context {
        column,
        first: context.first,
        spaced: is_blank(b),
        anchored: context.anchored,
        depth: context.depth,
        previous: context.previous,
    }
}

/// The context behind a text.
pub fn past(context: Context, text: &[u8]) -> Context
    requires { context.column + length text.now < 2 ^ 32 }
    ensures next { result ≡ past context text.now }
    ensures column { result.column ≤ context.column + length text.now }
    ensures depth { result.depth ≡ context.depth }
{
    let mut here = context;
    for b in text {
        here = past_byte(here, *b);
    }
    here
}

// What the next leaf sees of a leaf of this class, with which a text begins.
fn seen_as(class: u16, text: &[u8]) -> Previous
    ensures { result ≡ seen_as class text.now }
{
    if class == KEY {
        return Previous::Key;
    }
    if class == FSCALAR && begins_quote(text) {
        return Previous::Quoted;
    }
    Previous::Other
}

fn begins_quote(text: &[u8]) -> bool
    ensures { result ≡ begins is_quote text.now }
{
    match text {
        [] => false,
        [b, ..] => is_quote(*b),
    }
}

fn depth_behind(class: u16, depth: u32) -> u32
    requires { depth + 1 < 2 ^ 32 }
    ensures value { result ≡ depth_behind class depth }
    ensures few { result ≤ depth + 1 }
{
    if class == BRACKET_OPEN || class == BRACE_OPEN {
        return depth + 1;
    }
    if (class == BRACKET_CLOSE || class == BRACE_CLOSE) && depth > 0 {
        return depth - 1;
    }
    depth
}

/// The context behind a leaf of this class, with which a text begins; `context` is that behind its last byte.
#[tactic(auto, unfolding(crate::specs::Contexts::past_leaf))]
pub fn past_leaf(class: u16, text: &[u8], context: Context) -> Context
    requires { context.depth + 1 < 2 ^ 32 }
    ensures next { result ≡ past_leaf class text.now context }
    ensures column { result.column ≡ context.column }
    ensures depth { result.depth ≤ context.depth + 1 }
{
    Context {
        column: context.column,
        first: false,
        spaced: context.spaced,
        anchored: context.anchored || class == ANCHOR,
        depth: depth_behind(class, context.depth),
        previous: seen_as(class, text),
    }
}
