// What brackets behind each leaf of a segment enclose, told from the last leaf to the first.
ghost use Rattle.std.specs.Prelude.{◌≡◌, ◌≢◌, ℕ, ◌+◌, ◌<◌, ◌≤◌, ◌^◌, ◌↔◌, IsTrue, length};
ghost use Rattle.java_lex.specs.Marks.{AreBrackets, EndsInSet};
ghost use Rattle.java_lex.specs.Segments.{class_at, is_tight};
ghost use Rattle.java_lex.specs.KnownBrackets.{ToldBalanced, ToldWhether, ToldClose, KnowsBrackets};
ghost use Rattle.java_lex.specs.KnownBrackets.{KnowsBracketsBehind, KnowsSet, brackets_at, no_brackets};

use crate::class::*;
use crate::shift::adjoins;
use crate::type_ends::class_at;
use rw_base::Leaf;

// What stands from a leaf on.
#[derive(Clone, Copy)]
pub(crate) struct Brackets {
    // the `)` or `]` up to which all brackets from the leaf on are balanced
    pub end: Option<u32>,
    // whether the search for `;` or `=` from the leaf on succeeds
    pub leads: bool,
    // the first `)` from the leaf on that no `(` from there on opens
    pub close: Option<u32>,
    // whether the adjoining leaves from the leaf on end in `>=`
    pub set: bool,
}

impl Brackets {
    // Nothing stands behind the last leaf.
    pub(crate) fn none() -> Brackets
        ensures { result ≡ no_brackets }
    {
        Brackets {
            end: None,
            leads: false,
            close: None,
            set: false,
        }
    }
}

pub(crate) fn brackets_at(brackets: &[Brackets], i: u32) -> Brackets
    ensures { result ≡ brackets_at brackets.now i }
{
    if (i as usize) < brackets.len() {
        brackets[i as usize]
    } else {
        Brackets::none()
    }
}

// Behind the group that the bracket at leaf `at` begins.
fn end_behind(leaves: &[Leaf], brackets: &[Brackets], at: u32, close: u16) -> Option<u32>
    requires few { length leaves.now < 2 ^ 31 }
    requires known { KnowsBracketsBehind (class_at leaves.now) at brackets.now }
    requires inside { at < length leaves.now }
    requires open { AreBrackets (class_at leaves.now at) close }
    ensures { ToldBalanced (class_at leaves.now) at result }
{
    match brackets_at(brackets, at + 1).end {
        None => None,
        Some(end) => {
            if class_at(leaves, end as usize) != close {
                return None;
            }
            brackets_at(brackets, end + 1).end
        }
    }
}

// The `)` or `]` up to which all brackets from leaf `at` on are balanced.
fn balanced_end(leaves: &[Leaf], brackets: &[Brackets], at: u32) -> Option<u32>
    requires few { length leaves.now < 2 ^ 31 }
    requires known { KnowsBracketsBehind (class_at leaves.now) at brackets.now }
    requires inside { at < length leaves.now }
    ensures { ToldBalanced (class_at leaves.now) at result }
{
    match class_at(leaves, at as usize) {
        PAREN_CLOSE => Some(at),
        BRACKET_CLOSE => Some(at),
        PAREN_OPEN => end_behind(leaves, brackets, at, PAREN_CLOSE),
        BRACKET_OPEN => end_behind(leaves, brackets, at, BRACKET_CLOSE),
        _ => brackets_at(brackets, at + 1).end,
    }
}

// The same where a bracket stands at leaf `at`.
fn leads_behind(leaves: &[Leaf], brackets: &[Brackets], at: u32, close: u16) -> bool
    requires few { length leaves.now < 2 ^ 31 }
    requires known { KnowsBracketsBehind (class_at leaves.now) at brackets.now }
    requires inside { at < length leaves.now }
    requires open { AreBrackets (class_at leaves.now at) close }
    ensures { ToldWhether (class_at leaves.now) at result }
{
    match brackets_at(brackets, at + 1).end {
        None => brackets_at(brackets, at + 1).leads,
        Some(end) => {
            if class_at(leaves, end as usize) != close {
                return brackets_at(brackets, at + 1).leads;
            }
            brackets_at(brackets, end + 1).leads
        }
    }
}

// Whether the search for `;` or `=` from leaf `at` on succeeds.
fn leads(leaves: &[Leaf], brackets: &[Brackets], at: u32) -> bool
    requires few { length leaves.now < 2 ^ 31 }
    requires known { KnowsBracketsBehind (class_at leaves.now) at brackets.now }
    requires inside { at < length leaves.now }
    ensures { ToldWhether (class_at leaves.now) at result }
{
    match class_at(leaves, at as usize) {
        SEMICOLON => true,
        ASSIGN => true,
        PAREN_CLOSE => false,
        BRACKET_CLOSE => false,
        BRACE_OPEN => false,
        BRACE_CLOSE => false,
        PAREN_OPEN => leads_behind(leaves, brackets, at, PAREN_CLOSE),
        BRACKET_OPEN => leads_behind(leaves, brackets, at, BRACKET_CLOSE),
        _ => brackets_at(brackets, at + 1).leads,
    }
}

// The first `)` from leaf `at` on that no `(` from there on opens.
fn close_end(leaves: &[Leaf], brackets: &[Brackets], at: u32) -> Option<u32>
    requires few { length leaves.now < 2 ^ 31 }
    requires known { KnowsBracketsBehind (class_at leaves.now) at brackets.now }
    requires inside { at < length leaves.now }
    ensures { ToldClose (class_at leaves.now) at result }
{
    match class_at(leaves, at as usize) {
        PAREN_CLOSE => Some(at),
        PAREN_OPEN => match brackets_at(brackets, at + 1).close {
            None => None,
            Some(end) => {
                if (end as usize) < leaves.len() {
                    brackets_at(brackets, end + 1).close
                } else {
                    None
                }
            }
        },
        _ => brackets_at(brackets, at + 1).close,
    }
}

// Whether the adjoining leaves from leaf `at` on end in `>=`.
fn set_from(leaves: &[Leaf], brackets: &[Brackets], at: u32) -> bool
    requires few { length leaves.now < 2 ^ 31 }
    requires sets { (k : ℕ) → at < k
        → KnowsSet (class_at leaves.now) (is_tight leaves.now) k (brackets_at brackets.now k) }
    requires inside { at < length leaves.now }
    ensures { IsTrue result ↔ EndsInSet (class_at leaves.now) (is_tight leaves.now) at }
{
    match class_at(leaves, at as usize) {
        GREATER_EQUAL => true,
        GREATER => {
            if !adjoins(leaves, at as usize) {
                return false;
            }
            brackets_at(brackets, at + 1).set
        }
        _ => false,
    }
}

// What stands from leaf `at` on.
fn brackets_from(leaves: &[Leaf], brackets: &[Brackets], at: u32) -> Brackets
    requires few { length leaves.now < 2 ^ 31 }
    requires known { KnowsBracketsBehind (class_at leaves.now) at brackets.now }
    requires sets { (k : ℕ) → at < k
        → KnowsSet (class_at leaves.now) (is_tight leaves.now) k (brackets_at brackets.now k) }
    requires inside { at < length leaves.now }
    ensures known { KnowsBrackets (class_at leaves.now) at result }
    ensures set { KnowsSet (class_at leaves.now) (is_tight leaves.now) at result }
{
    Brackets {
        end: balanced_end(leaves, brackets, at),
        leads: leads(leaves, brackets, at),
        close: close_end(leaves, brackets, at),
        set: set_from(leaves, brackets, at),
    }
}

// What brackets behind each leaf enclose.
pub(crate) fn fill_brackets(leaves: &[Leaf], brackets: &mut [Brackets])
    requires few { length leaves.now < 2 ^ 31 }
    requires long { length brackets.old ≡ length leaves.now }
    ensures known { (k : ℕ) → KnowsBrackets (class_at leaves.now) k (brackets_at brackets.new k) }
    ensures sets { (k : ℕ) → KnowsSet (class_at leaves.now) (is_tight leaves.now) k (brackets_at brackets.new k) }
{
    let mut i = leaves.len();
    while 0 < i {
        i -= 1;
        let found = brackets_from(leaves, &*brackets, i as u32);
        brackets[i] = found;
    }
}
