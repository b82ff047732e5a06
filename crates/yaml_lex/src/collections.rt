// The open block mappings and sequences, innermost last.
ghost use Rattle.std.specs.Prelude.{◌≡◌, ◌≤◌, ◌<◌, ◌+◌, ◌^◌, ◌++◌, ◌&&◌, ◌==◌, if◌then◌else◌, length, reverse, take};
ghost use Rattle.std.specs.Prelude.{OnOk};
ghost use Rattle.yaml_lex.specs.Collections.{without_from, without_sequence, left_open, is_at, is_between, is_entry};
ghost use Rattle.yaml_lex.specs.Collections.{is_refused, opens_in, closes, textless, textless_before, open_behind};

use crate::class::{BRACE_CLOSE, BRACKET_CLOSE, CLOSE, DASH, DOC, DOCEND, KEY, OPENM, OPENS};
use crate::context::{Context, in_flow};
use rw_base::{Leaf, Mem};

/// An open block mapping or sequence, and the column where it began.
#[derive(Clone, Copy)]
pub struct Collection {
    pub sequence: bool,
    pub column: u32,
}

// How many stay open where the innermost ones from this column on are closed.
fn count_without_from(column: u32, collections: &[Collection]) -> usize
    ensures inside { result ≤ length collections.now }
    ensures stay { reverse (take result collections.now) ≡ without_from column (reverse collections.now) }
{
    let mut count = collections.len();
    while count > 0 {
        if collections[count - 1].column < column {
            return count;
        }
        count -= 1;
    }
    0
}

// How many stay open where an innermost sequence at this column is closed.
fn count_without_sequence(column: u32, collections: &[Collection]) -> usize
    ensures inside { result ≤ length collections.now }
    ensures stay { reverse (take result collections.now) ≡ without_sequence column (reverse collections.now) }
{
    let count = collections.len();
    if count > 0 && collections[count - 1].sequence && collections[count - 1].column == column {
        count - 1
    } else {
        count
    }
}

/// How many a leaf of this class leaves open.
#[tactic(auto, using(crate::proofs::Opened::left_open_by), unfolding(crate::specs::Collections::left_open))]
pub fn count_left_open(context: Context, class: u16, collections: &[Collection]) -> usize
    requires { context.column + 1 < 2 ^ 32 }
    ensures inside { result ≤ length collections.now }
    ensures stay { reverse (take result collections.now) ≡ left_open context class (reverse collections.now) }
{
    if class == DOC || class == DOCEND {
        return 0;
    }
    if in_flow(context) {
        return collections.len();
    }
    if class == KEY {
        let count = count_without_from(context.column + 1, collections);
        return count_without_sequence(context.column, &collections[..count]);
    }
    if class == DASH {
        return count_without_from(context.column + 1, collections);
    }
    if context.first && class != BRACKET_CLOSE && class != BRACE_CLOSE {
        return count_without_from(context.column, collections);
    }
    collections.len()
}

// Whether the innermost one is at this column.
#[tactic(auto, using(crate::proofs::Opened::at_by))]
fn is_at(column: u32, collections: &[Collection]) -> bool
    ensures { result ≡ is_at column (reverse collections.now) }
{
    if collections.is_empty() {
        return false;
    }
    collections[collections.len() - 1].column == column
}

// Whether a leaf of this class closes some of these, and then none of its column is open.
#[tactic(auto, using(crate::proofs::Opened::between_by))]
fn is_between(context: Context, class: u16, collections: &[Collection]) -> bool
    requires { context.column + 1 < 2 ^ 32 }
    ensures { result ≡ is_between context class (reverse collections.now) }
{
    let count = count_left_open(context, class, collections);
    count < collections.len() && !is_at(context.column, &collections[..count])
}

/// Whether a leaf of this class can't stand where these are open.
#[tactic(auto, unfolding(crate::specs::Collections::is_refused))]
pub fn is_refused(context: Context, class: u16, collections: &[Collection]) -> bool
    requires { context.column + 1 < 2 ^ 32 }
    ensures { result ≡ is_refused context class (reverse collections.now) }
{
    match class {
        KEY => context.anchored || is_between(context, class, collections),
        DASH => is_between(context, class, collections),
        _ => false,
    }
}

// Whether a leaf of this class opens a collection where these stay open.
#[tactic(auto, using(crate::proofs::Opened::opened_by))]
fn opens(context: Context, class: u16, collections: &[Collection]) -> bool
    ensures { result ≡ (is_entry class && opens_in context class (reverse collections.now)) }
{
    if class != KEY && class != DASH {
        return false;
    }
    if collections.is_empty() {
        return true;
    }
    let inner = collections[collections.len() - 1];
    inner.column < context.column || (class == DASH && !inner.sequence)
}

/// Pushes so many CLOSE at a byte.
#[tactic(auto, using(crate::proofs::Opened::closing_by))]
pub fn push_closes(leaves: &mut Vec<Leaf>, at: u32, count: usize) -> Mem<()>
    ensures { OnOk result (leaves.new.items ≡ leaves.old.items ++ closes at count) }
{
    for _done in 0..count {
        leaves.push(textless(at, CLOSE))?;
    }
    Ok(())
}

fn opening_class(class: u16) -> u16
    ensures { result ≡ (if class == DASH then OPENS else OPENM) }
{
    if class == DASH { OPENS } else { OPENM }
}

fn textless(at: u32, class: u16) -> Leaf
    ensures { result ≡ textless at class }
{
    Leaf {
        prefix_from: at,
        from: at,
        to: at,
        class,
    }
}

/// Pushes the leaves without text before a leaf of this class, and makes the collections those that are open behind it.
#[tactic(auto, using(crate::proofs::Opened::before_by))]
pub fn push_textless(
    leaves: &mut Vec<Leaf>,
    collections: &mut Vec<Collection>,
    at: u32,
    context: Context,
    class: u16,
) -> Mem<()>
    requires { context.column + 1 < 2 ^ 32 }
    ensures leaves { let os = reverse collections.old.items in
        OnOk result (leaves.new.items ≡ leaves.old.items ++ textless_before at context class os) }
    ensures collections { let os = reverse collections.old.items in
        OnOk result (reverse collections.new.items ≡ open_behind context class os) }
{
    let keep = count_left_open(context, class, collections.as_slice());
    push_closes(leaves, at, collections.len() - keep)?;
    collections.truncate(keep);
    if opens(context, class, collections.as_slice()) {
        leaves.push(textless(at, opening_class(class)))?;
        collections.push(Collection {
            sequence: class == DASH,
            column: context.column,
        })?;
    }
    Ok(())
}
