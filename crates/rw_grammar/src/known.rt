// What is known of each cell: whether it can be empty, and what can stand in front of it.
ghost use Rattle.std.specs.Prelude.{◌≡◌, ◌<◌, ◌≤◌, ◌==◌, length, IfOk, IfSome, find, count_by, nat_le};
ghost use Rattle.std.specs.Bool.{OnFalse};
ghost use Rattle.std.specs.List.{list_any};
ghost use Rattle.rw_grammar.specs.Parts.{rule_of};
ghost use Rattle.rw_grammar.specs.Cells.{bit, root_at, empty_by, starts_by, told_by, is_class, is_rule, AreLaid};
ghost use Rattle.rw_grammar.specs.Cells.{AreRight, AreClosed, EmptyTold, Tells, Holds, rules_at};

use crate::cells::Cell;
use rw_base::{Mem, NoMemory};
use sqlite_items::at;
use std::alloc::Global;

/// What is asked of each cell: whether it can be empty, or whether a class or a rule can stand in front of it.
#[derive(Clone, Copy)]
pub(crate) enum Asked {
    Empty,
    Class(u16),
    Rule(u16),
}

/// Whether the bit of a number is there and set.
#[tactic(auto, using(std::proofs::lemmas::List::get_or_past))]
pub(crate) fn is_set(bits: &[bool], n: u32) -> bool
    ensures { result ≡ bit bits.now n }
{
    let n = n as usize;
    n < bits.len() && bits[n]
}

/// The first of the numbers whose bit is set.
pub(crate) fn first_set(bits: &[bool], numbers: &[u32]) -> Option<u32>
    ensures { result ≡ find (bit bits.now) numbers.now }
{
    numbers.iter().copied().find(|n| is_set(bits, *n))
}

/// Whether one of the numbers has its bit set.
pub(crate) fn is_any_set(bits: &[bool], numbers: &[u32]) -> bool
    ensures { result ≡ list_any (bit bits.now) numbers.now }
{
    numbers.iter().any(|n| is_set(bits, *n))
}

/// Whether two of the numbers have their bits set.
pub(crate) fn are_two_set(bits: &[bool], numbers: &[u32]) -> bool
    ensures { result ≡ nat_le 2 (count_by (bit bits.now) numbers.now) }
{
    2 <= numbers.iter().filter(|n| is_set(bits, **n)).count()
}

/// Whether the bit of a rule's first cell is set.
fn is_root_set(roots: &[u32], rule: u16, bits: &[bool]) -> bool
    ensures { result ≡ root_at roots.now rule (bit bits.now) }
{
    match at(roots, rule as usize) {
        Some(root) => is_set(bits, *root),
        None => false,
    }
}

/// Whether a cell can be empty, by what is known of those that it names.
fn is_empty_by(cell: &Cell, roots: &[u32], known: &[bool]) -> bool
    ensures { result ≡ empty_by roots.now known.now cell.now }
{
    match cell {
        Cell::End => true,
        Cell::One(_, _) => false,
        Cell::Rule(rule, next) => is_root_set(roots, *rule, known) && is_set(known, *next),
        Cell::Choice(alternatives, next) => {
            is_any_set(known, alternatives.as_slice()) && is_set(known, *next)
        }
        Cell::Opt(_, next) => is_set(known, *next),
        Cell::Many(_, next) => is_set(known, *next),
    }
}

fn asks_for_class(asked: Asked, class: u16) -> bool
    ensures { result ≡ is_class asked class }
{
    match asked {
        Asked::Class(c) => c == class,
        _ => false,
    }
}

fn asks_for_rule(asked: Asked, rule: u16) -> bool
    ensures { result ≡ is_rule asked rule }
{
    match asked {
        Asked::Rule(r) => r == rule,
        _ => false,
    }
}

/// Whether what is asked for can stand in front of a cell, by what is known of those that it names.
fn starts(cell: &Cell, roots: &[u32], empty: &[bool], asked: Asked, known: &[bool]) -> bool
    ensures { result ≡ starts_by roots.now empty.now asked known.now cell.now }
{
    match cell {
        Cell::End => false,
        Cell::One(class, _) => asks_for_class(asked, *class),
        Cell::Rule(rule, next) => {
            asks_for_rule(asked, *rule)
                || is_root_set(roots, *rule, known)
                || (is_root_set(roots, *rule, empty) && is_set(known, *next))
        }
        Cell::Choice(alternatives, next) => {
            is_any_set(known, alternatives.as_slice())
                || (is_any_set(empty, alternatives.as_slice()) && is_set(known, *next))
        }
        Cell::Opt(part, next) => is_set(known, *part) || is_set(known, *next),
        Cell::Many(part, next) => is_set(known, *part) || is_set(known, *next),
    }
}

/// The answer for a cell, by what is known of those that it names.
fn follows(cell: &Cell, roots: &[u32], empty: &[bool], asked: Asked, known: &[bool]) -> bool
    ensures { result ≡ told_by roots.now empty.now asked known.now cell.now }
{
    match asked {
        Asked::Empty => is_empty_by(cell, roots, known),
        _ => starts(cell, roots, empty, asked, known),
    }
}

/// Sets the bits of the cells for which the answer follows from what is known. Whether there were any.
fn goes_further(
    cells: &[Cell],
    roots: &[u32],
    empty: &[bool],
    asked: Asked,
    known: &mut [bool],
) -> bool
    requires laid { AreLaid cells.now roots.now }
    requires empties { EmptyTold cells.now (rule_of (rules_at cells.now roots.now)) asked empty.now }
    requires right { AreRight cells.now (rule_of (rules_at cells.now roots.now)) asked known.old }
    requires long { length known.old ≡ length cells.now }
    ensures right { AreRight cells.now (rule_of (rules_at cells.now roots.now)) asked known.new }
    ensures closed { OnFalse result (AreClosed cells.now roots.now empty.now asked known.new) }
{
    let mut more = false;
    for (i, cell) in cells.iter().enumerate() {
        if known[i] {
            continue;
        }
        if !follows(cell, roots, empty, asked, known) {
            continue;
        }
        known[i] = true;
        more = true;
    }
    more
}

/// For each cell the answer to what is asked.
pub(crate) fn settled(
    alloc: Global,
    cells: &[Cell],
    roots: &[u32],
    empty: &[bool],
    asked: Asked,
) -> Mem<Vec<bool>>
    requires laid { AreLaid cells.now roots.now }
    requires empties { EmptyTold cells.now (rule_of (rules_at cells.now roots.now)) asked empty.now }
    ensures { let rules = rules_at cells.now roots.now in
        IfOk result (λ known. Tells cells.now (Holds (rule_of rules) asked) known.items) }
{
    let mut known = vec![in alloc; false; cells.len()]?;
    for _ in 0..u64::MAX {
        if !goes_further(cells, roots, empty, asked, known.as_mut_slice()) {
            return Ok(known);
        }
    }
    Err(NoMemory)
}
