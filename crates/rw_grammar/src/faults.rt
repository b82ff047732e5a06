// The faults of a table.
ghost use Rattle.std.specs.Prelude.{◌≡◌, ◌↔◌, ◌||◌, ℕ, ◌<◌, ◌≤◌, ◌+◌, length, IfOk, IsTrue, nat_le, count_by};
ghost use Rattle.std.specs.List.{list_any};
ghost use Rattle.rw_grammar.specs.Parts.{rule_of};
ghost use Rattle.rw_grammar.specs.Begins.{CanBeEmpty, IsLeftRecursive};
ghost use Rattle.rw_grammar.specs.Faults.{IsSound, IsLeastFault};
ghost use Rattle.rw_grammar.specs.Cells.{AreKnown, AreLaid, Tells, Somewhere, bit, named_by, rules_at, wrong_by};

use crate::cells::Cell;
use crate::known::{Asked, are_two_set, is_any_set, is_set, settled};
use rw_base::Mem;
use sqlite_items::Items;
use std::alloc::Global;

/// Whether two of the cells share a class of which there is a column.
fn share_a_class(columns: &[Items<bool>], numbers: &[u32]) -> bool
    ensures { result ≡ list_any (λ column. nat_le 2 (count_by (bit column) numbers.now)) columns.now }
{
    columns
        .iter()
        .any(|column| are_two_set(column.as_slice(), numbers))
}

/// Whether the first of a cell's shapes has the fault of this number.
fn is_wrong(
    number: u8,
    cell: &Cell,
    rule_count: usize,
    empty: &[bool],
    columns: &[Items<bool>],
) -> bool
    ensures { result ≡ wrong_by number rule_count empty.now columns.now cell.now }
{
    match cell {
        Cell::End => false,
        Cell::One(_, _) => false,
        Cell::Rule(rule, _) => number == 5 && rule_count <= *rule as usize,
        Cell::Choice(alternatives, _) => {
            (number == 1 && share_a_class(columns, alternatives.as_slice()))
                || (number == 2 && are_two_set(empty, alternatives.as_slice()))
        }
        Cell::Opt(part, _) => number == 3 && is_set(empty, *part),
        Cell::Many(part, _) => number == 3 && is_set(empty, *part),
    }
}

/// Whether a cell that this one names has its bit set.
fn names_a_set_one(cell: &Cell, bits: &[bool]) -> bool
    ensures { result ≡ named_by bits.now cell.now }
{
    match cell {
        Cell::End => false,
        Cell::One(_, next) => is_set(bits, *next),
        Cell::Rule(_, next) => is_set(bits, *next),
        Cell::Choice(alternatives, next) => {
            is_any_set(bits, alternatives.as_slice()) || is_set(bits, *next)
        }
        Cell::Opt(part, next) => is_set(bits, *part) || is_set(bits, *next),
        Cell::Many(part, next) => is_set(bits, *part) || is_set(bits, *next),
    }
}

/// Whether the fault of this number is at a cell, or in one that it names.
fn is_marked(
    number: u8,
    cell: &Cell,
    rule_count: usize,
    empty: &[bool],
    columns: &[Items<bool>],
    marks: &[bool],
) -> bool
    ensures { result ≡ (wrong_by number rule_count empty.now columns.now cell.now || named_by marks.now cell.now) }
{
    is_wrong(number, cell, rule_count, empty, columns) || names_a_set_one(cell, marks)
}

/// For each cell whether the fault of this number is somewhere in its shapes.
fn marked(
    alloc: Global,
    number: u8,
    cells: &[Cell],
    roots: &[u32],
    empty: &[bool],
    columns: &[Items<bool>],
) -> Mem<Vec<bool>>
    requires { AreKnown cells.now roots.now empty.now columns.now }
    ensures { let rules = rules_at cells.now roots.now in
        let marked = Somewhere (rule_of rules) (length roots.now) number in
        IfOk result (λ marks. Tells cells.now marked marks.items) }
{
    let mut marks = Vec::with_capacity(alloc, cells.len())?;
    for cell in cells {
        let mark = is_marked(number, cell, roots.len(), empty, columns, marks.as_slice());
        marks.push(mark)?;
    }
    Ok(marks)
}

/// Whether a rule leads back to itself before any leaf.
fn is_left_recursive(
    alloc: Global,
    cells: &[Cell],
    roots: &[u32],
    empty: &[bool],
    rule: u16,
) -> Mem<bool>
    requires laid { AreLaid cells.now roots.now }
    requires empties { Tells cells.now (CanBeEmpty (rule_of (rules_at cells.now roots.now))) empty.now }
    requires there { rule < length roots.now }
    ensures { IfOk result (λ yes. IsTrue yes ↔ IsLeftRecursive (rule_of (rules_at cells.now roots.now)) rule) }
{
    let starts = settled(alloc, cells, roots, empty, Asked::Rule(rule))?;
    Ok(is_set(starts.as_slice(), roots[rule as usize]))
}

/// The least rule with a fault, behind its least fault.
pub(crate) fn least_fault(
    alloc: Global,
    cells: &[Cell],
    roots: &[u32],
    empty: &[bool],
    columns: &[Items<bool>],
) -> Mem<Option<(u8, u16)>>
    requires few { length roots.now ≤ u16.MAX + 1 }
    requires known { AreKnown cells.now roots.now empty.now columns.now }
    ensures none { result ≡ Ok None → IsSound (rules_at cells.now roots.now) }
    ensures some { (number rule : ℕ) → result ≡ Ok (Some (number, rule))
        → IsLeastFault (rules_at cells.now roots.now) number rule }
{
    let shared = marked(alloc, 1, cells, roots, empty, columns)?;
    let empties = marked(alloc, 2, cells, roots, empty, columns)?;
    let optional = marked(alloc, 3, cells, roots, empty, columns)?;
    let absent = marked(alloc, 5, cells, roots, empty, columns)?;
    for i in 0..roots.len() {
        let rule = i as u16;
        let root = roots[i];
        if is_set(shared.as_slice(), root) {
            return Ok(Some((1, rule)));
        }
        if is_set(empties.as_slice(), root) {
            return Ok(Some((2, rule)));
        }
        if is_set(optional.as_slice(), root) {
            return Ok(Some((3, rule)));
        }
        if is_left_recursive(alloc, cells, roots, empty, rule)? {
            return Ok(Some((4, rule)));
        }
        if is_set(absent.as_slice(), root) {
            return Ok(Some((5, rule)));
        }
    }
    Ok(None)
}
