// Which recipes lead to scanning ones.
ghost use Rattle.std.specs.Prelude.{◌≡◌, ◌<◌, ◌||◌, IsTrue, false, length, slice_index_or, IfOk, IfSome};
ghost use Rattle.std.specs.List.{list_any};
ghost use Rattle.std.specs.Str.{bytes_eq};
ghost use Rattle.recipe_yaml.specs.Leading.{place_from, scans, entry_leads, recipe_leads};
ghost use Rattle.recipe_yaml.specs.Leading.{next_column, column, AnyNumberLeads};

use crate::book::{Written, WrittenEntry};
use crate::leaf_name::{is_same, is_scanner, leaf_named};
use rw_base::Mem;
use std::alloc::Global;

// Where a recipe of this name stands.
#[tactic(auto, using(crate::proofs::Gone::places))]
pub(crate) fn place_of(book: &[Written], name: &[u8]) -> Option<usize>
    ensures place { result ≡ place_from 0 name.now book.now }
    ensures there { IfSome result (λ number. number < length book.now) }
{
    for (number, recipe) in book.iter().enumerate() {
        if is_same(recipe.name.as_slice(), name) {
            return Some(number);
        }
    }
    None
}

// A name is that of a scanning leaf recipe.
#[tactic(auto, unfolding(crate::specs::Leading::scans))]
pub(crate) fn scans(name: &[u8]) -> bool
    ensures { result ≡ scans name.now }
{
    match leaf_named(name) {
        Some(leaf) => is_scanner(leaf),
        None => false,
    }
}

fn is_set(column: &[bool], number: usize) -> bool
    ensures { result ≡ slice_index_or column.now number false }
{
    match column.get(number) {
        Some(is_set) => *is_set,
        None => false,
    }
}

#[tactic(auto, using(crate::proofs::Led::entry_by))]
fn entry_leads(book: &[Written], column: &[bool], entry: &WrittenEntry) -> bool
    ensures { result ≡ entry_leads book.now column.now entry.now }
{
    match place_of(book, entry.name.as_slice()) {
        None => scans(entry.name.as_slice()),
        Some(number) => is_set(column, number),
    }
}

#[tactic(auto, using(crate::proofs::Gone::any_by))]
fn any_leads(book: &[Written], column: &[bool], entries: &[WrittenEntry]) -> bool
    ensures { result ≡ list_any (entry_leads book.now column.now) entries.now }
{
    for entry in entries {
        if entry_leads(book, column, entry) {
            return true;
        }
    }
    false
}

#[tactic(auto, unfolding(crate::specs::Leading::recipe_leads))]
fn recipe_leads(book: &[Written], column: &[bool], recipe: &Written) -> bool
    ensures { result ≡ recipe_leads book.now column.now recipe.now }
{
    let first = any_leads(book, column, recipe.conditions.as_slice());
    let second = any_leads(book, column, recipe.list.as_slice());
    first || second
}

// The column of one recipe more on the way.
#[tactic(auto, using(crate::proofs::Led::next_by))]
fn next_column(alloc: Global, book: &[Written], column: &[bool]) -> Mem<Vec<bool>>
    ensures { IfOk result (λ next. next.items ≡ next_column book.now column.now) }
{
    let mut next = Vec::with_capacity(alloc, book.len())?;
    for recipe in book {
        next.push(recipe_leads(book, column, recipe))?;
    }
    Ok(next)
}

fn is_same_bit(a: bool, b: bool) -> bool
    ensures { IsTrue result → a ≡ b }
{
    match a {
        true => b,
        false => !b,
    }
}

#[tactic(auto, using(crate::proofs::Led::bits_by))]
fn are_same(a: &[bool], b: &[bool]) -> bool
    ensures { IsTrue result → a.now ≡ b.now }
{
    if a.len() != b.len() {
        return false;
    }
    for i in 0..a.len() {
        if !is_same_bit(a[i], b[i]) {
            return false;
        }
    }
    true
}

#[tactic(auto, using(crate::proofs::Led::none_by))]
fn no_column(alloc: Global, book: &[Written]) -> Mem<Vec<bool>>
    ensures { IfOk result (λ made. made.items ≡ column book.now 0) }
{
    let mut column = Vec::with_capacity(alloc, book.len())?;
    for _ in book {
        column.push(false)?;
    }
    Ok(column)
}

/// For each recipe of a book, whether it leads to a scanning one through any number of recipes.
#[tactic(auto, using(crate::proofs::Led::columns_by))]
pub(crate) fn leading(alloc: Global, book: &[Written]) -> Mem<Vec<bool>>
    ensures { IfOk result (λ leading. leading.items ≡ column book.now (length book.now)) }
{
    let mut last = no_column(alloc, book)?;
    for k in 0..book.len() {
        let next = next_column(alloc, book, &last)?;
        let _ = k;
        if are_same(&next, &last) {
            return Ok(last);
        }
        last = next;
    }
    Ok(last)
}

/// What leads to a scanning recipe through any number of others is found through as many as the book has: a law, whose
/// function does nothing.
#[tactic(auto, using(crate::proofs::AnyNumber::any_number))]
pub fn any_number_leads()
    ensures { AnyNumberLeads }
{}
