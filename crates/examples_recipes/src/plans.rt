// Plans of recipes.
use crate::books::{book_of, put_fault};
use examples_base::Answer;
use kept_files::Readers;
use recipe_yaml::{Condition, Plan, PlannedLeaf, plan};
use std::alloc::Global;

// Writes a leaf: its name, and the numbers of its preconditions.
fn put_leaf(leaf: &PlannedLeaf, out: &mut Answer) {
    out.put_quoted(leaf.name.as_slice());
    for (at, condition) in leaf.conditions.as_slice().iter().enumerate() {
        out.put(if at == 0 { " if " } else { ", " });
        out.put_number(*condition as usize);
    }
}

fn put_leaves(leaves: &[PlannedLeaf], out: &mut Answer) {
    for (at, leaf) in leaves.iter().enumerate() {
        out.put_between(at, "; ");
        put_leaf(leaf, out);
    }
}

// Writes the preconditions of a plan, by their numbers.
fn put_conditions(conditions: &[Condition], out: &mut Answer) {
    for (at, condition) in conditions.iter().enumerate() {
        out.put(" | ");
        out.put_number(at);
        out.put(": ");
        put_leaves(condition.leaves.as_slice(), out);
    }
}

fn put_whole(plan: &Plan, out: &mut Answer) {
    if plan.leaves.as_slice().is_empty() {
        out.put("no leaf");
    }
    put_leaves(plan.leaves.as_slice(), out);
    put_conditions(plan.conditions.as_slice(), out);
    out.put(if plan.again { " | again" } else { "" });
}

/// Writes the plan of a recipe of a file, or the first fault.
pub fn put_plan(alloc: Global, readers: &Readers, name: &[u8], text: &[u8], out: &mut Answer) {
    let book = match book_of(alloc, readers, text) {
        Ok(book) => book,
        Err(fault) => return put_fault(fault, out),
    };
    match plan(alloc, &book, name) {
        Ok(plan) => put_whole(&plan, out),
        Err(fault) => put_fault(fault, out),
    }
}
