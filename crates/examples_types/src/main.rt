//! Worked examples of Java's types: which fits where, copies and names, the questions that a rule puts to a world of
//! classes, the types of expressions, and the choice of an overloaded method. The program reads cases and writes each with its answer, and the
//! file `stdout` holds what it must write (see `examples_base`).
//!
//! `types` reads and writes types, `world` reads worlds of classes, and `large` makes calls with large inputs. What is
//! proved of a call stands in its crate.
#![tactic(auto)]

mod choices;
mod copies;
mod expressions;
mod fits;
mod large;
mod questions;
mod types;
mod world;

use crate::world::world_in;
use examples_base::{Answer, Lines, Stop};
use jtypes::ListWorld;
use std::alloc::Global;
use std::io::{BufRead, BufReader};

// Writes the answer of a case in a world of classes.
fn put_world_answer(alloc: Global, world: &ListWorld, heading: &str, case: &str, out: &mut Answer) {
    match heading {
        "subtypes and fits" => fits::put_relations(alloc, world, case, out),
        "subtypes asking" => fits::put_asking(alloc, world, case, out),
        "fits asking" => fits::put_fits_asking(alloc, world, case, out),
        "primitive types and boxes" => fits::put_fits(alloc, world, case, out),
        "copies of declarations" => copies::put_copies(alloc, world, case, out),
        "conditional expressions" => expressions::put_conditional(alloc, world, case, out),
        "question sets" => questions::put_answers(alloc, world, case, out),
        "choices" => choices::put_chosen(alloc, world, case, out),
        "choices asking" => choices::put_asking(alloc, world, case, out),
        _ => out.refuse("heading"),
    }
}

// Writes the answer of a case.
fn put_answer(alloc: Global, lines: &Lines, case: &str, out: &mut Answer) {
    match lines.heading() {
        "promotion" => fits::put_promotions(alloc, case, out),
        "boxes" => fits::put_boxes(alloc, case, out),
        "literals" => expressions::put_literal(alloc, case, out),
        "operators before an operand" => expressions::put_unary(alloc, case, out),
        "chains of operators" => expressions::put_chain(alloc, case, out),
        "elements of arrays" => expressions::put_element(alloc, case, out),
        "dimensions" => expressions::put_with_dims(alloc, case, out),
        "names" => copies::put_kept(alloc, case, out),
        "copies" => copies::put_copy(alloc, case, out),
        "large" => large::put_answer(alloc, case, out),
        heading => {
            if let Some(world) = world_in(alloc, lines.givens(), out) {
                put_world_answer(alloc, &world, heading, case, out);
            }
        }
    }
}

fn main(rt: HostRuntime) -> Result<(), Stop> {
    let alloc = rt.alloc();
    let mut lines = Lines::new(alloc);
    for line in BufReader::new(alloc, rt.reader())?.lines(alloc) {
        let line = line?;
        let mut out = Answer::new(alloc);
        if lines.read(alloc, line.as_str(), &mut out) {
            put_answer(alloc, &lines, line.as_str(), &mut out);
        }
        out.print(&rt)?;
    }
    Ok(())
}
