// Simple names at a place. A case is the name.
use crate::places::Place;
use crate::symbols::{put_asks, put_meaning};
use crate::types::{first_word, name_in};
use examples_base::Answer;
use j_names::{
    meaning_of, meaning_of_asking, type_named, type_named_asking, variable_named,
    variable_named_asking,
};
use jtypes::Asks;
use std::alloc::Global;

/// Writes what a name means as a type.
pub fn put_type_named(alloc: Global, place: &Place, case: &str, out: &mut Answer) {
    let Place { world, cx, frames } = place;
    if let Some(name) = name_in(alloc, case, out) {
        let mut asks = Asks::new(alloc);
        let symbol = type_named_asking(alloc, cx, frames, &name, world, &mut asks);
        put_meaning(&symbol, out);
        put_asks(alloc, asks, out);
    }
}

/// Writes what a name means as a variable.
pub fn put_variable(alloc: Global, place: &Place, case: &str, out: &mut Answer) {
    let Place { world, cx, frames } = place;
    if let Some(name) = name_in(alloc, case, out) {
        let mut asks = Asks::new(alloc);
        let symbol = variable_named_asking(alloc, cx, frames, &name, world, &mut asks);
        put_meaning(&symbol, out);
        put_asks(alloc, asks, out);
    }
}

/// Writes what a name means in an expression.
pub fn put_name_meant(alloc: Global, place: &Place, case: &str, out: &mut Answer) {
    let Place { world, cx, frames } = place;
    if let Some(name) = name_in(alloc, case, out) {
        let mut asks = Asks::new(alloc);
        let symbol = meaning_of_asking(alloc, cx, frames, &name, world, &mut asks);
        put_meaning(&symbol, out);
        put_asks(alloc, asks, out);
    }
}

/// Writes what a name means as a `type`, as a `variable` or as a `name` in an expression, without the questions.
pub fn put_unasked(alloc: Global, place: &Place, case: &str, out: &mut Answer) {
    let Place { world, cx, frames } = place;
    let (kind, name) = first_word(case);
    let Some(name) = name_in(alloc, name, out) else {
        return;
    };
    match kind {
        "type" => put_meaning(&type_named(alloc, cx, frames, &name, world), out),
        "variable" => put_meaning(&variable_named(alloc, cx, frames, &name, world), out),
        "name" => put_meaning(&meaning_of(alloc, cx, frames, &name, world), out),
        _ => out.refuse("kind of name"),
    }
}
