// Subtypes, what fits where, promotion, and the questions that they put to a world.
use crate::questions::put_asks;
use crate::types::{PRIMS, prim_name, put_type, type_in};
use examples_base::Answer;
use jtypes::{
    Asks, JPrim, JType, ListWorld, box_of, fits_loosely, fits_loosely_asking, fits_strictly,
    fits_strictly_asking, is_subtype, is_subtype_asking, promote, unbox,
};
use rw_base::Mem;
use std::alloc::Global;

// The two types of a case.
fn two_types(alloc: Global, case: &str, out: &mut Answer) -> (JType, JType) {
    let (from, to) = case.split_once(' ').unwrap_or((case, ""));
    (type_in(alloc, from, out), type_in(alloc, to, out))
}

// Whether something holds, unless memory was refused.
fn known(holds: Mem<bool>, out: &mut Answer) -> bool {
    match holds {
        Ok(holds) => holds,
        Err(_) => {
            out.refuse("memory");
            false
        }
    }
}

/// Writes whether the first type is a subtype of the second, and fits it strictly and loosely.
pub fn put_relations(alloc: Global, world: &ListWorld, case: &str, out: &mut Answer) {
    let (from, to) = two_types(alloc, case, out);
    out.put("subtype ");
    let subtype = known(is_subtype(alloc, &from, &to, world), out);
    out.put_bool(subtype);
    out.put(", fits strictly ");
    let strict = known(fits_strictly(alloc, &from, &to, world), out);
    out.put_bool(strict);
    out.put(", loosely ");
    let loose = known(fits_loosely(alloc, &from, &to, world), out);
    out.put_bool(loose);
}

/// Writes whether the first type is a subtype of the second, and how many questions that put.
pub fn put_asking(alloc: Global, world: &ListWorld, case: &str, out: &mut Answer) {
    let (from, to) = two_types(alloc, case, out);
    let mut asks = Asks::new(alloc);
    let subtype = known(is_subtype_asking(alloc, &from, &to, world, &mut asks), out);
    out.put_bool(subtype);
    out.put(", ");
    match asks.into_items(alloc) {
        Ok(asks) => out.put_number(asks.len()),
        Err(_) => out.refuse("memory"),
    }
    out.put(" questions");
}

// Writes whether the first type fits the second strictly, with the questions that it puts.
fn put_strict(alloc: Global, world: &ListWorld, from: &JType, to: &JType, out: &mut Answer) {
    let mut asks = Asks::new(alloc);
    let fits = known(fits_strictly_asking(alloc, from, to, world, &mut asks), out);
    out.put_bool(fits);
    out.put(" ");
    put_asks(alloc, asks, out);
}

// Writes the same of a loose fit.
fn put_loose(alloc: Global, world: &ListWorld, from: &JType, to: &JType, out: &mut Answer) {
    let mut asks = Asks::new(alloc);
    let fits = known(fits_loosely_asking(alloc, from, to, world, &mut asks), out);
    out.put_bool(fits);
    out.put(" ");
    put_asks(alloc, asks, out);
}

/// Writes whether the first type fits the second strictly, and loosely, each with the questions that it puts.
pub fn put_fits_asking(alloc: Global, world: &ListWorld, case: &str, out: &mut Answer) {
    let (from, to) = two_types(alloc, case, out);
    out.put("strictly ");
    put_strict(alloc, world, &from, &to, out);
    out.put(", loosely ");
    put_loose(alloc, world, &from, &to, out);
}

// The class that boxes a primitive type.
fn box_type(alloc: Global, prim: JPrim, out: &mut Answer) -> JType {
    match box_of(alloc, prim) {
        Ok(name) => JType::Class(name),
        Err(_) => {
            out.refuse("memory");
            JType::Unknown
        }
    }
}

// Writes a type if another one fits it.
fn put_if(fits: Mem<bool>, to: &JType, out: &mut Answer) {
    if known(fits, out) {
        out.put(" ");
        put_type(to, out);
    }
}

// The primitive types, and then their boxes.
fn prims_and_boxes(alloc: Global, out: &mut Answer) -> Vec<JType> {
    let mut types = Vec::new(alloc);
    for prim in &PRIMS {
        if types.push(JType::Prim(*prim)).is_err() {
            out.refuse("memory");
        }
    }
    for prim in &PRIMS {
        if types.push(box_type(alloc, *prim, out)).is_err() {
            out.refuse("memory");
        }
    }
    types
}

/// Writes which primitive types and boxes a type fits, strictly and then loosely.
pub fn put_fits(alloc: Global, world: &ListWorld, case: &str, out: &mut Answer) {
    let from = type_in(alloc, case, out);
    let types = prims_and_boxes(alloc, out);
    out.put("strictly");
    for to in &types {
        put_if(fits_strictly(alloc, &from, to, world), to, out);
    }
    out.put("; loosely");
    for to in &types {
        put_if(fits_loosely(alloc, &from, to, world), to, out);
    }
}

/// Writes what a type promotes to with each primitive type.
pub fn put_promotions(alloc: Global, case: &str, out: &mut Answer) {
    let from = type_in(alloc, case, out);
    for (at, prim) in PRIMS.iter().enumerate() {
        out.put_between(at, ", ");
        out.put(prim_name(*prim));
        out.put(": ");
        put_type(&promote(&from, &JType::Prim(*prim)), out);
    }
}

/// Writes the primitive type that a type unboxes to, and the class that boxes it.
pub fn put_boxes(alloc: Global, case: &str, out: &mut Answer) {
    match unbox(&type_in(alloc, case, out)) {
        Some(prim) => {
            out.put(prim_name(prim));
            out.put(", boxed by ");
            put_type(&box_type(alloc, prim, out), out);
        }
        None => out.put("none"),
    }
}
