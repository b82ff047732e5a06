// Large worlds, many questions and many candidates. A case is the name of a call and a number.
use crate::choices::arguments;
use crate::types::{name_in, put_type, two_names, type_in};
use crate::world::world_in;
use examples_base::{Answer, add_times, number_in, repeated};
use j_overload::choose;
use jtypes::{Ask, Asks, Classes, ListWorld, ask_class, is_subtype};
use std::alloc::Global;

// A text with a number in it.
fn numbered(alloc: Global, front: &str, number: u32, behind: &str, out: &mut Answer) -> String {
    match format!(in alloc; "{front}{number}{behind}") {
        Ok(text) => text,
        Err(_) => {
            out.refuse("memory");
            String::new(alloc)
        }
    }
}

// The world of so many lines, which differ by their numbers.
fn world_of(
    alloc: Global,
    front: &str,
    count: u32,
    behind: &str,
    out: &mut Answer,
) -> Option<ListWorld> {
    let mut lines = Vec::new(alloc);
    for k in 0..count {
        if lines.push(numbered(alloc, front, k, behind, out)).is_err() {
            out.refuse("memory");
        }
    }
    world_in(alloc, &lines, out)
}

// Asks for the class of a number.
fn ask(alloc: Global, world: &ListWorld, number: u32, asks: &mut Asks, out: &mut Answer) {
    let name = numbered(alloc, "p.N", number, "", out);
    if let Some(name) = name_in(alloc, name.as_str(), out) {
        if ask_class(&name, world, asks).is_err() {
            out.refuse("memory");
        }
    }
}

// Whether each question is below the next.
fn rise(asks: &[Ask]) -> bool {
    for (at, ask) in asks.iter().enumerate() {
        match asks.get(at.saturating_add(1)) {
            Some(next) => {
                if ask >= next {
                    return false;
                }
            }
            None => {}
        }
    }
    true
}

// Writes how many questions a set has, and whether they rise.
fn put_set(alloc: Global, asks: Asks, out: &mut Answer) {
    match asks.into_items(alloc) {
        Ok(asks) => {
            out.put_number(asks.len());
            out.put(" questions, rising ");
            out.put_bool(rise(asks.as_slice()));
        }
        Err(_) => out.refuse("memory"),
    }
}

// Writes how many questions are kept of so many, each put twice, and whether they rise.
fn put_questions(alloc: Global, count: u32, out: &mut Answer) {
    let Some(world) = world_in(alloc, &[], out) else {
        return;
    };
    let mut asks = Asks::new(alloc);
    for k in 0..count.saturating_mul(2) {
        ask(
            alloc,
            &world,
            k.wrapping_mul(7919) % count.max(1),
            &mut asks,
            out,
        );
    }
    put_set(alloc, asks, out);
}

// Writes whether the last of so many classes has its superclass.
fn put_classes(alloc: Global, count: u32, out: &mut Answer) {
    let Some(world) = world_of(alloc, "class p.N", count, " p.Top", out) else {
        return;
    };
    let last = numbered(alloc, "p.N", count.saturating_sub(1), "", out);
    let from = type_in(alloc, last.as_str(), out);
    let to = type_in(alloc, "p.Top", out);
    out.put("subtype ");
    match is_subtype(alloc, &from, &to, &world) {
        Ok(subtype) => out.put_bool(subtype),
        Err(_) => out.refuse("memory"),
    }
}

// The world of so many methods of one name.
fn methods_world(alloc: Global, count: u32, out: &mut Answer) -> Option<ListWorld> {
    world_of(alloc, "method p.A f p.N", count, " int", out)
}

// Writes how many methods of one name a class has.
fn put_methods(alloc: Global, count: u32, out: &mut Answer) {
    if let Some(world) = methods_world(alloc, count, out) {
        if let Some((owner, name)) = two_names(alloc, "p.A", "f", out) {
            out.put_number(world.methods(&owner, &name).len());
            out.put(" methods");
        }
    }
}

// Writes which method of a world a call means.
fn put_chosen(alloc: Global, world: &ListWorld, call: &str, out: &mut Answer) {
    let Some((owner, name)) = two_names(alloc, "p.A", "f", out) else {
        return;
    };
    let args = arguments(alloc, call, out);
    match choose(alloc, world.methods(&owner, &name), &args, world) {
        Ok(choice) => out.put_debug(&choice),
        Err(_) => out.refuse("memory"),
    }
}

// Writes which of so many methods a call means: they are equal but for the first type of one, which alone fits.
fn put_choice(alloc: Global, count: u32, out: &mut Answer) {
    if let Some(world) = methods_world(alloc, count, out) {
        let call = numbered(alloc, "p.N", count.saturating_sub(1), " int", out);
        put_chosen(alloc, &world, call.as_str(), out);
    }
}

// Writes whether the copy of a type with so many dimensions is the same.
fn put_copy(alloc: Global, count: u32, out: &mut Answer) {
    let mut word = repeated(alloc, b"int", 1, out);
    add_times(&mut word, b"[]", count, out);
    let ty = type_in(alloc, std::str::from_utf8(&word).unwrap_or(""), out);
    match ty.copy() {
        Ok(copy) => {
            let mut text = Answer::new(alloc);
            put_type(&copy, &mut text);
            out.put_number(text.len());
            out.put(" bytes, the same ");
            out.put_bool(copy.is(&ty));
        }
        Err(_) => out.refuse("memory"),
    }
}

/// Writes the answer of a case.
pub fn put_answer(alloc: Global, case: &str, out: &mut Answer) {
    let Some((call, count)) = case.split_once(' ') else {
        out.refuse("number behind a call");
        return;
    };
    let count = number_in(count, out);
    match call {
        "questions" => put_questions(alloc, count, out),
        "classes" => put_classes(alloc, count, out),
        "methods" => put_methods(alloc, count, out),
        "choose" => put_choice(alloc, count, out),
        "copy" => put_copy(alloc, count, out),
        _ => out.refuse("large call"),
    }
}
