// Questions to a world of classes, and the set of them.
use crate::types::{name_in, put_name, put_type, two_names};
use examples_base::Answer;
use jtypes::{Ask, Asks, ListWorld, Name, ask_class, ask_field, ask_methods};
use std::alloc::Global;

// Writes what a world answers that is asked for a class.
fn put_class(world: &ListWorld, name: &Name, asks: &mut Asks, out: &mut Answer) {
    match ask_class(name, world, asks) {
        Ok(Some(header)) => out.put_debug(&header.kind),
        Ok(None) => out.put("no class"),
        Err(_) => out.refuse("memory"),
    }
    out.put(", ");
}

// Writes what a world answers that is asked for a field.
fn put_field(world: &ListWorld, names: &(Name, Name), asks: &mut Asks, out: &mut Answer) {
    let (owner, name) = names;
    match ask_field(owner, name, world, asks) {
        Ok(Some(field)) => {
            out.put(if field.is_static { "static " } else { "" });
            put_type(&field.ty, out);
        }
        Ok(None) => out.put("no field"),
        Err(_) => out.refuse("memory"),
    }
    out.put(", ");
}

// Writes how many methods a world answers that is asked for those of a name.
fn put_methods(world: &ListWorld, names: &(Name, Name), asks: &mut Asks, out: &mut Answer) {
    let (owner, name) = names;
    match ask_methods(owner, name, world, asks) {
        Ok(methods) => out.put_number(methods.len()),
        Err(_) => out.refuse("memory"),
    }
    out.put(" methods, ");
}

// Writes what a world answers to a question.
fn put_look(alloc: Global, world: &ListWorld, look: &str, asks: &mut Asks, out: &mut Answer) {
    let (kind, words) = look.split_once(' ').unwrap_or((look, ""));
    if kind == "class" {
        if let Some(name) = name_in(alloc, words, out) {
            put_class(world, &name, asks, out);
        }
        return;
    }
    let (owner, name) = words.split_once(' ').unwrap_or((words, ""));
    if let Some(names) = two_names(alloc, owner, name, out) {
        match kind {
            "field" => put_field(world, &names, asks, out),
            "methods" => put_methods(world, &names, asks, out),
            _ => out.refuse("question"),
        }
    }
}

// Writes the names of an owner and of what it owns.
fn put_two_names(owner: &Name, name: &Name, out: &mut Answer) {
    put_name(owner, out);
    out.put(" ");
    put_name(name, out);
}

// Writes a question.
fn put_ask(ask: &Ask, out: &mut Answer) {
    match ask {
        Ask::Class(name) => {
            out.put("class ");
            put_name(name, out);
        }
        Ask::Field(owner, name) => {
            out.put("field ");
            put_two_names(owner, name, out);
        }
        Ask::Methods(owner, name) => {
            out.put("methods ");
            put_two_names(owner, name, out);
        }
    }
}

// Writes questions between braces.
fn put_all(asks: &[Ask], out: &mut Answer) {
    out.put("{");
    for (at, ask) in asks.iter().enumerate() {
        out.put_between(at, ", ");
        put_ask(ask, out);
    }
    out.put("}");
}

/// Writes the questions of a set.
pub fn put_asks(alloc: Global, asks: Asks, out: &mut Answer) {
    match asks.into_items(alloc) {
        Ok(asks) => put_all(asks.as_slice(), out),
        Err(_) => out.refuse("memory"),
    }
}

/// Writes what a world answers to the questions of a case, between which `;` stands, and the set of them.
pub fn put_answers(alloc: Global, world: &ListWorld, case: &str, out: &mut Answer) {
    let mut asks = Asks::new(alloc);
    for look in case.split(';') {
        put_look(alloc, world, look.trim(), &mut asks, out);
    }
    put_asks(alloc, asks, out);
}
