// Copies of types and of what a world declares, and names that are kept once.
use crate::types::{name_in, put_name, put_type, put_types, two_names, type_in};
use examples_base::Answer;
use jtypes::{Classes, FieldSig, Header, ListWorld, MethodSig, Name, Names};
use std::alloc::Global;

// Writes whether a copy is the same.
fn put_same(same: bool, out: &mut Answer) {
    out.put(", the same ");
    out.put_bool(same);
}

/// Writes a copy of a type, and whether it is the same one.
pub fn put_copy(alloc: Global, case: &str, out: &mut Answer) {
    let ty = type_in(alloc, case, out);
    match ty.copy() {
        Ok(copy) => {
            put_type(&copy, out);
            put_same(copy.is(&ty), out);
        }
        Err(_) => out.refuse("memory"),
    }
}

// Writes names, with a blank before each.
fn put_names(names: &[Name], out: &mut Answer) {
    for name in names {
        out.put(" ");
        put_name(name, out);
    }
}

// Writes a copy of a class, and whether it is the same.
fn put_class(header: &Header, out: &mut Answer) {
    match header.copy() {
        Ok(copy) => {
            out.put_debug(&copy.kind);
            put_names(copy.supertypes.as_slice(), out);
            put_same(copy.is(header), out);
        }
        Err(_) => out.refuse("memory"),
    }
}

// Writes a copy of a field, and whether it is the same.
fn put_field(field: &FieldSig, out: &mut Answer) {
    match field.copy() {
        Ok(copy) => {
            put_type(&copy.ty, out);
            put_same(copy.is(field), out);
        }
        Err(_) => out.refuse("memory"),
    }
}

// Writes a copy of a method, and whether it is the same, and the same as the first of all.
fn put_method(method: &MethodSig, first: &MethodSig, out: &mut Answer) {
    match method.copy() {
        Ok(copy) => {
            out.put("(");
            put_types(copy.params.as_slice(), out);
            out.put(")");
            put_same(copy.is(method), out);
            out.put(", as the first ");
            out.put_bool(copy.is(first));
        }
        Err(_) => out.refuse("memory"),
    }
}

// Writes copies of methods.
fn put_methods(methods: &[MethodSig], out: &mut Answer) {
    let Some(first) = methods.first() else {
        out.put("none");
        return;
    };
    for (at, method) in methods.iter().enumerate() {
        out.put_between(at, "; ");
        put_method(method, first, out);
    }
}

// Writes a copy of the class of a name.
fn put_named_class(alloc: Global, world: &ListWorld, name: &str, out: &mut Answer) {
    if let Some(name) = name_in(alloc, name, out) {
        match world.class(&name) {
            Some(header) => put_class(header, out),
            None => out.refuse("class"),
        }
    }
}

// Writes a copy of the field of an owner with a name, or of its methods.
fn put_members(world: &ListWorld, names: &(Name, Name), is_field: bool, out: &mut Answer) {
    let (owner, name) = names;
    if !is_field {
        put_methods(world.methods(owner, name), out);
        return;
    }
    match world.field(owner, name) {
        Some(field) => put_field(field, out),
        None => out.refuse("field"),
    }
}

/// Writes a copy of what a case names, and whether it is the same.
pub fn put_copies(alloc: Global, world: &ListWorld, case: &str, out: &mut Answer) {
    let (kind, words) = case.split_once(' ').unwrap_or((case, ""));
    if kind == "class" {
        put_named_class(alloc, world, words, out);
        return;
    }
    let (owner, name) = words.split_once(' ').unwrap_or((words, ""));
    if let Some(names) = two_names(alloc, owner, name, out) {
        put_members(world, &names, kind == "field", out);
    }
}

/// Writes the names of a case, each kept once.
pub fn put_kept(alloc: Global, case: &str, out: &mut Answer) {
    let mut names = Names::new(alloc);
    let mut kept = Vec::new(alloc);
    for word in case.split_whitespace() {
        match names.name(alloc, word.as_bytes()) {
            Ok(name) => {
                if kept.push(name).is_err() {
                    out.refuse("memory");
                }
            }
            Err(_) => out.refuse("memory"),
        }
    }
    out.put_number(kept.len());
    out.put(":");
    put_names(&kept, out);
}
