// What a world answers: classes, fields and methods.
use crate::types::{name_in, put_name, put_type, put_types};
use class_world::World;
use examples_base::{Answer, Words, words_of};
use jtypes::{ClassKind, Classes, FieldSig, Header, JType, MethodSig, Name, is_subtype};
use std::alloc::Global;

// ---- classes

// The words of a kind.
fn kind_words(kind: ClassKind) -> &'static str {
    match kind {
        ClassKind::Class => "class",
        ClassKind::Interface => "interface",
        ClassKind::Enum => "enum",
        ClassKind::Annotation => "@interface",
    }
}

// Writes the supertypes of a class in their order.
fn put_supertypes(supertypes: &[Name], out: &mut Answer) {
    for (at, name) in supertypes.iter().enumerate() {
        out.put(if at == 0 { " over " } else { ", " });
        put_name(name, out);
    }
}

// Writes a header that is asked for by a name, with the top-level class where it is another.
fn put_header(header: &Header, out: &mut Answer) {
    out.put(if header.is_private { "private " } else { "" });
    out.put(kind_words(header.kind));
    if !header.top.is(&header.name) {
        out.put(" in ");
        put_name(&header.top, out);
    }
    put_supertypes(header.supertypes.as_slice(), out);
}

fn put_class(world: &World, name: &Name, out: &mut Answer) {
    match world.class(name) {
        Some(header) => put_header(header, out),
        None => out.put("none"),
    }
}

// ---- members

fn put_marks(is_private: bool, is_static: bool, out: &mut Answer) {
    out.put(if is_private { "private " } else { "" });
    out.put(if is_static { "static " } else { "" });
}

fn put_field(field: Option<&FieldSig>, out: &mut Answer) {
    match field {
        Some(field) => {
            put_marks(field.is_private, field.is_static, out);
            put_type(&field.ty, out);
        }
        None => out.put("none"),
    }
}

fn put_method(method: &MethodSig, out: &mut Answer) {
    put_marks(method.is_private, method.is_static, out);
    out.put("(");
    put_types(method.params.as_slice(), out);
    out.put(if method.varargs { " ..) " } else { ") " });
    put_type(&method.result, out);
}

fn put_methods(methods: &[MethodSig], out: &mut Answer) {
    if methods.is_empty() {
        out.put("none");
    }
    for (at, method) in methods.iter().enumerate() {
        out.put_between(at, " | ");
        put_method(method, out);
    }
}

// ---- cases

// The name at a place among words.
fn name_at(alloc: Global, words: &Words, at: usize, out: &mut Answer) -> Option<Name> {
    name_in(alloc, words.plain(at, out), out)
}

// Writes whether a class is a subtype of another.
fn put_subtype(alloc: Global, world: &World, from: Name, to: Name, out: &mut Answer) {
    match is_subtype(alloc, &JType::Class(from), &JType::Class(to), world) {
        Ok(holds) => out.put_bool(holds),
        Err(_) => out.refuse("memory"),
    }
}

// Writes what a world answers to two names.
fn put_two(alloc: Global, world: &World, word: &str, owner: Name, name: Name, out: &mut Answer) {
    match word {
        "field" => put_field(world.field(&owner, &name), out),
        "methods" => put_methods(world.methods(&owner, &name), out),
        "subtype" => put_subtype(alloc, world, owner, name, out),
        _ => out.refuse("case"),
    }
}

/// Writes what a world answers to a case: `class NAME`, `field OWNER NAME`, `methods OWNER NAME`, `subtype NAME NAME`.
pub fn put_look(alloc: Global, world: &World, case: &str, out: &mut Answer) {
    let words = words_of(alloc, case, out);
    let Some(first) = name_at(alloc, &words, 1, out) else {
        return;
    };
    if words.plain(0, out) == "class" {
        put_class(world, &first, out);
        return;
    }
    if let Some(second) = name_at(alloc, &words, 2, out) {
        put_two(alloc, world, words.plain(0, out), first, second, out);
    }
}
