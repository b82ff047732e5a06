// Types and names, as people write them. A type is `int`, `p.A`, `int[]`, `null`, `void` or `?`.
use examples_base::Answer;
use jtypes::{JPrim, JType, Name};
use rw_base::Shared;
use std::alloc::Global;

// The primitive types.
const PRIMS: [JPrim; 8] = [
    JPrim::Boolean,
    JPrim::Byte,
    JPrim::Short,
    JPrim::Char,
    JPrim::Int,
    JPrim::Long,
    JPrim::Float,
    JPrim::Double,
];

// The name of a primitive type.
fn prim_name(prim: JPrim) -> &'static str {
    match prim {
        JPrim::Boolean => "boolean",
        JPrim::Byte => "byte",
        JPrim::Short => "short",
        JPrim::Char => "char",
        JPrim::Int => "int",
        JPrim::Long => "long",
        JPrim::Float => "float",
        JPrim::Double => "double",
    }
}

// The primitive type of a name.
fn prim_of(name: &str) -> Option<JPrim> {
    for prim in &PRIMS {
        if prim_name(*prim) == name {
            return Some(*prim);
        }
    }
    None
}

/// The first word of a text, and what stands behind it.
pub fn first_word(text: &str) -> (&str, &str) {
    text.split_once(' ').unwrap_or((text, ""))
}

/// The name of a word.
pub fn name_in(alloc: Global, word: &str, out: &mut Answer) -> Option<Name> {
    match Name::new(alloc, word.as_bytes()) {
        Ok(name) => Some(name),
        Err(_) => {
            out.refuse("memory");
            None
        }
    }
}

/// Two names, those of an owner and of what it owns.
pub fn two_names(alloc: Global, owner: &str, name: &str, out: &mut Answer) -> Option<(Name, Name)> {
    let owner = name_in(alloc, owner, out)?;
    let name = name_in(alloc, name, out)?;
    Some((owner, name))
}

/// The names of a text.
pub fn names_in(alloc: Global, text: &str, out: &mut Answer) -> Vec<Name> {
    let mut names = Vec::new(alloc);
    for word in text.split_whitespace() {
        if let Some(name) = name_in(alloc, word, out) {
            if names.push(name).is_err() {
                out.refuse("memory");
            }
        }
    }
    names
}

// The type of a word that is no array.
fn plain_type(alloc: Global, word: &str, out: &mut Answer) -> JType {
    if let Some(prim) = prim_of(word) {
        return JType::Prim(prim);
    }
    match word {
        "null" => JType::Null,
        "void" => JType::Void,
        "?" => JType::Unknown,
        _ => match name_in(alloc, word, out) {
            Some(name) => JType::Class(name),
            None => JType::Unknown,
        },
    }
}

// The array of a type.
fn array_of(alloc: Global, element: JType, out: &mut Answer) -> JType {
    match Shared::new(alloc, element) {
        Ok(element) => JType::Array(element),
        Err(_) => {
            out.refuse("memory");
            JType::Unknown
        }
    }
}

/// The type of a word, with one dimension at most.
pub fn type_in(alloc: Global, word: &str, out: &mut Answer) -> JType {
    match word.strip_suffix("[]") {
        Some(element) => {
            let element = plain_type(alloc, element, out);
            array_of(alloc, element, out)
        }
        None => plain_type(alloc, word, out),
    }
}

/// Writes a name.
pub fn put_name(name: &Name, out: &mut Answer) {
    out.put_escaped(name.as_slice());
}

/// Writes a type.
pub fn put_type(ty: &JType, out: &mut Answer) {
    match ty {
        JType::Prim(prim) => out.put(prim_name(*prim)),
        JType::Class(name) => put_name(name, out),
        JType::Array(element) => {
            put_type(element.get(), out);
            out.put("[]");
        }
        JType::Null => out.put("null"),
        JType::Void => out.put("void"),
        JType::Unknown => out.put("?"),
    }
}
