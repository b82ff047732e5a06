// Types and names, as people write them. What isn't known is `?`.
use examples_base::Answer;
use jtypes::{JPrim, JType, Name};
use std::alloc::Global;

// The word of a primitive type.
fn prim_word(prim: JPrim) -> &'static str {
    match prim {
        JPrim::Boolean => "boolean",
        JPrim::Byte => "byte",
        JPrim::Short => "short",
        JPrim::Char => "char",
        JPrim::Int => "int",
        JPrim::Long => "long",
        JPrim::Float => "float",
        JPrim::Double => "double",
    }
}

/// The name of a word.
pub fn name_in(alloc: Global, word: &str, out: &mut Answer) -> Option<Name> {
    match Name::new(alloc, word.as_bytes()) {
        Ok(name) => Some(name),
        Err(_) => {
            out.refuse("memory");
            None
        }
    }
}

/// Writes a name.
pub fn put_name(name: &Name, out: &mut Answer) {
    out.put_escaped(name.as_slice());
}

/// Writes a type.
pub fn put_type(ty: &JType, out: &mut Answer) {
    match ty {
        JType::Prim(prim) => out.put(prim_word(*prim)),
        JType::Class(name) => put_name(name, out),
        JType::Array(element) => {
            put_type(element.get(), out);
            out.put("[]");
        }
        JType::Null => out.put("null"),
        JType::Void => out.put("void"),
        JType::Unknown => out.put("?"),
    }
}

/// Writes types in a row.
pub fn put_types(types: &[JType], out: &mut Answer) {
    for (at, ty) in types.iter().enumerate() {
        out.put_between(at, ", ");
        put_type(ty, out);
    }
}
