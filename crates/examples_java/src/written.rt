// What declared types consist of, as it is written: types, type parameters, fields and methods.
use declared_types::{Base, NamePart, Written, WrittenField, WrittenMethod, WrittenParam};
use examples_base::Answer;
use jtypes::{JPrim, Name};

/// Writes a name.
pub fn put_name(name: &Name, out: &mut Answer) {
    out.put_escaped(name.as_slice());
}

// The word of a primitive type.
fn prim_word(prim: JPrim) -> &'static str {
    match prim {
        JPrim::Boolean => "boolean",
        JPrim::Byte => "byte",
        JPrim::Short => "short",
        JPrim::Char => "char",
        JPrim::Int => "int",
        JPrim::Long => "long",
        JPrim::Float => "float",
        JPrim::Double => "double",
    }
}

// Writes a name in parts.
fn put_parts(first: &NamePart, behind: &[NamePart], out: &mut Answer) {
    put_name(&first.name, out);
    for part in behind {
        out.put(".");
        put_name(&part.name, out);
    }
}

// Writes what stands for a type.
fn put_base(base: &Base, out: &mut Answer) {
    match base {
        Base::Prim(prim) => out.put(prim_word(*prim)),
        Base::Named(first, behind) => put_parts(first, behind.as_slice(), out),
        Base::Itself => out.put("itself"),
        Base::Void => out.put("void"),
    }
}

/// Writes a type with its dimensions.
pub fn put_type(ty: &Written, out: &mut Answer) {
    put_base(&ty.base, out);
    for _ in 0..ty.dims {
        out.put("[]");
    }
}

/// Writes types in a row.
pub fn put_types(types: &[Written], out: &mut Answer) {
    for (at, ty) in types.iter().enumerate() {
        out.put_between(at, ", ");
        put_type(ty, out);
    }
}

// Writes a type parameter with its first bound.
fn put_param(param: &WrittenParam, out: &mut Answer) {
    put_name(&param.name, out);
    if let Some(bound) = &param.bound {
        out.put(" extends ");
        put_type(bound, out);
    }
}

/// Writes type parameters in their brackets, and nothing where there are none.
pub fn put_params(params: &[WrittenParam], out: &mut Answer) {
    if params.is_empty() {
        return;
    }
    out.put("<");
    for (at, param) in params.iter().enumerate() {
        out.put_between(at, ", ");
        put_param(param, out);
    }
    out.put(">");
}

// Writes the modifiers that count.
fn put_modifiers(is_private: bool, is_static: bool, out: &mut Answer) {
    out.put(if is_private { "private " } else { "" });
    out.put(if is_static { "static " } else { "" });
}

/// Writes a field or an enum constant.
pub fn put_field(field: &WrittenField, out: &mut Answer) {
    put_modifiers(field.is_private, field.is_static, out);
    put_type(&field.ty, out);
    out.put(" ");
    put_name(&field.name, out);
}

/// Writes a method or a constructor.
pub fn put_method(method: &WrittenMethod, out: &mut Answer) {
    put_modifiers(method.is_private, method.is_static, out);
    put_params(method.type_params.as_slice(), out);
    out.put(if method.type_params.len() > 0 {
        " "
    } else {
        ""
    });
    put_type(&method.result, out);
    out.put(" ");
    put_name(&method.name, out);
    out.put("(");
    put_types(method.params.as_slice(), out);
    out.put(if method.varargs { ") varargs" } else { ")" });
}
