// Worlds of classes, as people write them. Their lines are `class NAME SUPERTYPES..`, the same with `interface`, `enum`
// and `annotation`, `row COUNT` for classes `p.N0`, `p.N1` and so on, each of which extends the next, `field OWNER NAME
// TYPE` and `method OWNER NAME TYPES..`. A field or a method is static where `static` stands before its word, and `...`
// behind a last type is variable arity.
use crate::types::{name_in, two_names, type_in};
use examples_base::{Answer, number_in};
use jtypes::{ClassKind, FieldSig, Header, JType, ListWorld, MethodSig, Name, SharedList};
use std::alloc::Global;

// What the lines of a world declare.
#[derive(Drop)]
struct Lists {
    headers: Vec<Header>,
    fields: Vec<FieldSig>,
    methods: Vec<MethodSig>,
}

// The first word of a text, and what stands behind it.
fn first_word(text: &str) -> (&str, &str) {
    text.split_once(' ').unwrap_or((text, ""))
}

// The names of a text.
fn names_in(alloc: Global, text: &str, out: &mut Answer) -> Vec<Name> {
    let mut names = Vec::new(alloc);
    for word in text.split_whitespace() {
        if let Some(name) = name_in(alloc, word, out) {
            if names.push(name).is_err() {
                out.refuse("memory");
            }
        }
    }
    names
}

// The types of a text.
fn types_in(alloc: Global, text: &str, out: &mut Answer) -> Vec<JType> {
    let mut types = Vec::new(alloc);
    for word in text.split_whitespace() {
        if types.push(type_in(alloc, word, out)).is_err() {
            out.refuse("memory");
        }
    }
    types
}

// A class of a kind, with a name and supertypes.
fn header(alloc: Global, kind: ClassKind, name: Name, supertypes: Vec<Name>) -> Option<Header> {
    let top = name.copy().ok()?;
    let supertypes = SharedList::new(alloc, supertypes).ok()?;
    Some(Header {
        name,
        kind,
        supertypes,
        top,
        is_private: false,
    })
}

// A method: its owner, its name and the types of its parameters.
fn method(alloc: Global, text: &str, is_static: bool, out: &mut Answer) -> Option<MethodSig> {
    let (owner, behind) = first_word(text);
    let (name, types) = first_word(behind);
    let params = SharedList::new(alloc, types_in(alloc, types, out)).ok()?;
    let (owner, name) = two_names(alloc, owner, name, out)?;
    Some(MethodSig {
        owner,
        name,
        params,
        result: JType::Void,
        varargs: types.ends_with("..."),
        is_static,
        is_private: false,
    })
}

impl Lists {
    // Adds a class.
    fn push_header(&mut self, header: Option<Header>, out: &mut Answer) {
        let Some(header) = header else {
            out.refuse("memory");
            return;
        };
        if self.headers.push(header).is_err() {
            out.refuse("memory");
        }
    }

    // Adds a class of a kind: its name and those of its supertypes.
    fn push_class(&mut self, alloc: Global, kind: ClassKind, text: &str, out: &mut Answer) {
        let (name, behind) = first_word(text);
        if let Some(name) = name_in(alloc, name, out) {
            let supertypes = names_in(alloc, behind, out);
            self.push_header(header(alloc, kind, name, supertypes), out);
        }
    }

    // Adds a row of classes, each of which extends the next.
    fn push_row(&mut self, alloc: Global, count: u32, out: &mut Answer) {
        for at in 0..count {
            let next = at.saturating_add(1);
            match format!(in alloc; "p.N{at} p.N{next}") {
                Ok(text) => self.push_class(alloc, ClassKind::Class, text.as_str(), out),
                Err(_) => out.refuse("memory"),
            }
        }
    }

    // Adds a field: its owner, its name and its type.
    fn push_field(&mut self, alloc: Global, text: &str, is_static: bool, out: &mut Answer) {
        let (owner, behind) = first_word(text);
        let (name, ty) = first_word(behind);
        let Some((owner, name)) = two_names(alloc, owner, name, out) else {
            return;
        };
        let field = FieldSig {
            owner,
            name,
            ty: type_in(alloc, ty, out),
            is_static,
            is_private: false,
        };
        if self.fields.push(field).is_err() {
            out.refuse("memory");
        }
    }

    // Adds a method: its owner, its name and the types of its parameters.
    fn push_method(&mut self, alloc: Global, text: &str, is_static: bool, out: &mut Answer) {
        match method(alloc, text, is_static, out) {
            Some(method) => {
                if self.methods.push(method).is_err() {
                    out.refuse("memory");
                }
            }
            None => out.refuse("method"),
        }
    }

    // Adds what a line declares.
    fn push_line(&mut self, alloc: Global, line: &str, out: &mut Answer) {
        let declared = line.strip_prefix("static ").unwrap_or(line);
        let is_static = declared.len() < line.len();
        let (first, behind) = first_word(declared);
        match first {
            "class" => self.push_class(alloc, ClassKind::Class, behind, out),
            "interface" => self.push_class(alloc, ClassKind::Interface, behind, out),
            "enum" => self.push_class(alloc, ClassKind::Enum, behind, out),
            "annotation" => self.push_class(alloc, ClassKind::Annotation, behind, out),
            "row" => self.push_row(alloc, number_in(behind, out), out),
            "field" => self.push_field(alloc, behind, is_static, out),
            "method" => self.push_method(alloc, behind, is_static, out),
            _ => out.refuse("kind of declaration"),
        }
    }
}

/// The world of these lines.
pub fn world_in(alloc: Global, lines: &[String], out: &mut Answer) -> Option<ListWorld> {
    let mut lists = Lists {
        headers: Vec::new(alloc),
        fields: Vec::new(alloc),
        methods: Vec::new(alloc),
    };
    for line in lines {
        lists.push_line(alloc, line.as_str(), out);
    }
    let Lists {
        headers,
        fields,
        methods,
    } = lists;
    match ListWorld::new(alloc, headers, fields, methods) {
        Ok(world) => Some(world),
        Err(_) => {
            out.refuse("memory");
            None
        }
    }
}
