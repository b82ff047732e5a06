// Worlds of classes, as people write them. Their lines are `class NAME SUPERTYPES..`, the same with `interface`, `enum`
// and `annotation`; `row COUNT` for classes `p.N0`, `p.N1` and so on, each of which extends the next; `wide COUNT` for
// a class `p.Wide` with all of these as supertypes; `field OWNER NAME TYPE`, `method OWNER NAME(TYPES,..) TYPE` and
// `constructor OWNER(TYPES,..)`. In front of them stand `private` and `static`. Packages are written in small letters:
// the top-level class around `p.A.B` is `p.A`.
use crate::types::{first_word, name_in, names_in, two_names, type_in};
use examples_base::{Answer, number_in};
use jtypes::{ClassKind, FieldSig, Header, JType, ListWorld, MethodSig, Name, SharedList};
use std::alloc::Global;

/// What the lines of a world declare.
#[derive(Drop)]
pub struct Lists {
    headers: Vec<Header>,
    fields: Vec<FieldSig>,
    methods: Vec<MethodSig>,
}

// What stands in front of a declaration.
#[derive(Clone, Copy)]
struct Marks {
    is_private: bool,
    is_static: bool,
}

// A line without a word that may stand in front, and whether it does.
fn without<'l>(line: &'l str, word: &str) -> (bool, &'l str) {
    let behind = line.strip_prefix(word).unwrap_or(line);
    (behind.len() < line.len(), behind)
}

// Whether a part of a name is that of a class.
fn is_class_part(part: &str) -> bool {
    matches!(part.as_bytes().first(), Some(b'A'..=b'Z'))
}

// The name of the top-level class around a class.
fn top_of<'n>(name: &'n str) -> &'n [u8] {
    let text = name.as_bytes();
    let mut end = 0usize;
    for part in name.split('.') {
        end = end.saturating_add(part.len());
        if is_class_part(part) {
            break;
        }
        end = end.saturating_add(1);
    }
    text.get(..end).unwrap_or(text)
}

// The types of a text, between which `,` stands.
fn types_in(alloc: Global, text: &str, out: &mut Answer) -> Vec<JType> {
    let mut types = Vec::new(alloc);
    for word in text.split(',') {
        if word.is_empty() {
            continue;
        }
        if types.push(type_in(alloc, word, out)).is_err() {
            out.refuse("memory");
        }
    }
    types
}

// A class: its name and those of its supertypes.
fn header(
    alloc: Global,
    kind: ClassKind,
    text: &str,
    marks: Marks,
    out: &mut Answer,
) -> Option<Header> {
    let (word, behind) = first_word(text);
    let name = name_in(alloc, word, out)?;
    let top = Name::new(alloc, top_of(word)).ok()?;
    let supertypes = SharedList::new(alloc, names_in(alloc, behind, out)).ok()?;
    Some(Header {
        name,
        kind,
        supertypes,
        top,
        is_private: marks.is_private,
    })
}

// A field: its owner, its name and its type.
fn field(alloc: Global, text: &str, marks: Marks, out: &mut Answer) -> Option<FieldSig> {
    let (owner, behind) = first_word(text);
    let (name, ty) = first_word(behind);
    let (owner, name) = two_names(alloc, owner, name, out)?;
    Some(FieldSig {
        owner,
        name,
        ty: type_in(alloc, ty, out),
        is_static: marks.is_static,
        is_private: marks.is_private,
    })
}

// A method of an owner and a name: its parameters up to `)`, and its result.
fn signature(
    alloc: Global,
    names: (&str, &str),
    text: &str,
    marks: Marks,
    out: &mut Answer,
) -> Option<MethodSig> {
    let (params, result) = text.split_once(')')?;
    let params = SharedList::new(alloc, types_in(alloc, params, out)).ok()?;
    let (owner, name) = two_names(alloc, names.0, names.1, out)?;
    Some(MethodSig {
        owner,
        name,
        params,
        result: type_in(alloc, result.trim(), out),
        varargs: false,
        is_static: marks.is_static,
        is_private: marks.is_private,
    })
}

// A method: its owner, its name, its parameters in parentheses and its result.
fn method(alloc: Global, text: &str, marks: Marks, out: &mut Answer) -> Option<MethodSig> {
    let (owner, behind) = first_word(text);
    let (name, behind) = behind.split_once('(')?;
    signature(alloc, (owner, name), behind, marks, out)
}

// A constructor: its owner, and its parameters in parentheses.
fn constructor(alloc: Global, text: &str, marks: Marks, out: &mut Answer) -> Option<MethodSig> {
    let (owner, behind) = text.split_once('(')?;
    let made = signature(alloc, (owner, "<constructor>"), behind, marks, out)?;
    Some(MethodSig {
        result: JType::Void,
        ..made
    })
}

// Adds an item to a list.
fn push<T: Drop>(items: &mut Vec<T>, item: Option<T>, out: &mut Answer) {
    let Some(item) = item else {
        out.refuse("declaration");
        return;
    };
    if items.push(item).is_err() {
        out.refuse("memory");
    }
}

impl Lists {
    /// No declarations.
    pub fn new(alloc: Global) -> Lists {
        Lists {
            headers: Vec::new(alloc),
            fields: Vec::new(alloc),
            methods: Vec::new(alloc),
        }
    }

    // Adds a class of a kind.
    fn push_class(
        &mut self,
        alloc: Global,
        kind: ClassKind,
        text: &str,
        marks: Marks,
        out: &mut Answer,
    ) {
        push(
            &mut self.headers,
            header(alloc, kind, text, marks, out),
            out,
        );
    }

    // Adds a row of classes, each of which extends the next.
    fn push_row(&mut self, alloc: Global, count: u32, marks: Marks, out: &mut Answer) {
        for at in 0..count {
            let next = at.saturating_add(1);
            match format!(in alloc; "p.N{at} p.N{next}") {
                Ok(text) => self.push_class(alloc, ClassKind::Class, text.as_str(), marks, out),
                Err(_) => out.refuse("memory"),
            }
        }
    }

    // Adds a class with so many supertypes.
    fn push_wide(&mut self, alloc: Global, count: u32, marks: Marks, out: &mut Answer) {
        let mut text = String::new(alloc);
        if text.push_str("p.Wide").is_err() {
            out.refuse("memory");
        }
        for at in 0..count {
            if write!(text, " p.N{at}").is_err() {
                out.refuse("memory");
            }
        }
        self.push_class(alloc, ClassKind::Class, text.as_str(), marks, out);
    }

    // Adds what a line declares behind its marks.
    fn push_declared(&mut self, alloc: Global, line: &str, marks: Marks, out: &mut Answer) {
        let (first, behind) = first_word(line);
        match first {
            "class" => self.push_class(alloc, ClassKind::Class, behind, marks, out),
            "interface" => self.push_class(alloc, ClassKind::Interface, behind, marks, out),
            "enum" => self.push_class(alloc, ClassKind::Enum, behind, marks, out),
            "annotation" => self.push_class(alloc, ClassKind::Annotation, behind, marks, out),
            "row" => self.push_row(alloc, number_in(behind, out), marks, out),
            "wide" => self.push_wide(alloc, number_in(behind, out), marks, out),
            "field" => push(&mut self.fields, field(alloc, behind, marks, out), out),
            "method" => push(&mut self.methods, method(alloc, behind, marks, out), out),
            "constructor" => push(
                &mut self.methods,
                constructor(alloc, behind, marks, out),
                out,
            ),
            _ => out.refuse("kind of declaration"),
        }
    }

    /// Adds what a line declares.
    pub fn push_line(&mut self, alloc: Global, line: &str, out: &mut Answer) {
        let (is_private, line) = without(line, "private ");
        let (is_static, line) = without(line, "static ");
        let marks = Marks {
            is_private,
            is_static,
        };
        self.push_declared(alloc, line, marks, out);
    }

    /// The world of these declarations.
    pub fn into_world(self, alloc: Global, out: &mut Answer) -> Option<ListWorld> {
        let Lists {
            headers,
            fields,
            methods,
        } = self;
        match ListWorld::new(alloc, headers, fields, methods) {
            Ok(world) => Some(world),
            Err(_) => {
                out.refuse("memory");
                None
            }
        }
    }
}
