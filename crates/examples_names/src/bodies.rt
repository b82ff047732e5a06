// The bodies of local and anonymous classes, as people write them: `extends p.S field f int method m`.
use crate::types::{name_in, type_in};
use examples_base::Answer;
use j_names::{Frame, LocalField};
use jtypes::Name;
use sqlite_items::Items;
use std::alloc::Global;

// What the next word of a body is.
#[derive(Clone, Copy)]
enum Next {
    Any,
    Supertype,
    Field,
    FieldType,
    Method,
}

// What the words of a body have said so far.
#[derive(Drop)]
struct Body {
    supertype: Option<Name>,
    field: Option<Name>,
    fields: Vec<LocalField>,
    methods: Vec<Name>,
}

// The part that begins at a word.
fn begin(word: &str, out: &mut Answer) -> Next {
    match word {
        "extends" => Next::Supertype,
        "field" => Next::Field,
        "method" => Next::Method,
        _ => {
            out.refuse("body");
            Next::Any
        }
    }
}

impl Body {
    // Adds the field whose type a word is.
    fn push_field(&mut self, alloc: Global, word: &str, out: &mut Answer) {
        if let Some(name) = self.field.take() {
            let ty = type_in(alloc, word, out);
            if self.fields.push(LocalField { name, ty }).is_err() {
                out.refuse("memory");
            }
        }
    }

    // Adds the method whose name a word is.
    fn push_method(&mut self, alloc: Global, word: &str, out: &mut Answer) {
        if let Some(name) = name_in(alloc, word, out) {
            if self.methods.push(name).is_err() {
                out.refuse("memory");
            }
        }
    }

    // One word more, and what the word behind it is.
    fn push(&mut self, alloc: Global, next: Next, word: &str, out: &mut Answer) -> Next {
        match next {
            Next::Any => return begin(word, out),
            Next::Supertype => self.supertype = name_in(alloc, word, out),
            Next::Field => {
                self.field = name_in(alloc, word, out);
                return Next::FieldType;
            }
            Next::FieldType => self.push_field(alloc, word, out),
            Next::Method => self.push_method(alloc, word, out),
        }
        Next::Any
    }
}

/// The body of a local or anonymous class.
pub fn body_in(alloc: Global, is_anonymous: bool, text: &str, out: &mut Answer) -> Frame {
    let mut body = Body {
        supertype: None,
        field: None,
        fields: Vec::new(alloc),
        methods: Vec::new(alloc),
    };
    let mut next = Next::Any;
    for word in text.split_whitespace() {
        next = body.push(alloc, next, word, out);
    }
    let Body {
        supertype,
        field: _,
        fields,
        methods,
    } = body;
    Frame::LocalBody {
        is_anonymous,
        supertype,
        fields: Items::from_vec(fields),
        methods: Items::from_vec(methods),
    }
}
