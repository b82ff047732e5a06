// What names mean, and the questions that decide it, as people read them: `package P`, `type T`, `typevar N`,
// `field O#N TYPE`, `method O#N(TYPE,..) TYPE`, `local TYPE`, `label` or `unknown`; behind ` asks ` the questions, each
// once: first those for classes (`class N`), then those for fields (`field O N`) and for methods (`methods O N`), each
// kind by name. More than 40 questions are counted.
use crate::types::{put_name, put_type};
use examples_base::Answer;
use j_names::Called;
use jtypes::{Ask, Asks, FieldSig, JType, MethodSig, Name, Symbol};
use rw_base::Mem;
use sqlite_items::Items;
use std::alloc::Global;

// Writes an owner and a name.
fn put_member(owner: &Name, name: &Name, between: &str, out: &mut Answer) {
    put_name(owner, out);
    out.put(between);
    put_name(name, out);
}

// Writes a field.
fn put_field(field: &FieldSig, out: &mut Answer) {
    out.put("field ");
    put_member(&field.owner, &field.name, "#", out);
    out.put(" ");
    put_type(&field.ty, out);
}

// Writes types with a comma between them.
fn put_types(types: &[JType], out: &mut Answer) {
    for (at, ty) in types.iter().enumerate() {
        out.put_between(at, ",");
        put_type(ty, out);
    }
}

// Writes a method.
fn put_method(method: &MethodSig, out: &mut Answer) {
    out.put("method ");
    put_member(&method.owner, &method.name, "#", out);
    out.put("(");
    put_types(method.params.as_slice(), out);
    out.put(") ");
    put_type(&method.result, out);
}

// Writes methods.
fn put_methods(methods: &[MethodSig], out: &mut Answer) {
    if methods.is_empty() {
        out.put("none");
    }
    for (at, method) in methods.iter().enumerate() {
        out.put_between(at, ", ");
        put_method(method, out);
    }
}

// Writes a word and a name behind it.
fn put_worded(word: &str, name: &Name, out: &mut Answer) {
    out.put(word);
    out.put(" ");
    put_name(name, out);
}

// Writes a symbol.
fn put_symbol(symbol: &Symbol, out: &mut Answer) {
    match symbol {
        Symbol::Package(name) => put_worded("package", name, out),
        Symbol::Kind(name) => put_worded("type", name, out),
        Symbol::TypeVar(name) => put_worded("typevar", name, out),
        Symbol::Field(field) => put_field(field, out),
        Symbol::Method(method) => put_method(method, out),
        Symbol::Local(ty) => {
            out.put("local ");
            put_type(ty, out);
        }
        Symbol::Label => out.put("label"),
        Symbol::Unknown => out.put("unknown"),
    }
}

// Writes a question.
fn put_ask(ask: &Ask, out: &mut Answer) {
    match ask {
        Ask::Class(name) => put_worded("class", name, out),
        Ask::Field(owner, name) => {
            out.put("field ");
            put_member(owner, name, " ", out);
        }
        Ask::Methods(owner, name) => {
            out.put("methods ");
            put_member(owner, name, " ", out);
        }
    }
}

// Writes questions, or how many they are.
fn put_questions(asks: &[Ask], out: &mut Answer) {
    if asks.is_empty() {
        out.put("nothing");
    }
    if asks.len() > 40 {
        out.put_number(asks.len());
        out.put(" questions");
        return;
    }
    for (at, ask) in asks.iter().enumerate() {
        out.put_between(at, ", ");
        put_ask(ask, out);
    }
}

/// Writes the questions behind an answer.
pub fn put_asks(alloc: Global, asks: Asks, out: &mut Answer) {
    out.put(" asks ");
    match asks.into_items(alloc) {
        Ok(asks) => put_questions(asks.as_slice(), out),
        Err(_) => out.refuse("memory"),
    }
}

/// Writes a symbol, unless memory was refused.
pub fn put_meaning(symbol: &Mem<Symbol>, out: &mut Answer) {
    match symbol {
        Ok(symbol) => put_symbol(symbol, out),
        Err(_) => out.refuse("memory"),
    }
}

/// Writes methods, unless memory was refused.
pub fn put_found(methods: &Mem<Items<MethodSig>>, out: &mut Answer) {
    match methods {
        Ok(methods) => put_methods(methods.as_slice(), out),
        Err(_) => out.refuse("memory"),
    }
}

/// Writes what a call may mean, unless memory was refused.
pub fn put_called(called: &Mem<Called>, out: &mut Answer) {
    match called {
        Ok(Called::Methods(methods)) => put_methods(methods.as_slice(), out),
        Ok(Called::Unknown) => out.put("unknown"),
        Err(_) => out.refuse("memory"),
    }
}

/// Writes a class, if there is one, unless memory was refused.
pub fn put_class(class: &Mem<Option<Name>>, out: &mut Answer) {
    match class {
        Ok(Some(name)) => put_worded("type", name, out),
        Ok(None) => out.put("none"),
        Err(_) => out.refuse("memory"),
    }
}
