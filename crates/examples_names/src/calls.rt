// Methods and constructors that calls and creations may mean, and superclasses.
use crate::places::Place;
use crate::symbols::{put_asks, put_called, put_class, put_found};
use crate::types::{first_word, name_in, two_names, type_in};
use examples_base::Answer;
use j_names::{
    called_asking, candidates, constructors_of_asking, methods_behind_asking, methods_of_asking,
    super_of_asking, superclass_of_asking,
};
use jtypes::Asks;
use std::alloc::Global;

/// Writes what the name of a call without receiver means.
pub fn put_called_name(alloc: Global, place: &Place, case: &str, out: &mut Answer) {
    let Place { world, cx, frames } = place;
    if let Some(name) = name_in(alloc, case, out) {
        let mut asks = Asks::new(alloc);
        let called = called_asking(alloc, cx, frames, &name, world, &mut asks);
        put_called(&called, out);
        put_asks(alloc, asks, out);
    }
}

/// Writes the methods of a name behind an expression of a type. A case is the type and the name.
pub fn put_methods_behind(alloc: Global, place: &Place, case: &str, out: &mut Answer) {
    let (ty, name) = first_word(case);
    let ty = type_in(alloc, ty, out);
    if let Some(name) = name_in(alloc, name, out) {
        let mut asks = Asks::new(alloc);
        let methods = methods_behind_asking(alloc, &place.cx, &ty, &name, &place.world, &mut asks);
        put_found(&methods, out);
        put_asks(alloc, asks, out);
    }
}

/// Writes the candidates among the methods of a name that a class has. A case is the class and the name.
pub fn put_candidates(alloc: Global, place: &Place, case: &str, out: &mut Answer) {
    let (class, name) = first_word(case);
    if let Some((class, name)) = two_names(alloc, class, name, out) {
        let mut asks = Asks::new(alloc);
        match methods_of_asking(alloc, &place.cx, &class, &name, &place.world, &mut asks) {
            Ok(methods) => put_found(&candidates(alloc, methods.as_slice()), out),
            Err(_) => out.refuse("memory"),
        }
        put_asks(alloc, asks, out);
    }
}

/// Writes the constructors of a class.
pub fn put_constructors(alloc: Global, place: &Place, case: &str, out: &mut Answer) {
    if let Some(class) = name_in(alloc, case, out) {
        let mut asks = Asks::new(alloc);
        let methods = constructors_of_asking(alloc, &place.cx, &class, &place.world, &mut asks);
        put_found(&methods, out);
        put_asks(alloc, asks, out);
    }
}

/// Writes the superclass of a class.
pub fn put_superclass(alloc: Global, place: &Place, case: &str, out: &mut Answer) {
    if let Some(class) = name_in(alloc, case, out) {
        let mut asks = Asks::new(alloc);
        let superclass = superclass_of_asking(&class, &place.world, &mut asks);
        put_class(&superclass, out);
        put_asks(alloc, asks, out);
    }
}

/// Writes the class of `T.super`. A case is T.
pub fn put_super(alloc: Global, place: &Place, case: &str, out: &mut Answer) {
    if let Some(class) = name_in(alloc, case, out) {
        let mut asks = Asks::new(alloc);
        let superclass = super_of_asking(&class, &place.world, &mut asks);
        put_class(&superclass, out);
        put_asks(alloc, asks, out);
    }
}
