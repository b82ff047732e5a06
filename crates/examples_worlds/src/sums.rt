// What a world answers for each class of a row, as a number of answers and a checksum.
use crate::types::name_in;
use class_world::World;
use examples_base::{Answer, words_of};
use jtypes::{Classes, Name};
use std::alloc::Global;
use std::fmt::Write;
use std::string::String;

/// How many classes, fields and methods there are, and a sum over the lengths of the names of supertypes, each times
/// the place of its class.
#[derive(Drop)]
struct Sums {
    classes: usize,
    fields: usize,
    methods: usize,
    sum: u64,
}

// The name of a letter and a number.
fn numbered(alloc: Global, front: &str, at: u32, out: &mut Answer) -> Option<Name> {
    let mut text = String::new(alloc);
    if write!(text, "{front}{at}").is_err() {
        out.refuse("memory");
    }
    name_in(alloc, text.as_str(), out)
}

// Adds what is there of a class.
fn add_class(world: &World, at: u32, class: &Name, field: &Name, method: &Name, sums: &mut Sums) {
    if let Some(header) = world.class(class) {
        sums.classes = sums.classes.saturating_add(1);
        for supertype in header.supertypes.as_slice() {
            let length = supertype.as_slice().len() as u64;
            sums.sum = sums.sum.wrapping_add(length.wrapping_mul(u64::from(at)));
        }
    }
    if world.field(class, field).is_some() {
        sums.fields = sums.fields.saturating_add(1);
    }
    sums.methods = sums
        .methods
        .saturating_add(world.methods(class, method).len());
}

// Adds what is there of the class of a number.
fn add_numbered(alloc: Global, world: &World, at: u32, sums: &mut Sums, out: &mut Answer) {
    let Some(class) = numbered(alloc, "r.N", at, out) else {
        return;
    };
    let Some(field) = numbered(alloc, "f", at, out) else {
        return;
    };
    if let Some(method) = numbered(alloc, "m", at, out) {
        add_class(world, at, &class, &field, &method, sums);
    }
}

/// Writes the sums over the classes `r.N0`, `r.N1` and on, so many.
pub fn put_sums(alloc: Global, world: &World, case: &str, out: &mut Answer) {
    let words = words_of(alloc, case, out);
    let mut sums = Sums {
        classes: 0,
        fields: 0,
        methods: 0,
        sum: 0,
    };
    for at in 0..words.number(0, out) {
        add_numbered(alloc, world, at, &mut sums, out);
    }
    out.put_number(sums.classes);
    out.put(" classes, ");
    out.put_number(sums.fields);
    out.put(" fields, ");
    out.put_number(sums.methods);
    out.put(" methods, sum ");
    out.put_debug(&sums.sum);
}
