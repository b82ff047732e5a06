// What recipe files define.
ghost use Rattle.std.specs.Prelude.{◌≡◌, ◌<◌};

use examples_base::{Answer, put_place};
use kept_files::Readers;
use recipe_yaml::{RecipeBook, RecipeFault, Written, WrittenEntry, WrittenOption, read_recipes};
use rw_base::Text;
use rw_host::Steps;
use std::alloc::Global;
use std::marker::Brand;
use std::sync::ledger::{Blank, Ledger};

// What a file defines, with a ledger for the steps.
fn book_with<L: Ledger>(
    alloc: Global,
    readers: &Readers,
    text: &[u8],
    blank: Blank,
) -> Result<RecipeBook, RecipeFault>
    requires name { blank.name ≡ L.name }
    requires parts { blank.parts ≡ L.parts }
    requires some_part { 0 < L.parts }
{
    let mut steps = Steps::<L>::new(blank);
    read_recipes(alloc, readers, text, &mut steps)
}

/// What a file of this text defines.
pub fn book_of(alloc: Global, readers: &Readers, text: &[u8]) -> Result<RecipeBook, RecipeFault> {
    book_with::<Brand>(alloc, readers, text, Blank::new(1))
}

/// Writes a fault.
pub fn put_fault(fault: RecipeFault, out: &mut Answer) {
    match fault {
        RecipeFault::Wrong { number, place } => {
            out.put("fault ");
            out.put_number(number as usize);
            if let Some(place) = place {
                out.put(" at ");
                put_place(place, out);
            }
        }
        RecipeFault::NoMemory => out.refuse("memory"),
    }
}

fn put_values(values: &[Text], out: &mut Answer) {
    for (at, value) in values.iter().enumerate() {
        out.put_between(at, ", ");
        out.put_quoted(value.as_slice());
    }
}

// Writes an option: its key and where it stands, its values, and where they stand.
fn put_option(option: &WrittenOption, out: &mut Answer) {
    out.put_quoted(option.key.as_slice());
    out.put(" at ");
    put_place(option.key_place, out);
    out.put(if option.is_list { ": list " } else { ": " });
    put_values(option.values.as_slice(), out);
    out.put(" at ");
    put_place(option.value_place, out);
}

// Writes an entry: its name, where it stands, and its options in brackets.
fn put_entry(entry: &WrittenEntry, out: &mut Answer) {
    out.put_quoted(entry.name.as_slice());
    out.put(" at ");
    put_place(entry.place, out);
    for (at, option) in entry.options.as_slice().iter().enumerate() {
        out.put(if at == 0 { " (" } else { ", " });
        put_option(option, out);
    }
    out.put(if entry.options.as_slice().is_empty() {
        ""
    } else {
        ")"
    });
}

fn put_entries(name: &str, entries: &[WrittenEntry], out: &mut Answer) {
    out.put(name);
    out.put(if entries.is_empty() { "nothing" } else { "" });
    for (at, entry) in entries.iter().enumerate() {
        out.put_between(at, "; ");
        put_entry(entry, out);
    }
}

// Writes a recipe: its name, its preconditions, its list, and whether it causes another cycle.
fn put_written(written: &Written, out: &mut Answer) {
    out.put_quoted(written.name.as_slice());
    if !written.conditions.as_slice().is_empty() {
        put_entries(" if ", written.conditions.as_slice(), out);
    }
    put_entries(": ", written.list.as_slice(), out);
    out.put(if written.again { ", again" } else { "" });
}

/// Writes the recipes that a file defines, or its first fault.
pub fn put_book(alloc: Global, readers: &Readers, text: &[u8], out: &mut Answer) {
    match book_of(alloc, readers, text) {
        Ok(book) => {
            if book.recipes.as_slice().is_empty() {
                out.put("no recipe");
            }
            for (at, written) in book.recipes.as_slice().iter().enumerate() {
                out.put_between(at, " | ");
                put_written(written, out);
            }
        }
        Err(fault) => put_fault(fault, out),
    }
}
