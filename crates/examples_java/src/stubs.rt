// Stubs, and the types of the prelude.
ghost use Rattle.std.specs.Prelude.{◌≡◌, ◌<◌};

use crate::declared::{put_counts, put_one, put_or_count};
use class_table::{prelude, read_stub};
use declared_types::{DeclaredType, Skeleton};
use examples_base::{Answer, put_refused};
use java_reader::JavaReader;
use jtypes::Names;
use rw_base::ReadFault;
use rw_host::Steps;
use std::alloc::Global;
use std::marker::Brand;
use std::sync::ledger::{Blank, Ledger};

// What a stub declares, with a ledger for the steps.
fn stub_with<L: Ledger>(
    alloc: Global,
    reader: &JavaReader,
    text: &[u8],
    blank: Blank,
) -> Result<Skeleton, ReadFault>
    requires name { blank.name ≡ L.name }
    requires parts { blank.parts ≡ L.parts }
    requires some_part { 0 < L.parts }
{
    let mut steps = Steps::<L>::new(blank);
    let mut names = Names::new(alloc);
    read_stub(alloc, reader, text, &mut names, &mut steps)
}

/// Writes the declared types of a stub, or where and why it is refused.
pub fn put_stub(alloc: Global, reader: &JavaReader, text: &[u8], out: &mut Answer) {
    match stub_with::<Brand>(alloc, reader, text, Blank::new(1)) {
        Ok(skeleton) => put_or_count(skeleton.types.as_slice(), out),
        Err(fault) => put_refused(fault, out),
    }
}

// Whether a type stands in a package.
fn is_in(declared: &DeclaredType, package: &str) -> bool {
    declared.cx.package.as_slice() == package.as_bytes()
}

// Writes how many of some types stand in a package, and how many there are.
fn put_count(types: &[DeclaredType], package: &str, out: &mut Answer) {
    let mut count = 0usize;
    for declared in types {
        if is_in(declared, package) {
            count = count.saturating_add(1);
        }
    }
    out.put_number(count);
    out.put(" of ");
    out.put_number(types.len());
}

// Writes each of those in a line of its own. Refuses the answer where a type stands among imports, which the lines
// don't show.
fn put_each(types: &[DeclaredType], package: &str, out: &mut Answer) {
    for declared in types {
        if is_in(declared, package) {
            out.put("\n    ");
            put_one(declared, out);
        }
        if declared.cx.imports.len() > 0 {
            out.refuse("imports");
        }
    }
}

// Writes the types of a package.
fn put_package(types: &[DeclaredType], package: &str, out: &mut Answer) {
    put_count(types, package, out);
    put_each(types, package, out);
}

/// Writes the types of the prelude in a package, or for the case `all` how many there are in all packages.
pub fn put_prelude(alloc: Global, reader: &JavaReader, case: &str, out: &mut Answer) {
    let mut names = Names::new(alloc);
    match prelude(alloc, reader, &mut names) {
        Ok(known) if case == "all" => put_counts(known.types.as_slice(), out),
        Ok(known) => put_package(known.types.as_slice(), case, out),
        Err(_) => out.refuse("memory"),
    }
}
