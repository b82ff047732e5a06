// Files that are read for the types that they declare.
ghost use Rattle.std.specs.Prelude.{◌≡◌, ◌<◌, length, IfOk};
ghost use Rattle.rw_base.specs.Arena.{end_of};
ghost use Rattle.java_reader.specs.Units.{HasFewNodes};

use class_table::skeleton;
use declared_types::Skeleton;
use examples_base::{Answer, put_refused};
use java_reader::JavaReader;
use jtypes::Names;
use rw_base::{ReadFault, Tree};
use rw_host::Steps;
use std::alloc::Global;
use std::marker::Brand;
use std::sync::ledger::{Blank, Ledger};

// What comes of a file, with a ledger for the steps.
fn read_with<L: Ledger>(reader: &JavaReader, text: &[u8], blank: Blank) -> Result<Tree, ReadFault>
    requires name { blank.name ≡ L.name }
    requires parts { blank.parts ≡ L.parts }
    requires some_part { 0 < L.parts }
    ensures whole { IfOk result (λ tree. end_of tree ≡ length text.now) }
    ensures few { IfOk result (λ tree. HasFewNodes tree) }
{
    let mut steps = Steps::<L>::new(blank);
    reader.read(text, &mut steps)
}

// What comes of a file.
fn read(reader: &JavaReader, text: &[u8]) -> Result<Tree, ReadFault>
    ensures whole { IfOk result (λ tree. end_of tree ≡ length text.now) }
    ensures few { IfOk result (λ tree. HasFewNodes tree) }
{
    read_with::<Brand>(reader, text, Blank::new(1))
}

// The declared types of a tree.
fn declared_by(
    alloc: Global,
    names: &mut Names,
    tree: &Tree,
    text: &[u8],
    out: &mut Answer,
) -> Skeleton
    requires { length text.now ≡ end_of tree.now }
{
    match skeleton(alloc, tree, text, names) {
        Ok(skeleton) => skeleton,
        Err(_) => {
            out.refuse("memory");
            Skeleton::empty()
        }
    }
}

/// The declared types of a file.
pub fn declared_in(
    alloc: Global,
    reader: &JavaReader,
    names: &mut Names,
    text: &[u8],
    out: &mut Answer,
) -> Skeleton {
    match read(reader, text) {
        Ok(tree) => declared_by(alloc, names, &tree, text, out),
        Err(fault) => {
            out.refuse("text");
            put_refused(fault, out);
            Skeleton::empty()
        }
    }
}
