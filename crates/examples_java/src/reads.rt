// Readings.
ghost use Rattle.std.specs.Prelude.{◌≡◌, ◌<◌, length, IfOk};
ghost use Rattle.rw_base.specs.Arena.{end_of};
ghost use Rattle.java_reader.specs.Units.{HasFewNodes};

use java_reader::JavaReader;
use rw_base::{ReadFault, Tree};
use rw_host::Steps;
use std::marker::Brand;
use std::sync::ledger::{Blank, Ledger};

/// What a text is read as.
#[derive(Clone, Copy)]
pub enum What {
    File,
    Member,
    Expression,
}

// What comes of a text, with a ledger for the steps.
fn read_with<L: Ledger>(
    reader: &JavaReader,
    what: What,
    text: &[u8],
    blank: Blank,
) -> Result<Tree, ReadFault>
    requires name { blank.name ≡ L.name }
    requires parts { blank.parts ≡ L.parts }
    requires some_part { 0 < L.parts }
    ensures whole { IfOk result (λ tree. end_of tree ≡ length text.now) }
    ensures few { IfOk result (λ tree. HasFewNodes tree) }
{
    let mut steps = Steps::<L>::new(blank);
    match what {
        What::File => reader.read(text, &mut steps),
        What::Member => reader.read_member(text, &mut steps),
        What::Expression => reader.read_expr(text, &mut steps),
    }
}

/// What comes of a text.
pub fn read(reader: &JavaReader, what: What, text: &[u8]) -> Result<Tree, ReadFault>
    ensures whole { IfOk result (λ tree. end_of tree ≡ length text.now) }
    ensures few { IfOk result (λ tree. HasFewNodes tree) }
{
    read_with::<Brand>(reader, what, text, Blank::new(1))
}
