// The readers of all kinds of files.
ghost use Rattle.std.specs.Prelude.{◌≡◌, ℕ, ◌≤◌, Some, IfOk, OnOk};
ghost use Rattle.kept_files.specs.Kinds.{kind_of};
ghost use Rattle.kept_files.specs.Readings.{AreReadings, AreSteps, EndsWith, IsReadAs, IsReading, Reads};
ghost use Rattle.kept_files.specs.Readings.{properties_reading};
ghost use Rattle.java_lex.specs.Laws.{AreBytes};

use crate::kind::{FileKind, kind_of};
use crate::reading::Reading;
use java_reader::JavaReader;
use properties_tree::PropertiesTree;
use rw_base::{Mem, NoMemory, ReadFault, Shared, Text};
use rw_host::Steps;
use std::alloc::Global;
use std::sync::ledger::Ledger;
use yaml_tree::YamlReader;

/// Reads files of all kinds. It keeps their tables, which are checked once.
#[derive(Drop)]
pub struct Readers {
    java: JavaReader,
    yaml: YamlReader,
}

#[tactic(auto, using(crate::proofs::Readings::properties))]
fn read_as_properties(bytes: &Shared<Text>) -> Mem<Reading>
    ensures reading { IfOk result (λ r. r ≡ properties_reading bytes.now) }
    ensures whole { IfOk result (λ r. EndsWith bytes.now r) }
{
    match PropertiesTree::read(bytes) {
        Ok(tree) => Ok(Reading::Properties(tree)),
        Err(ReadFault::Refused(refused)) => Ok(Reading::Refused(refused)),
        Err(ReadFault::NoMemory) => Err(NoMemory),
    }
}

fn read_as_java<L: Ledger>(reader: &JavaReader, bytes: &[u8], steps: &mut Steps<L>) -> Mem<Reading>
    ensures reading { IfOk result (λ r. IsReadAs FileKind.Java bytes.now r) }
    ensures whole { IfOk result (λ r. EndsWith bytes.now r) }
    ensures steps { OnOk result (AreSteps FileKind.Java bytes.now steps.old steps.new) }
    ensures at_most { (most : ℕ) → AreSteps FileKind.Java bytes.now steps.old most → steps.new ≤ most }
{
    match reader.read(bytes, steps) {
        Ok(tree) => Ok(Reading::Java(tree)),
        Err(ReadFault::Refused(refused)) => Ok(Reading::Refused(refused)),
        Err(ReadFault::NoMemory) => Err(NoMemory),
    }
}

// The bytes of a file are bytes.
fn are_bytes(bytes: &[u8])
    ensures { AreBytes bytes.now }
{}

fn read_as_yaml(alloc: Global, reader: &YamlReader, bytes: &[u8]) -> Mem<Reading>
    ensures reading { IfOk result (λ r. IsReadAs FileKind.Yaml bytes.now r) }
    ensures whole { IfOk result (λ r. EndsWith bytes.now r) }
{
    match reader.read(alloc, bytes) {
        Ok(tree) => Ok(Reading::Yaml(tree)),
        Err(ReadFault::Refused(refused)) => Ok(Reading::Refused(refused)),
        Err(ReadFault::NoMemory) => Err(NoMemory),
    }
}

impl Readers {
    /// The readers. It fails only where memory is wanting.
    pub fn new(alloc: Global) -> Mem<Readers> {
        Ok(Readers {
            java: JavaReader::new(alloc)?,
            yaml: YamlReader::new(alloc)?,
        })
    }

    /// What the file at a path reads as, with these bytes. A file of Java takes one step for each leaf, and none where
    /// it is too large; the others take none.
    #[tactic(auto, using(crate::proofs::Readings::files))]
    pub fn read_file<L: Ledger>(
        &self,
        alloc: Global,
        path: &str,
        bytes: &Shared<Text>,
        steps: &mut Steps<L>,
    ) -> Mem<Reading>
        ensures reading { IfOk result (λ r. IsReading path.now (Some bytes.now) r) }
        ensures same { (read : Reads) → AreReadings read → IfOk result (λ r. r ≡ read path.now (Some bytes.now)) }
        ensures whole { IfOk result (λ r. EndsWith bytes.now r) }
        ensures steps { OnOk result (AreSteps (kind_of path.now) bytes.now steps.old steps.new) }
        ensures at_most { (most : ℕ) → AreSteps (kind_of path.now) bytes.now steps.old most → steps.new ≤ most }
    {
        let text = bytes.get().as_slice();
        are_bytes(text);
        match kind_of(path) {
            FileKind::Java => read_as_java(&self.java, text, steps),
            FileKind::Yaml => read_as_yaml(alloc, &self.yaml, text),
            FileKind::Properties => read_as_properties(bytes),
            FileKind::Other => Ok(Reading::Unread),
        }
    }
}
