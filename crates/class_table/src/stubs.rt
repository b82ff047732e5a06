// The declared types of stubs, and those of the prelude.
ghost use Rattle.std.specs.Prelude.{◌≡◌, ◌≢◌, ◌<◌, ◌≤◌, ℕ, Err, IfOk, OnOk};
ghost use Rattle.rw_base.specs.declared.place.Refused.{Refused};
ghost use Rattle.java_reader.specs.Reading.{IsJavaRead, AreReadSteps};
ghost use Rattle.class_table.specs.Stubs.{AreDeclaredBy, AreAdded, IsPrelude};

use crate::declaring::{add_declared, skeleton};
use crate::lists::kept;
use crate::prelude_texts::{JAVA_IO, JAVA_LANG, JAVA_LANG_ANNOTATION, JAVA_UTIL};
use declared_types::{DeclaredType, Skeleton};
use java_reader::{JavaReader, UNIT};
use jtypes::Names;
use rw_base::{Mem, NoMemory, ReadFault};
use rw_host::Steps;
use std::alloc::Global;
use std::marker::Brand;
use std::sync::ledger::{Blank, Ledger};

/// The declared types of a stub: those of the file that its text reads as. Refused exactly where the reader refuses
/// the text, at the same place with the same cause; one step for each leaf. `names` keeps the names.
pub fn read_stub<L: Ledger>(
    alloc: Global,
    reader: &JavaReader,
    bytes: &[u8],
    names: &mut Names,
    steps: &mut Steps<L>,
) -> Result<Skeleton, ReadFault>
    ensures types { IfOk result (λ s. AreDeclaredBy bytes.now s.types) }
    ensures refused { (r : Refused) → result ≡ Err (ReadFault.Refused r) → IsJavaRead UNIT bytes.now (Err r) }
    ensures steps { result ≢ Err ReadFault.NoMemory → AreReadSteps bytes.now steps.old steps.new }
    ensures at_most { (most : ℕ) → AreReadSteps bytes.now steps.old most → steps.new ≤ most }
{
    match reader.read(bytes, steps) {
        Ok(tree) => {
            let skeleton = skeleton(alloc, &tree, bytes, names)?;
            Ok(skeleton)
        }
        Err(fault) => Err(fault),
    }
}

// Appends the types of a text of the prelude.
fn add_text<L: Ledger>(
    alloc: Global,
    reader: &JavaReader,
    text: &[u8],
    names: &mut Names,
    steps: &mut Steps<L>,
    out: &mut Vec<DeclaredType>,
) -> Mem<()>
    ensures { OnOk result (AreAdded text.now out.old.items out.new.items) }
{
    match reader.read(text, steps) {
        Ok(tree) => {
            add_declared(alloc, &tree, text, names, out)?;
            Ok(())
        }
        Err(ReadFault::Refused(_refused)) => Ok(()),
        Err(ReadFault::NoMemory) => Err(NoMemory),
    }
}

// The prelude, with a ledger for the steps of its texts, which nobody counts.
fn prelude_with<L: Ledger>(
    alloc: Global,
    reader: &JavaReader,
    names: &mut Names,
    blank: Blank,
) -> Mem<Skeleton>
    requires name { blank.name ≡ L.name }
    requires parts { blank.parts ≡ L.parts }
    requires some_part { 0 < L.parts }
    ensures { IfOk result (λ s. IsPrelude s.types) }
{
    let mut steps = Steps::<L>::new(blank);
    let mut types = Vec::new(alloc);
    add_text(alloc, reader, JAVA_LANG, names, &mut steps, &mut types)?;
    add_text(
        alloc,
        reader,
        JAVA_LANG_ANNOTATION,
        names,
        &mut steps,
        &mut types,
    )?;
    add_text(alloc, reader, JAVA_IO, names, &mut steps, &mut types)?;
    add_text(alloc, reader, JAVA_UTIL, names, &mut steps, &mut types)?;
    Ok(Skeleton {
        types: kept(alloc, types)?,
    })
}

/// The types that are known without a stub, in the order of their texts: some of `java.lang`, `java.lang.annotation`,
/// `java.io` and `java.util`. They are read anew at each call, so it is made once in a run. Refused where memory is
/// wanting.
pub fn prelude(alloc: Global, reader: &JavaReader, names: &mut Names) -> Mem<Skeleton>
    ensures types { IfOk result (λ s. IsPrelude s.types) }
{
    prelude_with::<Brand>(alloc, reader, names, Blank::new(1))
}
