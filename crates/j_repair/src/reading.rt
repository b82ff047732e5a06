// Files as they read.
ghost use Rattle.std.specs.Prelude.{◌≡◌, Some, IfOk};
ghost use Rattle.kept_files.specs.Readings.{AreReadings, Reads};
ghost use Rattle.kept_files.specs.States.{IsKept};
ghost use Rattle.j_repair.specs.Changes.{file_of};

use kept_files::{KeptFile, Readers, Reading};
use rw_base::{Mem, Shared, Text};
use rw_host::{PathText, SourceFile, Steps};
use std::alloc::Global;
use std::sync::ledger::Ledger;

// A file with these bytes as it reads.
#[tactic(auto, using(crate::proofs::Kept::files))]
fn file_with<L: Ledger>(
    alloc: Global,
    readers: &Readers,
    path: PathText,
    bytes: Text,
    steps: &mut Steps<L>,
) -> Mem<KeptFile>
    ensures is { (read : Reads) → AreReadings read
        → IfOk result (λ f. f ≡ file_of read (record { path = path; bytes = Some bytes })) }
    ensures kept { IfOk result IsKept }
    ensures path { IfOk result (λ f. f.path ≡ path) }
{
    let bytes = Shared::new(alloc, bytes)?;
    let reading = readers.read_file(alloc, path.as_str(), &bytes, steps)?;
    Ok(KeptFile {
        path,
        bytes: Some(bytes),
        reading,
    })
}

/// A file as it reads. One without bytes isn't read.
#[tactic(auto, using(crate::proofs::Kept::files))]
pub(crate) fn file_of<L: Ledger>(
    alloc: Global,
    readers: &Readers,
    file: SourceFile,
    steps: &mut Steps<L>,
) -> Mem<KeptFile>
    ensures is { (read : Reads) → AreReadings read → IfOk result (λ f. f ≡ file_of read file) }
    ensures kept { IfOk result IsKept }
    ensures path { IfOk result (λ f. f.path ≡ file.path) }
{
    let SourceFile { path, bytes } = file;
    match bytes {
        Some(bytes) => {
            let file = file_with(alloc, readers, path, bytes, steps)?;
            Ok(file)
        }
        None => Ok(KeptFile {
            path,
            bytes: None,
            reading: Reading::Unread,
        }),
    }
}
