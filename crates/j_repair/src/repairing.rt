// Changes of kept files.
ghost use Rattle.std.specs.Prelude.{◌≡◌, ◌++◌, ◌∷◌, [], IfOk, OnOk};
ghost use Rattle.std.specs.Str.{bytes_eq};
ghost use Rattle.kept_files.specs.Readings.{AreReadings, Reads};
ghost use Rattle.kept_files.specs.States.{AreKept};
ghost use Rattle.j_repair.specs.Changes.{changed, repaired, without};

use crate::change::Change;
use crate::reading::file_of;
use kept_files::{KeptFile, Readers, put_file};
use rw_base::{Mem, Shared, Text};
use rw_host::{PathText, SourceFile, Steps};
use std::alloc::Global;
use std::sync::ledger::Ledger;

// The same files, each with one owner more.
fn again(alloc: Global, files: &[Shared<KeptFile>]) -> Mem<Vec<Shared<KeptFile>>>
    ensures { IfOk result (λ out. out.items ≡ files.now) }
{
    let mut out = Vec::with_capacity(alloc, files.len())?;
    for file in files {
        out.push(file.copy()?)?;
    }
    Ok(out)
}

fn is_at(file: &KeptFile, path: &PathText) -> bool
    ensures { result ≡ bytes_eq file.now.path path.now }
{
    file.path.as_str() == path.as_str()
}

// Puts a file behind others, where it isn't that at a path.
#[tactic(auto, using(crate::proofs::Kept::other_by))]
fn push_other(out: &mut Vec<Shared<KeptFile>>, file: &Shared<KeptFile>, path: &PathText) -> Mem<()>
    ensures { OnOk result (out.new.items ≡ out.old.items ++ without path.now (file.now ∷ [])) }
{
    if !is_at(file.get(), path) {
        out.push(file.copy()?)?;
    }
    Ok(())
}

// The files without that at a path.
#[tactic(auto, using(crate::proofs::Kept::without_by))]
fn without(alloc: Global, files: &[Shared<KeptFile>], path: &PathText) -> Mem<Vec<Shared<KeptFile>>>
    ensures { IfOk result (λ out. out.items ≡ without path.now files.now) }
{
    let mut out = Vec::with_capacity(alloc, files.len())?;
    for file in files {
        push_other(&mut out, file, path)?;
    }
    Ok(out)
}

// The files with a change.
#[tactic(auto, using(crate::proofs::Kept::changed_by))]
fn with_change<L: Ledger>(
    alloc: Global,
    readers: &Readers,
    mut files: Vec<Shared<KeptFile>>,
    change: Change,
    steps: &mut Steps<L>,
) -> Mem<Vec<Shared<KeptFile>>>
    requires { AreKept files.items }
    ensures changed { (read : Reads) → AreReadings read
        → IfOk result (λ out. out.items ≡ changed read change files.items) }
    ensures kept { IfOk result (λ out. AreKept out.items) }
{
    match change {
        Change::Put { path, bytes } => {
            let source = SourceFile {
                path,
                bytes: Some(Text::from_vec(bytes)),
            };
            let file = file_of(alloc, readers, source, steps)?;
            put_file(&mut files, Shared::new(alloc, file)?)?;
            Ok(files)
        }
        Change::Remove { path } => {
            let left = without(alloc, files.as_slice(), &path)?;
            Ok(left)
        }
    }
}

/// The files with these changes, one after another.
#[tactic(auto, using(crate::proofs::Kept::repaired_by))]
pub(crate) fn files_with<L: Ledger>(
    alloc: Global,
    readers: &Readers,
    files: &[Shared<KeptFile>],
    changes: Vec<Change>,
    steps: &mut Steps<L>,
) -> Mem<Vec<Shared<KeptFile>>>
    requires { AreKept files.now }
    ensures repaired { (read : Reads) → AreReadings read
        → IfOk result (λ out. out.items ≡ repaired read changes.items files.now) }
    ensures kept { IfOk result (λ out. AreKept out.items) }
{
    let mut out = again(alloc, files)?;
    for change in changes {
        out = with_change(alloc, readers, out, change, steps)?;
    }
    Ok(out)
}
