// The kept state.
ghost use Rattle.std.specs.Prelude.{◌≡◌, Some, map, IfOk, OnErr, OnOk};
ghost use Rattle.rw_host.specs.Files.{IsInOrder};
ghost use Rattle.kept_files.specs.Readings.{AreReadings, EndsWith, IsReading, Reads};
ghost use Rattle.kept_files.specs.States.{AreKept, IsKept, State};
ghost use Rattle.j_repair.specs.Changes.{file_of, paths_of, repaired};

use crate::change::Change;
use crate::reading::file_of;
use crate::repairing::files_with;
use kept_files::{KeptFile, KeptFiles, Readers, Reading};
use rw_base::{Mem, Shared, Text};
use rw_host::{SourceFile, Steps};
use sqlite_items::Items;
use std::alloc::Global;
use std::marker::Model;
use std::sync::ledger::Ledger;

/// The files of a repository with what they read as, and the readers' tables. Contracts see the files, in the order of
/// their paths.
#[derive(Drop)]
pub struct Attributed {
    files: Items<Shared<KeptFile>>,
    readers: Shared<Readers>,
}

impl Model for Attributed {
    ghost Value = { State };

    ghost view = { λ a. a.files };

    ghost invariant = { λ a. AreKept a.files };
}

impl Attributed {
    /// The files.
    pub fn files(&self) -> &[Shared<KeptFile>]
        ensures files { result.now ≡ self.now }
        ensures kept { AreKept self.now }
    {
        self.files.as_slice()
    }

    /// The kept state of other files, by the same readers.
    pub fn rebuilt(&self, files: Items<Shared<KeptFile>>) -> Mem<Attributed>
        requires { AreKept files }
        ensures { IfOk result (λ rebuilt. rebuilt ≡ files) }
    {
        let readers = self.readers.copy()?;
        Ok(Attributed { files, readers })
    }

    /// What the file at a path reads as, with these bytes.
    pub fn read_file<L: Ledger>(
        &self,
        alloc: Global,
        path: &str,
        bytes: &Shared<Text>,
        steps: &mut Steps<L>,
    ) -> Mem<Reading>
        ensures reading { IfOk result (λ r. IsReading path.now (Some bytes.now) r) }
        ensures same { (read : Reads) → AreReadings read → IfOk result (λ r. r ≡ read path.now (Some bytes.now)) }
        ensures whole { IfOk result (λ r. EndsWith bytes.now r) }
    {
        let reading = self.readers.get().read_file(alloc, path, bytes, steps)?;
        Ok(reading)
    }

    /// A file as it reads. One without bytes isn't read.
    pub fn file_of<L: Ledger>(
        &self,
        alloc: Global,
        file: SourceFile,
        steps: &mut Steps<L>,
    ) -> Mem<KeptFile>
        ensures is { (read : Reads) → AreReadings read → IfOk result (λ f. f ≡ file_of read file) }
        ensures kept { IfOk result IsKept }
    {
        let file = file_of(alloc, self.readers.get(), file, steps)?;
        Ok(file)
    }

    /// Changes files, one after another. Only what is put is read.
    pub fn repair<L: Ledger>(
        &mut self,
        alloc: Global,
        changes: Vec<Change>,
        steps: &mut Steps<L>,
    ) -> Mem<()>
        ensures repaired { (read : Reads) → AreReadings read
            → OnOk result (self.new ≡ repaired read changes.items self.old) }
        ensures unchanged { OnErr result (self.new ≡ self.old) }
    {
        let files = files_with(alloc, self.readers.get(), self.files(), changes, steps)?;
        self.files = Items::from_vec(files);
        Ok(())
    }
}

impl KeptFiles for Attributed {
    ghost files = { λ a. a };

    fn file_count(&self) -> usize {
        self.files.len()
    }

    #[tactic(auto, using(crate::proofs::Kept::at_places))]
    fn file(&self, i: usize) -> &KeptFile {
        self.files.as_slice()[i].get()
    }
}

// Files as they read, one after another.
#[tactic(auto, using(crate::proofs::Kept::all_files))]
fn all_read<L: Ledger>(
    alloc: Global,
    readers: &Readers,
    files: Vec<SourceFile>,
    steps: &mut Steps<L>,
) -> Mem<Vec<Shared<KeptFile>>>
    requires { IsInOrder (paths_of files.items) }
    ensures files { (read : Reads) → AreReadings read →
        IfOk result (λ out. out.items ≡ map (file_of read) files.items) }
    ensures kept { IfOk result (λ out. AreKept out.items) }
{
    let mut out = Vec::with_capacity(alloc, files.len())?;
    for file in files {
        let file = file_of(alloc, readers, file, steps)?;
        out.push(Shared::new(alloc, file)?)?;
    }
    Ok(out)
}

/// The kept state of these files, each of which is read.
pub fn attribute_all<L: Ledger>(
    alloc: Global,
    readers: Readers,
    files: Vec<SourceFile>,
    steps: &mut Steps<L>,
) -> Mem<Attributed>
    // The paths are in order, each once.
    requires { IsInOrder (paths_of files.items) }
    ensures { (read : Reads) → AreReadings read → IfOk result (λ kept. kept ≡ map (file_of read) files.items) }
{
    let files = all_read(alloc, &readers, files, steps)?;
    let readers = Shared::new(alloc, readers)?;
    Ok(Attributed {
        files: Items::from_vec(files),
        readers,
    })
}
