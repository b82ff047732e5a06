// What a run has changed, and the files that are written for it.
ghost use Rattle.std.specs.Prelude.{◌≡◌, ◌≢◌, ◌≤◌, ◌++◌, [], length, drop, true, false, Some, IfOk, OnOk};
ghost use Rattle.std.specs.declared.cmp.Ordering.TheVariants.{Less};
ghost use Rattle.std.specs.Ordering.{nat_cmp};
ghost use Rattle.std.specs.Cmp.Lexicographic.{slice_cmp};
ghost use Rattle.std.specs.Str.{bytes_eq};
ghost use Rattle.journal_text.specs.Changes.{changes_of};
ghost use Rattle.scheduler.specs.Runs.{same_bytes};
ghost use Rattle.rewrite_cli.specs.Changes.{batch_of, batch_with, changed_to, changes, file_of, is_kept_out};
ghost use Rattle.rewrite_cli.specs.Changes.{is_removal, kept_for, written_at};
ghost use Rattle.rewrite_cli.specs.Ends.{IsPlaceIn};
ghost use Rattle.rewrite_cli.specs.Histories.{history_path};

use crate::histories::{HISTORY, history_path};
use kept_files::KeptFile;
use run_journal::{Batch, Entry};
use rw_base::{Mem, Shared, Text};
use std::alloc::Global;
use std::cmp::Ordering;

/// What has become of a file, as it is in the later state, or in the earlier one where it was removed.
#[derive(Drop)]
pub enum Change {
    Created(Shared<KeptFile>),
    Changed(Shared<KeptFile>),
    Removed(Shared<KeptFile>),
}

fn is_same(a: &[u8], b: &[u8]) -> bool
    ensures { result ≡ bytes_eq a.now b.now }
{
    a == b
}

fn same_bytes(a: &Option<Shared<Text>>, b: &Option<Shared<Text>>) -> bool
    ensures { result ≡ same_bytes a.now b.now }
{
    match a {
        None => match b {
            None => true,
            Some(_) => false,
        },
        Some(a) => match b {
            None => false,
            Some(b) => is_same(a.get().as_slice(), b.get().as_slice()),
        },
    }
}

fn order_of(one: &KeptFile, other: &KeptFile) -> Ordering
    ensures { result ≡ slice_cmp nat_cmp one.now.path other.now.path }
{
    one.path.as_str().cmp(other.path.as_str())
}

// Notes a file that both states have, where its bytes are others.
fn push_changed(out: &mut Vec<Change>, old: &KeptFile, new: &Shared<KeptFile>) -> Mem<()>
    ensures { OnOk result (out.new.items ≡ out.old.items ++ changed_to old.now new.now) }
{
    if !same_bytes(&old.bytes, &new.get().bytes) {
        out.push(Change::Changed(new.copy()?))?;
    }
    Ok(())
}

// The files of an earlier state from this place on were removed.
#[tactic(auto, using(crate::proofs::Merging::tails))]
fn push_removed(out: &mut Vec<Change>, files: &[Shared<KeptFile>], from: usize) -> Mem<()>
    requires { from ≤ length files.now }
    ensures { OnOk result (out.new.items ≡ out.old.items ++ changes (drop from files.now) []) }
{
    for at in from..files.len() {
        out.push(Change::Removed(files[at].copy()?))?;
    }
    Ok(())
}

// Those of a later state were created.
#[tactic(auto, using(crate::proofs::Merging::tails))]
fn push_created(out: &mut Vec<Change>, files: &[Shared<KeptFile>], from: usize) -> Mem<()>
    requires { from ≤ length files.now }
    ensures { OnOk result (out.new.items ≡ out.old.items ++ changes [] (drop from files.now)) }
{
    for at in from..files.len() {
        out.push(Change::Created(files[at].copy()?))?;
    }
    Ok(())
}

/// From the files of a state to those of a later one, in the order of their paths.
#[tactic(auto, using(crate::proofs::Merging::steps))]
pub fn changes_between(
    alloc: Global,
    first: &[Shared<KeptFile>],
    last: &[Shared<KeptFile>],
) -> Mem<Vec<Change>>
    ensures { IfOk result (λ out. out.items ≡ changes first.now last.now) }
{
    let mut out = Vec::new(alloc);
    let mut old = 0;
    let mut new = 0;
    while old < first.len() && new < last.len() {
        match order_of(first[old].get(), last[new].get()) {
            Ordering::Less => {
                out.push(Change::Removed(first[old].copy()?))?;
                old += 1;
            }
            Ordering::Equal => {
                push_changed(&mut out, first[old].get(), &last[new])?;
                old += 1;
                new += 1;
            }
            Ordering::Greater => {
                out.push(Change::Created(last[new].copy()?))?;
                new += 1;
            }
        }
    }
    push_removed(&mut out, first, old)?;
    push_created(&mut out, last, new)?;
    Ok(out)
}

// ---- what is written

#[tactic(auto, unfolding(journal_text::specs::Changes::gate, journal_text::specs::Changes::journal, crate::specs::Histories::history_path))]
fn is_kept_out(path: &str) -> bool
    ensures { result ≡ is_kept_out path.now }
{
    let path = path.as_bytes();
    is_same(path, b".rewrite/gate")
        || is_same(path, b".rewrite/journal")
        || is_same(path, HISTORY.as_bytes())
}

impl Change {
    fn file(&self) -> &KeptFile
        ensures { result.now ≡ file_of self.now }
    {
        match self {
            Change::Created(file) | Change::Changed(file) | Change::Removed(file) => file.get(),
        }
    }

    fn is_removal(&self) -> bool
        ensures { result ≡ is_removal self.now }
    {
        matches!(self, Change::Removed(_))
    }
}

// Puts what is written for a file behind what is written for others.
#[tactic(auto, using(crate::proofs::Batches::pushed))]
fn push_written(alloc: Global, out: &mut Vec<Entry>, file: &KeptFile, is_removal: bool) -> Mem<()>
    requires { is_kept_out file.now.path ≡ false }
    ensures { OnOk result (
        changes_of out.new.items ≡ changes_of out.old.items ++ written_at file.now is_removal) }
{
    let path = file.path.copy(alloc)?;
    if is_removal {
        out.push(Entry { path, bytes: None })?;
    } else if let Some(bytes) = &file.bytes {
        let bytes = Some(Vec::from_slice(alloc, bytes.get().as_slice())?);
        out.push(Entry { path, bytes })?;
    }
    Ok(())
}

#[tactic(auto, using(crate::proofs::Batches::pushed))]
fn push_change(alloc: Global, out: &mut Vec<Entry>, change: &Change) -> Mem<()>
    ensures { OnOk result (changes_of out.new.items ≡ changes_of out.old.items ++ kept_for change.now) }
{
    let file = change.file();
    if is_kept_out(file.path.as_str()) {
        return Ok(());
    }
    push_written(alloc, out, file, change.is_removal())
}

/// What is written for these changes, but the history.
#[tactic(auto, using(crate::proofs::Batches::batches))]
pub fn batch_of(alloc: Global, changes: &[Change]) -> Mem<Batch>
    ensures { IfOk result (λ batch. changes_of batch.entries.items ≡ batch_of changes.now) }
{
    let mut entries = Vec::with_capacity(alloc, changes.len().saturating_add(1))?;
    for change in changes {
        push_change(alloc, &mut entries, change)?;
    }
    Ok(Batch { entries })
}

fn is_before(entry: &Entry, path: &str) -> bool
    ensures before { result ≡ true → slice_cmp nat_cmp entry.now.path path.now ≡ Less }
    ensures behind { result ≡ false → slice_cmp nat_cmp entry.now.path path.now ≢ Less }
{
    matches!(entry.path.as_str().cmp(path), Ordering::Less)
}

// How many of the entries have a smaller path.
#[tactic(auto, using(crate::proofs::Batches::placed))]
fn place_of(entries: &[Entry], path: &str) -> usize
    ensures place { IsPlaceIn (changes_of entries.now) path.now result }
    ensures in_range { result ≤ length entries.now }
{
    let mut at = 0;
    while at < entries.len() {
        if !is_before(&entries[at], path) {
            return at;
        }
        at += 1;
    }
    at
}

/// Puts the bytes of the history among what is written.
#[tactic(auto, using(crate::proofs::Batches::with_history))]
pub fn put_history(alloc: Global, batch: &mut Batch, bytes: Vec<u8>) -> Mem<()>
    ensures { OnOk result (changes_of batch.new.entries.items
        ≡ batch_with (history_path, Some bytes.items) (changes_of batch.old.entries.items)) }
{
    let path = history_path(alloc)?;
    let at = place_of(&batch.entries, HISTORY);
    batch.entries.insert(
        at,
        Entry {
            path,
            bytes: Some(bytes),
        },
    )?;
    Ok(())
}
