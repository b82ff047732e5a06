// What `check` tells of a repository.
ghost use Rattle.std.specs.Prelude.{◌≡◌, ◌≤◌, ◌<◌, ◌+◌, ◌++◌, ◌||◌, IsTrue, IfOk, IfErr, OnOk, Err, Some};
ghost use Rattle.std.specs.Prelude.{[], codes, is_some, if◌then◌else◌};
ghost use Rattle.std.specs.FinMap as map;
ghost use Rattle.rw_host.specs.Files.{Rose};
ghost use Rattle.kept_files.specs.Readings.{AreReadings, Reads};
ghost use Rattle.rewrite_cli.specs.Sources.{bytes_at, bytes_read, count_counted, count_read};
ghost use Rattle.rewrite_cli.specs.Stubs.{is_stub};
ghost use Rattle.rewrite_cli.specs.Checking.{any_refused, count_line, line_of, lines, reading_of, refusal_at};
ghost use Rattle.rewrite_cli.specs.Checking.{refusal_in};
ghost use Rattle.rewrite_cli.specs.declared.limits.TheConstants.{MOST_FILES, MOST_PATHS};
ghost use Rattle.rewrite_cli.specs.Ends.{IsReadStop};
ghost use Rattle.rewrite_cli.specs.Meanings.{AreMeanings, Meanings};
ghost use Rattle.rewrite_cli.specs.Answers.{check_answer};
ghost use Rattle.rewrite_cli.specs.Journals.{laid};
ghost use Rattle.rewrite_cli.specs.Moments.{Idle};
ghost use Rattle.journal_text.specs.Changes.{Rises, changes_of};
ghost use Rattle.rewrite_cli.specs.Statuses.{IsAnswered};

use crate::limits::{Limit, MOST_IN_ALL};
use crate::sources::{MOST_READ, count_read, is_counted, list_paths};
use crate::stop::{Done, Stop};
use crate::stubs::{STUB_NAME, is_stub};
use crate::text::{put_number, put_refusal};
use kept_files::{Readers, Reading};
use run_journal::Entry;
use rw_base::{Mem, Refused, Shared, Text};
use rw_host::{PathText, Steps, Store};
use standing_files::read_standing;
use std::alloc::Global;
use std::marker::Brand;
use std::sync::ledger::{Blank, Ledger};

// What was found in the files that were read so far.
#[derive(Drop)]
struct Findings {
    text: Vec<u8>,
    any_refused: bool,
    bytes: u64,
}

// The line of the number of files that are read.
#[tactic(auto, unfolding(crate::specs::Checking::count_line))]
fn count_line(alloc: Global, count: usize) -> Mem<Vec<u8>>
    ensures { IfOk result (λ line. line.items ≡ count_line count) }
{
    let mut line = Vec::from_slice(alloc, b"files ")?;
    put_number(&mut line, count as u64)?;
    line.extend_from_slice(b"\n")?;
    Ok(line)
}

/// Why a file is refused, if it is, by what it reads as.
pub fn refusal_in(reading: Reading) -> Option<Refused>
    ensures { result ≡ refusal_in reading }
{
    match reading {
        Reading::Refused(refused) => Some(refused),
        _ => None,
    }
}

// The path at which a file is read.
fn path_to_read(path: &str) -> &str
    ensures { result.now ≡ (if is_stub path.now then codes "Stub.java" else path.now) }
{
    if is_stub(path) { STUB_NAME } else { path }
}

// Why a file of these bytes is refused, if it is.
#[tactic(auto, using(crate::proofs::FoundInFile::read_by_path))]
fn refusal_of<L: Ledger>(
    alloc: Global,
    readers: &Readers,
    path: &str,
    bytes: Vec<u8>,
    steps: &mut Steps<L>,
) -> Mem<Option<Refused>>
    ensures { (read : Reads) → AreReadings read →
        IfOk result (λ refusal. refusal ≡ refusal_in (reading_of read path.now (Some bytes.items))) }
{
    let bytes = Shared::new(alloc, Text::from_vec(bytes))?;
    let reading = readers.read_file(alloc, path_to_read(path), &bytes, steps)?;
    Ok(refusal_in(reading))
}

// Notes whether a file is refused.
fn note_refusal(findings: &mut Findings, path: &str, refusal: Option<Refused>) -> Mem<()>
    ensures text { OnOk result (findings.new.text.items ≡ findings.old.text.items ++ line_of path.now refusal) }
    ensures refused { OnOk result (findings.new.any_refused ≡ (findings.old.any_refused || is_some refusal)) }
    ensures bytes { findings.new.bytes ≡ findings.old.bytes }
{
    if let Some(refused) = refusal {
        put_refusal(&mut findings.text, path, refused.place, refused.cause)?;
        findings.any_refused = true;
    }
    Ok(())
}

// Reads the file at a path, where it is one that is read or a stub, and notes whether it is refused.
#[tactic(auto, using(crate::proofs::FoundInFile::found_there, crate::proofs::SourceSteps::read_stops, crate::proofs::Idling::idling))]
fn check_file<S: Store, L: Ledger>(
    alloc: Global,
    store: &mut S,
    entries: &[Entry],
    readers: &Readers,
    findings: &mut Findings,
    path: &str,
    steps: &mut Steps<L>,
) -> Result<(), Stop>
    requires rises { Rises [] (changes_of entries.now) }
    requires in_limit { findings.old.bytes ≤ MOST_IN_ALL }
    ensures text { IsTrue S.tells_files → (read : Reads) → AreReadings read → OnOk result (
        let refusal = refusal_at read (laid entries.now (S.files store.old)) path.now in
        findings.new.text.items ≡ findings.old.text.items ++ line_of path.now refusal) }
    ensures refused { IsTrue S.tells_files → (read : Reads) → AreReadings read → OnOk result (
        let refusal = refusal_at read (laid entries.now (S.files store.old)) path.now in
        findings.new.any_refused ≡ (findings.old.any_refused || is_some refusal)) }
    ensures bytes { IsTrue S.tells_files → OnOk result (
        findings.new.bytes ≡ findings.old.bytes + bytes_at (laid entries.now (S.files store.old)) path.now) }
    ensures in_limit { OnOk result (findings.new.bytes ≤ MOST_IN_ALL) }
    ensures past_limit { IsTrue S.tells_files → (limit : Limit) → result ≡ Err (Stop.Limit limit) →
        (limit ≡ Limit.Bytes)
        × (MOST_IN_ALL < findings.old.bytes + bytes_at (laid entries.now (S.files store.old)) path.now) }
    ensures files { S.files store.new ≡ S.files store.old }
    ensures idle { Idle S.tells_images S.is_unsynced S.moment S.left_since S.image store.old store.new }
    ensures cause { result ≡ Err Stop.ReadFault → Rose (S.read_faults store.old) (S.read_faults store.new) }
    ensures stop { IfErr result IsReadStop }
    ensures count { S.read_faults store.old ≤ S.read_faults store.new }
{
    if !is_counted(path) {
        return Ok(());
    }
    let Some(bytes) = read_standing(alloc, store, entries, path, MOST_READ)? else {
        return Ok(());
    };
    let all = findings.bytes + bytes.len() as u64;
    if all > MOST_IN_ALL {
        return Err(Stop::Limit(Limit::Bytes));
    }
    let refusal = refusal_of(alloc, readers, path, bytes, steps)?;
    note_refusal(findings, path, refusal)?;
    findings.bytes = all;
    Ok(())
}

// Reads the files at these paths and notes which are refused.
#[tactic(auto, using(crate::proofs::SourceSteps::read_stops, crate::proofs::Idling::idling))]
fn check_files<S: Store, L: Ledger>(
    alloc: Global,
    store: &mut S,
    entries: &[Entry],
    findings: &mut Findings,
    paths: Vec<PathText>,
    blank: Blank,
) -> Result<(), Stop>
    requires rises { Rises [] (changes_of entries.now) }
    requires none_yet { findings.old.bytes ≡ 0 }
    requires name { blank.name ≡ L.name }
    requires parts { blank.parts ≡ L.parts }
    requires some_part { 0 < L.parts }
    ensures text { IsTrue S.tells_files → (read : Reads) → AreReadings read → OnOk result (
        findings.new.text.items
        ≡ findings.old.text.items ++ lines read (laid entries.now (S.files store.old)) paths.items) }
    ensures refused { IsTrue S.tells_files → (read : Reads) → AreReadings read → OnOk result (
        findings.new.any_refused
        ≡ (findings.old.any_refused || any_refused read (laid entries.now (S.files store.old)) paths.items)) }
    ensures in_limit { IsTrue S.tells_files → OnOk result (
        bytes_read (laid entries.now (S.files store.old)) paths.items ≤ MOST_IN_ALL) }
    ensures past_limit { IsTrue S.tells_files → (limit : Limit) → result ≡ Err (Stop.Limit limit) →
        (limit ≡ Limit.Bytes) × (MOST_IN_ALL < bytes_read (laid entries.now (S.files store.old)) paths.items) }
    ensures files { S.files store.new ≡ S.files store.old }
    ensures idle { Idle S.tells_images S.is_unsynced S.moment S.left_since S.image store.old store.new }
    ensures cause { result ≡ Err Stop.ReadFault → Rose (S.read_faults store.old) (S.read_faults store.new) }
    ensures stop { IfErr result IsReadStop }
    ensures count { S.read_faults store.old ≤ S.read_faults store.new }
{
    let readers = Readers::new(alloc)?;
    let mut steps = Steps::<L>::new(blank);
    for path in paths {
        check_file(
            alloc,
            store,
            entries,
            &readers,
            findings,
            path.as_str(),
            &mut steps,
        )?;
    }
    Ok(())
}

// Reads the files of a store that has these paths, few enough, and tells which of them are refused.
#[tactic(auto, using(crate::proofs::Answering::answered, crate::proofs::SourceSteps::all_found, crate::proofs::SourceSteps::read_stops, crate::proofs::Idling::idling))]
fn check_listed<S: Store>(
    alloc: Global,
    store: &mut S,
    entries: &[Entry],
    paths: Vec<PathText>,
) -> Result<Done, Stop>
    requires rises { Rises [] (changes_of entries.now) }
    requires listed { IsTrue S.tells_files → paths.items ≡ map.keys (laid entries.now (S.files store.old)) }
    requires few_listed { IsTrue S.tells_files → map.len (S.files store.old) ≤ MOST_PATHS }
    requires few_paths { IsTrue S.tells_files → map.len (laid entries.now (S.files store.old)) ≤ MOST_PATHS }
    requires few_files { IsTrue S.tells_files →
        count_counted (map.keys (laid entries.now (S.files store.old))) ≤ MOST_FILES }
    ensures answer { IsTrue S.tells_files → (meanings : Meanings) → AreMeanings meanings →
        IsAnswered (check_answer meanings (S.files store.old) (laid entries.now (S.files store.old))) result
        (S.files store.new) }
    ensures files { S.files store.new ≡ S.files store.old }
    ensures idle { Idle S.tells_images S.is_unsynced S.moment S.left_since S.image store.old store.new }
    ensures cause { result ≡ Err Stop.ReadFault → Rose (S.read_faults store.old) (S.read_faults store.new) }
    ensures stop { IfErr result IsReadStop }
{
    let count = count_read(&paths);
    let mut findings = Findings {
        text: count_line(alloc, count)?,
        any_refused: false,
        bytes: 0,
    };
    match check_files::<S, Brand>(alloc, store, entries, &mut findings, paths, Blank::new(1)) {
        Ok(()) => Ok(Done {
            text: findings.text,
            tells_of_files: findings.any_refused,
        }),
        Err(stop) => Err(stop),
    }
}

/// Reads each file that has a reader, and each stub. Tells how many files there are, and which of all are refused.
#[tactic(auto, using(crate::proofs::Answering::answered, crate::proofs::Idling::idling))]
pub fn check_repository<S: Store>(
    alloc: Global,
    store: &mut S,
    entries: &[Entry],
) -> Result<Done, Stop>
    requires { Rises [] (changes_of entries.now) }
    ensures answer { IsTrue S.tells_files → (meanings : Meanings) → AreMeanings meanings →
        IsAnswered (check_answer meanings (S.files store.old) (laid entries.now (S.files store.old))) result
        (S.files store.new) }
    ensures files { S.files store.new ≡ S.files store.old }
    ensures idle { Idle S.tells_images S.is_unsynced S.moment S.left_since S.image store.old store.new }
    ensures cause { result ≡ Err Stop.ReadFault → Rose (S.read_faults store.old) (S.read_faults store.new) }
    ensures stop { IfErr result IsReadStop }
{
    match list_paths(alloc, store, entries) {
        Ok(paths) => check_listed(alloc, store, entries, paths),
        Err(stop) => Err(stop),
    }
}
