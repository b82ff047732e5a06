// The source files of a repository, and its stubs.
ghost use Rattle.std.specs.Prelude.{◌≡◌, ◌≤◌, ◌<◌, ◌+◌, ◌++◌, ◌||◌, [], ◌∷◌, ℕ, List, None, Some, true, false, IsTrue};
ghost use Rattle.std.specs.Prelude.{IfOk, IfErr, OnOk, Err};
ghost use Rattle.std.specs.Option.{option_map};
ghost use Rattle.std.specs.FinMap as map;
ghost use Rattle.rw_host.specs.Files.{Files, IsInOrder, Rose, first_bytes};
ghost use Rattle.journal_text.specs.Changes.{Rises, changes_of};
ghost use Rattle.j_repair.specs.Changes.{paths_of};
ghost use Rattle.rewrite_cli.specs.Sources.{bytes_at, bytes_read, count_counted, count_read, is_counted, is_read};
ghost use Rattle.rewrite_cli.specs.Sources.{source_at, sources_at, sources_of};
ghost use Rattle.rewrite_cli.specs.Stubs.{stub_at, stubs_at, stubs_of};
ghost use Rattle.rewrite_cli.specs.Limits.{limit_of};
ghost use Rattle.rewrite_cli.specs.Ends.{IsReadStop};
ghost use Rattle.rewrite_cli.specs.Journals.{laid};
ghost use Rattle.rewrite_cli.specs.Moments.{Idle};

use crate::limits::{Limit, MOST_FILES, MOST_IN_ALL, MOST_PATHS};
use crate::stop::Stop;
use crate::stubs::{Stub, is_stub};
use kept_files::{FileKind, is_source, kind_of};
use run_journal::Entry;
use rw_base::{MOST_BYTES, Mem, Text};
use rw_host::{PathText, SourceFile, Store};
use standing_files::{list_standing, read_standing};
use std::alloc::Global;

/// One byte more than a file may have, so that a file that is too large is seen to be.
pub const MOST_READ: u32 = MOST_BYTES as u32 + 1;

/// The source files of a repository and its stubs, each in the order of their paths.
#[derive(Drop)]
pub struct Sources {
    pub files: Vec<SourceFile>,
    pub stubs: Vec<Stub>,
}

// What was found so far, and how many bytes were read.
#[derive(Drop)]
struct Found {
    files: Vec<SourceFile>,
    stubs: Vec<Stub>,
    bytes: u64,
}

/// Whether the file at a path is read.
#[tactic(auto, unfolding(crate::specs::Sources::is_read))]
pub fn is_read(path: &str) -> bool
    ensures { result ≡ is_read path.now }
{
    match kind_of(path) {
        FileKind::Java | FileKind::Yaml | FileKind::Properties => true,
        FileKind::Other => false,
    }
}

/// How many of the files at these paths are read.
pub fn count_read(paths: &[PathText]) -> usize
    ensures { result ≡ count_read paths.now }
{
    let mut count = 0;
    for at in 0..paths.len() {
        if is_read(paths[at].as_str()) {
            count += 1;
        }
    }
    count
}

/// Whether the file at a path counts for the limits: one that is read, or a stub.
pub fn is_counted(path: &str) -> bool
    ensures { result ≡ is_counted path.now }
{
    is_read(path) || is_stub(path)
}

// How many of the files at these paths count.
fn count_counted(paths: &[PathText]) -> usize
    ensures { result ≡ count_counted paths.now }
{
    let mut count = 0;
    for at in 0..paths.len() {
        if is_counted(paths[at].as_str()) {
            count += 1;
        }
    }
    count
}

// Puts a source file that isn't read behind the others.
#[tactic(auto, using(crate::proofs::SourceSteps::found_at))]
fn push_unread(found: &mut Found, path: PathText) -> Mem<()>
    requires { is_counted path ≡ false }
    ensures files { (files : Files) → OnOk result (
        found.new.files.items ≡ found.old.files.items ++ source_at files path) }
    ensures stubs { (files : Files) → OnOk result (
        found.new.stubs.items ≡ found.old.stubs.items ++ stub_at files path) }
    ensures in_order { (others : List (List ℕ)) →
        IsInOrder (paths_of found.old.files.items ++ path ∷ others) →
        OnOk result (IsInOrder (paths_of found.new.files.items ++ others)) }
    ensures bytes { found.new.bytes ≡ found.old.bytes }
{
    if is_source(path.as_str()) {
        found.files.push(SourceFile { path, bytes: None })?;
    }
    Ok(())
}

// Puts a file of which these bytes were read behind the others: a stub, or a source file.
#[tactic(auto, using(crate::proofs::SourceSteps::found_at))]
fn push_read(found: &mut Found, path: PathText, bytes: Text) -> Mem<()>
    requires { is_counted path ≡ true }
    ensures files { (files : Files) → Some bytes ≡ option_map (first_bytes MOST_READ) (map.get files path) →
        OnOk result (found.new.files.items ≡ found.old.files.items ++ source_at files path) }
    ensures stubs { (files : Files) → Some bytes ≡ option_map (first_bytes MOST_READ) (map.get files path) →
        OnOk result (found.new.stubs.items ≡ found.old.stubs.items ++ stub_at files path) }
    ensures in_order { (others : List (List ℕ)) →
        IsInOrder (paths_of found.old.files.items ++ path ∷ others) →
        OnOk result (IsInOrder (paths_of found.new.files.items ++ others)) }
    ensures bytes { found.new.bytes ≡ found.old.bytes }
{
    if is_stub(path.as_str()) {
        found.stubs.push(Stub { path, bytes })?;
    } else {
        let bytes = Some(bytes);
        found.files.push(SourceFile { path, bytes })?;
    }
    Ok(())
}

// Reads the file at a path, where it is a source file that is read or a stub, and puts it behind the others.
#[tactic(auto, using(crate::proofs::SourceSteps::found_at, crate::proofs::FoundInFile::found_there, crate::proofs::Idling::idling))]
fn find_file<S: Store>(
    alloc: Global,
    store: &mut S,
    entries: &[Entry],
    found: &mut Found,
    path: PathText,
) -> Result<(), Stop>
    requires rises { Rises [] (changes_of entries.now) }
    requires in_limit { found.old.bytes ≤ MOST_IN_ALL }
    ensures files { IsTrue S.tells_files → OnOk result (
        found.new.files.items ≡ found.old.files.items ++ source_at (laid entries.now (S.files store.old)) path) }
    ensures stubs { IsTrue S.tells_files → OnOk result (
        found.new.stubs.items ≡ found.old.stubs.items ++ stub_at (laid entries.now (S.files store.old)) path) }
    ensures in_order { (others : List (List ℕ)) →
        IsInOrder (paths_of found.old.files.items ++ path ∷ others) →
        OnOk result (IsInOrder (paths_of found.new.files.items ++ others)) }
    ensures bytes { IsTrue S.tells_files → OnOk result (
        found.new.bytes ≡ found.old.bytes + bytes_at (laid entries.now (S.files store.old)) path) }
    ensures in_limit { OnOk result (found.new.bytes ≤ MOST_IN_ALL) }
    ensures past_limit { IsTrue S.tells_files → (limit : Limit) → result ≡ Err (Stop.Limit limit) →
        (limit ≡ Limit.Bytes) × (MOST_IN_ALL < found.old.bytes + bytes_at (laid entries.now (S.files store.old)) path) }
    ensures store_files { S.files store.new ≡ S.files store.old }
    ensures idle { Idle S.tells_images S.is_unsynced S.moment S.left_since S.image store.old store.new }
    ensures cause { result ≡ Err Stop.ReadFault → Rose (S.read_faults store.old) (S.read_faults store.new) }
    ensures stop { IfErr result IsReadStop }
    ensures count { S.read_faults store.old ≤ S.read_faults store.new }
    ensures other_count { S.write_faults store.new ≡ S.write_faults store.old }
{
    if !is_counted(path.as_str()) {
        push_unread(found, path)?;
        return Ok(());
    }
    let Some(bytes) = read_standing(alloc, store, entries, path.as_str(), MOST_READ)? else {
        return Ok(());
    };
    let all = found.bytes + bytes.len() as u64;
    if all > MOST_IN_ALL {
        return Err(Stop::Limit(Limit::Bytes));
    }
    push_read(found, path, Text::from_vec(bytes))?;
    found.bytes = all;
    Ok(())
}

// Reads the source files and the stubs at these paths.
#[tactic(auto, using(crate::proofs::Idling::idling))]
fn find_files<S: Store>(
    alloc: Global,
    store: &mut S,
    entries: &[Entry],
    paths: Vec<PathText>,
) -> Result<Sources, Stop>
    requires rises { Rises [] (changes_of entries.now) }
    requires in_order { IsInOrder paths.items }
    ensures files { IsTrue S.tells_files → IfOk result (λ sources.
        sources.files.items ≡ sources_at (laid entries.now (S.files store.old)) paths.items) }
    ensures stubs { IsTrue S.tells_files → IfOk result (λ sources.
        sources.stubs.items ≡ stubs_at (laid entries.now (S.files store.old)) paths.items) }
    ensures in_order { IfOk result (λ sources. IsInOrder (paths_of sources.files.items)) }
    ensures in_limit { IsTrue S.tells_files → OnOk result (
        bytes_read (laid entries.now (S.files store.old)) paths.items ≤ MOST_IN_ALL) }
    ensures past_limit { IsTrue S.tells_files → (limit : Limit) → result ≡ Err (Stop.Limit limit) →
        (limit ≡ Limit.Bytes) × (MOST_IN_ALL < bytes_read (laid entries.now (S.files store.old)) paths.items) }
    ensures store_files { S.files store.new ≡ S.files store.old }
    ensures idle { Idle S.tells_images S.is_unsynced S.moment S.left_since S.image store.old store.new }
    ensures cause { result ≡ Err Stop.ReadFault → Rose (S.read_faults store.old) (S.read_faults store.new) }
    ensures stop { IfErr result IsReadStop }
    ensures count { S.read_faults store.old ≤ S.read_faults store.new }
    ensures other_count { S.write_faults store.new ≡ S.write_faults store.old }
{
    let mut found = Found {
        files: Vec::new(alloc),
        stubs: Vec::new(alloc),
        bytes: 0,
    };
    for path in paths {
        find_file(alloc, store, entries, &mut found, path)?;
    }
    Ok(Sources {
        files: found.files,
        stubs: found.stubs,
    })
}

/// All paths of a store, where it has few enough, and few enough of them are those of files that count.
#[tactic(auto, using(crate::proofs::SourceSteps::all_listed, crate::proofs::Idling::idling))]
pub fn list_paths<S: Store>(
    alloc: Global,
    store: &mut S,
    entries: &[Entry],
) -> Result<Vec<PathText>, Stop>
    requires { Rises [] (changes_of entries.now) }
    ensures paths { IsTrue S.tells_files → IfOk result (λ paths.
        paths.items ≡ map.keys (laid entries.now (S.files store.old))) }
    ensures in_order { IfOk result (λ paths. IsInOrder paths.items) }
    ensures few_listed { IsTrue S.tells_files → OnOk result (map.len (S.files store.old) ≤ MOST_PATHS) }
    ensures few_paths { IsTrue S.tells_files →
        OnOk result (map.len (laid entries.now (S.files store.old)) ≤ MOST_PATHS) }
    ensures few_files { IsTrue S.tells_files →
        OnOk result (count_counted (map.keys (laid entries.now (S.files store.old))) ≤ MOST_FILES) }
    ensures past_limit { IsTrue S.tells_files → (limit : Limit) → result ≡ Err (Stop.Limit limit) →
        limit_of (S.files store.old) (laid entries.now (S.files store.old)) ≡ Some limit }
    ensures store_files { S.files store.new ≡ S.files store.old }
    ensures idle { Idle S.tells_images S.is_unsynced S.moment S.left_since S.image store.old store.new }
    ensures cause { result ≡ Err Stop.ReadFault → Rose (S.read_faults store.old) (S.read_faults store.new) }
    ensures stop { IfErr result IsReadStop }
    ensures count { S.read_faults store.old ≤ S.read_faults store.new }
    ensures other_count { S.write_faults store.new ≡ S.write_faults store.old }
{
    match list_standing(alloc, store, entries, MOST_PATHS) {
        Ok(paths) => {
            if count_counted(&paths) > MOST_FILES {
                return Err(Stop::Limit(Limit::Files));
            }
            Ok(paths)
        }
        Err(fault) => Err(Stop::from(fault)),
    }
}

/// The source files and the stubs of a store, each with the bytes that are read of it.
#[tactic(auto, using(crate::proofs::SourceSteps::all_found, crate::proofs::Idling::idling))]
pub fn read_sources<S: Store>(
    alloc: Global,
    store: &mut S,
    entries: &[Entry],
) -> Result<Sources, Stop>
    requires { Rises [] (changes_of entries.now) }
    ensures files { IsTrue S.tells_files → IfOk result (λ sources.
        sources.files.items ≡ sources_of (laid entries.now (S.files store.old))) }
    ensures stubs { IsTrue S.tells_files → IfOk result (λ sources.
        sources.stubs.items ≡ stubs_of (laid entries.now (S.files store.old))) }
    ensures in_order { IfOk result (λ sources. IsInOrder (paths_of sources.files.items)) }
    ensures in_limits { IsTrue S.tells_files → OnOk result (
        limit_of (S.files store.old) (laid entries.now (S.files store.old)) ≡ None) }
    ensures past_limit { IsTrue S.tells_files → (limit : Limit) → result ≡ Err (Stop.Limit limit) →
        limit_of (S.files store.old) (laid entries.now (S.files store.old)) ≡ Some limit }
    ensures store_files { S.files store.new ≡ S.files store.old }
    ensures idle { Idle S.tells_images S.is_unsynced S.moment S.left_since S.image store.old store.new }
    ensures cause { result ≡ Err Stop.ReadFault → Rose (S.read_faults store.old) (S.read_faults store.new) }
    ensures stop { IfErr result IsReadStop }
    ensures count { S.read_faults store.old ≤ S.read_faults store.new }
    ensures other_count { S.write_faults store.new ≡ S.write_faults store.old }
{
    let paths = list_paths(alloc, store, entries)?;
    match find_files(alloc, store, entries, paths) {
        Ok(sources) => Ok(sources),
        Err(stop) => Err(stop),
    }
}
