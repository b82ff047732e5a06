// The files of a repository with what they read as.
ghost use Rattle.std.specs.Prelude.{◌≡◌, ◌<◌, ◌≤◌, ◌+◌, ◌++◌, ◌∷◌, ◌^◌, ◌-◌, min, Some, take, drop, length};
ghost use Rattle.std.specs.Prelude.{IfOk, IfErr, IfSome, OnOk};
ghost use Rattle.std.specs.Option.{option_map};
ghost use Rattle.std.specs.Str.{bytes_eq};
ghost use Rattle.std.specs.Ordering.{nat_cmp};
ghost use Rattle.std.specs.Cmp.Lexicographic.{slice_cmp};
ghost use Rattle.rw_base.specs.Arena.{end_of};
ghost use Rattle.rw_base.specs.declared.leaves.TheConstants.{MOST_BYTES};
ghost use Rattle.properties_tree.specs.Layout.{tree_of};
ghost use Rattle.kept_files.specs.States.{State, AreKept, IsKept, file_at, has_path, held_by, held_bytes, put_file};
ghost use Rattle.kept_files.specs.States.{properties_in, tree_in, yaml_in};

use crate::file::KeptFile;
use crate::reading::Reading;
use properties_tree::PropertiesTree;
use rw_base::{Mem, Shared, Tree};
use std::alloc::Global;
use std::cmp::Ordering;

/// What recipes that need no types see of a repository: its files in the order of their paths.
pub trait KeptFiles: Sync {
    ghost files: { Self → State };

    /// How many files there are.
    fn file_count(&self) -> usize
        ensures count { result ≡ length (files self.now) }
        ensures kept { AreKept (files self.now) };

    /// The file of a number, which is below their count.
    fn file(&self, i: usize) -> &KeptFile
        requires { i < length (files self.now) }
        ensures file { result.now ≡ file_at (files self.now) i }
        ensures kept { IsKept result.now };
}

fn order_of(one: &KeptFile, other: &KeptFile) -> Ordering
    ensures { result ≡ slice_cmp nat_cmp one.now.path other.now.path }
{
    one.path.as_str().cmp(other.path.as_str())
}

// Where a file goes among others in the order of paths: the place of one with its path, or else the place before which
// it goes.
#[tactic(auto, using(crate::proofs::StateLaws::put_steps))]
fn place_for(files: &[Shared<KeptFile>], file: &KeptFile) -> Result<usize, usize>
    ensures at { IfOk result (λ at.
        put_file file.now files.now ≡ take at files.now ++ file.now ∷ drop (at + 1) files.now) }
    ensures inside { IfOk result (λ at. at < length files.now) }
    ensures before { IfErr result (λ at.
        put_file file.now files.now ≡ take at files.now ++ file.now ∷ drop at files.now) }
    ensures within { IfErr result (λ at. at ≤ length files.now) }
{
    for (at, other) in files.iter().enumerate() {
        match order_of(file, other.get()) {
            Ordering::Greater => {}
            Ordering::Equal => return Ok(at),
            Ordering::Less => return Err(at),
        }
    }
    Err(files.len())
}

/// Puts a file among others in the order of paths, in the place of one with its path.
#[tactic(auto, using(crate::proofs::StateLaws::put_ends))]
pub fn put_file(files: &mut Vec<Shared<KeptFile>>, file: Shared<KeptFile>) -> Mem<()>
    ensures put { OnOk result (files.new.items ≡ put_file file files.old.items) }
    ensures kept { AreKept files.old.items → IsKept file → OnOk result (AreKept files.new.items) }
{
    match place_for(files, file.get()) {
        Ok(at) => files[at] = file,
        Err(at) => files.insert(at, file)?,
    }
    Ok(())
}

// Whether a file has this path.
fn is_at(file: &KeptFile, path: &str) -> bool
    ensures { result ≡ bytes_eq file.now.path path.now }
{
    file.path.as_str() == path
}

/// Whether one of the files has this path.
#[tactic(auto, using(crate::proofs::StateLaws::any_by))]
pub fn has_path(files: &[Shared<KeptFile>], path: &str) -> bool
    ensures { result ≡ has_path files.now path.now }
{
    for file in files {
        if is_at(file.get(), path) {
            return true;
        }
    }
    false
}

fn held_by(file: &KeptFile) -> u64
    ensures { result ≡ held_by file.now }
{
    match &file.bytes {
        Some(bytes) => bytes.get().as_slice().len() as u64,
        None => 0,
    }
}

/// How many bytes files hold, or the last value of a u64 where that is less.
#[tactic(auto, using(crate::proofs::StateLaws::held))]
pub fn held_bytes(files: &[Shared<KeptFile>]) -> u64
    ensures { result ≡ min (held_bytes files.now) (2 ^ 64 - 1) }
{
    let mut held: u64 = 0;
    for file in files {
        held = held.saturating_add(held_by(file.get()));
    }
    held
}

/// The tree and the bytes of an accepted properties file; `None` for other files.
#[tactic(auto, using(crate::proofs::StateLaws::trees))]
pub fn properties_in(file: &KeptFile) -> Option<(&PropertiesTree, &[u8])>
    requires { IsKept file.now }
    ensures found { option_map (λ p. (p.0.now, p.1.now)) result ≡ properties_in file.now }
    ensures tree { IfSome result (λ p. p.0.now ≡ tree_of p.1.now) }
    ensures size { IfSome result (λ p. length p.1.now ≤ MOST_BYTES) }
    ensures read { IfSome result (λ p. tree_in file.now.reading ≡ Some p.0.now) }
    ensures bytes { IfSome result (λ p. file.now.bytes ≡ Some p.1.now) }
{
    match &file.reading {
        Reading::Properties(tree) => match &file.bytes {
            Some(bytes) => Some((tree, bytes.get().as_slice())),
            None => None,
        },
        Reading::Java(_) => None,
        Reading::Yaml(_) => None,
        Reading::Unread => None,
        Reading::Refused(_) => None,
    }
}

/// The tree and the bytes of an accepted YAML file; `None` for other files.
#[tactic(auto, using(crate::proofs::StateLaws::trees))]
pub fn yaml_in(file: &KeptFile) -> Option<(&Tree, &[u8])>
    requires { IsKept file.now }
    ensures found { option_map (λ p. (p.0.now, p.1.now)) result ≡ yaml_in file.now }
    ensures whole { IfSome result (λ p. length p.1.now ≡ end_of p.0.now) }
    ensures read { IfSome result (λ p. tree_in file.now.reading ≡ Some p.0.now) }
    ensures bytes { IfSome result (λ p. file.now.bytes ≡ Some p.1.now) }
{
    match &file.reading {
        Reading::Yaml(tree) => match &file.bytes {
            Some(bytes) => Some((tree, bytes.get().as_slice())),
            None => None,
        },
        Reading::Java(_) => None,
        Reading::Properties(_) => None,
        Reading::Unread => None,
        Reading::Refused(_) => None,
    }
}
