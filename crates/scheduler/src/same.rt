// Whether files are the same.
ghost use Rattle.std.specs.Prelude.{◌≡◌, ◌<◌, length};
ghost use Rattle.std.specs.Str.{bytes_eq};
ghost use Rattle.kept_files.specs.States.{file_at};
ghost use Rattle.scheduler.specs.Runs.{same_bytes, same_file, same_files};

use crate::settle::is_beside;
use kept_files::KeptFile;
use rw_base::{Shared, Text};

fn is_same(one: &[u8], other: &[u8]) -> bool
    ensures { result ≡ bytes_eq one.now other.now }
{
    one == other
}

fn same_bytes(one: &Option<Shared<Text>>, other: &Option<Shared<Text>>) -> bool
    ensures { result ≡ same_bytes one.now other.now }
{
    match one {
        None => match other {
            None => true,
            Some(_) => false,
        },
        Some(one) => match other {
            None => false,
            Some(other) => is_same(one.get().as_slice(), other.get().as_slice()),
        },
    }
}

fn same_file(one: &KeptFile, other: &KeptFile) -> bool
    ensures { result ≡ same_file one.now other.now }
{
    is_beside(one, other) && same_bytes(&one.bytes, &other.bytes)
}

#[tactic(auto, using(crate::proofs::SameFiles::same_is))]
fn same_at(one: &[Shared<KeptFile>], other: &[Shared<KeptFile>], at: usize) -> bool
    requires one { at < length one.now }
    requires other { at < length other.now }
    ensures { result ≡ same_file (file_at one.now at) (file_at other.now at) }
{
    same_file(one[at].get(), other[at].get())
}

/// Whether two states have the same paths and bytes.
#[tactic(auto, using(crate::proofs::SameFiles::same_by))]
pub(crate) fn same_files(one: &[Shared<KeptFile>], other: &[Shared<KeptFile>]) -> bool
    ensures { result ≡ same_files one.now other.now }
{
    if one.len() != other.len() {
        return false;
    }
    for at in 0..one.len() {
        if !same_at(one, other, at) {
            return false;
        }
    }
    true
}
