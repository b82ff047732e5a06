// Paths of files.
ghost use Rattle.std.specs.Prelude.{◌≡◌, ◌↔◌, List, ℕ, ◌==◌, not, nat_lt, IsTrue, IsSome, IfSome, IfOk, string_bytes};
ghost use Rattle.std.specs.List.{list_all, slice_split};
ghost use Rattle.rw_host.specs.Path.{is_part, is_path};

use rw_base::Mem;
use std::alloc::Global;
use std::marker::Model;

/// A path: parts joined by `/`, none of them empty, `.` or `..`, and no character below U+0020. Contracts see its
/// bytes, by which paths are ordered.
#[derive(Debug, Drop)]
pub struct PathText {
    text: String,
}

impl Model for PathText {
    ghost Value = { List ℕ };

    ghost view = { λ p. string_bytes p.text };

    ghost invariant = { λ p. IsTrue (is_path (string_bytes p.text)) };
}

impl PathText {
    /// The path with this text, or `None` where the text isn't a path.
    pub fn new(alloc: Global, text: &str) -> Mem<Option<PathText>>
        ensures path { IfOk result (λ made. IsSome made ↔ IsTrue (is_path text.now)) }
        ensures bytes { IfOk result (λ made. IfSome made (λ path. path ≡ text.now)) }
    {
        if is_path(text) {
            let text = String::from_str(alloc, text)?;
            Ok(Some(PathText { text }))
        } else {
            Ok(None)
        }
    }

    /// The text.
    pub fn as_str(&self) -> &str
        ensures bytes { result.now ≡ self.now }
        ensures path { IsTrue (is_path result.now) }
    {
        self.text.as_str()
    }

    // The path with this text, which needs no memory.
    pub(crate) fn from_text(text: String) -> Option<PathText>
        ensures path { IsSome result ↔ IsTrue (is_path (string_bytes text)) }
        ensures bytes { IfSome result (λ path. path ≡ string_bytes text) }
    {
        if is_path(text.as_str()) {
            Some(PathText { text })
        } else {
            None
        }
    }

    /// The same path again.
    pub fn copy(&self, alloc: Global) -> Mem<PathText>
        ensures { IfOk result (λ copy. copy ≡ self.now) }
    {
        let text = String::from_str(alloc, self.text.as_str())?;
        Ok(PathText { text })
    }
}

pub(crate) fn is_path(text: &str) -> bool
    ensures { result ≡ is_path text.now }
{
    let bytes = text.as_bytes();
    has_no_control(bytes) && has_only_parts(bytes)
}

fn has_no_control(text: &[u8]) -> bool
    ensures { result ≡ list_all (λ b. not (nat_lt b 32)) text.now }
{
    text.iter().all(|b| *b >= 32)
}

fn has_only_parts(text: &[u8]) -> bool
    ensures { result ≡ list_all is_part (slice_split (λ b. b == 47) text.now) }
{
    text.split(|b| *b == b'/').all(|part| is_part(part))
}

fn is_part(part: &[u8]) -> bool
    ensures { result ≡ is_part part.now }
{
    match part {
        [] => false,
        [a] => *a != b'.',
        [a, b] => !(*a == b'.' && *b == b'.'),
        _ => true,
    }
}
