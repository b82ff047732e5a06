// The kind of a file, by its path.
ghost use Rattle.std.specs.Prelude.{◌≡◌};
ghost use Rattle.kept_files.specs.Kinds.{begins_with_dot, ends_with, is_hidden, is_source, kind_by_ending, kind_of};

/// What a file is read as.
#[derive(Clone, Copy, Debug, PartialEq, Eq)]
pub enum FileKind {
    Java,
    Yaml,
    Properties,
    /// A file that isn't read.
    Other,
}

fn begins_with_dot(part: &[u8]) -> bool
    ensures { result ≡ begins_with_dot part.now }
{
    match part {
        [first, ..] => *first == b'.',
        [] => false,
    }
}

// Whether some part of the path begins with a dot.
fn is_hidden(path: &[u8]) -> bool
    ensures { result ≡ is_hidden path.now }
{
    path.split(|b| *b == b'/').any(|part| begins_with_dot(part))
}

/// Whether a path is that of a source file: no part of it begins with a dot, and it isn't `rewrite.yml`.
#[tactic(auto, unfolding(crate::specs::Kinds::is_source))]
pub fn is_source(path: &str) -> bool
    ensures { result ≡ is_source path.now }
{
    let bytes = path.as_bytes();
    !(is_hidden(bytes) || bytes == b"rewrite.yml".as_slice())
}

#[tactic(auto, unfolding(crate::specs::Kinds::ends_with))]
fn ends_with(path: &[u8], ending: &[u8]) -> bool
    ensures { result ≡ ends_with path.now ending.now }
{
    &path[path.len().saturating_sub(ending.len())..] == ending
}

#[tactic(auto, unfolding(crate::specs::Kinds::kind_by_ending))]
fn kind_by_ending(path: &[u8]) -> FileKind
    ensures { result ≡ kind_by_ending path.now }
{
    if ends_with(path, b".java") {
        FileKind::Java
    } else if ends_with(path, b".yml") || ends_with(path, b".yaml") {
        FileKind::Yaml
    } else if ends_with(path, b".properties") {
        FileKind::Properties
    } else {
        FileKind::Other
    }
}

/// The kind of the file at a path. The recipe file `rewrite.yml` and each path with a part that begins with a dot is of
/// the kind Other.
#[tactic(auto, unfolding(crate::specs::Kinds::kind_of))]
pub fn kind_of(path: &str) -> FileKind
    ensures { result ≡ kind_of path.now }
{
    if is_source(path) {
        kind_by_ending(path.as_bytes())
    } else {
        FileKind::Other
    }
}
