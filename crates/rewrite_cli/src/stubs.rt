// Stubs: which paths are theirs, and what is kept of one.
ghost use Rattle.std.specs.Prelude.{◌≡◌};
ghost use Rattle.kept_files.specs.Kinds.{ends_with};
ghost use Rattle.rewrite_cli.specs.Stubs.{is_stub, is_stub_name};

use rw_base::Text;
use rw_host::PathText;

/// The path at which a stub is read: that of some Java file, since its own is that of no file which is read.
pub const STUB_NAME: &str = "Stub.java";

/// A stub: its path, and the bytes that are read of it.
#[derive(Drop)]
pub struct Stub {
    pub path: PathText,
    pub bytes: Text,
}

#[tactic(auto, unfolding(kept_files::specs::Kinds::ends_with))]
fn ends_with(name: &[u8], ending: &[u8]) -> bool
    ensures { result ≡ ends_with name.now ending.now }
{
    &name[name.len().saturating_sub(ending.len())..] == ending
}

// Whether a name in the folder of stubs is that of one: one or more characters other than `/`, and then `.java`.
fn is_stub_name(name: &[u8]) -> bool
    ensures { result ≡ is_stub_name name.now }
{
    name.len() > 5 && ends_with(name, b".java") && !name.contains(&b'/')
}

/// Whether a path is that of a stub: `.rewrite/classpath/NAME.java`.
#[tactic(auto, unfolding(crate::specs::Stubs::is_stub))]
pub fn is_stub(path: &str) -> bool
    ensures { result ≡ is_stub path.now }
{
    match path.as_bytes().strip_prefix(b".rewrite/classpath/") {
        Some(name) => is_stub_name(name),
        None => false,
    }
}
