// The name in a package declaration.
ghost use Rattle.std.specs.Prelude.{◌≡◌, ◌++◌, [], IfOk, OnOk};
ghost use Rattle.j_names.specs.Members.{joined};
ghost use Rattle.type_positions.specs.Declarations.{package_notes};

use crate::names::NamedLeaf;
use jtypes::{Name, Symbol};
use judging::{Log, Note};
use rw_base::Mem;
use std::alloc::Global;

/// A name behind a dot; the package without a name adds nothing.
fn joined(alloc: Global, outer: &Name, name: &Name) -> Mem<Name>
    ensures { IfOk result (λ n. n ≡ joined outer.now name.now) }
{
    if outer.as_slice().is_empty() {
        return name.copy();
    }
    let mut text = Vec::from_slice(alloc, outer.as_slice())?;
    text.push(b'.')?;
    text.extend_from_slice(name.as_slice())?;
    let joined = Name::new(alloc, text.as_slice())?;
    Ok(joined)
}

/// Notes what the leaves of a package declaration mean (JLS 7.4.1): each is the package up to it. Nothing is asked.
pub fn package_name(alloc: Global, names: &[NamedLeaf], log: &mut Log) -> Mem<()>
    ensures notes { OnOk result (log.new.notes ≡ log.old.notes ++ package_notes [] names.now) }
    ensures asks { log.new.asks ≡ log.old.asks }
{
    let mut package = Name::new(alloc, b"")?;
    for part in names {
        package = joined(alloc, &package, &part.name)?;
        log.note(Note::Symbol(part.leaf, Symbol::Package(package.copy()?)))?;
    }
    Ok(())
}
