// What the context of a unit and its imports say.
ghost use Rattle.std.specs.Prelude.{◌≡◌, IfOk};
ghost use Rattle.std.specs.Option.{option_copied};
ghost use Rattle.jtypes.specs.World.{name_eq};
ghost use Rattle.j_names.specs.Names.{top_around, first_kind, imports_type};
ghost use Rattle.j_names.specs.Walk.{is_in};

use crate::context::{ImportRow, UnitContext};
use crate::owners::has_last_part;
use jtypes::{Name, Symbol};
use rw_base::Mem;

/// The top-level class around a place.
pub(crate) fn top_around(cx: &UnitContext) -> Option<&Name>
    ensures { option_copied result ≡ top_around cx.now }
{
    match cx.enclosing.as_slice().first() {
        Some(e) => Some(&e.name),
        None => None,
    }
}

pub(crate) fn is_name(a: &Name, b: &Name) -> bool
    ensures { result ≡ name_eq a.now b.now }
{
    a.as_slice() == b.as_slice()
}

pub(crate) fn is_among(names: &[Name], n: &Name) -> bool
    ensures { result ≡ is_in names.now n.now }
{
    for name in names {
        if is_name(n, name) {
            return true;
        }
    }
    false
}

fn imports_type(n: &Name, row: &ImportRow) -> bool
    ensures { result ≡ imports_type n.now row.now }
{
    !row.is_static && !row.on_demand && has_last_part(&row.name, n)
}

/// The type that a single import brings in by a name (JLS 7.5.1).
pub(crate) fn type_imported(rows: &[ImportRow], n: &Name) -> Mem<Option<Symbol>>
    ensures { IfOk result (λ s. s ≡ first_kind n.now rows.now) }
{
    for row in rows {
        if imports_type(n, row) {
            return Ok(Some(Symbol::Kind(row.name.copy()?)));
        }
    }
    Ok(None)
}
