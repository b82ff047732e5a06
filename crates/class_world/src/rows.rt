// The rows of a world.
ghost use Rattle.std.specs.Prelude.{◌≡◌, IfOk, OnOk, ℕ, List, [], Some, map, if◌then◌else◌};
ghost use Rattle.dialogue.specs.Dialogue.{run};
ghost use Rattle.indexmap.specs.IndexMap.{get};
ghost use Rattle.jtypes.specs.World.{name_eq, world_of};
ghost use Rattle.declared_types.specs.Signatures.{fields_of, methods_of};
ghost use Rattle.class_world.specs.Once.{NamesDiffer};
ghost use Rattle.class_world.specs.Rows.{IsRow, rows_world};
ghost use Rattle.class_world.specs.Worlds.{fields_in, methods_in, headers as headers_of, world_of_types};

use crate::layers::{headers, headers_with_supertypes};
use crate::row::ClassRow;
use declared_types::{DeclaredType, ImplicitNames, fields_of_asking, methods_of_asking};
use indexmap::IndexMap;
use jtypes::{Asks, Classes, Header, Name};
use rw_base::{Mem, Shared};
use std::alloc::Global;

/// The row of a declared type: its members are resolved in a world of headers.
fn row_in<C: Classes>(
    alloc: Global,
    implicit: &ImplicitNames,
    declared: &DeclaredType,
    header: &Header,
    c: &C,
) -> Mem<ClassRow>
    ensures { IfOk result (λ row. IsRow row header.now
        (run (fields_of declared.now) (C.world c.now)) (run (methods_of declared.now) (C.world c.now))) }
{
    let mut asks = Asks::new(alloc);
    let fields = fields_of_asking(alloc, declared, c, &mut asks)?;
    let methods = methods_of_asking(alloc, implicit, declared, c, &mut asks)?;
    let row = ClassRow::new(header.copy()?, fields, methods)?;
    Ok(row)
}

fn put_row(alloc: Global, rows: &mut IndexMap<Name, Shared<ClassRow>>, row: ClassRow) -> Mem<()>
    ensures { OnOk result ((n : List ℕ) →
        get name_eq rows.new n ≡ (if name_eq row.header.name n then Some row else get name_eq rows.old n)) }
{
    let name = row.header.name.copy()?;
    let row = Shared::new(alloc, row)?;
    rows.insert(name, row)?;
    Ok(())
}

/// The rows of declared types, whose members are resolved in a world of headers.
fn rows_in<C: Classes>(
    alloc: Global,
    implicit: &ImplicitNames,
    types: &[&DeclaredType],
    headers: &[Header],
    c: &C,
) -> Mem<IndexMap<Name, Shared<ClassRow>>>
    requires names_differ { NamesDiffer (map (λ d. d.now) types.now) }
    requires headers_of_types { headers.now ≡ headers_of (map (λ d. d.now) types.now) }
    ensures { IfOk result (λ rows. rows_world rows ≡ world_of headers.now
        (fields_in (C.world c.now) (map (λ d. d.now) types.now))
        (methods_in (C.world c.now) (map (λ d. d.now) types.now))) }
{
    let mut rows = IndexMap::new(alloc);
    for at in 0..types.len() {
        let row = row_in(alloc, implicit, types[at], &headers[at], c)?;
        put_row(alloc, &mut rows, row)?;
    }
    Ok(rows)
}

/// The rows of declared types of which each has a name of its own, layer by layer.
pub(crate) fn rows_of_types(
    alloc: Global,
    types: &[&DeclaredType],
) -> Mem<IndexMap<Name, Shared<ClassRow>>>
    requires names_differ { NamesDiffer (map (λ d. d.now) types.now) }
    ensures { IfOk result (λ rows. rows_world rows ≡ world_of_types (map (λ d. d.now) types.now)) }
{
    let implicit = ImplicitNames::new(alloc)?;
    let headers = headers(alloc, &implicit, types)?;
    let below = headers_with_supertypes(alloc, headers.as_slice())?;
    let rows = rows_in(alloc, &implicit, types, headers.as_slice(), &below)?;
    Ok(rows)
}
