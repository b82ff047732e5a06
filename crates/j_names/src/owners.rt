// The classes whose static members are imported.
ghost use Rattle.std.specs.Prelude.{◌≡◌, ◌≤◌, ◌++◌, OnOk, IfOk, length, drop, map, filter};
ghost use Rattle.jtypes.specs.World.{name_eq};
ghost use Rattle.j_names.specs.Names.{last_part, front_part, is_static_of, is_static_on_demand, static_owners};

use crate::context::ImportRow;
use jtypes::Name;
use rw_base::Mem;
use sqlite_items::Items;
use std::alloc::Global;

/// Where the part behind the last dot begins.
fn last_start(text: &[u8]) -> usize
    ensures within { result ≤ length text.now }
    ensures part { drop result text.now ≡ last_part text.now }
{
    let mut start = 0;
    for (at, letter) in text.iter().enumerate() {
        if *letter == b'.' {
            start = at + 1;
        }
    }
    start
}

/// Whether a qualified name ends with a simple one.
pub(crate) fn has_last_part(name: &Name, n: &Name) -> bool
    ensures { result ≡ name_eq (last_part name.now) n.now }
{
    let text = name.as_slice();
    &text[last_start(text)..] == n.as_slice()
}

/// The text in front of the last dot.
fn front_part(alloc: Global, name: &Name) -> Mem<Name>
    ensures { IfOk result (λ front. front ≡ front_part name.now) }
{
    let text = name.as_slice();
    let end = last_start(text).saturating_sub(1);
    let front = Name::new(alloc, &text[..end])?;
    Ok(front)
}

fn is_static_of(n: &Name, row: &ImportRow) -> bool
    ensures { result ≡ is_static_of n.now row.now }
{
    row.is_static && !row.on_demand && has_last_part(&row.name, n)
}

fn is_static_on_demand(row: &ImportRow) -> bool
    ensures { result ≡ is_static_on_demand row.now }
{
    row.is_static && row.on_demand
}

fn put_single(alloc: Global, rows: &[ImportRow], n: &Name, owners: &mut Vec<Name>) -> Mem<()>
    ensures { OnOk result (owners.new.items
        ≡ owners.old.items ++ map (λ row. front_part row.name) (filter (is_static_of n.now) rows.now)) }
{
    for row in rows {
        if is_static_of(n, row) {
            owners.push(front_part(alloc, &row.name)?)?;
        }
    }
    Ok(())
}

fn put_on_demand(rows: &[ImportRow], owners: &mut Vec<Name>) -> Mem<()>
    ensures { OnOk result (owners.new.items
        ≡ owners.old.items ++ map (λ row. row.name) (filter is_static_on_demand rows.now)) }
{
    for row in rows {
        if is_static_on_demand(row) {
            owners.push(row.name.copy()?)?;
        }
    }
    Ok(())
}

/// The classes of single static imports of a name, and then those of static imports on demand (JLS 7.5.3, 7.5.4).
pub(crate) fn static_owners(alloc: Global, rows: &[ImportRow], n: &Name) -> Mem<Items<Name>>
    ensures { IfOk result (λ owners. owners ≡ static_owners rows.now n.now) }
{
    let mut owners = Vec::new(alloc);
    put_single(alloc, rows, n, &mut owners)?;
    put_on_demand(rows, &mut owners)?;
    Ok(Items::from_vec(owners))
}
