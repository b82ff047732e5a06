// The imports on demand that aren't static.
ghost use Rattle.std.specs.Prelude.{◌≡◌, IfOk};
ghost use Rattle.std.specs.Option.{option_copied};
ghost use Rattle.dialogue.specs.Told.{Told};
ghost use Rattle.j_names.specs.Names.{and_more, type_on_demand, java_lang, the_one, is_package_row, look_on_demand};

use crate::context::ImportRow;
use crate::members::{joined, type_at};
use crate::packages::OnDemand;
use jtypes::{Asks, Classes, Name, Symbol};
use rw_base::Mem;
use std::alloc::Global;

#[tactic(auto, unfolding(crate::specs::Names::java_lang))]
fn java_lang(alloc: Global) -> Mem<Name>
    ensures { IfOk result (λ name. name ≡ java_lang) }
{
    Name::new(alloc, b"java.lang")
}

/// What was found, and what one more look finds.
fn and_more(so_far: OnDemand, found: Option<Symbol>) -> OnDemand
    ensures { result ≡ and_more so_far found }
{
    match found {
        Some(Symbol::Kind(q)) => match so_far {
            OnDemand::Nothing => OnDemand::One(q),
            OnDemand::One(r) => {
                if q.is(&r) {
                    OnDemand::One(r)
                } else {
                    OnDemand::Several
                }
            }
            OnDemand::Several => OnDemand::Several,
        },
        _ => so_far,
    }
}

fn the_one(all: OnDemand) -> Option<Symbol>
    ensures { result ≡ the_one all }
{
    match all {
        OnDemand::Nothing => None,
        OnDemand::One(q) => Some(Symbol::Kind(q)),
        OnDemand::Several => None,
    }
}

fn is_package_row(row: &ImportRow) -> bool
    ensures { result ≡ is_package_row row.now }
{
    row.on_demand && !row.is_static
}

/// One more look, in a package or type.
fn look_in<C: Classes>(
    alloc: Global,
    top: Option<&Name>,
    scope: &Name,
    n: &Name,
    so_far: OnDemand,
    c: &C,
    asks: &mut Asks,
) -> Mem<OnDemand>
    ensures { IfOk result (λ all. Told (look_on_demand (option_copied top.entry) n.now so_far scope.now)
        (C.world c.now) asks.old asks.new all) }
{
    let name = joined(alloc, scope, n)?;
    let found = type_at(top, name, c, asks)?;
    Ok(and_more(so_far, found))
}

/// The type that exactly one import on demand has (JLS 7.5.2). All are asked.
pub(crate) fn type_on_demand<C: Classes>(
    alloc: Global,
    top: Option<&Name>,
    rows: &[ImportRow],
    n: &Name,
    c: &C,
    asks: &mut Asks,
) -> Mem<Option<Symbol>>
    ensures { IfOk result (λ s. Told (type_on_demand (option_copied top.entry) rows.now n.now)
        (C.world c.now) asks.old asks.new s) }
{
    let mut so_far = OnDemand::Nothing;
    for row in rows {
        if is_package_row(row) {
            so_far = look_in(alloc, top, &row.name, n, so_far, c, asks)?;
        }
    }
    let java_lang = java_lang(alloc)?;
    let all = look_in(alloc, top, &java_lang, n, so_far, c, asks)?;
    Ok(the_one(all))
}
