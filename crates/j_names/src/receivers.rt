// Which methods a call with a receiver may mean.
ghost use Rattle.std.specs.Prelude.{◌≡◌, IfOk};
ghost use Rattle.dialogue.specs.Told.{Told};
ghost use Rattle.jtypes.specs.Subtype.{object_name};
ghost use Rattle.j_names.specs.Calls.{methods_behind};
ghost use Rattle.j_names.specs.Members.{methods_of};
ghost use Rattle.j_names.specs.Names.{top_around};

use crate::context::UnitContext;
use crate::methods::methods_of;
use crate::places::top_around;
use crate::walk::object;
use jtypes::{Asks, Classes, JType, MethodSig, Name};
use rw_base::Mem;
use sqlite_items::Items;
use std::alloc::Global;

/// The methods of a name that a class has (JLS 8.4.8), its own and inherited ones in the order of the walk, with the
/// questions of the walk put to `asks`.
pub fn methods_of_asking<C: Classes>(
    alloc: Global,
    cx: &UnitContext,
    class: &Name,
    name: &Name,
    c: &C,
    asks: &mut Asks,
) -> Mem<Items<MethodSig>>
    ensures told { IfOk result (λ ms.
        Told (methods_of (top_around cx.now) name.now class.now) (C.world c.now) asks.old asks.new ms) }
{
    let top = top_around(cx);
    let methods = methods_of(alloc, top, name, class, c, asks)?;
    Ok(methods)
}

/// The methods of a name that Object has.
fn methods_of_object<C: Classes>(
    alloc: Global,
    cx: &UnitContext,
    name: &Name,
    c: &C,
    asks: &mut Asks,
) -> Mem<Items<MethodSig>>
    ensures { IfOk result (λ ms.
        Told (methods_of (top_around cx.now) name.now object_name) (C.world c.now) asks.old asks.new ms) }
{
    let top = top_around(cx);
    let object = object(alloc)?;
    let methods = methods_of(alloc, top, name, &object, c, asks)?;
    Ok(methods)
}

/// The methods of a name that a receiver of a type has (JLS 15.12.1), with the questions of the walk put to `asks`:
/// those of its class, those of Object for an array, else none.
#[tactic(auto, unfolding(crate::specs::Calls::methods_behind))]
pub fn methods_behind_asking<C: Classes>(
    alloc: Global,
    cx: &UnitContext,
    ty: &JType,
    name: &Name,
    c: &C,
    asks: &mut Asks,
) -> Mem<Items<MethodSig>>
    ensures told { IfOk result (λ ms.
        Told (methods_behind (top_around cx.now) ty.now name.now) (C.world c.now) asks.old asks.new ms) }
{
    match ty {
        JType::Class(class) => {
            let methods = methods_of_asking(alloc, cx, class, name, c, asks)?;
            Ok(methods)
        }
        JType::Array(_) => {
            let methods = methods_of_object(alloc, cx, name, c, asks)?;
            Ok(methods)
        }
        _ => Ok(Items::new(alloc)),
    }
}
