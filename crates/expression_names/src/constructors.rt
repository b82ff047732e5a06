// Calls of constructors.
ghost use Rattle.std.specs.Prelude.{◌≡◌, IfOk, OnOk};
ghost use Rattle.std.specs.Option.{option_copied};
ghost use Rattle.dialogue.specs.Told.{Told};
ghost use Rattle.jtypes.specs.World.{World};
ghost use Rattle.judging.specs.Judging.{Judged};
ghost use Rattle.expression_names.specs.Calls.{constructors_in, constructor_in, noting_chosen, constructing};

use crate::choice::chosen;
use j_names::{UnitContext, constructors_of_asking};
use j_overload::ArgType;
use jtypes::{Asks, Classes, MethodSig, Name};
use judging::{Log, Note};
use rw_base::Mem;
use sqlite_items::Items;
use std::alloc::Global;

/// The constructors of a class, if it's known.
fn constructors_in<C: Classes>(
    alloc: Global,
    cx: &UnitContext,
    class: Option<&Name>,
    c: &C,
    asks: &mut Asks,
) -> Mem<Items<MethodSig>>
    ensures { IfOk result (λ ms.
        Told (constructors_in cx.now (option_copied class.entry)) (C.world c.now) asks.old asks.new ms) }
{
    match class {
        Some(class) => {
            let all = constructors_of_asking(alloc, cx, class, c, asks)?;
            Ok(all)
        }
        None => Ok(Items::new(alloc)),
    }
}

/// The constructor of a class that arguments choose.
fn constructor_in<C: Classes>(
    alloc: Global,
    cx: &UnitContext,
    class: Option<&Name>,
    args: &[ArgType],
    c: &C,
    asks: &mut Asks,
) -> Mem<Option<MethodSig>>
    ensures { IfOk result (λ m. Told (constructor_in cx.now (option_copied class.entry) args.now)
        (C.world c.now) asks.old asks.new m) }
{
    let all = constructors_in(alloc, cx, class, c, asks)?;
    let constructor = chosen(alloc, all.as_slice(), args, c, asks)?;
    Ok(constructor)
}

/// Notes the constructor that is chosen, if any.
fn note_chosen(leaf: u32, constructor: Option<MethodSig>, log: &mut Log) -> Mem<()>
    ensures { OnOk result ((w : World) →
        Judged (noting_chosen leaf constructor) w log.old log.new (record {})) }
{
    if let Some(m) = constructor {
        log.note(Note::Chosen(leaf, m))?;
    }
    Ok(())
}

/// Judges the creation of an object of a class (JLS 15.9.3), or another call of its constructors. The constructor that
/// the arguments choose is noted as chosen at a leaf. A class that isn't known has none.
pub fn constructing<C: Classes>(
    alloc: Global,
    cx: &UnitContext,
    class: Option<&Name>,
    leaf: u32,
    args: &[ArgType],
    c: &C,
    log: &mut Log,
) -> Mem<()>
    ensures judged { OnOk result (
        Judged (constructing cx.now (option_copied class.entry) leaf args.now)
        (C.world c.now) log.old log.new (record {})) }
{
    let constructor = constructor_in(alloc, cx, class, args, c, &mut log.asks)?;
    note_chosen(leaf, constructor, log)?;
    Ok(())
}
