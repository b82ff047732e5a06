// Calls of methods.
ghost use Rattle.std.specs.Prelude.{◌≡◌, IfOk};
ghost use Rattle.dialogue.specs.Told.{Told};
ghost use Rattle.jtypes.specs.World.{World};
ghost use Rattle.judging.specs.Judging.{Judged};
ghost use Rattle.expression_names.specs.Calls.{result_of, chosen_called, method_called, call};
ghost use Rattle.expression_names.specs.Calls.{methods_behind, method_behind, call_behind};

use crate::choice::chosen;
use crate::denoted::Denoted;
use j_names::{
    Called, Frames, UnitContext, called_asking, methods_behind_asking, methods_of_asking,
};
use j_overload::ArgType;
use jtypes::{Asks, Classes, JType, MethodSig, Name, Symbol};
use judging::{Log, Note};
use rw_base::Mem;
use sqlite_items::Items;
use std::alloc::Global;

/// Notes the method of a call, and gives the type of the call.
fn note_result(leaf: u32, method: Option<MethodSig>, log: &mut Log) -> Mem<JType>
    ensures { IfOk result (λ ty. (w : World) → Judged (result_of leaf method) w log.old log.new ty) }
{
    let Some(m) = method else {
        log.note(Note::Symbol(leaf, Symbol::Unknown))?;
        return Ok(JType::Unknown);
    };
    let ty = m.result.copy()?;
    log.note(Note::Symbol(leaf, Symbol::Method(m.copy()?)))?;
    log.note(Note::Chosen(leaf, m))?;
    Ok(ty)
}

/// The method that arguments choose among those that a call without receiver may mean.
fn chosen_called<C: Classes>(
    alloc: Global,
    called: &Called,
    args: &[ArgType],
    c: &C,
    asks: &mut Asks,
) -> Mem<Option<MethodSig>>
    ensures { IfOk result (λ m.
        Told (chosen_called args.now called.now) (C.world c.now) asks.old asks.new m) }
{
    match called {
        Called::Methods(methods) => {
            let method = chosen(alloc, methods.as_slice(), args, c, asks)?;
            Ok(method)
        }
        Called::Unknown => Ok(None),
    }
}

/// The method of a call without receiver.
fn method_called<C: Classes>(
    alloc: Global,
    cx: &UnitContext,
    frames: &Frames,
    name: &Name,
    args: &[ArgType],
    c: &C,
    asks: &mut Asks,
) -> Mem<Option<MethodSig>>
    ensures { IfOk result (λ m.
        Told (method_called cx.now frames.now name.now args.now) (C.world c.now) asks.old asks.new m) }
{
    let called = called_asking(alloc, cx, frames, name, c, asks)?;
    let method = chosen_called(alloc, &called, args, c, asks)?;
    Ok(method)
}

/// Judges a call without receiver (JLS 15.12.1), and gives its type. The method that the arguments choose is noted at
/// the leaf of the name, as its meaning and as chosen.
pub fn call<C: Classes>(
    alloc: Global,
    cx: &UnitContext,
    frames: &Frames,
    leaf: u32,
    name: &Name,
    args: &[ArgType],
    c: &C,
    log: &mut Log,
) -> Mem<JType>
    ensures judged { IfOk result (λ ty.
        Judged (call cx.now frames.now leaf name.now args.now) (C.world c.now) log.old log.new ty) }
{
    let method = method_called(alloc, cx, frames, name, args, c, &mut log.asks)?;
    let ty = note_result(leaf, method, log)?;
    Ok(ty)
}

/// The methods of a name that a receiver has.
fn methods_behind<C: Classes>(
    alloc: Global,
    cx: &UnitContext,
    before: &Denoted,
    name: &Name,
    c: &C,
    asks: &mut Asks,
) -> Mem<Items<MethodSig>>
    ensures { IfOk result (λ ms.
        Told (methods_behind cx.now before.now name.now) (C.world c.now) asks.old asks.new ms) }
{
    match before {
        Denoted::Package(_) => Ok(Items::new(alloc)),
        Denoted::Class(class) => {
            let methods = methods_of_asking(alloc, cx, class, name, c, asks)?;
            Ok(methods)
        }
        Denoted::Expr(ty) => {
            let methods = methods_behind_asking(alloc, cx, ty, name, c, asks)?;
            Ok(methods)
        }
    }
}

/// The method of a call with a receiver.
fn method_behind<C: Classes>(
    alloc: Global,
    cx: &UnitContext,
    before: &Denoted,
    name: &Name,
    args: &[ArgType],
    c: &C,
    asks: &mut Asks,
) -> Mem<Option<MethodSig>>
    ensures { IfOk result (λ m.
        Told (method_behind cx.now before.now name.now args.now) (C.world c.now) asks.old asks.new m) }
{
    let methods = methods_behind(alloc, cx, before, name, c, asks)?;
    let method = chosen(alloc, methods.as_slice(), args, c, asks)?;
    Ok(method)
}

/// Judges a call behind a dot (JLS 15.12.1), and gives its type. The method that the arguments choose is noted at the
/// leaf of the name, as its meaning and as chosen.
pub fn call_behind<C: Classes>(
    alloc: Global,
    cx: &UnitContext,
    before: &Denoted,
    leaf: u32,
    name: &Name,
    args: &[ArgType],
    c: &C,
    log: &mut Log,
) -> Mem<JType>
    ensures judged { IfOk result (λ ty.
        Judged (call_behind cx.now before.now leaf name.now args.now) (C.world c.now) log.old log.new ty) }
{
    let method = method_behind(alloc, cx, before, name, args, c, &mut log.asks)?;
    let ty = note_result(leaf, method, log)?;
    Ok(ty)
}
