// Which methods a call without receiver may mean.
ghost use Rattle.std.specs.Prelude.{◌≡◌, ◌∷◌, ◌++◌, [], IfOk, OnOk, Option, Some, None, map, filter, if◌then◌else◌};
ghost use Rattle.std.specs.Option.{option_copied};
ghost use Rattle.dialogue.specs.Dialogue.{first_found};
ghost use Rattle.dialogue.specs.Told.{Told};
ghost use Rattle.j_names.specs.Calls.{some_of, found_in, inherited_call, call_in_frame, call_in_class, and_static};
ghost use Rattle.j_names.specs.Calls.{static_methods, call_meant, called};
ghost use Rattle.j_names.specs.Members.{methods_of, methods_inherited};
ghost use Rattle.j_names.specs.Names.{outward, or_else};

use crate::called::Called;
use crate::context::{EnclosingClass, Frame, UnitContext};
use crate::frames::Frames;
use crate::methods::{methods_inherited, methods_of};
use crate::owners::static_owners;
use crate::places::{is_among, top_around};
use jtypes::{Asks, Classes, MethodSig, Name};
use rw_base::Mem;
use sqlite_items::Items;
use std::alloc::Global;

/// Methods are found where there are some.
fn some_of(methods: Items<MethodSig>) -> Option<Called>
    ensures { result ≡ some_of methods }
{
    if methods.is_empty() {
        return None;
    }
    Some(Called::Methods(methods))
}

/// The methods of a name that a class has, if any.
fn call_in_body<C: Classes>(
    alloc: Global,
    top: Option<&Name>,
    n: &Name,
    name: &Name,
    c: &C,
    asks: &mut Asks,
) -> Mem<Option<Called>>
    ensures { IfOk result (λ o. Told (found_in (methods_of (option_copied top.entry) n.now name.now))
        (C.world c.now) asks.old asks.new o) }
{
    let methods = methods_of(alloc, top, n, name, c, asks)?;
    Ok(some_of(methods))
}

/// The methods of a name that a class hands on to a local or anonymous class, if any.
fn call_handed_on<C: Classes>(
    alloc: Global,
    top: Option<&Name>,
    n: &Name,
    supertype: &Name,
    c: &C,
    asks: &mut Asks,
) -> Mem<Option<Called>>
    ensures { IfOk result (λ o. Told (found_in (methods_inherited (option_copied top.entry) n.now supertype.now))
        (C.world c.now) asks.old asks.new o) }
{
    let methods = methods_inherited(alloc, top, n, supertype, c, asks)?;
    Ok(some_of(methods))
}

/// The methods of a name that the named supertype of a local or anonymous class has, if any.
fn inherited_call<C: Classes>(
    alloc: Global,
    top: Option<&Name>,
    n: &Name,
    supertype: &Option<Name>,
    c: &C,
    asks: &mut Asks,
) -> Mem<Option<Called>>
    ensures { IfOk result (λ o. Told (inherited_call (option_copied top.entry) n.now supertype.now)
        (C.world c.now) asks.old asks.new o) }
{
    match supertype {
        Some(t) => {
            let found = call_handed_on(alloc, top, n, t, c, asks)?;
            Ok(found)
        }
        None => Ok(None),
    }
}

fn call_in_frame<C: Classes>(
    alloc: Global,
    top: Option<&Name>,
    n: &Name,
    frame: &Frame,
    c: &C,
    asks: &mut Asks,
) -> Mem<Option<Called>>
    ensures { IfOk result (λ o. Told (call_in_frame (option_copied top.entry) n.now frame.now)
        (C.world c.now) asks.old asks.new o) }
{
    match frame {
        Frame::Local { .. } => Ok(None),
        Frame::TypeParam { .. } => Ok(None),
        Frame::Class { name } => {
            let found = call_in_body(alloc, top, n, name, c, asks)?;
            Ok(found)
        }
        Frame::LocalBody {
            supertype,
            methods,
            ..
        } => {
            if is_among(methods.as_slice(), n) {
                return Ok(Some(Called::Unknown));
            }
            let found = inherited_call(alloc, top, n, supertype, c, asks)?;
            Ok(found)
        }
        Frame::Declared { .. } => Ok(None),
    }
}

fn call_in_frames<C: Classes>(
    alloc: Global,
    top: Option<&Name>,
    n: &Name,
    frames: &Frames,
    c: &C,
    asks: &mut Asks,
) -> Mem<Option<Called>>
    ensures { IfOk result (λ o.
        Told (first_found (map (call_in_frame (option_copied top.entry) n.now) (outward frames.now)))
        (C.world c.now) asks.old asks.new o) }
{
    let mut end = frames.len();
    while let Some(at) = frames.last_before(n, end) {
        if let Some(s) = call_in_frame(alloc, top, n, &frames.as_slice()[at], c, asks)? {
            return Ok(Some(s));
        }
        end = at;
    }
    Ok(None)
}

fn call_in_class<C: Classes>(
    alloc: Global,
    top: Option<&Name>,
    n: &Name,
    e: &EnclosingClass,
    c: &C,
    asks: &mut Asks,
) -> Mem<Option<Called>>
    ensures { IfOk result (λ o. Told (call_in_class (option_copied top.entry) n.now e.now)
        (C.world c.now) asks.old asks.new o) }
{
    let found = call_in_body(alloc, top, n, &e.name, c, asks)?;
    Ok(found)
}

fn call_in_classes<C: Classes>(
    alloc: Global,
    top: Option<&Name>,
    n: &Name,
    classes: &[EnclosingClass],
    c: &C,
    asks: &mut Asks,
) -> Mem<Option<Called>>
    ensures { IfOk result (λ o.
        Told (first_found (map (call_in_class (option_copied top.entry) n.now) (outward classes.now)))
        (C.world c.now) asks.old asks.new o) }
{
    for i in (0..classes.len()).rev() {
        if let Some(s) = call_in_class(alloc, top, n, &classes[i], c, asks)? {
            return Ok(Some(s));
        }
    }
    Ok(None)
}

/// Puts those of some methods that are static.
fn put_static(methods: &[MethodSig], found: &mut Items<MethodSig>) -> Mem<()>
    ensures { OnOk result (found.new ≡ found.old ++ filter (λ m. m.is_static) methods.now) }
{
    for m in methods {
        if m.is_static {
            found.push(m.copy()?)?;
        }
    }
    Ok(())
}

/// Puts the static methods of a name that one more class has.
fn and_static<C: Classes>(
    alloc: Global,
    top: Option<&Name>,
    n: &Name,
    owner: &Name,
    c: &C,
    asks: &mut Asks,
    found: &mut Items<MethodSig>,
) -> Mem<()>
    ensures { OnOk result (Told (and_static (option_copied top.entry) n.now found.old owner.now)
        (C.world c.now) asks.old asks.new found.new) }
{
    let methods = methods_of(alloc, top, n, owner, c, asks)?;
    put_static(methods.as_slice(), found)?;
    Ok(())
}

/// The static methods of a name that some classes have, in order.
fn static_methods<C: Classes>(
    alloc: Global,
    top: Option<&Name>,
    n: &Name,
    owners: &[Name],
    c: &C,
    asks: &mut Asks,
) -> Mem<Items<MethodSig>>
    ensures { IfOk result (λ ms. Told (static_methods (option_copied top.entry) n.now owners.now)
        (C.world c.now) asks.old asks.new ms) }
{
    let mut found = Items::new(alloc);
    for owner in owners {
        and_static(alloc, top, n, owner, c, asks, &mut found)?;
    }
    Ok(found)
}

fn call_meant<C: Classes>(
    alloc: Global,
    cx: &UnitContext,
    frames: &Frames,
    n: &Name,
    c: &C,
    asks: &mut Asks,
) -> Mem<Option<Called>>
    ensures { IfOk result (λ o.
        Told (call_meant cx.now frames.now n.now) (C.world c.now) asks.old asks.new o) }
{
    let top = top_around(cx);
    if let Some(s) = call_in_frames(alloc, top, n, frames, c, asks)? {
        return Ok(Some(s));
    }
    if let Some(s) = call_in_classes(alloc, top, n, cx.enclosing.as_slice(), c, asks)? {
        return Ok(Some(s));
    }
    let owners = static_owners(alloc, cx.imports.as_slice(), n)?;
    let methods = static_methods(alloc, top, n, owners.as_slice(), c, asks)?;
    Ok(some_of(methods))
}

fn or_none(alloc: Global, found: Option<Called>) -> Called
    ensures { result ≡ or_else (Called.Methods []) found }
{
    match found {
        Some(s) => s,
        None => Called::Methods(Items::new(alloc)),
    }
}

/// What the name of a call without receiver means (JLS 15.12.1), with the questions that decide it put to `asks`: the
/// methods of the first class around the place that has some, else the static methods that imports bring in.
pub fn called_asking<C: Classes>(
    alloc: Global,
    cx: &UnitContext,
    frames: &Frames,
    name: &Name,
    c: &C,
    asks: &mut Asks,
) -> Mem<Called>
    ensures told { IfOk result (λ o.
        Told (called cx.now frames.now name.now) (C.world c.now) asks.old asks.new o) }
{
    let found = call_meant(alloc, cx, frames, name, c, asks)?;
    Ok(or_none(alloc, found))
}
