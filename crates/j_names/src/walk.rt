// The walk over a class and the types that it inherits from.
ghost use Rattle.std.specs.Prelude.{◌≡◌, ℕ, List, Bool, IfOk, OnOk};
ghost use Rattle.dialogue.specs.Dialogue.{in_turn};
ghost use Rattle.dialogue.specs.Told.{Told};
ghost use Rattle.jtypes.specs.Subtype.{object_name};
ghost use Rattle.jtypes.specs.World.{Rule};
ghost use Rattle.jtypes.specs.declared.signatures.Header.{Header as AHeader};
ghost use Rattle.j_names.specs.Walk.{sought, walked, walk_up, walk, is_interface, most_behind, from_start};

use jtypes::{Asks, ClassKind, Classes, Header, Name, NameSet, ask_class};
use rw_base::Mem;
use std::alloc::Global;

/// What a walk looks for.
pub(crate) trait Seek {
    /// What it has found so far.
    type Found;

    /// When the walk is over.
    ghost over: { Self.Found → Bool };

    /// What the visit of a class that is there finds.
    ghost visited: { Self → List ℕ → AHeader → Self.Found → Rule Self.Found };

    fn is_over(&self, found: &Self::Found) -> bool
        ensures { result ≡ over found.now };

    fn visit<C: Classes>(
        &self,
        alloc: Global,
        name: &Name,
        header: &Header,
        c: &C,
        asks: &mut Asks,
        found: &mut Self::Found,
    ) -> Mem<()>
        ensures { OnOk result (Told (visited self.now name.now header.now found.old)
            (C.world c.now) asks.old asks.new found.new) };
}

pub(crate) fn is_interface(kind: ClassKind) -> bool
    ensures { result ≡ is_interface kind }
{
    matches!(kind, ClassKind::Interface)
}

/// Walks on from a class, unless the walk is over or was there.
#[cycle(walks)]
fn walk_up<C: Classes, S: Seek>(
    alloc: Global,
    seek: &S,
    left: u32,
    name: &Name,
    c: &C,
    asks: &mut Asks,
    seen: &mut NameSet,
    found: &mut S::Found,
) -> Mem<()>
    ensures { OnOk result (Told
        (walk_up (sought S.over (S.visited seek.now)) left (walked found.old seen.old) name.now)
        (C.world c.now) asks.old asks.new (walked found.new seen.new)) }
{
    if seek.is_over(found) || seen.has(name) {
        return Ok(());
    }
    let Some(header) = ask_class(name, c, asks)? else {
        seen.put(name.copy()?)?;
        return Ok(());
    };
    seek.visit(alloc, name, header, c, asks, found)?;
    if seek.is_over(found) {
        return Ok(());
    }
    seen.put(name.copy()?)?;
    if left > 0 {
        walk_each(
            alloc,
            seek,
            left - 1,
            header.supertypes.as_slice(),
            c,
            asks,
            seen,
            found,
        )?;
    }
    Ok(())
}

/// Walks on from each of some classes in turn.
#[cycle(walks)]
fn walk_each<C: Classes, S: Seek>(
    alloc: Global,
    seek: &S,
    left: u32,
    names: &[Name],
    c: &C,
    asks: &mut Asks,
    seen: &mut NameSet,
    found: &mut S::Found,
) -> Mem<()>
    ensures { OnOk result (Told
        (in_turn (walk_up (sought S.over (S.visited seek.now)) left) (walked found.old seen.old) names.now)
        (C.world c.now) asks.old asks.new (walked found.new seen.new)) }
{
    for name in names {
        walk_up(alloc, seek, left, name, c, asks, seen, found)?;
    }
    Ok(())
}

/// How many supertypes in a row are walked behind a first one.
fn most_behind() -> u32
    ensures { result ≡ most_behind }
{
    63
}

/// The name of the class Object.
pub(crate) fn object(alloc: Global) -> Mem<Name>
    ensures { IfOk result (λ name. name ≡ object_name) }
{
    let name = Name::new(alloc, b"java.lang.Object")?;
    Ok(name)
}

/// Walks on behind the class at which a walk begins; behind an interface at last to Object.
fn walk_behind<C: Classes, S: Seek>(
    alloc: Global,
    seek: &S,
    header: &Header,
    c: &C,
    asks: &mut Asks,
    seen: &mut NameSet,
    found: &mut S::Found,
) -> Mem<()>
    ensures { OnOk result (Told
        (from_start (sought S.over (S.visited seek.now)) (walked found.old seen.old) header.now)
        (C.world c.now) asks.old asks.new (walked found.new seen.new)) }
{
    let supertypes = header.supertypes.as_slice();
    walk_each(alloc, seek, most_behind(), supertypes, c, asks, seen, found)?;
    if is_interface(header.kind) {
        let object = object(alloc)?;
        walk_up(alloc, seek, most_behind(), &object, c, asks, seen, found)?;
    }
    Ok(())
}

/// Walks from a class: the class, then its supertypes in order, each with its own, none twice, and from an interface at
/// last Object (JLS 8.2, 9.2). Each class that is there is visited, until the walk is over.
pub(crate) fn walk<C: Classes, S: Seek>(
    alloc: Global,
    seek: &S,
    start: &Name,
    c: &C,
    asks: &mut Asks,
    found: &mut S::Found,
) -> Mem<()>
    ensures { OnOk result (Told (walk (sought S.over (S.visited seek.now)) found.old start.now)
        (C.world c.now) asks.old asks.new found.new) }
{
    if seek.is_over(found) {
        return Ok(());
    }
    let Some(header) = ask_class(start, c, asks)? else {
        return Ok(());
    };
    seek.visit(alloc, start, header, c, asks, found)?;
    if seek.is_over(found) {
        return Ok(());
    }
    let mut seen = NameSet::new(alloc);
    seen.put(start.copy()?)?;
    walk_behind(alloc, seek, header, c, asks, &mut seen, found)?;
    Ok(())
}
