// The two layers of headers below a world.
ghost use Rattle.std.specs.Prelude.{◌≡◌, IfOk, [], map};
ghost use Rattle.dialogue.specs.Dialogue.{run};
ghost use Rattle.jtypes.specs.ListWorld.{world_in};
ghost use Rattle.jtypes.specs.World.{world_of};
ghost use Rattle.declared_types.specs.Supertypes.{header_with, supertypes_of};
ghost use Rattle.class_world.specs.Worlds.{headers_as_written, headers_in, headers};

use declared_types::{DeclaredType, ImplicitNames, supertypes_of_asking};
use jtypes::{Asks, Classes, Header, ListWorld, Name, SharedList};
use rw_base::Mem;
use std::alloc::Global;

/// The header of a declared type with these supertypes.
fn header_with(declared: &DeclaredType, supertypes: SharedList<Name>) -> Mem<Header>
    ensures { IfOk result (λ header. header ≡ header_with supertypes declared.now) }
{
    Ok(Header {
        name: declared.name.copy()?,
        kind: declared.kind,
        supertypes,
        top: declared.top.copy()?,
        is_private: declared.is_private,
    })
}

/// The headers as they are written, without supertypes.
fn written_headers(alloc: Global, types: &[&DeclaredType]) -> Mem<Vec<Header>>
    ensures { IfOk result (λ hs. hs.items ≡ map (header_with []) (map (λ d. d.now) types.now)) }
{
    let mut headers = Vec::new(alloc);
    for declared in types {
        let header = header_with(declared, SharedList::empty())?;
        headers.push(header)?;
    }
    Ok(headers)
}

/// A world of these headers alone.
fn world_of_headers(alloc: Global, headers: Vec<Header>) -> Mem<ListWorld>
    ensures { IfOk result (λ w. world_in w ≡ world_of headers.items [] []) }
{
    let fields = Vec::new(alloc);
    let methods = Vec::new(alloc);
    let world = ListWorld::new(alloc, headers, fields, methods)?;
    Ok(world)
}

/// The world in which supertypes are resolved.
fn headers_as_written(alloc: Global, types: &[&DeclaredType]) -> Mem<ListWorld>
    ensures { IfOk result (λ w. world_in w ≡ headers_as_written (map (λ d. d.now) types.now)) }
{
    let headers = written_headers(alloc, types)?;
    let world = world_of_headers(alloc, headers)?;
    Ok(world)
}

/// The header of a declared type with the supertypes that a world gives.
fn header_in<C: Classes>(
    alloc: Global,
    implicit: &ImplicitNames,
    declared: &DeclaredType,
    c: &C,
) -> Mem<Header>
    ensures { IfOk result (λ header.
        header ≡ header_with (run (supertypes_of declared.now) (C.world c.now)) declared.now) }
{
    let mut asks = Asks::new(alloc);
    let supertypes = supertypes_of_asking(alloc, implicit, declared, c, &mut asks)?;
    let header = header_with(declared, supertypes)?;
    Ok(header)
}

fn headers_in<C: Classes>(
    alloc: Global,
    implicit: &ImplicitNames,
    types: &[&DeclaredType],
    c: &C,
) -> Mem<Vec<Header>>
    ensures { IfOk result (λ hs. hs.items ≡ headers_in (C.world c.now) (map (λ d. d.now) types.now)) }
{
    let mut headers = Vec::new(alloc);
    for declared in types {
        let header = header_in(alloc, implicit, declared, c)?;
        headers.push(header)?;
    }
    Ok(headers)
}

/// The headers with their supertypes, which are resolved by the headers as they are written.
pub(crate) fn headers(
    alloc: Global,
    implicit: &ImplicitNames,
    types: &[&DeclaredType],
) -> Mem<Vec<Header>>
    ensures { IfOk result (λ hs. hs.items ≡ headers (map (λ d. d.now) types.now)) }
{
    let written = headers_as_written(alloc, types)?;
    let headers = headers_in(alloc, implicit, types, &written)?;
    Ok(headers)
}

fn copies(alloc: Global, headers: &[Header]) -> Mem<Vec<Header>>
    ensures { IfOk result (λ hs. hs.items ≡ headers.now) }
{
    let mut copies = Vec::new(alloc);
    for header in headers {
        copies.push(header.copy()?)?;
    }
    Ok(copies)
}

/// The world in which fields and methods are resolved, of the headers with their supertypes.
pub(crate) fn headers_with_supertypes(alloc: Global, headers: &[Header]) -> Mem<ListWorld>
    ensures { IfOk result (λ w. world_in w ≡ world_of headers.now [] []) }
{
    let copies = copies(alloc, headers)?;
    let world = world_of_headers(alloc, copies)?;
    Ok(world)
}
