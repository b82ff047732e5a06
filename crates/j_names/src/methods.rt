// The methods of a name that a class has, by walks.
ghost use Rattle.std.specs.Prelude.{◌≡◌, ◌++◌, [], IfOk, OnOk, filter, Some, None};
ghost use Rattle.std.specs.Option.{option_copied};
ghost use Rattle.dialogue.specs.Told.{Told};
ghost use Rattle.j_names.specs.Members.{method_counts, methods_sought, methods_of, methods_inherited};

use crate::members::{counts, is_the};
use crate::walk::{Seek, is_interface, walk};
use jtypes::{Asks, Classes, Header, MethodSig, Name, ask_methods};
use rw_base::Mem;
use sqlite_items::Items;
use std::alloc::Global;

/// Whether a method of a class that a walk visits counts: a static one of an interface only where the walk begins
/// there.
fn method_counts(
    top: Option<&Name>,
    begins: Option<&Name>,
    name: &Name,
    header: &Header,
    m: &MethodSig,
) -> bool
    ensures { result ≡ method_counts (option_copied top.entry) (option_copied begins.entry) name.now header.now m.now }
{
    counts(top, header, m.is_private)
        && !(is_interface(header.kind) && m.is_static && !is_the(begins, name))
}

/// Puts those of some methods that count.
fn put_counting(
    top: Option<&Name>,
    begins: Option<&Name>,
    name: &Name,
    header: &Header,
    methods: &[MethodSig],
    found: &mut Items<MethodSig>,
) -> Mem<()>
    ensures { OnOk result (found.new ≡ found.old ++ filter
        (method_counts (option_copied top.entry) (option_copied begins.entry) name.now header.now) methods.now) }
{
    for m in methods {
        if method_counts(top, begins, name, header, m) {
            found.push(m.copy()?)?;
        }
    }
    Ok(())
}

#[derive(Drop)]
struct MethodSeek<'a> {
    top: Option<&'a Name>,
    begins: Option<&'a Name>,
    name: &'a Name,
}

impl<'a> Seek for MethodSeek<'a> {
    type Found = Items<MethodSig>;

    ghost use Rattle.std.specs.Prelude.{false};

    ghost over = { λ found. false };

    ghost visited = { λ s. (methods_sought (option_copied s.top) (option_copied s.begins) s.name.now).visit };

    fn is_over(&self, found: &Items<MethodSig>) -> bool {
        false
    }

    fn visit<C: Classes>(
        &self,
        alloc: Global,
        name: &Name,
        header: &Header,
        c: &C,
        asks: &mut Asks,
        found: &mut Items<MethodSig>,
    ) -> Mem<()> {
        let methods = ask_methods(name, self.name, c, asks)?;
        put_counting(self.top, self.begins, name, header, methods, found)?;
        Ok(())
    }
}

/// All methods of a name that a class has, its own and inherited ones, in the order of the walk.
pub(crate) fn methods_of<'a, C: Classes>(
    alloc: Global,
    top: Option<&'a Name>,
    n: &'a Name,
    name: &'a Name,
    c: &C,
    asks: &mut Asks,
) -> Mem<Items<MethodSig>>
    ensures { IfOk result (λ ms.
        Told (methods_of (option_copied top.entry) n.now name.now) (C.world c.now) asks.old asks.new ms) }
{
    let mut found = Items::new(alloc);
    let seek = MethodSeek {
        top,
        begins: Some(name),
        name: n,
    };
    walk(alloc, &seek, name, c, asks, &mut found)?;
    Ok(found)
}

/// The methods of a name of the named supertype of a local or anonymous class.
pub(crate) fn methods_inherited<'a, C: Classes>(
    alloc: Global,
    top: Option<&'a Name>,
    n: &'a Name,
    supertype: &Name,
    c: &C,
    asks: &mut Asks,
) -> Mem<Items<MethodSig>>
    ensures { IfOk result (λ ms.
        Told (methods_inherited (option_copied top.entry) n.now supertype.now) (C.world c.now) asks.old asks.new ms) }
{
    let mut found = Items::new(alloc);
    let seek = MethodSeek {
        top,
        begins: None,
        name: n,
    };
    walk(alloc, &seek, supertype, c, asks, &mut found)?;
    Ok(found)
}
