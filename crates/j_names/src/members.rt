// Fields and member types of a class, by walks.
ghost use Rattle.std.specs.Prelude.{◌≡◌, ◌∷◌, ◌++◌, [], IfOk, is_some, Some, None};
ghost use Rattle.std.specs.Option.{option_copied};
ghost use Rattle.dialogue.specs.Told.{Told};
ghost use Rattle.j_names.specs.Members.{joined, is_the, counts, type_counts, type_at, field_of, member_type_of};
ghost use Rattle.j_names.specs.Members.{field_sought, type_sought};

use crate::walk::{Seek, walk};
use jtypes::{Asks, Classes, Header, Name, Symbol, ask_class, ask_field};
use rw_base::Mem;
use std::alloc::Global;

/// A name in a package or type.
pub(crate) fn joined(alloc: Global, scope: &Name, name: &Name) -> Mem<Name>
    ensures { IfOk result (λ n. n ≡ joined scope.now name.now) }
{
    if scope.as_slice().is_empty() {
        return name.copy();
    }
    let len = scope.as_slice().len().saturating_add(name.as_slice().len());
    let mut text = Vec::with_capacity(alloc, len.saturating_add(1))?;
    text.extend_from_slice(scope.as_slice())?;
    text.push(b'.')?;
    text.extend_from_slice(name.as_slice())?;
    let joined = Name::new(alloc, text.as_slice())?;
    Ok(joined)
}

/// Whether a name is that which may be there.
pub(crate) fn is_the(there: Option<&Name>, name: &Name) -> bool
    ensures { result ≡ is_the (option_copied there.entry) name.now }
{
    match there {
        Some(there) => name.is(there),
        None => false,
    }
}

/// Whether a member of a class counts within a top-level class (JLS 6.6.1).
pub(crate) fn counts(top: Option<&Name>, owner: &Header, is_private: bool) -> bool
    ensures { result ≡ counts (option_copied top.entry) owner.now is_private }
{
    !is_private || is_the(top, &owner.top)
}

fn type_counts(top: Option<&Name>, header: &Header) -> bool
    ensures { result ≡ type_counts (option_copied top.entry) header.now }
{
    header.name.is(&header.top) || counts(top, header, header.is_private)
}

/// The type of a qualified name, where it is there and counts.
pub(crate) fn type_at<C: Classes>(
    top: Option<&Name>,
    name: Name,
    c: &C,
    asks: &mut Asks,
) -> Mem<Option<Symbol>>
    ensures { IfOk result (λ s.
        Told (type_at (option_copied top.entry) name) (C.world c.now) asks.old asks.new s) }
{
    match ask_class(&name, c, asks)? {
        Some(header) => {
            if type_counts(top, header) {
                Ok(Some(Symbol::Kind(name)))
            } else {
                Ok(None)
            }
        }
        None => Ok(None),
    }
}

#[derive(Drop)]
struct FieldSeek<'a> {
    top: Option<&'a Name>,
    name: &'a Name,
}

impl<'a> Seek for FieldSeek<'a> {
    type Found = Option<Symbol>;

    ghost over = { is_some };

    ghost visited = { λ s. (field_sought (option_copied s.top) s.name.now).visit };

    fn is_over(&self, found: &Option<Symbol>) -> bool {
        found.is_some()
    }

    fn visit<C: Classes>(
        &self,
        alloc: Global,
        name: &Name,
        header: &Header,
        c: &C,
        asks: &mut Asks,
        found: &mut Option<Symbol>,
    ) -> Mem<()> {
        *found = match ask_field(name, self.name, c, asks)? {
            Some(field) => {
                if counts(self.top, header, field.is_private) {
                    Some(Symbol::Field(field.copy()?))
                } else {
                    None
                }
            }
            None => None,
        };
        Ok(())
    }
}

#[derive(Drop)]
struct TypeSeek<'a> {
    top: Option<&'a Name>,
    name: &'a Name,
}

impl<'a> Seek for TypeSeek<'a> {
    type Found = Option<Symbol>;

    ghost over = { is_some };

    ghost visited = { λ s. (type_sought (option_copied s.top) s.name.now).visit };

    fn is_over(&self, found: &Option<Symbol>) -> bool {
        found.is_some()
    }

    fn visit<C: Classes>(
        &self,
        alloc: Global,
        name: &Name,
        header: &Header,
        c: &C,
        asks: &mut Asks,
        found: &mut Option<Symbol>,
    ) -> Mem<()> {
        let member = joined(alloc, name, self.name)?;
        *found = type_at(self.top, member, c, asks)?;
        Ok(())
    }
}

/// The field of a name that a class has, its own or an inherited one.
pub(crate) fn field_of<C: Classes>(
    alloc: Global,
    top: Option<&Name>,
    n: &Name,
    name: &Name,
    c: &C,
    asks: &mut Asks,
) -> Mem<Option<Symbol>>
    ensures { IfOk result (λ s.
        Told (field_of (option_copied top.entry) n.now name.now) (C.world c.now) asks.old asks.new s) }
{
    let mut found = None;
    let seek = FieldSeek { top, name: n };
    walk(alloc, &seek, name, c, asks, &mut found)?;
    Ok(found)
}

/// The member type of a name that a class has, its own or an inherited one.
pub(crate) fn member_type_of<C: Classes>(
    alloc: Global,
    top: Option<&Name>,
    n: &Name,
    name: &Name,
    c: &C,
    asks: &mut Asks,
) -> Mem<Option<Symbol>>
    ensures { IfOk result (λ s.
        Told (member_type_of (option_copied top.entry) n.now name.now) (C.world c.now) asks.old asks.new s) }
{
    let mut found = None;
    let seek = TypeSeek { top, name: n };
    walk(alloc, &seek, name, c, asks, &mut found)?;
    Ok(found)
}
