// Subtypes among all types.
ghost use Rattle.std.specs.Prelude.{◌≡◌, ◌↔◌, IsTrue, IfOk};
ghost use Rattle.dialogue.specs.Told.{Told};
ghost use Rattle.jtypes.specs.Subtype.{Subtype, subtype, plain_subtype, is_reference, is_array_supertype};

use crate::asking::Asks;
use crate::classes::Classes;
use crate::name::Name;
use crate::primitives::is_prim_subtype;
use crate::types::JType;
use crate::walk::{is_class_subtype, is_object};
use rw_base::Mem;
use std::alloc::Global;

fn is_reference(t: &JType) -> bool
    ensures { result ≡ is_reference t.now }
{
    match t {
        JType::Class(_) => true,
        JType::Array(_) => true,
        _ => false,
    }
}

#[tactic(auto, unfolding(crate::specs::Subtype::array_supertypes))]
fn is_array_supertype(name: &Name) -> bool
    ensures { result ≡ is_array_supertype name.now }
{
    is_object(name) || name.reads(b"java.lang.Cloneable") || name.reads(b"java.io.Serializable")
}

/// Subtypes that rest on no header.
pub(crate) fn is_plain_subtype(a: &JType, b: &JType) -> bool
    ensures { result ≡ plain_subtype a.now b.now }
{
    match (a, b) {
        (JType::Prim(p), JType::Prim(q)) => is_prim_subtype(*p, *q),
        (JType::Array(_), JType::Class(name)) => is_array_supertype(name),
        (JType::Null, JType::Class(_)) => true,
        (JType::Null, JType::Array(_)) => true,
        (JType::Null, JType::Null) => true,
        (JType::Void, JType::Void) => true,
        (JType::Unknown, JType::Unknown) => true,
        _ => false,
    }
}

/// Whether a type is a subtype of another (JLS 4.10), with the questions of the test put to
/// `asks`.
#[tactic(auto, unfolding(crate::specs::Subtype::subtype))]
pub fn is_subtype_asking<C: Classes>(
    alloc: Global,
    a: &JType,
    b: &JType,
    c: &C,
    asks: &mut Asks,
) -> Mem<bool>
    ensures { IfOk result (λ r. Told (subtype a.now b.now) (C.world c.now) asks.old asks.new r) }
{
    match a {
        JType::Class(from) => match b {
            JType::Class(to) => is_class_subtype(alloc, from, to, c, asks),
            _ => Ok(false),
        },
        JType::Array(from) => match b {
            JType::Array(to) => {
                if is_reference(from.get()) {
                    let holds = is_subtype_asking(alloc, from.get(), to.get(), c, asks)?;
                    return Ok(holds);
                }
                Ok(from.get().is(to.get()))
            }
            _ => Ok(is_plain_subtype(a, b)),
        },
        _ => Ok(is_plain_subtype(a, b)),
    }
}

/// Whether a type is a subtype of another over erased types (JLS 4.10), through at most 64
/// supertypes in a row.
pub fn is_subtype<C: Classes>(alloc: Global, a: &JType, b: &JType, c: &C) -> Mem<bool>
    ensures { IfOk result (λ r. IsTrue r ↔ Subtype (C.world c.now) a.now b.now) }
{
    let mut asks = Asks::new(alloc);
    let holds = is_subtype_asking(alloc, a, b, c, &mut asks)?;
    Ok(holds)
}
