// Primitive types and the classes that box them.
ghost use Rattle.std.specs.Prelude.{◌≡◌, IfOk};
ghost use Rattle.jtypes.specs.World.{name_eq};
ghost use Rattle.jtypes.specs.Primitives.{box_name, boxed_in, unboxed_type, is_prim_subtype};

use crate::name::Name;
use crate::types::{JPrim, JType};
use rw_base::Mem;
use std::alloc::Global;

#[tactic(auto, unfolding(crate::specs::Primitives::box_name))]
fn box_text(p: JPrim) -> &'static [u8]
    ensures { result.now ≡ box_name p }
{
    match p {
        JPrim::Boolean => b"java.lang.Boolean",
        JPrim::Byte => b"java.lang.Byte",
        JPrim::Short => b"java.lang.Short",
        JPrim::Char => b"java.lang.Character",
        JPrim::Int => b"java.lang.Integer",
        JPrim::Long => b"java.lang.Long",
        JPrim::Float => b"java.lang.Float",
        JPrim::Double => b"java.lang.Double",
    }
}

/// The name of the class that boxes a primitive type (JLS 5.1.7).
pub fn box_of(alloc: Global, p: JPrim) -> Mem<Name>
    ensures { IfOk result (λ name. name ≡ box_name p) }
{
    Name::new(alloc, box_text(p))
}

fn boxes(name: &Name, p: JPrim) -> bool
    ensures { result ≡ name_eq name.now (box_name p) }
{
    name.reads(box_text(p))
}

/// The primitive type that the class of a name boxes (JLS 5.1.8).
#[tactic(auto, unfolding(crate::specs::Primitives::boxed_in))]
fn boxed_by(name: &Name) -> Option<JPrim>
    ensures { result ≡ boxed_in name.now }
{
    if boxes(name, JPrim::Boolean) {
        Some(JPrim::Boolean)
    } else if boxes(name, JPrim::Byte) {
        Some(JPrim::Byte)
    } else if boxes(name, JPrim::Short) {
        Some(JPrim::Short)
    } else if boxes(name, JPrim::Char) {
        Some(JPrim::Char)
    } else if boxes(name, JPrim::Int) {
        Some(JPrim::Int)
    } else if boxes(name, JPrim::Long) {
        Some(JPrim::Long)
    } else if boxes(name, JPrim::Float) {
        Some(JPrim::Float)
    } else if boxes(name, JPrim::Double) {
        Some(JPrim::Double)
    } else {
        None
    }
}

/// A primitive type, or the one that a class boxes; no other type has one (JLS 5.1.8).
pub fn unbox(t: &JType) -> Option<JPrim>
    ensures { result ≡ unboxed_type t.now }
{
    match t {
        JType::Prim(p) => Some(*p),
        JType::Class(name) => boxed_by(name),
        _ => None,
    }
}

/// Whether a primitive type is another one or widens to it (JLS 4.10.1, 5.1.2).
pub(crate) fn is_prim_subtype(p: JPrim, q: JPrim) -> bool
    ensures { result ≡ is_prim_subtype p q }
{
    match p {
        JPrim::Boolean => matches!(q, JPrim::Boolean),
        JPrim::Byte => !matches!(q, JPrim::Boolean | JPrim::Char),
        JPrim::Short => !matches!(q, JPrim::Boolean | JPrim::Byte | JPrim::Char),
        JPrim::Char => !matches!(q, JPrim::Boolean | JPrim::Byte | JPrim::Short),
        JPrim::Int => matches!(q, JPrim::Int | JPrim::Long | JPrim::Float | JPrim::Double),
        JPrim::Long => matches!(q, JPrim::Long | JPrim::Float | JPrim::Double),
        JPrim::Float => matches!(q, JPrim::Float | JPrim::Double),
        JPrim::Double => matches!(q, JPrim::Double),
    }
}
