// Classes that expressions have by themselves.
ghost use Rattle.std.specs.Prelude.{◌≡◌, IfOk, codes};
ghost use Rattle.jtypes.specs.Subtype.{object_name, type_eq};
ghost use Rattle.operator_types.specs.Operators.{string_type, class_type, object_type};

use jtypes::{JType, Name};
use rw_base::Mem;
use std::alloc::Global;

/// The classes that expressions have by themselves, whose names are made once for a file or a worker. All types that
/// are made from them share these.
#[derive(Drop)]
pub struct CommonTypes {
    string: Name,
    class: Name,
    object: Name,
    ghost is_string: { string ≡ codes "java.lang.String" },
    ghost is_class: { class ≡ codes "java.lang.Class" },
    ghost is_object: { object ≡ object_name },
}

#[tactic(auto, unfolding(jtypes::specs::Subtype::object_name))]
fn object_name(alloc: Global) -> Mem<Name>
    ensures { IfOk result (λ name. name ≡ object_name) }
{
    Name::new(alloc, b"java.lang.Object")
}

impl CommonTypes {
    /// The names.
    pub fn new(alloc: Global) -> Mem<CommonTypes> {
        Ok(CommonTypes {
            string: Name::new(alloc, b"java.lang.String")?,
            class: Name::new(alloc, b"java.lang.Class")?,
            object: object_name(alloc)?,
        })
    }

    /// The type of a string literal, `java.lang.String`.
    #[tactic(auto, unfolding(crate::specs::Operators::string_type))]
    pub fn string(&self) -> Mem<JType>
        ensures { IfOk result (λ t. t ≡ string_type) }
    {
        Ok(JType::Class(self.string.copy()?))
    }

    /// The type of a class literal, `java.lang.Class` (JLS 15.8.2).
    #[tactic(auto, unfolding(crate::specs::Operators::class_type))]
    pub fn class(&self) -> Mem<JType>
        ensures { IfOk result (λ t. t ≡ class_type) }
    {
        Ok(JType::Class(self.class.copy()?))
    }

    /// The class whose members arrays have, `java.lang.Object` (JLS 10.7).
    #[tactic(auto, unfolding(crate::specs::Operators::object_type))]
    pub fn object(&self) -> Mem<JType>
        ensures { IfOk result (λ t. t ≡ object_type) }
    {
        Ok(JType::Class(self.object.copy()?))
    }

    /// Whether a type is `java.lang.String`.
    pub(crate) fn is_string(&self, t: &JType) -> bool
        ensures { result ≡ type_eq t.now string_type }
    {
        match t {
            JType::Class(name) => name.is(&self.string),
            _ => false,
        }
    }
}
