// Names that declarations have without writing them.
ghost use Rattle.std.specs.Prelude.{◌≡◌, IfOk};
ghost use Rattle.j_names.specs.Calls.{constructor_name};
ghost use Rattle.jtypes.specs.Subtype.{object_name};
ghost use Rattle.declared_types.specs.ImplicitNames.{enum_name, annotation_name, values_name, value_of_name};
ghost use Rattle.declared_types.specs.ImplicitNames.{string_name};

use jtypes::Name;
use rw_base::Mem;
use std::alloc::Global;

/// The names that declarations have without writing them, as `java.lang.Object` and `<constructor>`. They are made once
/// for a world, and all that is made from them shares them.
#[derive(Drop)]
pub struct ImplicitNames {
    pub(crate) object: Name,
    pub(crate) enumeration: Name,
    pub(crate) annotation: Name,
    pub(crate) string: Name,
    pub(crate) constructor: Name,
    pub(crate) values: Name,
    pub(crate) value_of: Name,
    ghost is_object: { object ≡ object_name },
    ghost is_enum: { enumeration ≡ enum_name },
    ghost is_annotation: { annotation ≡ annotation_name },
    ghost is_string: { string ≡ string_name },
    ghost is_constructor: { constructor ≡ constructor_name },
    ghost is_values: { values ≡ values_name },
    ghost is_value_of: { value_of ≡ value_of_name },
}

#[tactic(auto, unfolding(jtypes::specs::Subtype::object_name))]
fn object(alloc: Global) -> Mem<Name>
    ensures { IfOk result (λ name. name ≡ object_name) }
{
    Name::new(alloc, b"java.lang.Object")
}

#[tactic(auto, unfolding(crate::specs::ImplicitNames::enum_name))]
fn enumeration(alloc: Global) -> Mem<Name>
    ensures { IfOk result (λ name. name ≡ enum_name) }
{
    Name::new(alloc, b"java.lang.Enum")
}

#[tactic(auto, unfolding(crate::specs::ImplicitNames::annotation_name))]
fn annotation(alloc: Global) -> Mem<Name>
    ensures { IfOk result (λ name. name ≡ annotation_name) }
{
    Name::new(alloc, b"java.lang.annotation.Annotation")
}

#[tactic(auto, unfolding(crate::specs::ImplicitNames::string_name))]
fn string(alloc: Global) -> Mem<Name>
    ensures { IfOk result (λ name. name ≡ string_name) }
{
    Name::new(alloc, b"java.lang.String")
}

#[tactic(auto, unfolding(j_names::specs::Calls::constructor_name))]
fn constructor(alloc: Global) -> Mem<Name>
    ensures { IfOk result (λ name. name ≡ constructor_name) }
{
    Name::new(alloc, b"<constructor>")
}

#[tactic(auto, unfolding(crate::specs::ImplicitNames::values_name))]
fn values(alloc: Global) -> Mem<Name>
    ensures { IfOk result (λ name. name ≡ values_name) }
{
    Name::new(alloc, b"values")
}

#[tactic(auto, unfolding(crate::specs::ImplicitNames::value_of_name))]
fn value_of(alloc: Global) -> Mem<Name>
    ensures { IfOk result (λ name. name ≡ value_of_name) }
{
    Name::new(alloc, b"valueOf")
}

impl ImplicitNames {
    /// The names.
    pub fn new(alloc: Global) -> Mem<ImplicitNames> {
        Ok(ImplicitNames {
            object: object(alloc)?,
            enumeration: enumeration(alloc)?,
            annotation: annotation(alloc)?,
            string: string(alloc)?,
            constructor: constructor(alloc)?,
            values: values(alloc)?,
            value_of: value_of(alloc)?,
        })
    }
}
