// Methods and constructors that a type has without declaring them.
ghost use Rattle.std.specs.Prelude.{◌≡◌, ◌∷◌, ◌++◌, [], true, IfOk, OnOk};
ghost use Rattle.jtypes.specs.Arrays.{ArrayOf};
ghost use Rattle.declared_types.specs.ImplicitNames.{values_name, value_of_name, string_name};
ghost use Rattle.declared_types.specs.Signatures.{implicit_method, enum_methods, has_constructors};
ghost use Rattle.declared_types.specs.Signatures.{declares_constructor, default_constructor};

use crate::implicit_names::ImplicitNames;
use crate::member_types::array_of;
use crate::written::DeclaredType;
use jtypes::{ClassKind, JType, MethodSig, Name, SharedList};
use rw_base::Mem;
use std::alloc::Global;

/// A method that isn't declared, and isn't private.
fn implicit_method(
    d: &DeclaredType,
    name: &Name,
    params: SharedList<JType>,
    gives: JType,
    is_static: bool,
) -> Mem<MethodSig>
    ensures { IfOk result (λ m. m ≡ implicit_method d.now name.now params gives is_static) }
{
    Ok(MethodSig {
        owner: d.name.copy()?,
        name: name.copy()?,
        params,
        result: gives,
        varargs: false,
        is_static,
        is_private: false,
    })
}

/// `values()` of an enum.
fn values(alloc: Global, implicit: &ImplicitNames, d: &DeclaredType) -> Mem<MethodSig>
    ensures { IfOk result (λ m. m ≡ implicit_method d.now values_name [] (ArrayOf (JType.Class d.now.name)) true) }
{
    let all = array_of(alloc, JType::Class(d.name.copy()?))?;
    let method = implicit_method(d, &implicit.values, SharedList::empty(), all, true)?;
    Ok(method)
}

/// `valueOf(java.lang.String)` of an enum.
fn value_of(alloc: Global, implicit: &ImplicitNames, d: &DeclaredType) -> Mem<MethodSig>
    ensures { IfOk result (λ m. m ≡ implicit_method d.now value_of_name (JType.Class string_name ∷ [])
        (JType.Class d.now.name) true) }
{
    let text = JType::Class(implicit.string.copy()?);
    let params = SharedList::new(alloc, vec![in alloc; text]?)?;
    let constant = JType::Class(d.name.copy()?);
    let method = implicit_method(d, &implicit.value_of, params, constant, true)?;
    Ok(method)
}

/// Adds the methods that an enum has without declaring them (JLS 8.9.3).
pub(crate) fn put_enum_methods(
    alloc: Global,
    implicit: &ImplicitNames,
    d: &DeclaredType,
    methods: &mut Vec<MethodSig>,
) -> Mem<()>
    ensures { OnOk result (methods.new.items ≡ methods.old.items ++ enum_methods d.now d.now.kind) }
{
    match d.kind {
        ClassKind::Enum => {
            let all = values(alloc, implicit, d)?;
            methods.push(all)?;
            let one = value_of(alloc, implicit, d)?;
            methods.push(one)?;
            Ok(())
        }
        _ => Ok(()),
    }
}

fn has_constructors(kind: ClassKind) -> bool
    ensures { result ≡ has_constructors kind }
{
    match kind {
        ClassKind::Class | ClassKind::Enum => true,
        ClassKind::Interface | ClassKind::Annotation => false,
    }
}

fn declares_constructor(implicit: &ImplicitNames, d: &DeclaredType) -> bool
    ensures { result ≡ declares_constructor d.now }
{
    for m in d.methods.as_slice() {
        if m.name.as_slice() == implicit.constructor.as_slice() {
            return true;
        }
    }
    false
}

/// Adds the constructor of a class or enum that declares none (JLS 8.8.9, 8.9.2).
pub(crate) fn put_default_constructor(
    implicit: &ImplicitNames,
    d: &DeclaredType,
    methods: &mut Vec<MethodSig>,
) -> Mem<()>
    ensures { OnOk result (methods.new.items ≡ methods.old.items ++ default_constructor d.now) }
{
    if has_constructors(d.kind) && !declares_constructor(implicit, d) {
        let constructor = implicit_method(
            d,
            &implicit.constructor,
            SharedList::empty(),
            JType::Void,
            false,
        )?;
        methods.push(constructor)?;
    }
    Ok(())
}
