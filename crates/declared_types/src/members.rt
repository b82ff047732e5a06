// The fields and methods of a declared type.
ghost use Rattle.std.specs.Prelude.{◌≡◌, IfOk};
ghost use Rattle.dialogue.specs.Dialogue.{each};
ghost use Rattle.dialogue.specs.Told.{Told};
ghost use Rattle.declared_types.specs.Signatures.{field_with, field_in, fields_of, param_written};
ghost use Rattle.declared_types.specs.Signatures.{method_with, method_in, method_of, methods_of};

use crate::body::{Body, Scope};
use crate::implicit_members::{put_default_constructor, put_enum_methods};
use crate::implicit_names::ImplicitNames;
use crate::member_types::{param_written, plain_written};
use crate::scopes::{body_of, context_inside, scope_of};
use crate::written::{DeclaredType, Written, WrittenField, WrittenMethod};
use jtypes::{Asks, Classes, FieldSig, JType, MethodSig, Name, SharedList};
use rw_base::Mem;
use std::alloc::Global;

fn field_with(owner: &Name, f: &WrittenField, ty: JType) -> Mem<FieldSig>
    ensures { IfOk result (λ field. field ≡ field_with owner.now f.now ty) }
{
    Ok(FieldSig {
        owner: owner.copy()?,
        name: f.name.copy()?,
        ty,
        is_static: f.is_static,
        is_private: f.is_private,
    })
}

/// A field in a scope without type parameters.
fn field_in<C: Classes>(
    alloc: Global,
    owner: &Name,
    own: &Scope,
    f: &WrittenField,
    c: &C,
    asks: &mut Asks,
) -> Mem<FieldSig>
    ensures { IfOk result (λ field. Told (field_in owner.now own.now f.now) (C.world c.now) asks.old asks.new field) }
{
    let ty = plain_written(alloc, owner, own, &f.ty, c, asks)?;
    let field = field_with(owner, f, ty)?;
    Ok(field)
}

/// The fields of a declared type (JLS 8.3, 8.9.1, 9.3), with the questions that decide their types put to `asks`: in
/// the order of the text, each with its erased type.
pub fn fields_of_asking<C: Classes>(
    alloc: Global,
    d: &DeclaredType,
    c: &C,
    asks: &mut Asks,
) -> Mem<Vec<FieldSig>>
    ensures told { IfOk result (λ fs. Told (fields_of d.now) (C.world c.now) asks.old asks.new fs.items) }
{
    let cx = context_inside(alloc, d)?;
    let own = scope_of(alloc, &SharedList::empty(), &cx)?;
    let mut fields = Vec::with_capacity(alloc, d.fields.len())?;
    for f in d.fields.as_slice() {
        let field = field_in(alloc, &d.name, &own, f, c, asks)?;
        fields.push(field)?;
    }
    Ok(fields)
}

/// The types of some parameters.
fn params_of<C: Classes>(
    alloc: Global,
    implicit: &ImplicitNames,
    body: &Body,
    own: &Scope,
    params: &[Written],
    c: &C,
    asks: &mut Asks,
) -> Mem<SharedList<JType>>
    ensures { IfOk result (λ types.
        Told (each (param_written body.now own.now) params.now) (C.world c.now) asks.old asks.new types) }
{
    let mut types = Vec::with_capacity(alloc, params.len())?;
    for param in params {
        let ty = param_written(alloc, implicit, body, own, param, c, asks)?;
        types.push(ty)?;
    }
    let list = SharedList::new(alloc, types)?;
    Ok(list)
}

fn method_with(
    owner: &Name,
    m: &WrittenMethod,
    params: SharedList<JType>,
    gives: JType,
) -> Mem<MethodSig>
    ensures { IfOk result (λ method. method ≡ method_with owner.now m.now params gives) }
{
    Ok(MethodSig {
        owner: owner.copy()?,
        name: m.name.copy()?,
        params,
        result: gives,
        varargs: m.varargs,
        is_static: m.is_static,
        is_private: m.is_private,
    })
}

/// A method in the scope of its type parameters.
fn method_in<C: Classes>(
    alloc: Global,
    implicit: &ImplicitNames,
    body: &Body,
    own: &Scope,
    m: &WrittenMethod,
    c: &C,
    asks: &mut Asks,
) -> Mem<MethodSig>
    ensures { IfOk result (λ method. Told (method_in body.now own.now m.now)
        (C.world c.now) asks.old asks.new method) }
{
    let params = params_of(alloc, implicit, body, own, m.params.as_slice(), c, asks)?;
    let gives = plain_written(alloc, &body.name, own, &m.result, c, asks)?;
    let method = method_with(&body.name, m, params, gives)?;
    Ok(method)
}

/// A declared method or constructor.
fn method_of<C: Classes>(
    alloc: Global,
    implicit: &ImplicitNames,
    body: &Body,
    m: &WrittenMethod,
    c: &C,
    asks: &mut Asks,
) -> Mem<MethodSig>
    ensures { IfOk result (λ method. Told (method_of body.now m.now) (C.world c.now) asks.old asks.new method) }
{
    let own = scope_of(alloc, &m.type_params, &body.cx)?;
    let method = method_in(alloc, implicit, body, &own, m, c, asks)?;
    Ok(method)
}

/// The methods and constructors that are declared.
fn declared_methods<C: Classes>(
    alloc: Global,
    implicit: &ImplicitNames,
    body: &Body,
    methods: &[WrittenMethod],
    c: &C,
    asks: &mut Asks,
) -> Mem<Vec<MethodSig>>
    ensures { IfOk result (λ ms.
        Told (each (method_of body.now) methods.now) (C.world c.now) asks.old asks.new ms.items) }
{
    let mut declared = Vec::with_capacity(alloc, methods.len())?;
    for m in methods {
        let method = method_of(alloc, implicit, body, m, c, asks)?;
        declared.push(method)?;
    }
    Ok(declared)
}

/// The methods and constructors of a declared type (JLS 8.4, 8.8, 8.8.9, 8.9.2, 8.9.3), with the questions that decide
/// their types put to `asks`: those that it declares in the order of the text, each with erased types; then `values`
/// and `valueOf` of an enum; then the constructor of a class or enum that declares none.
pub fn methods_of_asking<C: Classes>(
    alloc: Global,
    implicit: &ImplicitNames,
    d: &DeclaredType,
    c: &C,
    asks: &mut Asks,
) -> Mem<Vec<MethodSig>>
    ensures told { IfOk result (λ ms. Told (methods_of d.now) (C.world c.now) asks.old asks.new ms.items) }
{
    let body = body_of(alloc, d)?;
    let mut methods = declared_methods(alloc, implicit, &body, d.methods.as_slice(), c, asks)?;
    put_enum_methods(alloc, implicit, d, &mut methods)?;
    put_default_constructor(implicit, d, &mut methods)?;
    Ok(methods)
}
