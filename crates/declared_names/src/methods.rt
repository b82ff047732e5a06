// Declared methods and constructors.
ghost use Rattle.std.specs.Prelude.{◌≡◌, IfOk, OnOk, filter};
ghost use Rattle.std.specs.List.{zip, list_all};
ghost use Rattle.std.specs.Option.{option_copied};
ghost use Rattle.dialogue.specs.Told.{Told};
ghost use Rattle.jtypes.specs.Subtype.{type_eq};
ghost use Rattle.jtypes.specs.World.{first};
ghost use Rattle.j_names.specs.Calls.{constructor_name};
ghost use Rattle.judging.specs.Judging.{Judged};
ghost use Rattle.declared_names.specs.Declarations.{or_unknown, has_type, has_parameters, method_there, method_meant};
ghost use Rattle.declared_names.specs.Declarations.{declared_method, declared_constructor};

use crate::noting::noted;
use crate::parameter::Parameter;
use jtypes::{Asks, Classes, JType, MethodSig, Name, Symbol, ask_methods};
use judging::Log;
use rw_base::Mem;
use std::alloc::Global;

fn is_type(ty: &JType, other: &JType) -> bool
    ensures { result ≡ type_eq ty.now other.now }
{
    ty.is(other)
}

fn has_type(param: &Parameter, ty: &JType) -> bool
    ensures { result ≡ has_type param.now ty.now }
{
    param.is_variable || is_type(&param.ty, ty)
}

fn have_types(params: &[Parameter], types: &[JType]) -> bool
    ensures { result ≡ list_all (λ p. has_type p.0 p.1) (zip params.now types.now) }
{
    params
        .iter()
        .zip(types)
        .all(|(param, ty)| has_type(param, ty))
}

fn has_parameters(params: &[Parameter], method: &MethodSig) -> bool
    ensures { result ≡ has_parameters params.now method.now }
{
    params.len() == method.params.len() && have_types(params, method.params.as_slice())
}

/// The first of some methods that has parameters of these types.
fn first_with(params: &[Parameter], methods: &[MethodSig]) -> Mem<Symbol>
    ensures { IfOk result (λ s. s ≡ or_unknown Symbol.Method (first (filter (has_parameters params.now) methods.now))) }
{
    for method in methods {
        if has_parameters(params, method) {
            return Ok(Symbol::Method(method.copy()?));
        }
    }
    Ok(Symbol::Unknown)
}

/// The method with these parameters that a class declares by a name.
fn method_there<C: Classes>(
    owner: &Name,
    name: &Name,
    params: &[Parameter],
    c: &C,
    asks: &mut Asks,
) -> Mem<Symbol>
    ensures { IfOk result (λ s.
        Told (method_there owner.now name.now params.now) (C.world c.now) asks.old asks.new s) }
{
    let methods = ask_methods(owner, name, c, asks)?;
    let method = first_with(params, methods)?;
    Ok(method)
}

fn method_meant<C: Classes>(
    class: Option<&Name>,
    name: &Name,
    params: &[Parameter],
    c: &C,
    asks: &mut Asks,
) -> Mem<Symbol>
    ensures { IfOk result (λ s.
        Told (method_meant (option_copied class.entry) name.now params.now) (C.world c.now) asks.old asks.new s) }
{
    match class {
        Some(owner) => {
            let method = method_there(owner, name, params, c, asks)?;
            Ok(method)
        }
        None => Ok(Symbol::Unknown),
    }
}

/// Notes what the name of a declared method means (JLS 8.4): the first of the world's methods of its class and name
/// with as many parameters of the same erased types, or Unknown where there is none, as in a local or anonymous class.
/// A parameter whose type is a type variable or an array of one has whatever type the method has there.
pub fn declared_method<C: Classes>(
    class: Option<&Name>,
    leaf: u32,
    name: &Name,
    params: &[Parameter],
    c: &C,
    log: &mut Log,
) -> Mem<()>
    ensures judged { OnOk result (
        Judged (declared_method (option_copied class.entry) leaf name.now params.now)
        (C.world c.now) log.old log.new (record {})) }
{
    let symbol = method_meant(class, name, params, c, &mut log.asks)?;
    noted(leaf, symbol, log)?;
    Ok(())
}

#[tactic(auto, unfolding(j_names::specs::Calls::constructor_name))]
fn constructor_name(alloc: Global) -> Mem<Name>
    ensures { IfOk result (λ name. name ≡ constructor_name) }
{
    Name::new(alloc, b"<constructor>")
}

/// Notes what the name of a declared constructor means (JLS 8.8): as that of a method, among the constructors of its
/// class.
pub fn declared_constructor<C: Classes>(
    alloc: Global,
    class: Option<&Name>,
    leaf: u32,
    params: &[Parameter],
    c: &C,
    log: &mut Log,
) -> Mem<()>
    ensures judged { OnOk result (
        Judged (declared_constructor (option_copied class.entry) leaf params.now)
        (C.world c.now) log.old log.new (record {})) }
{
    let name = constructor_name(alloc)?;
    let symbol = method_meant(class, &name, params, c, &mut log.asks)?;
    noted(leaf, symbol, log)?;
    Ok(())
}
