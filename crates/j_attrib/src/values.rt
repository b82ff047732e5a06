// What a value is where another node asks for a type, a name, arguments, or parameters.
ghost use Rattle.std.specs.Prelude.{◌≡◌, ◌++◌, IfOk, OnOk, map};
ghost use Rattle.std.specs.Option.{option_copied};
ghost use Rattle.j_attrib.specs.Values.{args_in, argument, as_expression, class_in, class_named, denoted_in};
ghost use Rattle.j_attrib.specs.Values.{expr, last_value, meant_in, operands, params_in, type_in, value_at, written_in};

use crate::value::Value;
use declared_names::Parameter;
use expression_names::Denoted;
use j_overload::ArgType;
use jtypes::{JType, Name};
use rw_base::Mem;
use sqlite_items::{Items, at};
use std::alloc::Global;
use type_positions::MeantType;

/// What a name or a primary stands for, once more.
pub(crate) fn copy_denoted(denoted: &Denoted) -> Mem<Denoted>
    ensures { IfOk result (λ copy. copy ≡ denoted.now) }
{
    match denoted {
        Denoted::Package(name) => Ok(Denoted::Package(name.copy()?)),
        Denoted::Class(name) => Ok(Denoted::Class(name.copy()?)),
        Denoted::Expr(ty) => Ok(Denoted::Expr(ty.copy()?)),
    }
}

/// A written type once more.
pub(crate) fn copy_meant(meant: &MeantType) -> Mem<MeantType>
    ensures { IfOk result (λ copy. copy ≡ meant.now) }
{
    Ok(MeantType {
        ty: meant.ty.copy()?,
        is_variable: meant.is_variable,
    })
}

fn copy_arg(arg: &ArgType) -> Mem<ArgType>
    ensures { IfOk result (λ copy. copy ≡ arg.now) }
{
    match arg {
        ArgType::Known(ty) => Ok(ArgType::Known(ty.copy()?)),
        ArgType::Function => Ok(ArgType::Function),
    }
}

/// Arguments once more.
pub(crate) fn copy_args(alloc: Global, args: &[ArgType]) -> Mem<Items<ArgType>>
    ensures { IfOk result (λ copy. copy ≡ args.now) }
{
    let mut copy = Items::new(alloc);
    for arg in args {
        copy.push(copy_arg(arg)?)?;
    }
    Ok(copy)
}

fn copy_parameter(parameter: &Parameter) -> Mem<Parameter>
    ensures { IfOk result (λ copy. copy ≡ parameter.now) }
{
    Ok(Parameter {
        leaf: parameter.leaf,
        ty: parameter.ty.copy()?,
        is_variable: parameter.is_variable,
    })
}

/// An optional name once more.
pub(crate) fn copy_name(name: &Option<Name>) -> Mem<Option<Name>>
    ensures { IfOk result (λ copy. copy ≡ name.now) }
{
    match name {
        Some(name) => Ok(Some(name.copy()?)),
        None => Ok(None),
    }
}

/// An expression of a type.
pub(crate) fn expr(ty: JType) -> Value
    ensures { result ≡ expr ty }
{
    Value::Denoted(Denoted::Expr(ty))
}

impl Value {
    /// The type of an expression, or the one that is written.
    pub(crate) fn ty(&self) -> Mem<JType>
        ensures { IfOk result (λ ty. ty ≡ type_in self.now) }
    {
        match self {
            Value::Denoted(denoted) => denoted.ty(),
            Value::Written(meant) => meant.ty.copy(),
            _ => Ok(JType::Unknown),
        }
    }

    /// What stands before a dot.
    pub(crate) fn denoted(&self) -> Mem<Denoted>
        ensures { IfOk result (λ denoted. denoted ≡ denoted_in self.now) }
    {
        match self {
            Value::Denoted(denoted) => copy_denoted(denoted),
            _ => Ok(Denoted::Expr(self.ty()?)),
        }
    }

    /// Behind parentheses or `++` a name is no package and no class any more.
    pub(crate) fn as_expression(self) -> Mem<Value>
        ensures { IfOk result (λ value. value ≡ as_expression self) }
    {
        match self {
            Value::Denoted(denoted) => Ok(expr(denoted.ty()?)),
            value => Ok(value),
        }
    }

    /// A written type.
    pub(crate) fn meant(&self) -> Mem<MeantType>
        ensures { IfOk result (λ meant. meant ≡ meant_in self.now) }
    {
        match self {
            Value::Written(meant) => copy_meant(meant),
            _ => Ok(MeantType {
                ty: JType::Unknown,
                is_variable: false,
            }),
        }
    }

    /// An argument of a call.
    pub(crate) fn argument(&self) -> Mem<ArgType>
        ensures { IfOk result (λ arg. arg ≡ argument self.now) }
    {
        match self {
            Value::Function => Ok(ArgType::Function),
            _ => Ok(ArgType::Known(self.ty()?)),
        }
    }

    /// The class that it names, or that its type is.
    pub(crate) fn class(&self) -> Mem<Option<Name>>
        ensures { IfOk result (λ class. class ≡ class_named self.now) }
    {
        match self {
            Value::Denoted(Denoted::Class(name)) => Ok(Some(name.copy()?)),
            _ => class_in(self.ty()?),
        }
    }
}

/// The class that a type is.
pub(crate) fn class_in(ty: JType) -> Mem<Option<Name>>
    ensures { IfOk result (λ class. class ≡ class_in ty) }
{
    match ty {
        JType::Class(name) => Ok(Some(name)),
        _ => Ok(None),
    }
}

/// The value of a part once more.
pub(crate) fn copy_value(alloc: Global, value: &Value) -> Mem<Value>
    ensures { IfOk result (λ copy. copy ≡ value.now) }
{
    match value {
        Value::Nothing => Ok(Value::Nothing),
        Value::Denoted(denoted) => Ok(Value::Denoted(copy_denoted(denoted)?)),
        Value::Function => Ok(Value::Function),
        Value::Written(meant) => Ok(Value::Written(copy_meant(meant)?)),
        Value::Args(args) => Ok(Value::Args(copy_args(alloc, args.as_slice())?)),
        Value::Dims(dims) => Ok(Value::Dims(*dims)),
        Value::Params(params) => Ok(Value::Params(copy_params(alloc, params.as_slice())?)),
    }
}

/// Parameters once more.
fn copy_params(alloc: Global, params: &[Parameter]) -> Mem<Items<Parameter>>
    ensures { IfOk result (λ copy. copy ≡ params.now) }
{
    let mut copy = Items::new(alloc);
    for parameter in params {
        copy.push(copy_parameter(parameter)?)?;
    }
    Ok(copy)
}

/// What the part of this number gives, of those that are nodes; nothing where there is none.
pub(crate) fn value_at(alloc: Global, values: &[Value], place: usize) -> Mem<Value>
    ensures { IfOk result (λ value. value ≡ value_at values.now place) }
{
    match at(values, place) {
        Some(value) => copy_value(alloc, value),
        None => Ok(Value::Nothing),
    }
}

/// What the last part gives that is a node; nothing where there is none.
pub(crate) fn last_value(alloc: Global, values: &[Value]) -> Mem<Value>
    ensures { IfOk result (λ value. value ≡ last_value values.now) }
{
    match values.last() {
        Some(value) => copy_value(alloc, value),
        None => Ok(Value::Nothing),
    }
}

/// The type that the part of this number gives.
pub(crate) fn type_at(values: &[Value], place: usize) -> Mem<JType>
    ensures { IfOk result (λ ty. ty ≡ type_in (value_at values.now place)) }
{
    match at(values, place) {
        Some(value) => value.ty(),
        None => Ok(JType::Unknown),
    }
}

/// What stands before a dot, by the last part that is a node.
pub(crate) fn last_denoted(values: &[Value]) -> Mem<Denoted>
    ensures { IfOk result (λ denoted. denoted ≡ denoted_in (last_value values.now)) }
{
    match values.last() {
        Some(value) => value.denoted(),
        None => Ok(Denoted::Expr(JType::Unknown)),
    }
}

/// The written type that the last part gives.
pub(crate) fn last_meant(values: &[Value]) -> Mem<MeantType>
    ensures { IfOk result (λ meant. meant ≡ meant_in (last_value values.now)) }
{
    match values.last() {
        Some(value) => value.meant(),
        None => Value::Nothing.meant(),
    }
}

/// The written type that the part of this number gives.
pub(crate) fn meant_at(values: &[Value], place: usize) -> Mem<MeantType>
    ensures { IfOk result (λ meant. meant ≡ meant_in (value_at values.now place)) }
{
    match at(values, place) {
        Some(value) => value.meant(),
        None => Value::Nothing.meant(),
    }
}

/// The class that the part of this number names.
pub(crate) fn class_at(values: &[Value], place: usize) -> Mem<Option<Name>>
    ensures { IfOk result (λ class. class ≡ class_named (value_at values.now place)) }
{
    match at(values, place) {
        Some(value) => value.class(),
        None => Ok(None),
    }
}

/// The types of operands; signs that are nodes of their own give nothing.
pub(crate) fn operands(alloc: Global, values: &[Value]) -> Mem<Items<JType>>
    ensures { IfOk result (λ types. types ≡ operands values.now) }
{
    let mut types = Items::new(alloc);
    for value in values {
        match value {
            Value::Nothing => {}
            value => types.push(value.ty()?)?,
        }
    }
    Ok(types)
}

/// The types that are written.
pub(crate) fn written_in(alloc: Global, values: &[Value]) -> Mem<Items<MeantType>>
    ensures { IfOk result (λ types. types ≡ written_in values.now) }
{
    let mut types = Items::new(alloc);
    for value in values {
        if let Value::Written(meant) = value {
            types.push(copy_meant(meant)?)?;
        }
    }
    Ok(types)
}

/// The arguments of a call.
pub(crate) fn arguments(alloc: Global, values: &[Value]) -> Mem<Items<ArgType>>
    ensures { IfOk result (λ args. args ≡ map argument values.now) }
{
    let mut args = Items::new(alloc);
    for value in values {
        args.push(value.argument()?)?;
    }
    Ok(args)
}

/// The arguments that a part gives, where one does.
pub(crate) fn args_in(values: &[Value]) -> Option<&Items<ArgType>>
    ensures { option_copied result ≡ args_in values.now }
{
    for value in values {
        if let Value::Args(args) = value {
            return Some(args);
        }
    }
    None
}

/// All parameters, in order.
#[tactic(auto, unfolding(crate::specs::Values::params_in))]
pub(crate) fn params_in(alloc: Global, values: &[Value]) -> Mem<Items<Parameter>>
    ensures { IfOk result (λ params. params ≡ params_in values.now) }
{
    let mut all = Items::new(alloc);
    for value in values {
        if let Value::Params(params) = value {
            add_params(params.as_slice(), &mut all)?;
        }
    }
    Ok(all)
}

/// Puts parameters behind others.
fn add_params(params: &[Parameter], all: &mut Items<Parameter>) -> Mem<()>
    ensures { OnOk result (all.new ≡ all.old ++ params.now) }
{
    for parameter in params {
        all.push(copy_parameter(parameter)?)?;
    }
    Ok(())
}
