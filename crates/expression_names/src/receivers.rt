// `this` and `super`.
ghost use Rattle.std.specs.Prelude.{◌≡◌, IfOk, OnOk};
ghost use Rattle.std.specs.Option.{option_copied};
ghost use Rattle.dialogue.specs.Told.{Told};
ghost use Rattle.judging.specs.Judging.{Judged};
ghost use Rattle.expression_names.specs.Bodies.{class_type, this_type, superclass, super_type, qualified_this};
ghost use Rattle.expression_names.specs.Bodies.{class_of_super, qualified_super, own_class, this_call, super_call};

use crate::bodies::Whose;
use crate::constructors::constructing;
use crate::denoted::Denoted;
use j_names::{UnitContext, super_of_asking, superclass_of_asking};
use j_overload::ArgType;
use jtypes::{Asks, Classes, JType, Name};
use judging::Log;
use rw_base::Mem;
use std::alloc::Global;

fn class_type(class: Option<Name>) -> JType
    ensures { result ≡ class_type class }
{
    match class {
        Some(name) => JType::Class(name),
        None => JType::Unknown,
    }
}

/// The type of `this` in a body (JLS 15.8.3): the class, or the named supertype of an anonymous class, else Unknown.
pub fn this_type(whose: &Whose) -> Mem<JType>
    ensures value { IfOk result (λ ty. ty ≡ this_type whose.now) }
{
    match whose {
        Whose::Named(name) => Ok(JType::Class(name.copy()?)),
        Whose::Anonymous(Some(supertype)) => Ok(JType::Class(supertype.copy()?)),
        _ => Ok(JType::Unknown),
    }
}

/// The superclass of the class that a body is of, if it's known.
fn superclass<C: Classes>(whose: &Whose, c: &C, asks: &mut Asks) -> Mem<Option<Name>>
    ensures { IfOk result (λ t. Told (superclass whose.now) (C.world c.now) asks.old asks.new t) }
{
    match whose {
        Whose::Named(name) => {
            let class = superclass_of_asking(name, c, asks)?;
            Ok(class)
        }
        _ => Ok(None),
    }
}

/// Judges `super` in a body (JLS 15.11.2), and gives its type: the superclass, else Unknown.
pub fn super_type<C: Classes>(whose: &Whose, c: &C, log: &mut Log) -> Mem<JType>
    ensures judged { IfOk result (λ ty.
        Judged (super_type whose.now) (C.world c.now) log.old log.new ty) }
{
    let class = superclass(whose, c, &mut log.asks)?;
    Ok(class_type(class))
}

/// The type of `T.this` (JLS 15.8.4), by what stands in front of the dot: the class, else Unknown.
pub fn qualified_this(before: &Denoted) -> Mem<JType>
    ensures value { IfOk result (λ ty. ty ≡ qualified_this before.now) }
{
    match before {
        Denoted::Class(name) => Ok(JType::Class(name.copy()?)),
        _ => Ok(JType::Unknown),
    }
}

/// The class of `T.super`, if it's known.
fn class_of_super<C: Classes>(before: &Denoted, c: &C, asks: &mut Asks) -> Mem<Option<Name>>
    ensures { IfOk result (λ t. Told (class_of_super before.now) (C.world c.now) asks.old asks.new t) }
{
    match before {
        Denoted::Class(name) => {
            let class = super_of_asking(name, c, asks)?;
            Ok(class)
        }
        _ => Ok(None),
    }
}

/// Judges `T.super` (JLS 15.11.2, 15.12.1), by what stands in front of the dot, and gives its type: an interface
/// itself, of a class its superclass, else Unknown.
pub fn qualified_super<C: Classes>(before: &Denoted, c: &C, log: &mut Log) -> Mem<JType>
    ensures judged { IfOk result (λ ty.
        Judged (qualified_super before.now) (C.world c.now) log.old log.new ty) }
{
    let class = class_of_super(before, c, &mut log.asks)?;
    Ok(class_type(class))
}

/// The class that a body is of, where it is declared by a qualified name.
fn own_class(whose: &Whose) -> Option<&Name>
    ensures { option_copied result ≡ own_class whose.now }
{
    match whose {
        Whose::Named(name) => Some(name),
        _ => None,
    }
}

/// Judges `this(..)` in a constructor (JLS 8.8.7.1). The constructor of the class that the arguments choose is noted as
/// chosen at a leaf.
pub fn this_call<C: Classes>(
    alloc: Global,
    cx: &UnitContext,
    whose: &Whose,
    leaf: u32,
    args: &[ArgType],
    c: &C,
    log: &mut Log,
) -> Mem<()>
    ensures judged { OnOk result (
        Judged (this_call cx.now whose.now leaf args.now) (C.world c.now) log.old log.new (record {})) }
{
    constructing(alloc, cx, own_class(whose), leaf, args, c, log)?;
    Ok(())
}

/// Judges `super(..)` in a constructor (JLS 8.8.7.1). The constructor of the superclass that the arguments choose is
/// noted as chosen at a leaf.
pub fn super_call<C: Classes>(
    alloc: Global,
    cx: &UnitContext,
    whose: &Whose,
    leaf: u32,
    args: &[ArgType],
    c: &C,
    log: &mut Log,
) -> Mem<()>
    ensures judged { OnOk result (
        Judged (super_call cx.now whose.now leaf args.now) (C.world c.now) log.old log.new (record {})) }
{
    let class = superclass(whose, c, &mut log.asks)?;
    constructing(alloc, cx, class.as_ref(), leaf, args, c, log)?;
    Ok(())
}
