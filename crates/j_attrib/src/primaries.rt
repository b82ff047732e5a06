// Primaries and what stands behind a dot, by their words and what their parts give.
ghost use Rattle.std.specs.Prelude.{◌≡◌, IfOk};
ghost use Rattle.std.specs.Option.{option_copied};
ghost use Rattle.judging.specs.Judging.{Judged};
ghost use Rattle.j_attrib.specs.Primaries.{behind_dot, constructed, creation, label, label_or_name, literal_or_unknown};
ghost use Rattle.j_attrib.specs.Primaries.{name_or_call, name_or_call_behind, primary, super_or_call, this_or_call};

use crate::surroundings::Surroundings;
use crate::value::Value;
use crate::values::{args_in, class_in, expr, value_at};
use crate::words::literal_of;
use declared_names::case_name;
use expression_names::{
    Denoted, call, call_behind, constructing, name_behind, qualified_super, qualified_this,
    simple_name, super_call, super_type, this_call, this_type, whose_body,
};
use j_names::Frames;
use j_overload::ArgType;
use java_lex::class;
use jtypes::{Classes, JType};
use judging::Log;
use operator_types::{CommonTypes, Literal, literal_type};
use rw_base::Mem;
use sqlite_items::Items;
use std::alloc::Global;
use type_positions::{MeantType, with_more_dims};

/// A name, or a call of a method (JLS 6.5.6.1, 15.12).
pub(crate) fn name_or_call<C: Classes>(
    alloc: Global,
    u: &Surroundings,
    frames: &Frames,
    leaf: u32,
    args: Option<&Items<ArgType>>,
    c: &C,
    log: &mut Log,
) -> Mem<Value>
    ensures { IfOk result (λ v. Judged (name_or_call u.now frames.now leaf (option_copied args.entry))
        (C.world c.now) log.old log.new v) }
{
    let name = u.name(alloc, leaf)?;
    match args {
        None => {
            let denoted = simple_name(alloc, u.context(), frames, leaf, &name, c, log)?;
            Ok(Value::Denoted(denoted))
        }
        Some(args) => {
            let args = args.as_slice();
            let ty = call(alloc, u.context(), frames, leaf, &name, args, c, log)?;
            Ok(expr(ty))
        }
    }
}

/// `this` (JLS 15.8.3), or a call of a constructor of the same class.
pub(crate) fn this_or_call<C: Classes>(
    alloc: Global,
    u: &Surroundings,
    frames: &Frames,
    leaf: u32,
    args: Option<&Items<ArgType>>,
    c: &C,
    log: &mut Log,
) -> Mem<Value>
    ensures { IfOk result (λ v. Judged (this_or_call u.now frames.now leaf (option_copied args.entry))
        (C.world c.now) log.old log.new v) }
{
    let whose = whose_body(u.context(), frames)?;
    match args {
        None => {
            let ty = this_type(&whose)?;
            Ok(expr(ty))
        }
        Some(args) => {
            let args = args.as_slice();
            this_call(alloc, u.context(), &whose, leaf, args, c, log)?;
            Ok(expr(JType::Void))
        }
    }
}

/// `super` (JLS 15.11.2), or a call of a constructor of the superclass.
pub(crate) fn super_or_call<C: Classes>(
    alloc: Global,
    u: &Surroundings,
    frames: &Frames,
    leaf: u32,
    args: Option<&Items<ArgType>>,
    c: &C,
    log: &mut Log,
) -> Mem<Value>
    ensures { IfOk result (λ v. Judged (super_or_call u.now frames.now leaf (option_copied args.entry))
        (C.world c.now) log.old log.new v) }
{
    let whose = whose_body(u.context(), frames)?;
    match args {
        None => {
            let ty = super_type(&whose, c, log)?;
            Ok(expr(ty))
        }
        Some(args) => {
            let args = args.as_slice();
            super_call(alloc, u.context(), &whose, leaf, args, c, log)?;
            Ok(expr(JType::Void))
        }
    }
}

/// The type of a literal (JLS 15.8.1), if it's one.
fn literal_or_unknown(common: &CommonTypes, literal: Option<Literal>) -> Mem<JType>
    ensures { IfOk result (λ ty. ty ≡ literal_or_unknown literal) }
{
    match literal {
        None => Ok(JType::Unknown),
        Some(literal) => {
            let ty = literal_type(common, literal)?;
            Ok(ty)
        }
    }
}

/// A primary, by the class of its first leaf.
#[tactic(auto, using(judging::specs::JudgingLaws::judged_give), unfolding(crate::specs::Primaries::primary))]
pub(crate) fn primary<C: Classes>(
    alloc: Global,
    u: &Surroundings,
    frames: &Frames,
    common: &CommonTypes,
    word: u16,
    leaf: u32,
    values: &[Value],
    c: &C,
    log: &mut Log,
) -> Mem<Value>
    ensures { IfOk result (λ v. Judged (primary u.now frames.now word leaf values.now)
        (C.world c.now) log.old log.new v) }
{
    if word == class::ID {
        let value = name_or_call(alloc, u, frames, leaf, args_in(values), c, log)?;
        return Ok(value);
    }
    if word == class::THIS {
        let value = this_or_call(alloc, u, frames, leaf, args_in(values), c, log)?;
        return Ok(value);
    }
    if word == class::SUPER {
        let value = super_or_call(alloc, u, frames, leaf, args_in(values), c, log)?;
        return Ok(value);
    }
    if word == class::NEW {
        let value = value_at(alloc, values, 0)?;
        return Ok(value);
    }
    let ty = if word == class::VOID {
        common.class()?
    } else {
        literal_or_unknown(common, literal_of(word))?
    };
    Ok(expr(ty))
}

/// A name in a case label that is no constant of an enum is what it is elsewhere.
fn label_or_name<C: Classes>(
    alloc: Global,
    u: &Surroundings,
    frames: &Frames,
    leaf: u32,
    constant: Option<JType>,
    c: &C,
    log: &mut Log,
) -> Mem<Value>
    ensures { IfOk result (λ v. Judged (label_or_name u.now frames.now leaf constant)
        (C.world c.now) log.old log.new v) }
{
    match constant {
        None => {
            let value = name_or_call(alloc, u, frames, leaf, None, c, log)?;
            Ok(value)
        }
        Some(ty) => Ok(expr(ty)),
    }
}

/// A simple name in a case label is a constant of an enum that is switched over (JLS 14.11), else what it is elsewhere.
pub(crate) fn label<C: Classes>(
    alloc: Global,
    u: &Surroundings,
    frames: &Frames,
    selector: &JType,
    leaf: u32,
    c: &C,
    log: &mut Log,
) -> Mem<Value>
    ensures { IfOk result (λ v. Judged (label u.now frames.now selector.now leaf)
        (C.world c.now) log.old log.new v) }
{
    let name = u.name(alloc, leaf)?;
    let constant = case_name(selector, leaf, &name, c, log)?;
    let value = label_or_name(alloc, u, frames, leaf, constant, c, log)?;
    Ok(value)
}

/// A name behind a dot, or a call of a method (JLS 6.5.6.2, 15.11, 15.12).
pub(crate) fn name_or_call_behind<C: Classes>(
    alloc: Global,
    u: &Surroundings,
    before: &Denoted,
    leaf: u32,
    args: Option<&Items<ArgType>>,
    c: &C,
    log: &mut Log,
) -> Mem<Value>
    ensures { IfOk result (λ v. Judged (name_or_call_behind u.now before.now leaf (option_copied args.entry))
        (C.world c.now) log.old log.new v) }
{
    let name = u.name(alloc, leaf)?;
    match args {
        None => {
            let denoted = name_behind(alloc, u.context(), before, leaf, &name, c, log)?;
            Ok(Value::Denoted(denoted))
        }
        Some(args) => {
            let args = args.as_slice();
            let ty = call_behind(alloc, u.context(), before, leaf, &name, args, c, log)?;
            Ok(expr(ty))
        }
    }
}

/// What stands behind a dot (JLS 15.8.2, 15.8.4, 15.11.2), by the class of its first leaf.
#[tactic(auto, using(judging::specs::JudgingLaws::judged_give), unfolding(crate::specs::Primaries::behind_dot))]
pub(crate) fn behind_dot<C: Classes>(
    alloc: Global,
    u: &Surroundings,
    common: &CommonTypes,
    before: &Denoted,
    word: u16,
    first: Option<u32>,
    values: &[Value],
    c: &C,
    log: &mut Log,
) -> Mem<Value>
    ensures { IfOk result (λ v. Judged (behind_dot u.now before.now word first values.now)
        (C.world c.now) log.old log.new v) }
{
    let Some(leaf) = first else {
        return Ok(Value::Nothing);
    };
    if word == class::CLASS {
        let ty = common.class()?;
        return Ok(expr(ty));
    }
    if word == class::THIS {
        let ty = qualified_this(before)?;
        return Ok(expr(ty));
    }
    if word == class::SUPER {
        let ty = qualified_super(before, c, log)?;
        return Ok(expr(ty));
    }
    let value = name_or_call_behind(alloc, u, before, leaf, args_in(values), c, log)?;
    Ok(value)
}

/// A class that is created (JLS 15.9), and the call of its constructor.
fn constructed<C: Classes>(
    alloc: Global,
    u: &Surroundings,
    leaf: u32,
    meant: MeantType,
    args: &[ArgType],
    c: &C,
    log: &mut Log,
) -> Mem<Value>
    ensures { IfOk result (λ v. Judged (constructed u.now leaf meant args.now)
        (C.world c.now) log.old log.new v) }
{
    let ty = meant.ty.copy()?;
    let class = class_in(meant.ty)?;
    constructing(alloc, u.context(), class.as_ref(), leaf, args, c, log)?;
    Ok(expr(ty))
}

/// A creation (JLS 15.9, 15.10): the created type, whose name ends with a leaf, and the arguments or dimensions.
#[tactic(auto, using(judging::specs::JudgingLaws::judged_give), unfolding(crate::specs::Primaries::creation))]
pub(crate) fn creation<C: Classes>(
    alloc: Global,
    u: &Surroundings,
    name: Option<u32>,
    created: Value,
    rest: Value,
    c: &C,
    log: &mut Log,
) -> Mem<Value>
    ensures { IfOk result (λ v. Judged (creation u.now name created rest) (C.world c.now) log.old log.new v) }
{
    let Value::Written(meant) = created else {
        return Ok(expr(JType::Unknown));
    };
    match rest {
        Value::Args(args) => match name {
            Some(leaf) => {
                let value = constructed(alloc, u, leaf, meant, args.as_slice(), c, log)?;
                Ok(value)
            }
            None => Ok(expr(meant.ty)),
        },
        Value::Dims(dims) => {
            let meant = with_more_dims(alloc, dims, meant)?;
            Ok(expr(meant.ty))
        }
        _ => Ok(expr(JType::Unknown)),
    }
}
