// Case labels.
ghost use Rattle.std.specs.Prelude.{◌≡◌, IfOk};
ghost use Rattle.std.specs.Option.{option_copied};
ghost use Rattle.dialogue.specs.Told.{Told};
ghost use Rattle.jtypes.specs.World.{World};
ghost use Rattle.judging.specs.Judging.{Judged};
ghost use Rattle.declared_names.specs.Cases.{is_enum, constant_of, label_meant};
ghost use Rattle.declared_names.specs.Cases.{type_of_constant, label_noted, case_name};

use crate::fields::field_there;
use jtypes::{Asks, ClassKind, Classes, Header, JType, Name, Symbol, ask_class};
use judging::{Log, Note};
use rw_base::Mem;

fn is_enum(kind: ClassKind) -> bool
    ensures { result ≡ is_enum kind }
{
    matches!(kind, ClassKind::Enum)
}

/// The constant of a name that a class declares, where the class is an enum.
fn constant_of<C: Classes>(
    owner: &Name,
    name: &Name,
    header: Option<&Header>,
    c: &C,
    asks: &mut Asks,
) -> Mem<Option<Symbol>>
    ensures { IfOk result (λ s. Told (constant_of owner.now name.now (option_copied header.entry))
        (C.world c.now) asks.old asks.new s) }
{
    let Some(header) = header else {
        return Ok(None);
    };
    if !is_enum(header.kind) {
        return Ok(None);
    }
    let constant = field_there(owner, name, c, asks)?;
    Ok(Some(constant))
}

fn label_meant<C: Classes>(
    selector: &JType,
    name: &Name,
    c: &C,
    asks: &mut Asks,
) -> Mem<Option<Symbol>>
    ensures { IfOk result (λ s.
        Told (label_meant selector.now name.now) (C.world c.now) asks.old asks.new s) }
{
    let JType::Class(owner) = selector else {
        return Ok(None);
    };
    let header = ask_class(owner, c, asks)?;
    let constant = constant_of(owner, name, header, c, asks)?;
    Ok(constant)
}

fn type_of_constant(symbol: &Symbol) -> Mem<JType>
    ensures { IfOk result (λ ty. ty ≡ type_of_constant symbol.now) }
{
    match symbol {
        Symbol::Field(field) => field.ty.copy(),
        _ => Ok(JType::Unknown),
    }
}

/// Notes a label that is an enum constant, and gives its type.
fn label_noted(leaf: u32, symbol: Option<Symbol>, log: &mut Log) -> Mem<Option<JType>>
    ensures { IfOk result (λ ty. (w : World) → Judged (label_noted leaf symbol) w log.old log.new ty) }
{
    let Some(symbol) = symbol else {
        return Ok(None);
    };
    let ty = type_of_constant(&symbol)?;
    log.note(Note::Symbol(leaf, symbol))?;
    Ok(Some(ty))
}

/// Notes what a simple name in the label of a switch means where the type that is switched over is an enum (JLS 14.11):
/// the field that the enum itself declares by that name, or Unknown, and gives its type. Where that type is no enum, it
/// gives None and notes nothing: the name means what it means in other expressions.
pub fn case_name<C: Classes>(
    selector: &JType,
    leaf: u32,
    name: &Name,
    c: &C,
    log: &mut Log,
) -> Mem<Option<JType>>
    ensures judged { IfOk result (λ ty.
        Judged (case_name selector.now leaf name.now) (C.world c.now) log.old log.new ty) }
{
    let symbol = label_meant(selector, name, c, &mut log.asks)?;
    let ty = label_noted(leaf, symbol, log)?;
    Ok(ty)
}
