// Declared fields and enum constants.
ghost use Rattle.std.specs.Prelude.{◌≡◌, IfOk, OnOk};
ghost use Rattle.std.specs.Option.{option_copied};
ghost use Rattle.dialogue.specs.Told.{Told};
ghost use Rattle.judging.specs.Judging.{Judged};
ghost use Rattle.declared_names.specs.Declarations.{field_there, field_meant, declared_field};
ghost use Rattle.declared_names.specs.Declarations.{constant_meant, declared_constant};

use crate::noting::noted;
use jtypes::{Asks, Classes, JType, Name, Symbol, ask_field};
use judging::Log;
use rw_base::Mem;

/// The field that a class declares by a name.
pub(crate) fn field_there<C: Classes>(
    owner: &Name,
    name: &Name,
    c: &C,
    asks: &mut Asks,
) -> Mem<Symbol>
    ensures { IfOk result (λ s.
        Told (field_there owner.now name.now) (C.world c.now) asks.old asks.new s) }
{
    match ask_field(owner, name, c, asks)? {
        Some(field) => Ok(Symbol::Field(field.copy()?)),
        None => Ok(Symbol::Unknown),
    }
}

fn field_meant<C: Classes>(
    class: Option<&Name>,
    name: &Name,
    ty: &JType,
    c: &C,
    asks: &mut Asks,
) -> Mem<Symbol>
    ensures { IfOk result (λ s.
        Told (field_meant (option_copied class.entry) name.now ty.now) (C.world c.now) asks.old asks.new s) }
{
    match class {
        Some(owner) => {
            let field = field_there(owner, name, c, asks)?;
            Ok(field)
        }
        None => Ok(Symbol::Local(ty.copy()?)),
    }
}

/// Notes what the name of a declared field means (JLS 8.3): the world's field of its class and name, or Unknown where
/// there is none. In a local or anonymous class, which has no qualified name, it is a local of its type.
pub fn declared_field<C: Classes>(
    class: Option<&Name>,
    leaf: u32,
    name: &Name,
    ty: &JType,
    c: &C,
    log: &mut Log,
) -> Mem<()>
    ensures judged { OnOk result (
        Judged (declared_field (option_copied class.entry) leaf name.now ty.now)
        (C.world c.now) log.old log.new (record {})) }
{
    let symbol = field_meant(class, name, ty, c, &mut log.asks)?;
    noted(leaf, symbol, log)?;
    Ok(())
}

fn constant_meant<C: Classes>(
    class: Option<&Name>,
    name: &Name,
    c: &C,
    asks: &mut Asks,
) -> Mem<Symbol>
    ensures { IfOk result (λ s.
        Told (constant_meant (option_copied class.entry) name.now) (C.world c.now) asks.old asks.new s) }
{
    match class {
        Some(owner) => {
            let constant = field_there(owner, name, c, asks)?;
            Ok(constant)
        }
        None => Ok(Symbol::Unknown),
    }
}

/// Notes what the name of a declared enum constant means (JLS 8.9.1): the world's field of its enum and name, or
/// Unknown where there is none, as in an enum without a qualified name.
pub fn declared_constant<C: Classes>(
    class: Option<&Name>,
    leaf: u32,
    name: &Name,
    c: &C,
    log: &mut Log,
) -> Mem<()>
    ensures judged { OnOk result (
        Judged (declared_constant (option_copied class.entry) leaf name.now)
        (C.world c.now) log.old log.new (record {})) }
{
    let symbol = constant_meant(class, name, c, &mut log.asks)?;
    noted(leaf, symbol, log)?;
    Ok(())
}
