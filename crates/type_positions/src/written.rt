// What written types mean.
ghost use Rattle.std.specs.Prelude.{◌≡◌, IfOk};
ghost use Rattle.judging.specs.Judging.{Judged};
ghost use Rattle.operator_types.specs.Arrays.{with_dims};
ghost use Rattle.type_positions.specs.WrittenTypes.{known, meant, variable, with_more_dims, written_type};

use crate::names::NamedLeaf;
use crate::type_names::type_name;
use j_names::{Frames, UnitContext};
use jtypes::{Classes, JPrim, JType, Symbol};
use judging::Log;
use operator_types::with_dims;
use rw_base::Mem;
use sqlite_items::Items;
use std::alloc::Global;

/// A type as it is written, but for its dimensions and type arguments.
#[derive(Debug, Drop)]
pub enum WrittenBase {
    /// A primitive type.
    Prim(JPrim),
    /// `void`
    Void,
    /// A name in its parts.
    Named(Items<NamedLeaf>),
}

/// A type as it is written (JLS 4.2, 4.3), without type arguments.
#[derive(Debug, Drop)]
pub struct WrittenType {
    pub base: WrittenBase,
    pub dims: usize,
}

/// What a written type means.
#[derive(Debug, Drop)]
pub struct MeantType {
    /// The type; Unknown for a type variable and for an array of one.
    pub ty: JType,
    /// Whether a type variable is written, or an array of one.
    pub is_variable: bool,
}

fn known(ty: JType) -> MeantType
    ensures { result ≡ known ty }
{
    MeantType {
        ty,
        is_variable: false,
    }
}

fn variable() -> MeantType
    ensures { result ≡ variable }
{
    MeantType {
        ty: JType::Unknown,
        is_variable: true,
    }
}

/// A type that isn't a type variable, with dimensions.
fn array_of(alloc: Global, dims: usize, element: JType) -> Mem<MeantType>
    ensures { IfOk result (λ m. m ≡ known (with_dims dims element)) }
{
    let ty = with_dims(alloc, dims, element)?;
    Ok(known(ty))
}

/// The type with so many dimensions that a name means.
fn meant(alloc: Global, dims: usize, symbol: Symbol) -> Mem<MeantType>
    ensures { IfOk result (λ m. m ≡ meant dims symbol) }
{
    match symbol {
        Symbol::Kind(name) => array_of(alloc, dims, JType::Class(name)),
        Symbol::TypeVar(_) => Ok(variable()),
        _ => array_of(alloc, dims, JType::Unknown),
    }
}

/// What a written type means, with the meaning of each leaf of its name noted.
pub fn written_type<C: Classes>(
    alloc: Global,
    cx: &UnitContext,
    frames: &Frames,
    written: &WrittenType,
    c: &C,
    log: &mut Log,
) -> Mem<MeantType>
    ensures judged { IfOk result (λ m.
        Judged (written_type cx.now frames.now written.now) (C.world c.now) log.old log.new m) }
{
    match &written.base {
        WrittenBase::Prim(p) => {
            let m = array_of(alloc, written.dims, JType::Prim(*p))?;
            Ok(m)
        }
        WrittenBase::Void => Ok(known(JType::Void)),
        WrittenBase::Named(names) => {
            let symbol = type_name(alloc, cx, frames, names.as_slice(), c, log)?;
            let m = meant(alloc, written.dims, symbol)?;
            Ok(m)
        }
    }
}

/// A type with the dimensions behind the name of what is declared (JLS 10.2), as in `int a[]`.
pub fn with_more_dims(alloc: Global, dims: usize, meant: MeantType) -> Mem<MeantType>
    ensures { IfOk result (λ m. m ≡ with_more_dims dims meant) }
{
    if meant.is_variable {
        return Ok(variable());
    }
    let m = array_of(alloc, dims, meant.ty)?;
    Ok(m)
}
