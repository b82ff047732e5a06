// Declared parameters.
ghost use Rattle.std.specs.Prelude.{◌≡◌, ◌++◌, OnOk};
ghost use Rattle.declared_names.specs.Declarations.{parameter_notes};

use jtypes::{JType, Symbol};
use judging::{Log, Note};
use rw_base::Mem;

/// A parameter as it is written in the declaration of a method or constructor (JLS 8.4.1).
#[derive(Debug, Drop)]
pub struct Parameter {
    /// The leaf of its name.
    pub leaf: u32,
    /// Its type, with the dimensions behind its name and that of `...`. That of a type variable is Unknown.
    pub ty: JType,
    /// Whether it is written by a type variable or an array of one, whose erasure isn't known from it alone.
    pub is_variable: bool,
}

/// Notes what the names of declared parameters mean: locals of their types. Nothing is asked.
pub fn declared_parameters(params: &[Parameter], log: &mut Log) -> Mem<()>
    ensures notes { OnOk result (log.new.notes ≡ log.old.notes ++ parameter_notes params.now) }
    ensures asks { log.new.asks ≡ log.old.asks }
{
    for param in params {
        log.note(Note::Symbol(param.leaf, Symbol::Local(param.ty.copy()?)))?;
    }
    Ok(())
}
