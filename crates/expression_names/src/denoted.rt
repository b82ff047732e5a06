// What a name or another primary stands for in an expression.
ghost use Rattle.std.specs.Prelude.{◌≡◌, IfOk};
ghost use Rattle.expression_names.specs.Primaries.{denotes, type_of};

use jtypes::{JType, Name, Symbol};
use rw_base::Mem;

/// What a name or another primary stands for in an expression (JLS 6.5.2).
#[derive(Debug, Drop)]
pub enum Denoted {
    /// A package, by its qualified name.
    Package(Name),
    /// A class, interface, enum or annotation type, by its qualified name.
    Class(Name),
    /// An expression of a type.
    Expr(JType),
}

impl Denoted {
    /// The type of an expression; a package or a class has none, which is Unknown. Takes no memory, as a copy of a type.
    pub fn ty(&self) -> Mem<JType>
        ensures value { IfOk result (λ ty. ty ≡ type_of self.now) }
    {
        match self {
            Denoted::Expr(ty) => ty.copy(),
            _ => Ok(JType::Unknown),
        }
    }
}

/// What a name of a meaning stands for.
pub(crate) fn denotes(s: &Symbol) -> Mem<Denoted>
    ensures { IfOk result (λ d. d ≡ denotes s.now) }
{
    match s {
        Symbol::Package(name) => Ok(Denoted::Package(name.copy()?)),
        Symbol::Kind(name) => Ok(Denoted::Class(name.copy()?)),
        Symbol::Field(field) => Ok(Denoted::Expr(field.ty.copy()?)),
        Symbol::Local(ty) => Ok(Denoted::Expr(ty.copy()?)),
        _ => Ok(Denoted::Expr(JType::Unknown)),
    }
}
