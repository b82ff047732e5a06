ghost use Rattle.std.specs.Prelude.{◌≡◌, ◌↔◌, IsTrue, IfOk};

use crate::name::Name;
use crate::signatures::{FieldSig, MethodSig};
use crate::types::JType;
use rw_base::Mem;

/// What an identifier of a Java file stands for (JLS 6.5).
#[derive(Debug, Drop)]
pub enum Symbol {
    /// A package, by its qualified name.
    Package(Name),
    /// A class, interface, enum or annotation type, by its qualified name.
    Kind(Name),
    /// A type variable.
    TypeVar(Name),
    /// A field, as it is declared.
    Field(FieldSig),
    /// A method or constructor, as it is declared.
    Method(MethodSig),
    /// A local variable, or what counts as one, of a type.
    Local(JType),
    /// The label of a statement.
    Label,
    /// What isn't known.
    Unknown,
}

impl Symbol {
    /// The same symbol once more. Takes no memory, as a copy of a name.
    pub fn copy(&self) -> Mem<Symbol>
        ensures { IfOk result (λ symbol. symbol ≡ self.now) }
    {
        match self {
            Symbol::Package(name) => Ok(Symbol::Package(name.copy()?)),
            Symbol::Kind(name) => Ok(Symbol::Kind(name.copy()?)),
            Symbol::TypeVar(name) => Ok(Symbol::TypeVar(name.copy()?)),
            Symbol::Field(field) => Ok(Symbol::Field(field.copy()?)),
            Symbol::Method(method) => Ok(Symbol::Method(method.copy()?)),
            Symbol::Local(ty) => Ok(Symbol::Local(ty.copy()?)),
            Symbol::Label => Ok(Symbol::Label),
            Symbol::Unknown => Ok(Symbol::Unknown),
        }
    }

    /// Whether both are the same symbol.
    pub fn is(&self, other: &Symbol) -> bool
        ensures { IsTrue result ↔ (self.now ≡ other.now) }
    {
        match (self, other) {
            (Symbol::Package(name), Symbol::Package(other)) => name.is(other),
            (Symbol::Kind(name), Symbol::Kind(other)) => name.is(other),
            (Symbol::TypeVar(name), Symbol::TypeVar(other)) => name.is(other),
            (Symbol::Field(field), Symbol::Field(other)) => field.is(other),
            (Symbol::Method(method), Symbol::Method(other)) => method.is(other),
            (Symbol::Local(ty), Symbol::Local(other)) => ty.is(other),
            (Symbol::Label, Symbol::Label) => true,
            (Symbol::Unknown, Symbol::Unknown) => true,
            _ => false,
        }
    }
}
