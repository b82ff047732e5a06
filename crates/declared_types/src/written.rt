// Declared types as they are written: names aren't resolved.
ghost use Rattle.std.specs.Prelude.{◌≡◌, ◌↔◌, [], IsTrue, IfOk};

use crate::same::Same;
use j_names::UnitContext;
use jtypes::{ClassKind, JPrim, Name, SharedList};
use rw_base::Mem;

/// A part of a name, between dots, without its type arguments.
#[derive(Debug, Drop)]
pub struct NamePart {
    pub name: Name,
}

/// What stands for a type, without its dimensions.
#[derive(Debug, Drop)]
pub enum Base {
    /// A primitive type (JLS 4.2).
    Prim(JPrim),
    /// A name, its first part and those behind it (JLS 4.3, 6.5).
    Named(NamePart, SharedList<NamePart>),
    /// The declared type itself: the type of an enum's constants (JLS 8.9.3).
    Itself,
    /// No type: the result of a constructor, or of a method that is declared `void` (JLS 8.4.5).
    Void,
}

/// A type as written, with all its dimensions: those behind a name and that of `...` too (JLS 10.2, 8.4.1).
#[derive(Debug, Drop)]
pub struct Written {
    pub base: Base,
    pub dims: usize,
}

/// A type parameter with its first bound, if it has one (JLS 8.1.2).
#[derive(Debug, Drop)]
pub struct WrittenParam {
    pub name: Name,
    pub bound: Option<Written>,
}

/// A field or an enum constant (JLS 8.3, 8.9.1).
#[derive(Debug, Drop)]
pub struct WrittenField {
    pub name: Name,
    pub ty: Written,
    /// Whether it is declared `static`, or is so by where it stands: fields of interfaces and enum constants are.
    pub is_static: bool,
    pub is_private: bool,
}

/// A method (JLS 8.4) or, with the name `<constructor>`, a constructor (JLS 8.8), which is never static.
#[derive(Debug, Drop)]
pub struct WrittenMethod {
    pub name: Name,
    pub type_params: SharedList<WrittenParam>,
    pub params: SharedList<Written>,
    pub result: Written,
    /// Whether the last parameter is declared with `...` (JLS 8.4.1).
    pub varargs: bool,
    pub is_static: bool,
    pub is_private: bool,
}

/// The type parameters of a class around another.
#[derive(Debug, Drop)]
pub struct ScopeParams {
    pub params: SharedList<WrittenParam>,
}

/// A declared type as written: a class (JLS 8.1), enum (8.9), interface (9.1) or annotation type (9.6).
#[derive(Debug, Drop)]
pub struct DeclaredType {
    /// Its qualified name, with `.` between all parts (JLS 6.7).
    pub name: Name,
    pub kind: ClassKind,
    /// The qualified name of the top-level type around it, or its own.
    pub top: Name,
    /// Whether `private` is among its own modifiers.
    pub is_private: bool,
    /// Where it stands: in `enclosing` are the classes around it.
    pub cx: UnitContext,
    /// The type parameters of the classes around it, those of the outermost first.
    pub around: SharedList<ScopeParams>,
    pub type_params: SharedList<WrittenParam>,
    /// What stands behind the `extends` of a class.
    pub superclass: Option<Written>,
    /// What stands behind `implements` or, in an interface, behind `extends`.
    pub interfaces: SharedList<Written>,
    pub fields: SharedList<WrittenField>,
    /// The methods and constructors.
    pub methods: SharedList<WrittenMethod>,
}

/// The declared types of a file, in the order of the text: each stands before those in it.
#[derive(Debug, Drop)]
pub struct Skeleton {
    pub types: SharedList<DeclaredType>,
}

impl Skeleton {
    /// The skeleton of a file without declared types, which also serves a refused file. Takes no memory.
    pub fn empty() -> Skeleton
        ensures { result.types ≡ [] }
    {
        Skeleton {
            types: SharedList::empty(),
        }
    }

    /// The same skeleton once more. Takes no memory: copies share the declared types.
    pub fn copy(&self) -> Mem<Skeleton>
        ensures same { IfOk result (λ copy. copy ≡ self.now) }
    {
        Ok(Skeleton {
            types: self.types.copy()?,
        })
    }

    /// Whether both are the same: the same types in the same order, equal in all that is written of them. Takes time in
    /// proportion to what both have in common.
    pub fn is(&self, other: &Skeleton) -> bool
        ensures same { IsTrue result ↔ (self.now ≡ other.now) }
    {
        self.types.is_same(&other.types)
    }
}
