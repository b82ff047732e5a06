// Method patterns as values.
ghost use Rattle.std.specs.Prelude.{◌≡◌};

use jtypes::JPrim;
use rw_base::Text;
use sqlite_items::Items;

/// A piece of a pattern of qualified names.
#[derive(Debug, Drop)]
pub enum NamePiece {
    /// One part of a name, in which `*` stands for any bytes.
    Part(Text),
    /// Any number of parts, written as `..` between two parts.
    AnyParts,
}

/// A pattern of the qualified names of classes, as `com.acme..*Service`.
#[derive(Debug, Drop)]
pub struct TypePattern {
    pub(crate) pieces: Items<NamePiece>,
}

impl TypePattern {
    /// The pattern of these pieces. Takes no memory.
    pub fn new(pieces: Vec<NamePiece>) -> TypePattern
        ensures { result.pieces ≡ pieces.items }
    {
        TypePattern {
            pieces: Items::from_vec(pieces),
        }
    }
}

/// A parameter of a method pattern.
#[derive(Debug, Drop)]
pub enum ParamPattern {
    /// Any number of parameters, written `..`.
    Rest,
    /// One parameter of any type, written `*`.
    AnyType,
    /// A primitive type, or arrays of so many dimensions over it.
    Primitive(JPrim, usize),
    /// Classes, or arrays of so many dimensions over them. `...` counts as one dimension more.
    Named(TypePattern, usize),
}

/// A pattern of declared methods, as `com.acme..* find*(int, ..)`.
#[derive(Debug, Drop)]
pub struct MethodPattern {
    pub(crate) owner: TypePattern,
    pub(crate) name: Text,
    pub(crate) params: Items<ParamPattern>,
}

impl MethodPattern {
    /// The pattern of these parts. `*` in the name stands for any bytes, and constructors have the name
    /// `<constructor>`. Takes no memory.
    pub fn new(owner: TypePattern, name: Text, params: Vec<ParamPattern>) -> MethodPattern
        ensures owner { result.owner ≡ owner }
        ensures name { result.name ≡ name }
        ensures params { result.params ≡ params.items }
    {
        MethodPattern {
            owner,
            name,
            params: Items::from_vec(params),
        }
    }
}
