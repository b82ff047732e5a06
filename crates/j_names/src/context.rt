// Where a name stands: the imports and classes around a unit of a file, and the scopes inside of it.
use jtypes::{JType, Name, SharedList};
use sqlite_items::Items;

/// An import (JLS 7.5): a name, perhaps `static`, perhaps of all members (`.*`, which isn't part of the name).
#[derive(Debug, Drop)]
pub struct ImportRow {
    pub name: Name,
    pub is_static: bool,
    pub on_demand: bool,
}

/// A class around a place, by its qualified name, with the names of its type parameters.
#[derive(Debug, Drop)]
pub struct EnclosingClass {
    pub name: Name,
    pub type_params: SharedList<Name>,
}

/// Where a unit of a file stands. The unnamed package has the empty name, and the outermost class is the first.
#[derive(Debug, Drop)]
pub struct UnitContext {
    pub package: Name,
    pub imports: SharedList<ImportRow>,
    pub enclosing: SharedList<EnclosingClass>,
}

/// A field that a local or anonymous class declares.
#[derive(Debug, Drop)]
pub struct LocalField {
    pub name: Name,
    pub ty: JType,
}

/// A scope inside a unit (JLS 6.3).
#[derive(Debug, Drop)]
pub enum Frame {
    /// A local variable, a parameter, or another variable of a statement.
    Local {
        name: Name,
        ty: JType,
    },
    /// A type parameter.
    TypeParam {
        name: Name,
    },
    /// The body of a class that is declared by a qualified name.
    Class {
        name: Name,
    },
    /// The body of a local or anonymous class, which declares no name. A local class stands as scopes outward: its body,
    /// its type parameters if it has any, and its name alone (`Declared`). The body of an anonymous class stands alone.
    LocalBody {
        is_anonymous: bool,
        supertype: Option<Name>,
        fields: Items<LocalField>,
        methods: Items<Name>,
    },
    /// The name of a local class, as a type that isn't known. It is in scope in the class's own declaration and in the
    /// rest of its block.
    Declared {
        name: Name,
    },
}
