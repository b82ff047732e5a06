// Equality of declared types as they are written, part by part.
ghost use Rattle.std.specs.Prelude.{◌≡◌, ◌↔◌, IsTrue};

use crate::written::{
    Base, DeclaredType, NamePart, ScopeParams, Written, WrittenField, WrittenMethod, WrittenParam,
};
use j_names::{EnclosingClass, ImportRow, UnitContext};
use jtypes::{Name, SharedList};

/// What can be compared.
pub(crate) trait Same {
    /// Whether both are the same.
    fn is_same(&self, other: &Self) -> bool
        ensures { IsTrue result ↔ (self.now ≡ other.now) };
}

/// Whether two lists have the same items in the same order.
fn are_same<T: Same>(items: &[T], others: &[T]) -> bool
    ensures { IsTrue result ↔ (items.now ≡ others.now) }
{
    if items.len() != others.len() {
        return false;
    }
    for at in 0..items.len() {
        if !items[at].is_same(&others[at]) {
            return false;
        }
    }
    true
}

impl<T: Same> Same for SharedList<T> {
    fn is_same(&self, other: &Self) -> bool {
        are_same(self.as_slice(), other.as_slice())
    }
}

impl<T: Same> Same for Option<T> {
    fn is_same(&self, other: &Self) -> bool {
        match (self, other) {
            (Some(item), Some(other)) => item.is_same(other),
            (None, None) => true,
            _ => false,
        }
    }
}

impl Same for Name {
    fn is_same(&self, other: &Self) -> bool {
        self.is(other)
    }
}

impl Same for ImportRow {
    fn is_same(&self, other: &Self) -> bool {
        self.name.is(&other.name)
            && self.is_static == other.is_static
            && self.on_demand == other.on_demand
    }
}

impl Same for EnclosingClass {
    fn is_same(&self, other: &Self) -> bool {
        self.name.is(&other.name) && self.type_params.is_same(&other.type_params)
    }
}

impl Same for UnitContext {
    fn is_same(&self, other: &Self) -> bool {
        self.package.is(&other.package)
            && self.imports.is_same(&other.imports)
            && self.enclosing.is_same(&other.enclosing)
    }
}

impl Same for NamePart {
    fn is_same(&self, other: &Self) -> bool {
        self.name.is(&other.name)
    }
}

impl Same for Base {
    fn is_same(&self, other: &Self) -> bool {
        match (self, other) {
            (Base::Prim(p), Base::Prim(q)) => *p == *q,
            (Base::Named(part, parts), Base::Named(other, others)) => {
                part.is_same(other) && parts.is_same(others)
            }
            (Base::Itself, Base::Itself) => true,
            (Base::Void, Base::Void) => true,
            _ => false,
        }
    }
}

impl Same for Written {
    fn is_same(&self, other: &Self) -> bool {
        self.base.is_same(&other.base) && self.dims == other.dims
    }
}

impl Same for WrittenParam {
    fn is_same(&self, other: &Self) -> bool {
        self.name.is(&other.name) && self.bound.is_same(&other.bound)
    }
}

impl Same for WrittenField {
    fn is_same(&self, other: &Self) -> bool {
        self.name.is(&other.name)
            && self.ty.is_same(&other.ty)
            && self.is_static == other.is_static
            && self.is_private == other.is_private
    }
}

impl Same for WrittenMethod {
    fn is_same(&self, other: &Self) -> bool {
        self.name.is(&other.name)
            && self.type_params.is_same(&other.type_params)
            && self.params.is_same(&other.params)
            && self.result.is_same(&other.result)
            && self.varargs == other.varargs
            && self.is_static == other.is_static
            && self.is_private == other.is_private
    }
}

impl Same for ScopeParams {
    fn is_same(&self, other: &Self) -> bool {
        self.params.is_same(&other.params)
    }
}

impl Same for DeclaredType {
    fn is_same(&self, other: &Self) -> bool {
        self.name.is(&other.name)
            && self.kind == other.kind
            && self.top.is(&other.top)
            && self.is_private == other.is_private
            && self.cx.is_same(&other.cx)
            && self.around.is_same(&other.around)
            && self.type_params.is_same(&other.type_params)
            && self.superclass.is_same(&other.superclass)
            && self.interfaces.is_same(&other.interfaces)
            && self.fields.is_same(&other.fields)
            && self.methods.is_same(&other.methods)
    }
}
