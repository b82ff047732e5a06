// Names behind a dot. A case is what stands in front of it, and the name.
use crate::places::Place;
use crate::symbols::{put_asks, put_meaning};
use crate::types::{first_word, name_in, two_names, type_in};
use examples_base::Answer;
use j_names::{behind_package_asking, behind_type_asking, field_behind_asking, type_behind_asking};
use jtypes::{Asks, Symbol};
use std::alloc::Global;

/// Writes what a name means behind a package.
pub fn put_behind_package(alloc: Global, place: &Place, case: &str, out: &mut Answer) {
    let (scope, name) = first_word(case);
    if let Some((scope, name)) = two_names(alloc, scope, name, out) {
        let mut asks = Asks::new(alloc);
        let symbol = behind_package_asking(
            alloc,
            &place.cx,
            &scope,
            &name,
            &place.world,
            &mut asks,
        );
        put_meaning(&symbol, out);
        put_asks(alloc, asks, out);
    }
}

/// Writes what a name means behind a type.
pub fn put_behind_type(alloc: Global, place: &Place, case: &str, out: &mut Answer) {
    let (class, name) = first_word(case);
    if let Some((class, name)) = two_names(alloc, class, name, out) {
        let mut asks = Asks::new(alloc);
        let symbol = behind_type_asking(alloc, &place.cx, &class, &name, &place.world, &mut asks);
        put_meaning(&symbol, out);
        put_asks(alloc, asks, out);
    }
}

/// Writes what a name means behind an expression of a type.
pub fn put_field_behind(alloc: Global, place: &Place, case: &str, out: &mut Answer) {
    let (ty, name) = first_word(case);
    let ty = type_in(alloc, ty, out);
    if let Some(name) = name_in(alloc, name, out) {
        let mut asks = Asks::new(alloc);
        let symbol = field_behind_asking(alloc, &place.cx, &ty, &name, &place.world, &mut asks);
        put_meaning(&symbol, out);
        put_asks(alloc, asks, out);
    }
}

// A symbol that may stand in front of a dot.
fn symbol_in(alloc: Global, kind: &str, word: &str, out: &mut Answer) -> Option<Symbol> {
    match kind {
        "package" => Some(Symbol::Package(name_in(alloc, word, out)?)),
        "type" => Some(Symbol::Kind(name_in(alloc, word, out)?)),
        "typevar" => Some(Symbol::TypeVar(name_in(alloc, word, out)?)),
        "local" => Some(Symbol::Local(type_in(alloc, word, out))),
        "label" => Some(Symbol::Label),
        "unknown" => Some(Symbol::Unknown),
        _ => None,
    }
}

/// Writes what a name means behind a symbol in a type position. A case is the symbol and the name, as in `type p.A N`.
pub fn put_type_behind(alloc: Global, place: &Place, case: &str, out: &mut Answer) {
    let (front, name) = case.rsplit_once(' ').unwrap_or((case, ""));
    let (kind, word) = first_word(front);
    let Some(scope) = symbol_in(alloc, kind, word, out) else {
        out.refuse("symbol");
        return;
    };
    if let Some(name) = name_in(alloc, name, out) {
        let mut asks = Asks::new(alloc);
        let symbol = type_behind_asking(alloc, &place.cx, &scope, &name, &place.world, &mut asks);
        put_meaning(&symbol, out);
        put_asks(alloc, asks, out);
    }
}
