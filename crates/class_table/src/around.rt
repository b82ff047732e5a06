// What is around a declaration.
ghost use Rattle.std.specs.Prelude.{◌≡◌, ◌++◌, ◌∷◌, [], map, IfOk};
ghost use Rattle.j_names.specs.Members.{joined};
ghost use Rattle.class_table.specs.Declarations.{or_itself, enclosing_class, scope_of, inside};

use crate::lists::kept;
use declared_types::{ScopeParams, WrittenParam};
use j_names::{EnclosingClass, UnitContext};
use jtypes::{Name, Names, SharedList};
use rw_base::Mem;
use std::alloc::Global;

// Where a declaration stands: its context, the qualified name of the class or package around it, the top-level type,
// and the type parameters of the classes around it.
#[derive(Debug, Drop)]
pub(crate) struct Around {
    pub cx: UnitContext,
    pub within: Name,
    pub top: Option<Name>,
    pub scopes: SharedList<ScopeParams>,
}

// A name behind a package or type.
pub(crate) fn joined(alloc: Global, before: &Name, name: &Name, names: &mut Names) -> Mem<Name>
    ensures { IfOk result (λ n. n ≡ joined before.now name.now) }
{
    let before = before.as_slice();
    if before.is_empty() {
        return name.copy();
    }
    let mut text = Vec::from_slice(alloc, before)?;
    text.push(b'.')?;
    text.extend_from_slice(name.as_slice())?;
    names.name(alloc, &text)
}

// The top-level type around a type, or itself.
pub(crate) fn top_of(around: &Around, name: &Name) -> Mem<Name>
    ensures { IfOk result (λ top. top ≡ or_itself name.now around.now.top) }
{
    match &around.top {
        Some(top) => top.copy(),
        None => name.copy(),
    }
}

fn names_of(alloc: Global, params: &[WrittenParam]) -> Mem<SharedList<Name>>
    ensures { IfOk result (λ list. list ≡ map (λ p. p.name) params.now) }
{
    let mut out = Vec::new(alloc);
    for param in params {
        out.push(param.name.copy()?)?;
    }
    kept(alloc, out)
}

fn copied_class(class: &EnclosingClass) -> Mem<EnclosingClass>
    ensures { IfOk result (λ copy. copy ≡ class.now) }
{
    Ok(EnclosingClass {
        name: class.name.copy()?,
        type_params: class.type_params.copy()?,
    })
}

fn copied_scope(scope: &ScopeParams) -> Mem<ScopeParams>
    ensures { IfOk result (λ copy. copy ≡ scope.now) }
{
    Ok(ScopeParams {
        params: scope.params.copy()?,
    })
}

fn copied_classes(alloc: Global, classes: &[EnclosingClass]) -> Mem<Vec<EnclosingClass>>
    ensures { IfOk result (λ v. v.items ≡ classes.now) }
{
    let mut out = Vec::new(alloc);
    for class in classes {
        out.push(copied_class(class)?)?;
    }
    Ok(out)
}

fn copied_scopes(alloc: Global, scopes: &[ScopeParams]) -> Mem<Vec<ScopeParams>>
    ensures { IfOk result (λ v. v.items ≡ scopes.now) }
{
    let mut out = Vec::new(alloc);
    for scope in scopes {
        out.push(copied_scope(scope)?)?;
    }
    Ok(out)
}

// The context once more.
pub(crate) fn copied_context(cx: &UnitContext) -> Mem<UnitContext>
    ensures { IfOk result (λ copy. copy ≡ cx.now) }
{
    Ok(UnitContext {
        package: cx.package.copy()?,
        imports: cx.imports.copy()?,
        enclosing: cx.enclosing.copy()?,
    })
}

// The classes around the members of a type.
fn enclosing_inside(
    alloc: Global,
    around: &Around,
    name: &Name,
    params: &SharedList<WrittenParam>,
) -> Mem<SharedList<EnclosingClass>>
    ensures { IfOk result (λ list. list ≡ around.now.cx.enclosing ++ enclosing_class name.now params.now ∷ []) }
{
    let mut classes = copied_classes(alloc, around.cx.enclosing.as_slice())?;
    classes.push(EnclosingClass {
        name: name.copy()?,
        type_params: names_of(alloc, params.as_slice())?,
    })?;
    kept(alloc, classes)
}

fn scopes_inside(
    alloc: Global,
    around: &Around,
    params: &SharedList<WrittenParam>,
) -> Mem<SharedList<ScopeParams>>
    ensures { IfOk result (λ list. list ≡ around.now.scopes ++ scope_of params.now ∷ []) }
{
    let mut scopes = copied_scopes(alloc, around.scopes.as_slice())?;
    scopes.push(ScopeParams {
        params: params.copy()?,
    })?;
    kept(alloc, scopes)
}

// What is around the members of a type.
#[tactic(auto, unfolding(crate::specs::Declarations::inside))]
pub(crate) fn inside(
    alloc: Global,
    around: &Around,
    name: &Name,
    params: &SharedList<WrittenParam>,
) -> Mem<Around>
    ensures { IfOk result (λ a. a ≡ inside around.now name.now params.now) }
{
    Ok(Around {
        cx: UnitContext {
            package: around.cx.package.copy()?,
            imports: around.cx.imports.copy()?,
            enclosing: enclosing_inside(alloc, around, name, params)?,
        },
        within: name.copy()?,
        top: Some(top_of(around, name)?),
        scopes: scopes_inside(alloc, around, params)?,
    })
}
