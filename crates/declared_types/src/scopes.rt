// The scopes around the members of a declared type.
ghost use Rattle.std.specs.Prelude.{◌≡◌, IfOk, map, take};
ghost use Rattle.std.specs.List.{enumerate_from};
ghost use Rattle.declared_types.specs.Erasure.{with_enclosing, context_inside, scope_of, scope_around};
ghost use Rattle.declared_types.specs.Erasure.{scopes_outward, body_of};

use crate::body::{Body, Scope};
use crate::resolving::as_frames;
use crate::written::{DeclaredType, ScopeParams, WrittenParam};
use j_names::{EnclosingClass, UnitContext};
use jtypes::{Name, SharedList};
use rw_base::Mem;
use sqlite_items::Items;
use std::alloc::Global;

fn names_of(alloc: Global, params: &[WrittenParam]) -> Mem<SharedList<Name>>
    ensures { IfOk result (λ names. names ≡ map (λ p. p.name) params.now) }
{
    let mut names = Vec::new(alloc);
    for param in params {
        names.push(param.name.copy()?)?;
    }
    let names = SharedList::new(alloc, names)?;
    Ok(names)
}

fn copied_class(class: &EnclosingClass) -> Mem<EnclosingClass>
    ensures { IfOk result (λ copy. copy ≡ class.now) }
{
    Ok(EnclosingClass {
        name: class.name.copy()?,
        type_params: class.type_params.copy()?,
    })
}

/// The first so many of some classes.
fn first_classes(
    alloc: Global,
    classes: &[EnclosingClass],
    count: usize,
) -> Mem<Vec<EnclosingClass>>
    ensures { IfOk result (λ v. v.items ≡ take count classes.now) }
{
    let mut copies = Vec::new(alloc);
    for class in classes {
        if copies.len() == count {
            return Ok(copies);
        }
        copies.push(copied_class(class)?)?;
    }
    Ok(copies)
}

fn with_enclosing(cx: &UnitContext, enclosing: SharedList<EnclosingClass>) -> Mem<UnitContext>
    ensures { IfOk result (λ copy. copy ≡ with_enclosing cx.now enclosing) }
{
    Ok(UnitContext {
        package: cx.package.copy()?,
        imports: cx.imports.copy()?,
        enclosing,
    })
}

/// The context of the members of a declared type.
#[tactic(auto, unfolding(crate::specs::Erasure::context_inside))]
pub(crate) fn context_inside(alloc: Global, d: &DeclaredType) -> Mem<UnitContext>
    ensures { IfOk result (λ cx. cx ≡ context_inside d.now) }
{
    let around = d.cx.enclosing.as_slice();
    let mut classes = first_classes(alloc, around, around.len())?;
    classes.push(EnclosingClass {
        name: d.name.copy()?,
        type_params: names_of(alloc, d.type_params.as_slice())?,
    })?;
    let enclosing = SharedList::new(alloc, classes)?;
    let cx = with_enclosing(&d.cx, enclosing)?;
    Ok(cx)
}

/// Type parameters whose bounds stand in a context.
pub(crate) fn scope_of(
    alloc: Global,
    params: &SharedList<WrittenParam>,
    cx: &UnitContext,
) -> Mem<Scope>
    ensures { IfOk result (λ scope. scope ≡ scope_of params.now cx.now) }
{
    Ok(Scope {
        params: params.copy()?,
        frames: as_frames(alloc, params.as_slice())?,
        cx: with_enclosing(cx, cx.enclosing.copy()?)?,
    })
}

/// The type parameters of the type around that has so many types around itself.
fn scope_around(alloc: Global, cx: &UnitContext, depth: usize, scope: &ScopeParams) -> Mem<Scope>
    ensures { IfOk result (λ s. s ≡ scope_around cx.now (depth, scope.now)) }
{
    let classes = first_classes(alloc, cx.enclosing.as_slice(), depth)?;
    let enclosing = SharedList::new(alloc, classes)?;
    let outer = with_enclosing(cx, enclosing)?;
    let scope = scope_of(alloc, &scope.params, &outer)?;
    Ok(scope)
}

/// The type parameters of the types around, the outermost first.
fn scopes_around(alloc: Global, d: &DeclaredType) -> Mem<Vec<Scope>>
    ensures { IfOk result (λ v. v.items ≡ map (scope_around d.now.cx) (enumerate_from 0 d.now.around)) }
{
    let around = d.around.as_slice();
    let mut scopes = Vec::new(alloc);
    for depth in 0..around.len() {
        let scope = scope_around(alloc, &d.cx, depth, &around[depth])?;
        scopes.push(scope)?;
    }
    Ok(scopes)
}

/// The type parameters of a declared type and of those around it, outward.
fn scopes_outward(alloc: Global, d: &DeclaredType) -> Mem<Vec<Scope>>
    ensures { IfOk result (λ v. v.items ≡ scopes_outward d.now) }
{
    let mut scopes = scopes_around(alloc, d)?;
    let own = scope_of(alloc, &d.type_params, &d.cx)?;
    scopes.push(own)?;
    scopes.reverse();
    Ok(scopes)
}

/// The body of a declared type.
#[tactic(auto, unfolding(crate::specs::Erasure::body_of))]
pub(crate) fn body_of(alloc: Global, d: &DeclaredType) -> Mem<Body>
    ensures { IfOk result (λ body. body ≡ body_of d.now) }
{
    Ok(Body {
        name: d.name.copy()?,
        cx: context_inside(alloc, d)?,
        outer: Items::from_vec(scopes_outward(alloc, d)?),
    })
}
