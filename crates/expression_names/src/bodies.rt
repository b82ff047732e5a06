// Whose body a place stands in.
ghost use Rattle.std.specs.Prelude.{◌≡◌, IfOk, if◌then◌else◌};
ghost use Rattle.j_names.specs.Names.{outward};
ghost use Rattle.expression_names.specs.Bodies.{body_of, body_around, whose_body};

use j_names::{EnclosingClass, Frame, Frames, UnitContext};
use jtypes::Name;
use rw_base::Mem;

/// Whose body a place stands in directly.
#[derive(Debug, Drop)]
pub enum Whose {
    /// That of a class that is declared by a qualified name.
    Named(Name),
    /// That of an anonymous class, by its named supertype.
    Anonymous(Option<Name>),
    /// That of a local class.
    Local,
    /// No body: the head of a top-level class.
    Nobody,
}

/// Whose the body of a local or anonymous class is, by its named supertype.
fn local_body(is_anonymous: bool, supertype: &Option<Name>) -> Mem<Whose>
    ensures { IfOk result (λ whose. whose ≡ (if is_anonymous then Whose.Anonymous supertype.now else Whose.Local)) }
{
    if !is_anonymous {
        return Ok(Whose::Local);
    }
    match supertype {
        Some(t) => Ok(Whose::Anonymous(Some(t.copy()?))),
        None => Ok(Whose::Anonymous(None)),
    }
}

/// Whose body a scope is, if it is one.
fn body_of(scope: &Frame) -> Mem<Option<Whose>>
    ensures { IfOk result (λ whose. whose ≡ body_of scope.now) }
{
    match scope {
        Frame::Class { name } => Ok(Some(Whose::Named(name.copy()?))),
        Frame::LocalBody {
            is_anonymous,
            supertype,
            ..
        } => {
            let whose = local_body(*is_anonymous, supertype)?;
            Ok(Some(whose))
        }
        _ => Ok(None),
    }
}

/// The innermost of the classes around a unit.
fn body_around(enclosing: &[EnclosingClass]) -> Mem<Whose>
    ensures { IfOk result (λ whose. whose ≡ body_around (outward enclosing.now)) }
{
    match enclosing.last() {
        Some(e) => Ok(Whose::Named(e.name.copy()?)),
        None => Ok(Whose::Nobody),
    }
}

/// Whose body a place stands in directly: the innermost body among its scopes, else that of the innermost class around
/// its unit.
pub fn whose_body(cx: &UnitContext, frames: &Frames) -> Mem<Whose>
    ensures value { IfOk result (λ whose. whose ≡ whose_body cx.now frames.now) }
{
    let scopes = frames.as_slice();
    for at in (0..scopes.len()).rev() {
        if let Some(whose) = body_of(&scopes[at])? {
            return Ok(whose);
        }
    }
    let whose = body_around(cx.enclosing.as_slice())?;
    Ok(whose)
}
