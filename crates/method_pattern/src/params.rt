// Parameters of methods against patterns.
ghost use Rattle.std.specs.Prelude.{◌≡◌, ◌↔◌, ◌==◌, ◌++◌, ◌∷◌, [], List, ℕ, codes, IsTrue, IfSome, IfNone};
ghost use Rattle.std.specs.List.{list_any};
ghost use Rattle.method_pattern.specs.Matching.{NameFits, NamesInJavaLang, ParamTakes, ParamsFit};
ghost use Rattle.method_pattern.specs.declared.pattern.NamePiece.TheVariants.{Part};
ghost use Rattle.method_pattern.specs.Onwards.{IsParamOnward};
ghost use Rattle.method_pattern.specs.Elements.{IsElement};

use crate::names::name_fits;
use crate::onward::{Onward, behind_first};
use crate::pattern::{NamePiece, ParamPattern};
use jtypes::JType;

// The element of an array type of so many dimensions.
fn element_of(t: &JType, dimensions: usize) -> Option<&JType>
    ensures { IsElement result t.now dimensions }
{
    if dimensions == 0 {
        return Some(t);
    }
    match t {
        JType::Array(element) => element_of(element.get(), dimensions - 1),
        _ => None,
    }
}

fn has_star(text: &[u8]) -> bool
    ensures { result ≡ list_any (λ b. b == 42) text.now }
{
    text.iter().any(|b| *b == b'*')
}

// What stands behind `java.lang.` in a name.
fn in_java_lang(name: &[u8]) -> Option<&[u8]>
    ensures within { IfSome result (λ rest. name.now ≡ codes "java.lang." ++ rest.now) }
    ensures outside { IfNone result ((rest : List ℕ) → name.now ≡ codes "java.lang." ++ rest → ⊥) }
{
    name.strip_prefix(b"java.lang.")
}

// The part that is the only piece.
fn lone_part(pieces: &[NamePiece]) -> Option<&[u8]>
    ensures lone { IfSome result (λ part. pieces.now ≡ Part part.now ∷ []) }
    ensures others { IfNone result ((part : List ℕ) → pieces.now ≡ Part part ∷ [] → ⊥) }
{
    match pieces {
        [NamePiece::Part(part)] => Some(part.as_slice()),
        _ => None,
    }
}

fn are_same(text: &[u8], other: &[u8]) -> bool
    ensures { IsTrue result ↔ (text.now ≡ other.now) }
{
    text == other
}

// Whether the pieces are one part without `*`, and this the name in java.lang.
fn names_in_java_lang(pieces: &[NamePiece], name: &[u8]) -> bool
    ensures { IsTrue result ↔ NamesInJavaLang pieces.now name.now }
{
    match (lone_part(pieces), in_java_lang(name)) {
        (Some(part), Some(rest)) => !has_star(part) && are_same(rest, part),
        _ => false,
    }
}

fn param_takes(param: &ParamPattern, t: &JType) -> bool
    ensures { IsTrue result ↔ ParamTakes param.now t.now }
{
    match param {
        ParamPattern::Rest => false,
        ParamPattern::AnyType => true,
        ParamPattern::Primitive(p, dimensions) => match element_of(t, *dimensions) {
            Some(JType::Prim(q)) => *p == *q,
            _ => false,
        },
        ParamPattern::Named(pattern, dimensions) => match element_of(t, *dimensions) {
            Some(JType::Class(name)) => {
                let pieces = pattern.pieces.as_slice();
                name_fits(pieces, name.as_slice()) || names_in_java_lang(pieces, name.as_slice())
            }
            _ => false,
        },
    }
}

fn param_onward<'a, 'b>(
    left: &'a [ParamPattern],
    rest: &'b [JType],
) -> Onward<&'a [ParamPattern], &'b [JType]>
    ensures { IsParamOnward result left.now rest.now }
{
    match left {
        [] if rest.is_empty() => Onward::Ended,
        [] => Onward::Stuck,
        [ParamPattern::Rest, others @ ..] => Onward::Gap(others),
        [param, others @ ..] => match rest {
            [t, further @ ..] if param_takes(param, t) => Onward::Taken(others, further),
            _ => Onward::Stuck,
        },
    }
}

/// Whether the parameters of a pattern fit types.
pub(crate) fn params_fit(params: &[ParamPattern], types: &[JType]) -> bool
    ensures { IsTrue result ↔ ParamsFit params.now types.now }
{
    let mut left = params;
    let mut rest = types;
    // What stands behind the last gap, and the types at which that was tried last.
    let mut behind = params;
    let mut from: &[JType] = &[];
    loop {
        match param_onward(left, rest) {
            Onward::Ended => return true,
            Onward::Gap(others) => {
                left = others;
                behind = others;
                from = rest;
            }
            Onward::Taken(others, further) => {
                left = others;
                rest = further;
            }
            Onward::Stuck => match behind_first(from) {
                None => return false,
                Some(further) => {
                    left = behind;
                    rest = further;
                    from = further;
                }
            },
        }
    }
}
