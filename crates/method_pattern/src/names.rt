// Names of classes and of methods against patterns.
ghost use Rattle.std.specs.Prelude.{◌≡◌, ◌∷◌, [], ◌↔◌, IsTrue};
ghost use Rattle.method_pattern.specs.Matching.{TextFits, PartsFit, NameFits, parts_of, every_name};
ghost use Rattle.method_pattern.specs.Onwards.{IsByteOnward, IsPieceOnward, IsBehindFirst};
ghost use Rattle.method_pattern.specs.declared.pattern.NamePiece.TheVariants.{Part};
ghost use Rattle.method_pattern.specs.PartsLeft.{parts_left};

use crate::onward::{Onward, behind_first};
use crate::pattern::NamePiece;

fn byte_onward<'a, 'b>(left: &'a [u8], rest: &'b [u8]) -> Onward<&'a [u8], &'b [u8]>
    ensures { IsByteOnward result left.now rest.now }
{
    match left {
        [] if rest.is_empty() => Onward::Ended,
        [] => Onward::Stuck,
        [b'*', others @ ..] => Onward::Gap(others),
        [p, others @ ..] => match rest {
            [b, further @ ..] if *p == *b => Onward::Taken(others, further),
            _ => Onward::Stuck,
        },
    }
}

/// Whether a text fits one in which `*` stands for any bytes.
pub(crate) fn text_fits(pattern: &[u8], text: &[u8]) -> bool
    ensures { IsTrue result ↔ TextFits pattern.now text.now }
{
    let mut left = pattern;
    let mut rest = text;
    // What stands behind the last gap, and the items at which that was tried last.
    let mut behind = pattern;
    let mut from: &[u8] = &[];
    loop {
        match byte_onward(left, rest) {
            Onward::Ended => return true,
            Onward::Gap(others) => {
                left = others;
                behind = others;
                from = rest;
            }
            Onward::Taken(others, further) => {
                left = others;
                rest = further;
            }
            Onward::Stuck => match behind_first(from) {
                None => return false,
                Some(further) => {
                    left = behind;
                    rest = further;
                    from = further;
                }
            },
        }
    }
}

// The first part of a name, and what stands behind the dot behind it.
fn split_part(name: &[u8]) -> (&[u8], Option<&[u8]>)
    ensures { parts_of name.now ≡ result.0.now ∷ parts_left result.1 }
{
    for (at, b) in name.iter().enumerate() {
        if *b == b'.' {
            return (&name[..at], Some(&name[at + 1..]));
        }
    }
    (name, None)
}

// The parts of a name behind the first of those that are left.
fn behind_part(parts: Option<&[u8]>) -> Option<Option<&[u8]>>
    ensures { IsBehindFirst parts_left result (parts_left parts.entry) }
{
    match parts {
        None => None,
        Some(name) => {
            let (_, behind) = split_part(name);
            Some(behind)
        }
    }
}

fn piece_onward<'a, 'b>(
    left: &'a [NamePiece],
    rest: Option<&'b [u8]>,
) -> Onward<&'a [NamePiece], Option<&'b [u8]>>
    ensures { IsPieceOnward result left.now (parts_left rest.entry) }
{
    match left {
        [] => match rest {
            None => Onward::Ended,
            Some(_) => Onward::Stuck,
        },
        [NamePiece::AnyParts, others @ ..] => Onward::Gap(others),
        [NamePiece::Part(text), others @ ..] => match rest {
            None => Onward::Stuck,
            Some(name) => {
                let (part, behind) = split_part(name);
                if text_fits(text.as_slice(), part) {
                    Onward::Taken(others, behind)
                } else {
                    Onward::Stuck
                }
            }
        },
    }
}

// Whether pieces fit the parts of a name.
fn parts_fit(pieces: &[NamePiece], name: &[u8]) -> bool
    ensures { IsTrue result ↔ PartsFit pieces.now (parts_of name.now) }
{
    let mut left = pieces;
    let mut rest = Some(name);
    // What stands behind the last gap, and the parts at which that was tried last.
    let mut behind = pieces;
    let mut from: Option<&[u8]> = None;
    loop {
        match piece_onward(left, rest) {
            Onward::Ended => return true,
            Onward::Gap(others) => {
                left = others;
                behind = others;
                from = rest;
            }
            Onward::Taken(others, further) => {
                left = others;
                rest = further;
            }
            Onward::Stuck => match behind_part(from) {
                None => return false,
                Some(further) => {
                    left = behind;
                    rest = further;
                    from = further;
                }
            },
        }
    }
}

// Whether a piece is the part `*`.
fn is_star(piece: &NamePiece) -> bool
    ensures { IsTrue result ↔ (piece.now ≡ Part (42 ∷ [])) }
{
    match piece {
        NamePiece::Part(text) => text.as_slice() == b"*".as_slice(),
        NamePiece::AnyParts => false,
    }
}

// Whether the pieces are those of `*..*`.
fn is_every_name(pieces: &[NamePiece]) -> bool
    ensures { IsTrue result ↔ (pieces.now ≡ every_name) }
{
    match pieces {
        [first, NamePiece::AnyParts, last] => is_star(first) && is_star(last),
        _ => false,
    }
}

/// Whether pieces fit a whole qualified name.
pub(crate) fn name_fits(pieces: &[NamePiece], name: &[u8]) -> bool
    ensures { IsTrue result ↔ NameFits pieces.now name.now }
{
    is_every_name(pieces) || parts_fit(pieces, name)
}
