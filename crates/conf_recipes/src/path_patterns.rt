// Patterns of paths: whether a path matches one.
ghost use Rattle.std.specs.Prelude.{◌≡◌, ◌+◌, ◌∷◌, ℕ, List, true, false, length, map, replicate, IfOk, OnOk};
ghost use Rattle.conf_recipes.specs.PathMarks.{some_marked, byte_here, byte_carries, byte_last, part_here};
ghost use Rattle.conf_recipes.specs.PathMarks.{part_carries};
ghost use Rattle.conf_recipes.specs.PathPatterns.{is_continuation, stands_for_parts, part_matches, parts_match};
ghost use Rattle.conf_recipes.specs.PathPatterns.{parts_of, path_matches};

use rw_base::Mem;
use std::alloc::{AllocError, Global};

fn is_continuation(b: u8) -> bool
    ensures { result ≡ is_continuation b }
{
    b >= 0x80 && b <= 0xbf
}

// Whether the rest of a pattern may begin at a byte of a text, behind what a byte of the pattern stands for: by whether
// that byte might begin here, and by what is carried here from the bytes before.
fn byte_here(p: u8, b: u8, was: bool, carried: bool) -> bool
    ensures { result ≡ byte_here p b was carried }
{
    match p {
        b'*' => was || carried,
        b'?' => carried && !is_continuation(b),
        _ => carried,
    }
}

// What is carried on to the byte behind this one.
fn byte_carries(p: u8, b: u8, was: bool, carried: bool) -> bool
    ensures { result ≡ byte_carries p b was carried }
{
    match p {
        b'*' => was || carried,
        b'?' => was || (carried && is_continuation(b)),
        _ => p == b && was,
    }
}

fn byte_last(p: u8, was: bool, carried: bool) -> bool
    ensures { result ≡ byte_last p was carried }
{
    if p == b'*' { was || carried } else { carried }
}

// From the places of a text at which a pattern's byte may begin to those behind what it stands for.
#[tactic(auto, using(crate::proofs::Marks::over_marks))]
fn mark_bytes(marks: &mut [bool], text: &[u8], p: u8)
    requires { length marks.old ≡ length text.now + 1 }
    ensures long { length marks.new ≡ length marks.old }
    ensures marked { (ps : List ℕ) →
        some_marked (part_matches ps) marks.new text.now ≡ some_marked (part_matches (p ∷ ps)) marks.old text.now }
{
    let mut carried = false;
    for i in 0..text.len() {
        let was = marks[i];
        marks[i] = byte_here(p, text[i], was, carried);
        carried = byte_carries(p, text[i], was, carried);
    }
    let end = text.len();
    marks[end] = byte_last(p, marks[end], carried);
}

// Marks for so many items and the end, the first of them set.
fn first_marks(alloc: Global, count: usize) -> Mem<Vec<bool>>
    ensures { IfOk result (λ marks. marks.items ≡ true ∷ replicate count false) }
{
    let mut marks = vec![in alloc; false; count]?;
    marks.insert(0, true)?;
    Ok(marks)
}

// Whether a part of a path is of a form: in time by the product of their lengths, whatever they are.
#[tactic(auto, using(crate::proofs::Marks::over_part))]
fn part_matches(alloc: Global, pattern: &[u8], part: &[u8]) -> Mem<bool>
    ensures { IfOk result (λ same. same ≡ part_matches pattern.now part.now) }
{
    let mut marks = first_marks(alloc, part.len())?;
    for i in 0..pattern.len() {
        mark_bytes(&mut marks, part, pattern[i]);
    }
    Ok(marks[part.len()])
}

fn stands_for_parts(p: &[u8]) -> bool
    ensures { result ≡ stands_for_parts p.now }
{
    p == b"**".as_slice()
}

fn part_here(p: &[u8], was: bool, carried: bool) -> bool
    ensures { result ≡ part_here p.now was carried }
{
    if stands_for_parts(p) {
        was || carried
    } else {
        carried
    }
}

// What is carried on to the part behind this one. The part is looked at only where the form may begin at it.
#[tactic(auto, using(crate::proofs::Marks::carried_on))]
fn part_carries(alloc: Global, p: &[u8], part: &[u8], was: bool, carried: bool) -> Mem<bool>
    ensures { IfOk result (λ carries. carries ≡ part_carries p.now part.now was carried) }
{
    if stands_for_parts(p) {
        return Ok(was || carried);
    }
    if !was {
        return Ok(false);
    }
    let same = part_matches(alloc, p, part)?;
    Ok(same)
}

// From the places of a path at which a pattern's part may begin to those behind what it stands for.
#[tactic(auto, using(crate::proofs::Marks::over_marks))]
fn mark_parts(alloc: Global, marks: &mut [bool], parts: &[&[u8]], p: &[u8]) -> Mem<()>
    requires { length marks.old ≡ length parts.now + 1 }
    ensures long { length marks.new ≡ length marks.old }
    ensures marked { OnOk result ((ps : List (List ℕ)) →
        some_marked (parts_match ps) marks.new (map (λ x. x.now) parts.now)
        ≡ some_marked (parts_match (p.now ∷ ps)) marks.old (map (λ x. x.now) parts.now)) }
{
    let mut carried = false;
    for i in 0..parts.len() {
        let was = marks[i];
        marks[i] = part_here(p, was, carried);
        carried = part_carries(alloc, p, parts[i], was, carried)?;
    }
    let end = parts.len();
    marks[end] = part_here(p, marks[end], carried);
    Ok(())
}

fn parts_of(alloc: Global, text: &[u8]) -> Result<Vec<&[u8]>, AllocError>
    ensures { IfOk result (λ parts. map (λ x. x.now) parts.items ≡ parts_of text.now) }
{
    text.split(|b| *b == b'/').collect(alloc)
}

#[tactic(auto, using(crate::proofs::Marks::over_part))]
fn parts_match(alloc: Global, forms: &[&[u8]], parts: &[&[u8]]) -> Mem<bool>
    ensures { IfOk result (λ same.
        same ≡ parts_match (map (λ x. x.now) forms.now) (map (λ x. x.now) parts.now)) }
{
    let mut marks = first_marks(alloc, parts.len())?;
    for i in 0..forms.len() {
        mark_parts(alloc, &mut marks, parts, forms[i])?;
    }
    Ok(marks[parts.len()])
}

// Whether a path matches a pattern.
#[tactic(auto, using(crate::proofs::Marks::by_parts))]
pub(crate) fn path_matches(alloc: Global, pattern: &[u8], path: &[u8]) -> Mem<bool>
    ensures { IfOk result (λ same. same ≡ path_matches pattern.now path.now) }
{
    let forms = parts_of(alloc, pattern)?;
    let parts = parts_of(alloc, path)?;
    let same = parts_match(alloc, &forms, &parts)?;
    Ok(same)
}
