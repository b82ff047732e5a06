// Leaves cut into segments, and the marks of all segments.
ghost use Rattle.std.specs.Prelude.{max, ◌≡◌, ℕ, ◌∷◌, ◌+◌, ◌<◌, ◌≤◌, ◌^◌, take, drop, length, IfOk, OnOk, OnErr};
ghost use Rattle.std.specs.Prelude.{slice_index, slice_index_or};
ghost use Rattle.java_lex.specs.Marks.{IsMark};
ghost use Rattle.java_lex.specs.Segments.{class_at, is_tight, with_class, separates, segments, IsSegmentMarked};
ghost use Rattle.java_lex.specs.Segments.{AreMarked};
ghost use Rattle.rw_base.specs.Arena.{no_leaf};
ghost use Rattle.java_lex.specs.KnownSegments.{longest_of};
ghost use Rattle.java_lex.specs.KnownTypes.{Knows, types_at};
ghost use Rattle.java_lex.specs.KnownBrackets.{KnowsBrackets, brackets_at};

use crate::brackets::{Brackets, fill_brackets};
use crate::choice::mark_at;
use crate::class::*;
use crate::shift::furthest_end;
use crate::type_ends::{TypeEnds, fill_types};
use rw_base::{Leaf, Mem};
use std::alloc::Global;

// Whether the leaf is `;`, `{` or `}`.
fn is_end(leaf: Leaf) -> bool
    ensures { result ≡ separates leaf }
{
    leaf.class == SEMICOLON || leaf.class == BRACE_OPEN || leaf.class == BRACE_CLOSE
}

// How many leaves the first segment has.
fn segment_size(leaves: &[Leaf]) -> usize
    requires { 0 < length leaves.now }
    ensures some { 0 < result }
    ensures inside { result ≤ length leaves.now }
    ensures segment { segments leaves.now ≡ take result leaves.now ∷ segments (drop result leaves.now) }
{
    for i in 0..leaves.len() {
        if is_end(leaves[i]) {
            return i + 1;
        }
    }
    leaves.len()
}

// Gives each leaf its mark as its class.
fn put_marks(leaves: &mut [Leaf], marks: &[u16])
    requires { length leaves.old ≤ length marks.now }
    ensures long { length leaves.new ≡ length leaves.old }
    ensures each { (k : ℕ) → k < length leaves.old
        → slice_index_or leaves.new k no_leaf
        ≡ with_class (slice_index_or leaves.old k no_leaf) (slice_index marks.now k) }
{
    for i in 0..leaves.len() {
        leaves[i].class = marks[i];
    }
}

// Finds the marks of a segment.
fn find_marks(leaves: &[Leaf], types: &mut [TypeEnds], brackets: &mut [Brackets], marks: &mut [u16])
    requires few { length leaves.now < 2 ^ 31 }
    requires types { length types.old ≡ length leaves.now }
    requires brackets { length brackets.old ≡ length leaves.now }
    requires marks { length marks.old ≡ length leaves.now }
    ensures { (k : ℕ) → k < length leaves.now
        → IsMark (class_at leaves.now) (is_tight leaves.now) k (slice_index marks.new k) }
{
    fill_types(leaves, types);
    fill_brackets(leaves, brackets);
    let mut furthest = 0;
    for i in 0..leaves.len() {
        marks[i] = mark_at(leaves, &*types, &*brackets, i as u32, furthest);
        furthest = furthest_end(leaves, &*types, i as u32, furthest);
    }
}

// Marks a segment.
fn mark_segment(
    leaves: &mut [Leaf],
    types: &mut [TypeEnds],
    brackets: &mut [Brackets],
    marks: &mut [u16],
)
    requires few { length leaves.old < 2 ^ 31 }
    requires types { length types.old ≡ length leaves.old }
    requires brackets { length brackets.old ≡ length leaves.old }
    requires marks { length marks.old ≡ length leaves.old }
    ensures { IsSegmentMarked leaves.old leaves.new }
{
    find_marks(&*leaves, types, brackets, &mut *marks);
    put_marks(leaves, &*marks);
}

// The larger of two numbers.
fn larger(a: usize, b: usize) -> usize
    ensures { result ≡ max a b }
{
    if a < b { b } else { a }
}

// How many leaves the longest segment has.
fn longest_segment(leaves: &[Leaf]) -> usize
    ensures { result ≡ longest_of (segments leaves.now) }
{
    let mut longest = 0;
    let mut from = 0;
    while from < leaves.len() {
        let size = segment_size(&leaves[from..]);
        longest = larger(longest, size);
        from += size;
    }
    longest
}

// Marks all segments, by tables that have room for each of them.
fn mark_all(
    leaves: &mut [Leaf],
    types: &mut [TypeEnds],
    brackets: &mut [Brackets],
    marks: &mut [u16],
)
    requires few { length leaves.old < 2 ^ 31 }
    requires types { longest_of (segments leaves.old) ≤ length types.old }
    requires brackets { length brackets.old ≡ length types.old }
    requires marks { length marks.old ≡ length types.old }
    ensures { AreMarked leaves.old leaves.new }
{
    let mut from = 0;
    while from < leaves.len() {
        let size = segment_size(&leaves[from..]);
        mark_segment(
            &mut leaves[from..from + size],
            &mut types[..size],
            &mut brackets[..size],
            &mut marks[..size],
        );
        from += size;
    }
}

/// Gives each leaf its mark as its class. The tables that it takes are as long as the longest stretch of leaves without
/// `;`, `{` and `}`, and its time grows with the number of leaves.
pub fn mark(alloc: Global, leaves: &mut [Leaf], _bytes: &[u8]) -> Mem<()>
    requires { length leaves.old < 2 ^ 31 }
    ensures marked { OnOk result (AreMarked leaves.old leaves.new) }
    ensures unchanged { OnErr result (leaves.new ≡ leaves.old) }
{
    let longest = longest_segment(&*leaves);
    let mut types = vec![in alloc; TypeEnds::none_at(0); longest]?;
    let mut brackets = vec![in alloc; Brackets::none(); longest]?;
    let mut marks = vec![in alloc; 0; longest]?;
    mark_all(
        leaves,
        types.as_mut_slice(),
        brackets.as_mut_slice(),
        marks.as_mut_slice(),
    );
    Ok(())
}
