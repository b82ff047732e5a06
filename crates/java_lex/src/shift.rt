// Which `>` are shifts.
ghost use Rattle.std.specs.Prelude.{◌≡◌, ℕ, ◌+◌, ◌<◌, ◌≤◌, ◌↔◌, IsTrue, Bool, ◌^◌, length};
ghost use Rattle.java_lex.specs.Types.{arguments};
ghost use Rattle.java_lex.specs.Marks.{IsShift, Adjoins};
ghost use Rattle.java_lex.specs.Segments.{class_at, is_tight};
ghost use Rattle.java_lex.specs.KnownTypes.{Knows, types_at};
ghost use Rattle.java_lex.specs.KnownReach.{IsFurthest};

use crate::class::*;
use crate::type_ends::{TypeEnds, class_at, types_at};
use rw_base::Leaf;

// Whether the next leaf is `>` or `>=` without anything between.
pub(crate) fn adjoins(leaves: &[Leaf], i: usize) -> bool
    requires { i < length leaves.now }
    ensures adjoins { IsTrue result ↔ Adjoins (class_at leaves.now) (is_tight leaves.now) i }
    ensures inside { IsTrue result → i + 1 < length leaves.now }
{
    let class = class_at(leaves, i + 1);
    if class != GREATER && class != GREATER_EQUAL {
        return false;
    }
    leaves[i + 1].prefix_from == leaves[i + 1].from
}

// The furthest end of type arguments that begin before leaf i + 1, by that of those that begin before leaf i.
pub(crate) fn furthest_end(leaves: &[Leaf], types: &[TypeEnds], i: u32, furthest: u32) -> u32
    requires known { (k : ℕ) → Knows (class_at leaves.now) k (types_at types.now k) }
    requires furthest { IsFurthest (class_at leaves.now) i furthest }
    ensures { IsFurthest (class_at leaves.now) (i + 1) result }
{
    match types_at(types, i).arguments {
        None => furthest,
        Some(end) => { if furthest < end { end } else { furthest } }
    }
}

// Whether the leaf is the first `>` of a shift.
pub(crate) fn is_shift(leaves: &[Leaf], i: usize, furthest: u32) -> bool
    requires inside { i < length leaves.now }
    requires furthest { IsFurthest (class_at leaves.now) i furthest }
    ensures { IsTrue result ↔ IsShift (class_at leaves.now) (is_tight leaves.now) i }
{
    class_at(leaves, i) == GREATER && adjoins(leaves, i) && furthest as usize <= i + 1
}
