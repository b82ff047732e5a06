// What begins at each leaf of a segment, told from the last leaf to the first.
ghost use Rattle.std.specs.Prelude.{◌≡◌, ◌≢◌, ℕ, ◌+◌, ◌<◌, ◌≤◌, ◌^◌, ◌⊎◌, length};
ghost use Rattle.java_lex.specs.Types.{dims, dotted, named, typed, bounds, argument, listed, closed, arguments};
ghost use Rattle.java_lex.specs.Segments.{class_at};
ghost use Rattle.java_lex.specs.KnownTypes.{LongestType, ToldType, ToldArgument, ToldOne, Knows, KnowsBehind, types_at};
ghost use Rattle.java_lex.specs.KnownTypes.{no_types};

use crate::class::*;
use rw_base::Leaf;

// The leaves at which what begins at a leaf ends.
#[derive(Clone, Copy)]
pub(crate) struct TypeEnds {
    pub dims: u32,
    pub named: u32,
    pub arguments: Option<u32>,
    pub listed: Option<u32>,
    pub bounds: Option<u32>,
}

impl TypeEnds {
    // Nothing begins at leaf i.
    pub(crate) fn none_at(i: u32) -> TypeEnds
        ensures { result ≡ no_types i }
    {
        TypeEnds {
            dims: i,
            named: i,
            arguments: None,
            listed: None,
            bounds: None,
        }
    }
}

// The class of a leaf, or END where none is there.
pub(crate) fn class_at(leaves: &[Leaf], i: usize) -> u16
    ensures value { result ≡ class_at leaves.now i }
    ensures inside { result ≢ 0 → i < length leaves.now }
{
    if i < leaves.len() {
        leaves[i].class
    } else {
        END
    }
}

pub(crate) fn types_at(types: &[TypeEnds], i: u32) -> TypeEnds
    ensures { result ≡ types_at types.now i }
{
    if (i as usize) < types.len() {
        types[i as usize]
    } else {
        TypeEnds::none_at(i)
    }
}

// Behind any `[ ]` from leaf `at` on.
fn dims_end(leaves: &[Leaf], types: &[TypeEnds], from: u32, at: u32) -> u32
    requires few { length leaves.now < 2 ^ 31 }
    requires known { KnowsBehind (class_at leaves.now) from types.now }
    requires order { from ≤ at }
    ensures { LongestType (class_at leaves.now) dims at result }
{
    if class_at(leaves, at as usize) == BRACKET_OPEN
        && class_at(leaves, at as usize + 1) == BRACKET_CLOSE
    {
        types_at(types, at + 2).dims
    } else {
        at
    }
}

// Behind any `.` and names, and any `[ ]`.
fn dotted_end(leaves: &[Leaf], types: &[TypeEnds], from: u32, at: u32) -> u32
    requires few { length leaves.now < 2 ^ 31 }
    requires known { KnowsBehind (class_at leaves.now) from types.now }
    requires order { from ≤ at }
    ensures { LongestType (class_at leaves.now) dotted at result }
{
    if class_at(leaves, at as usize) == DOT && class_at(leaves, at as usize + 1) == ID {
        types_at(types, at + 2).named
    } else {
        dims_end(leaves, types, from, at)
    }
}

// Behind the type that begins at leaf `at`.
pub(crate) fn typed_end(leaves: &[Leaf], types: &[TypeEnds], from: u32, at: u32) -> Option<u32>
    requires few { length leaves.now < 2 ^ 31 }
    requires known { KnowsBehind (class_at leaves.now) from types.now }
    requires order { from ≤ at }
    ensures { ToldType (class_at leaves.now) typed at result }
{
    match class_at(leaves, at as usize) {
        PRIM => Some(types_at(types, at + 1).dims),
        ID => Some(types_at(types, at + 1).named),
        _ => None,
    }
}

// Behind what stands behind the name of a type.
fn named_end(leaves: &[Leaf], types: &[TypeEnds], from: u32, at: u32) -> u32
    requires few { length leaves.now < 2 ^ 31 }
    requires known { KnowsBehind (class_at leaves.now) from types.now }
    requires order { from ≤ at }
    ensures { LongestType (class_at leaves.now) named at result }
{
    match arguments_end(leaves, types, from, at) {
        Some(end) => dotted_end(leaves, types, from, end),
        None => dotted_end(leaves, types, from, at),
    }
}

// Behind types that `&` joins.
fn bounds_end(leaves: &[Leaf], types: &[TypeEnds], from: u32, at: u32) -> Option<u32>
    requires few { length leaves.now < 2 ^ 31 }
    requires known { KnowsBehind (class_at leaves.now) from types.now }
    requires order { from ≤ at }
    ensures { ToldArgument (class_at leaves.now) bounds at result }
{
    match typed_end(leaves, types, from, at) {
        None => None,
        Some(end) => {
            if class_at(leaves, end as usize) != AND {
                return Some(end);
            }
            match types_at(types, end + 1).bounds {
                Some(last) => Some(last),
                None => Some(end),
            }
        }
    }
}

// Behind an argument.
fn argument_end(leaves: &[Leaf], types: &[TypeEnds], from: u32, at: u32) -> Option<u32>
    requires few { length leaves.now < 2 ^ 31 }
    requires known { KnowsBehind (class_at leaves.now) from types.now }
    requires order { from ≤ at }
    ensures { ToldArgument (class_at leaves.now) argument at result }
{
    let first = class_at(leaves, at as usize);
    let second = class_at(leaves, at as usize + 1);
    if first == QUESTION {
        return any_end(leaves, types, from, at, second);
    }
    if first == ID && second == EXTENDS {
        return bounded_end(leaves, types, from, at);
    }
    typed_end(leaves, types, from, at)
}

// Behind ID, `extends` and its bounds.
fn bounded_end(leaves: &[Leaf], types: &[TypeEnds], from: u32, at: u32) -> Option<u32>
    requires few { length leaves.now < 2 ^ 31 }
    requires known { KnowsBehind (class_at leaves.now) from types.now }
    requires order { from ≤ at }
    requires id { class_at leaves.now at ≡ ID }
    requires second { class_at leaves.now (at + 1) ≡ EXTENDS }
    requires inside { at < length leaves.now }
    ensures { ToldArgument (class_at leaves.now) argument at result }
{
    match types_at(types, at + 2).bounds {
        Some(end) => Some(end),
        None => typed_end(leaves, types, from, at),
    }
}

// Behind `?` and what bounds it.
fn any_end(leaves: &[Leaf], types: &[TypeEnds], from: u32, at: u32, second: u16) -> Option<u32>
    requires few { length leaves.now < 2 ^ 31 }
    requires known { KnowsBehind (class_at leaves.now) from types.now }
    requires order { from ≤ at }
    requires any { class_at leaves.now at ≡ QUESTION }
    requires second { second ≡ class_at leaves.now (at + 1) }
    requires inside { at < length leaves.now }
    ensures { ToldArgument (class_at leaves.now) argument at result }
{
    if second == EXTENDS {
        return any_bound_end(leaves, types, from, at);
    }
    if second == SUPER {
        return any_bound_end(leaves, types, from, at);
    }
    Some(at + 1)
}

// Behind `?` and its bound.
fn any_bound_end(leaves: &[Leaf], types: &[TypeEnds], from: u32, at: u32) -> Option<u32>
    requires few { length leaves.now < 2 ^ 31 }
    requires known { KnowsBehind (class_at leaves.now) from types.now }
    requires order { from ≤ at }
    requires any { class_at leaves.now at ≡ QUESTION }
    requires second { (class_at leaves.now (at + 1) ≡ EXTENDS) ⊎ (class_at leaves.now (at + 1) ≡ SUPER) }
    requires inside { at < length leaves.now }
    ensures { ToldArgument (class_at leaves.now) argument at result }
{
    match typed_end(leaves, types, from, at + 2) {
        Some(end) => Some(end),
        None => Some(at + 1),
    }
}

// Behind `>`, or `,` and further arguments.
fn closed_end(leaves: &[Leaf], types: &[TypeEnds], from: u32, at: u32) -> Option<u32>
    requires few { length leaves.now < 2 ^ 31 }
    requires known { KnowsBehind (class_at leaves.now) from types.now }
    requires order { from ≤ at }
    ensures { ToldOne (class_at leaves.now) closed at result }
{
    match class_at(leaves, at as usize) {
        GREATER => Some(at + 1),
        COMMA => types_at(types, at + 1).listed,
        _ => None,
    }
}

// Behind one or more arguments and `>`.
fn listed_end(leaves: &[Leaf], types: &[TypeEnds], from: u32, at: u32) -> Option<u32>
    requires few { length leaves.now < 2 ^ 31 }
    requires known { KnowsBehind (class_at leaves.now) from types.now }
    requires order { from ≤ at }
    ensures { ToldOne (class_at leaves.now) listed at result }
{
    match argument_end(leaves, types, from, at) {
        None => None,
        Some(end) => closed_end(leaves, types, from, end),
    }
}

// Behind the type arguments that begin at leaf `at`.
fn arguments_end(leaves: &[Leaf], types: &[TypeEnds], from: u32, at: u32) -> Option<u32>
    requires few { length leaves.now < 2 ^ 31 }
    requires known { KnowsBehind (class_at leaves.now) from types.now }
    requires order { from ≤ at }
    ensures { ToldOne (class_at leaves.now) arguments at result }
{
    if class_at(leaves, at as usize) != LESS {
        return None;
    }
    if class_at(leaves, at as usize + 1) == GREATER {
        return Some(at + 2);
    }
    types_at(types, at + 1).listed
}

// What begins at leaf `at`.
fn types_from(leaves: &[Leaf], types: &[TypeEnds], at: u32) -> TypeEnds
    requires few { length leaves.now < 2 ^ 31 }
    requires known { KnowsBehind (class_at leaves.now) at types.now }
    ensures { Knows (class_at leaves.now) at result }
{
    TypeEnds {
        dims: dims_end(leaves, types, at, at),
        named: named_end(leaves, types, at, at),
        arguments: arguments_end(leaves, types, at, at),
        listed: listed_end(leaves, types, at, at),
        bounds: bounds_end(leaves, types, at, at),
    }
}

// What begins at each leaf.
pub(crate) fn fill_types(leaves: &[Leaf], types: &mut [TypeEnds])
    requires few { length leaves.now < 2 ^ 31 }
    requires long { length types.old ≡ length leaves.now }
    ensures { (k : ℕ) → Knows (class_at leaves.now) k (types_at types.new k) }
{
    let mut i = leaves.len();
    while 0 < i {
        i -= 1;
        let found = types_from(leaves, &*types, i as u32);
        types[i] = found;
    }
}
