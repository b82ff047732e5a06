// The mark of each leaf of a segment.
ghost use Rattle.std.specs.Prelude.{[], ◌∷◌, ◌≡◌, ◌≢◌, ℕ, ◌+◌, ◌<◌, ◌≤◌, ◌↔◌, IsTrue, ◌^◌, length, slice_index};
ghost use Rattle.std.specs.Prelude.{slice_index_or};
ghost use Rattle.java_lex.specs.Types.{arguments, typed};
ghost use Rattle.java_lex.specs.Marks.{among, class_before, IsMark, IsLambda, IsLabel, IsTref, IsDecl, IsPref, IsLpar};
ghost use Rattle.java_lex.specs.Marks.{IsCast, IsAnn, IsShift, EndsInSet, Adjoins, Declares, IsPlain};
ghost use Rattle.java_lex.specs.Segments.{class_at, is_tight, with_class};
ghost use Rattle.rw_base.specs.Arena.{no_leaf};
ghost use Rattle.java_lex.specs.KnownTypes.{Knows, types_at, ToldType};
ghost use Rattle.java_lex.specs.KnownBrackets.{KnowsBrackets, KnowsSet, brackets_at};
ghost use Rattle.java_lex.specs.KnownReach.{IsFurthest};

use crate::brackets::{Brackets, brackets_at};
use crate::class::*;
use crate::shift::{adjoins, is_shift};
use crate::type_ends::{TypeEnds, class_at, typed_end};
use rw_base::Leaf;

// The class of the leaf before.
fn class_before(leaves: &[Leaf], i: usize) -> u16
    ensures { result ≡ class_before (class_at leaves.now) i }
{
    if i == 0 {
        SEMICOLON
    } else {
        class_at(leaves, i - 1)
    }
}

// Whether the leaf is the one parameter of a lambda.
fn is_lambda(leaves: &[Leaf], i: usize) -> bool
    requires { i < length leaves.now }
    ensures { IsTrue result ↔ IsLambda (class_at leaves.now) (is_tight leaves.now) i }
{
    class_at(leaves, i) == ID && class_at(leaves, i + 1) == ARROW
}

// Behind the type that begins at leaf i.
fn type_at(leaves: &[Leaf], types: &[TypeEnds], i: u32) -> Option<u32>
    requires few { length leaves.now < 2 ^ 31 }
    requires known { (k : ℕ) → Knows (class_at leaves.now) k (types_at types.now k) }
    ensures { ToldType (class_at leaves.now) typed i result }
{
    typed_end(leaves, types, i, i)
}

// Whether what stands behind a type and a name, from leaf `at` on, shows that the name is declared.
fn declares(leaves: &[Leaf], brackets: &[Brackets], at: u32) -> bool
    requires { (k : ℕ) → KnowsBrackets (class_at leaves.now) k (brackets_at brackets.now k) }
    ensures { IsTrue result ↔ Declares (class_at leaves.now) at }
{
    match class_at(leaves, at as usize) {
        ASSIGN => true,
        SEMICOLON => true,
        COLON => true,
        BRACKET_OPEN => class_at(leaves, at as usize + 1) == BRACKET_CLOSE,
        COMMA => brackets_at(brackets, at).leads,
        _ => false,
    }
}

// Whether the leaf is the type of a declaration.
fn is_decl(leaves: &[Leaf], types: &[TypeEnds], brackets: &[Brackets], i: u32) -> bool
    requires few { length leaves.now < 2 ^ 31 }
    requires inside { i < length leaves.now }
    requires types { (k : ℕ) → Knows (class_at leaves.now) k (types_at types.now k) }
    requires brackets { (k : ℕ) → KnowsBrackets (class_at leaves.now) k (brackets_at brackets.now k) }
    requires id { class_at leaves.now i ≡ ID }
    ensures { IsTrue result ↔ IsDecl (class_at leaves.now) (is_tight leaves.now) i }
{
    let before = class_before(leaves, i as usize);
    if before == DOT || before == AT {
        return false;
    }
    match type_at(leaves, types, i) {
        None => false,
        Some(end) => class_at(leaves, end as usize) == ID && declares(leaves, brackets, end + 1),
    }
}

// The mark of `>`.
fn greater_mark(leaves: &[Leaf], brackets: &[Brackets], i: u32, furthest: u32) -> u16
    requires inside { i < length leaves.now }
    requires sets { (k : ℕ) → KnowsSet (class_at leaves.now) (is_tight leaves.now) k (brackets_at brackets.now k) }
    requires furthest { IsFurthest (class_at leaves.now) i furthest }
    requires greater { class_at leaves.now i ≡ GREATER }
    ensures { IsMark (class_at leaves.now) (is_tight leaves.now) i result }
{
    if !is_shift(leaves, i as usize, furthest) {
        return GREATER;
    }
    if brackets_at(brackets, i).set {
        SETGT
    } else {
        SHGT
    }
}

// Whether the leaf is a label.
fn is_label(leaves: &[Leaf], i: usize) -> bool
    requires { i < length leaves.now }
    ensures { IsTrue result ↔ IsLabel (class_at leaves.now) (is_tight leaves.now) i }
{
    if class_at(leaves, i) != ID || class_at(leaves, i + 1) != COLON {
        return false;
    }
    match class_before(leaves, i) {
        SEMICOLON | BRACE_OPEN | BRACE_CLOSE | ELSE | DO => true,
        COLON => matches!(
            class_at(leaves, i + 2),
            FOR | WHILE | DO | SWITCH | IF | TRY | SYNCHRONIZED | BRACE_OPEN
        ),
        _ => false,
    }
}

// Whether the leaves from i on to before `end` are a name without type arguments and dimensions.
fn is_plain(leaves: &[Leaf], i: u32, end: u32) -> bool
    requires { length leaves.now < 2 ^ 31 }
    ensures { IsTrue result ↔ IsPlain (class_at leaves.now) i end }
{
    let mut at = i;
    'names: loop {
        if class_at(leaves, at as usize) != ID {
            return false;
        }
        if at + 1 == end {
            return true;
        }
        if class_at(leaves, at as usize + 1) != DOT {
            return false;
        }
        at += 2;
    }
}

// Whether the leaf is a primitive type in an expression.
fn is_pref(leaves: &[Leaf], types: &[TypeEnds], i: u32) -> bool
    requires few { length leaves.now < 2 ^ 31 }
    requires known { (k : ℕ) → Knows (class_at leaves.now) k (types_at types.now k) }
    requires prim { class_at leaves.now i ≡ PRIM }
    ensures { IsTrue result ↔ IsPref (class_at leaves.now) (is_tight leaves.now) i }
{
    match type_at(leaves, types, i) {
        None => false,
        Some(end) => {
            let behind = class_at(leaves, end as usize);
            behind == DOT || behind == COLON_COLON
        }
    }
}

// Whether the leaf is the `(` of the parameters of a lambda.
fn is_lpar(leaves: &[Leaf], brackets: &[Brackets], i: u32) -> bool
    requires few { length leaves.now < 2 ^ 31 }
    requires inside { i < length leaves.now }
    requires brackets { (k : ℕ) → KnowsBrackets (class_at leaves.now) k (brackets_at brackets.now k) }
    requires open { class_at leaves.now i ≡ PAREN_OPEN }
    ensures { IsTrue result ↔ IsLpar (class_at leaves.now) (is_tight leaves.now) i }
{
    match brackets_at(brackets, i + 1).close {
        None => false,
        Some(end) => class_at(leaves, end as usize + 1) == ARROW,
    }
}

// Whether the leaf is the `@` of `@interface`.
fn is_ann(leaves: &[Leaf], i: usize) -> bool
    requires { class_at leaves.now i ≡ AT }
    ensures { IsTrue result ↔ IsAnn (class_at leaves.now) (is_tight leaves.now) i }
{
    class_at(leaves, i + 1) == INTERFACE
}

// Whether the leaf is the first name of a type before `::` or `.class`.
fn is_tref(leaves: &[Leaf], types: &[TypeEnds], i: u32) -> bool
    requires few { length leaves.now < 2 ^ 31 }
    requires known { (k : ℕ) → Knows (class_at leaves.now) k (types_at types.now k) }
    requires id { class_at leaves.now i ≡ ID }
    ensures { IsTrue result ↔ IsTref (class_at leaves.now) (is_tight leaves.now) i }
{
    if class_before(leaves, i as usize) == DOT {
        return false;
    }
    match type_at(leaves, types, i) {
        None => false,
        Some(end) => {
            let behind = class_at(leaves, end as usize);
            if behind == COLON_COLON {
                return !is_plain(leaves, i, end);
            }
            behind == DOT
                && class_at(leaves, (end as usize).saturating_sub(1)) == BRACKET_CLOSE
                && class_at(leaves, end as usize + 1) == CLASS
        }
    }
}

// Whether an operand of a cast begins with such a leaf.
fn begins_operand(class: u16) -> bool
    ensures { result ≡ among class
        (ID ∷ PRIM ∷ INT ∷ LONG ∷ FLOAT ∷ DOUBLE ∷ CHAR ∷ STRING ∷ BOOL ∷ NULL ∷ PAREN_OPEN ∷ NOT ∷ TILDE ∷ THIS ∷ SUPER
        ∷ NEW ∷ VOID ∷ []) }
{
    class == ID
        || class == PRIM
        || class == INT
        || class == LONG
        || class == FLOAT
        || class == DOUBLE
        || class == CHAR
        || class == STRING
        || class == BOOL
        || class == NULL
        || class == PAREN_OPEN
        || class == NOT
        || class == TILDE
        || class == THIS
        || class == SUPER
        || class == NEW
        || class == VOID
}

// Whether no cast stands behind such a leaf.
fn bars_cast(class: u16) -> bool
    ensures { result ≡ among class (ID ∷ IF ∷ WHILE ∷ FOR ∷ SWITCH ∷ SYNCHRONIZED ∷ CATCH ∷ TRY ∷ THIS ∷ SUPER ∷ []) }
{
    class == ID
        || class == IF
        || class == WHILE
        || class == FOR
        || class == SWITCH
        || class == SYNCHRONIZED
        || class == CATCH
        || class == TRY
        || class == THIS
        || class == SUPER
}

// Whether the leaf is the `(` of a cast.
fn is_cast(leaves: &[Leaf], types: &[TypeEnds], i: u32) -> bool
    requires few { length leaves.now < 2 ^ 31 }
    requires inside { i < length leaves.now }
    requires known { (k : ℕ) → Knows (class_at leaves.now) k (types_at types.now k) }
    requires open { class_at leaves.now i ≡ PAREN_OPEN }
    ensures { IsTrue result ↔ IsCast (class_at leaves.now) (is_tight leaves.now) i }
{
    if bars_cast(class_before(leaves, i as usize)) {
        return false;
    }
    match type_at(leaves, types, i + 1) {
        None => false,
        Some(end) => {
            class_at(leaves, end as usize) == PAREN_CLOSE
                && (class_at(leaves, i as usize + 1) == PRIM
                    || begins_operand(class_at(leaves, end as usize + 1)))
        }
    }
}

// The mark of `(`.
fn paren_mark(leaves: &[Leaf], types: &[TypeEnds], brackets: &[Brackets], i: u32) -> u16
    requires few { length leaves.now < 2 ^ 31 }
    requires inside { i < length leaves.now }
    requires types { (k : ℕ) → Knows (class_at leaves.now) k (types_at types.now k) }
    requires brackets { (k : ℕ) → KnowsBrackets (class_at leaves.now) k (brackets_at brackets.now k) }
    requires open { class_at leaves.now i ≡ PAREN_OPEN }
    ensures { IsMark (class_at leaves.now) (is_tight leaves.now) i result }
{
    if is_lpar(leaves, brackets, i) {
        return LPAR;
    }
    if is_cast(leaves, types, i) {
        CAST
    } else {
        PAREN_OPEN
    }
}

// The mark of the name of a primitive type.
fn prim_mark(leaves: &[Leaf], types: &[TypeEnds], i: u32) -> u16
    requires few { length leaves.now < 2 ^ 31 }
    requires types { (k : ℕ) → Knows (class_at leaves.now) k (types_at types.now k) }
    requires prim { class_at leaves.now i ≡ PRIM }
    ensures { IsMark (class_at leaves.now) (is_tight leaves.now) i result }
{
    if is_pref(leaves, types, i) {
        PREF
    } else {
        PRIM
    }
}

// The mark of `@`.
fn at_mark(leaves: &[Leaf], i: usize) -> u16
    requires { class_at leaves.now i ≡ AT }
    ensures { IsMark (class_at leaves.now) (is_tight leaves.now) i result }
{
    if is_ann(leaves, i) { ANN } else { AT }
}

// The mark of an identifier.
fn id_mark(leaves: &[Leaf], types: &[TypeEnds], brackets: &[Brackets], i: u32) -> u16
    requires few { length leaves.now < 2 ^ 31 }
    requires inside { i < length leaves.now }
    requires types { (k : ℕ) → Knows (class_at leaves.now) k (types_at types.now k) }
    requires brackets { (k : ℕ) → KnowsBrackets (class_at leaves.now) k (brackets_at brackets.now k) }
    requires id { class_at leaves.now i ≡ ID }
    ensures { IsMark (class_at leaves.now) (is_tight leaves.now) i result }
{
    if is_lambda(leaves, i as usize) {
        return LAMBDA;
    }
    if is_label(leaves, i as usize) {
        return LABEL;
    }
    if is_tref(leaves, types, i) {
        return TREF;
    }
    if is_decl(leaves, types, brackets, i) {
        DECL
    } else {
        ID
    }
}

// The mark of leaf i, where `furthest` is how far type arguments that begin before it reach.
pub(crate) fn mark_at(
    leaves: &[Leaf],
    types: &[TypeEnds],
    brackets: &[Brackets],
    i: u32,
    furthest: u32,
) -> u16
    requires few { length leaves.now < 2 ^ 31 }
    requires inside { i < length leaves.now }
    requires types { (k : ℕ) → Knows (class_at leaves.now) k (types_at types.now k) }
    requires brackets { (k : ℕ) → KnowsBrackets (class_at leaves.now) k (brackets_at brackets.now k) }
    requires sets { (k : ℕ) → KnowsSet (class_at leaves.now) (is_tight leaves.now) k (brackets_at brackets.now k) }
    requires furthest { IsFurthest (class_at leaves.now) i furthest }
    ensures { IsMark (class_at leaves.now) (is_tight leaves.now) i result }
{
    match class_at(leaves, i as usize) {
        ID => id_mark(leaves, types, brackets, i),
        GREATER => greater_mark(leaves, brackets, i, furthest),
        PAREN_OPEN => paren_mark(leaves, types, brackets, i),
        PRIM => prim_mark(leaves, types, i),
        AT => at_mark(leaves, i as usize),
        class => class,
    }
}
