// Laws of subtypes and fits over all worlds.
ghost use Rattle.std.specs.Prelude.{◌≡◌, ◌↔◌, ℕ, List, true};
ghost use Rattle.dialogue.specs.Dialogue.{run, asked, AnswerAlike, In};
ghost use Rattle.jtypes.specs.Arrays.{ArrayOf};
ghost use Rattle.jtypes.specs.World.{World};
ghost use Rattle.jtypes.specs.Subtype.{Subtype, subtype, Reaches, longest_row, IsReference, AsksTheWalk};
ghost use Rattle.jtypes.specs.Fits.{FitsStrictly, FitsLoosely, strict_fit, loose_fit};
ghost use Rattle.jtypes.specs.declared.ask.Ask.{Ask};
ghost use Rattle.jtypes.specs.declared.types.JType.{JType};

/// The rules that are followed with questions decide the relations.
pub fn rules_decide_the_relations()
    ensures subtype { (w : World) (a b : JType) → (run (subtype a b) w ≡ true) ↔ Subtype w a b }
    ensures strict_fit { (w : World) (a b : JType) → (run (strict_fit a b) w ≡ true) ↔ FitsStrictly w a b }
    ensures loose_fit { (w : World) (a b : JType) → (run (loose_fit a b) w ≡ true) ↔ FitsLoosely w a b }
{}

/// What fits strictly fits loosely.
pub fn strict_fits_are_loose()
    ensures { (w : World) (a b : JType) → FitsStrictly w a b → FitsLoosely w a b }
{}

/// Between two classes the relation is the same in two worlds that have equal headers on the
/// walk from the first class.
pub fn class_subtypes_rest_on_the_walk()
    ensures { (w v : World) (a b : List ℕ)
        → ((m : List ℕ) → Reaches w longest_row a m → w (Ask.Class m) ≡ v (Ask.Class m))
        → (Subtype w (JType.Class a) (JType.Class b) ↔ Subtype v (JType.Class a) (JType.Class b)) }
{}

/// A test between two classes asks nothing where they are the same or the other is Object, and
/// else for each class that is reached from the first; one between arrays of references asks
/// what that between their elements asks.
pub fn subtypes_ask_for_the_walk()
    ensures walk { (w : World) (a b : List ℕ) (q : Ask)
        → In q (asked (subtype (JType.Class a) (JType.Class b)) w)
        ↔ AsksTheWalk w a b q }
    ensures elements { (w : World) (a b : JType) → IsReference a
        → asked (subtype (ArrayOf a) (ArrayOf b)) w ≡ asked (subtype a b) w }
{}

/// In two worlds that answer a test's questions alike, the test of a subtype gives the same and
/// asks the same.
pub fn equal_answers_give_equal_subtypes()
    ensures gives { (w v : World) (a b : JType)
        → AnswerAlike w v (asked (subtype a b) w) → run (subtype a b) v ≡ run (subtype a b) w }
    ensures asks { (w v : World) (a b : JType)
        → AnswerAlike w v (asked (subtype a b) w) → asked (subtype a b) v ≡ asked (subtype a b) w }
{}

/// In two worlds that answer a test's questions alike, the test of a fit gives the same and asks
/// the same.
pub fn equal_answers_give_equal_fits()
    ensures strict_gives { (w v : World) (a b : JType)
        → AnswerAlike w v (asked (strict_fit a b) w) → run (strict_fit a b) v ≡ run (strict_fit a b) w }
    ensures strict_asks { (w v : World) (a b : JType)
        → AnswerAlike w v (asked (strict_fit a b) w) → asked (strict_fit a b) v ≡ asked (strict_fit a b) w }
    ensures loose_gives { (w v : World) (a b : JType)
        → AnswerAlike w v (asked (loose_fit a b) w) → run (loose_fit a b) v ≡ run (loose_fit a b) w }
    ensures loose_asks { (w v : World) (a b : JType)
        → AnswerAlike w v (asked (loose_fit a b) w) → asked (loose_fit a b) v ≡ asked (loose_fit a b) w }
{}
