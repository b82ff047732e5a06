// Laws of reading Java: functions that do nothing, whose clauses hold of every text.
ghost use Rattle.std.specs.Prelude.{◌≡◌, ℕ, List, Option, Result};
ghost use Rattle.rw_base.specs.declared.tree.Leaf.{Leaf};
ghost use Rattle.rw_base.specs.declared.leaves.Bad.{Bad};
ghost use Rattle.rw_base.specs.declared.place.Refused.{Refused};
ghost use Rattle.rw_base.specs.Arena.{Arena};
ghost use Rattle.rw_grammar.specs.Faults.{IsSound};
ghost use Rattle.java_lex.specs.Laws.{AreBytes};
ghost use Rattle.java_lex.specs.Tiles.{AreTiles};
ghost use Rattle.java_reader.specs.Reading.{java_rules, CutsAreOne, IsJavaCut, IsJavaRead};

use java_lex::{leaves_are_one, leaves_tile, marks_are_one, marks_keep_tiles};
use rw_grammar::closed_rows_show_a_sound_table;

/// The table has no fault.
pub fn java_rules_are_sound()
    ensures { IsSound java_rules }
{
    closed_rows_show_a_sound_table();
}

// The leaves of a text lie one behind another, with their marks as without.
pub(crate) fn cuts_tile()
    ensures { (bytes : List ℕ) (leaves : List Leaf) (bad : Option Bad) → IsJavaCut bytes leaves bad
        → AreTiles bytes leaves bad }
{
    leaves_tile();
    marks_keep_tiles();
}

// A text is cut in one way.
pub(crate) fn texts_are_cut_one_way()
    ensures { (bytes : List ℕ) → AreBytes bytes → CutsAreOne bytes }
{
    leaves_are_one();
    marks_are_one();
}

// So are these bytes.
pub(crate) fn cuts_are_one(bytes: &[u8])
    ensures { CutsAreOne bytes.now }
{
    texts_are_cut_one_way();
}

/// What comes of a text is one thing: two readings by the same rule are equal.
pub fn readings_are_one()
    ensures { (start : ℕ) (bytes : List ℕ) (a b : Result Arena Refused) → AreBytes bytes
        → IsJavaRead start bytes a → IsJavaRead start bytes b → a ≡ b }
{
    texts_are_cut_one_way();
    java_rules_are_sound();
}
