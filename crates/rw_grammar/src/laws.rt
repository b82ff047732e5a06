// Laws of tables and derivations: functions that do nothing, whose clauses hold of every table and list of leaves.
ghost use Rattle.rw_grammar.specs.Closed.{ClosedIsSound};
ghost use Rattle.rw_grammar.specs.Laws.{OneOutcome, OneSpelling, OneStop, OneTree, SpelledAreRead};

/// By a table without a fault a rule derives one tree from a list of leaves.
pub fn a_rule_derives_one_tree()
    ensures { OneTree }
{}

/// A list of leaves that a rule doesn't derive has one leaf at which it stops.
pub fn a_rule_stops_at_one_leaf()
    ensures { OneStop }
{}

/// What comes of a text is one tree or one refusal, and never both.
pub fn outcomes_are_one()
    ensures { OneOutcome }
{}

/// First classes, emptiness and a rank, written out for each rule, show that a table has no fault, where they are
/// closed under the rules: a test that computes.
pub fn closed_rows_show_a_sound_table()
    ensures { ClosedIsSound }
{}

/// Codes spell one list of rules at most, and `shapes` takes the codes that spell one.
pub fn codes_spell_one_list_of_rules()
    ensures one { OneSpelling }
    ensures read { SpelledAreRead }
{}
