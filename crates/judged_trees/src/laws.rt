// Laws of judgements over all worlds and all tables.
ghost use Rattle.std.specs.Prelude.{◌≡◌, List};
ghost use Rattle.dialogue.specs.Dialogue.{run, asked, AnswerAlike};
ghost use Rattle.jtypes.specs.World.{World};
ghost use Rattle.j_names.specs.declared.context.Frame.{Frame};
ghost use Rattle.judged_trees.specs.Tables.{Site, Tables};
ghost use Rattle.judged_trees.specs.Trees.{judged};

use crate::tables::TreeTables;

/// In two worlds that answer alike what the judgement of a tree asked in the first, it gives the same and asks the same,
/// whatever the tables say.
pub fn equal_answers_give_equal_judgements<T: TreeTables>()
    ensures gives { (t : Tables T.Value T.Given) (site : Site T.Given) (around : List Frame) (w v : World)
        → AnswerAlike w v (asked (judged t site around) w)
        → run (judged t site around) v ≡ run (judged t site around) w }
    ensures asks { (t : Tables T.Value T.Given) (site : Site T.Given) (around : List Frame) (w v : World)
        → AnswerAlike w v (asked (judged t site around) w)
        → asked (judged t site around) v ≡ asked (judged t site around) w }
{}
