// Laws of conditional expressions over all worlds.
ghost use Rattle.std.specs.Prelude.{◌≡◌};
ghost use Rattle.dialogue.specs.Dialogue.{run, asked, AnswerAlike};
ghost use Rattle.jtypes.specs.World.{World};
ghost use Rattle.jtypes.specs.declared.types.JType.{JType};
ghost use Rattle.operator_types.specs.Conditional.{conditional};

/// In two worlds that answer alike what a conditional expression asked in the first, its type is the same and it asks
/// the same.
pub fn equal_answers_give_equal_conditionals()
    ensures gives { (w v : World) (a b : JType)
        → AnswerAlike w v (asked (conditional a b) w) → run (conditional a b) v ≡ run (conditional a b) w }
    ensures asks { (w v : World) (a b : JType)
        → AnswerAlike w v (asked (conditional a b) w) → asked (conditional a b) v ≡ asked (conditional a b) w }
{}
