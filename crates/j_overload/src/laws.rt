// Laws of the choice over all worlds.
ghost use Rattle.std.specs.Prelude.{◌≡◌, ◌↔◌, List};
ghost use Rattle.dialogue.specs.Dialogue.{run, asked, AnswerAlike};
ghost use Rattle.jtypes.specs.World.{World};
ghost use Rattle.jtypes.specs.declared.signatures.MethodSig.{MethodSig};
ghost use Rattle.j_overload.specs.Choices.{Chosen};
ghost use Rattle.j_overload.specs.Rules.{choice_of};
ghost use Rattle.j_overload.specs.declared.argument.ArgType.{ArgType};
ghost use Rattle.j_overload.specs.declared.choice.Choice.{Choice};

/// The rule that is followed with questions gives the choice of the Java Language Specification,
/// which is one.
pub fn the_rule_decides_the_choice()
    ensures { (w : World) (candidates : List MethodSig) (args : List ArgType) (choice : Choice)
        → (run (choice_of candidates args) w ≡ choice) ↔ Chosen w candidates args choice }
{}

/// In two worlds that answer alike what a choice asked in the first, it gives the same and asks
/// the same.
pub fn equal_answers_give_equal_choices()
    ensures gives { (w v : World) (candidates : List MethodSig) (args : List ArgType)
        → AnswerAlike w v (asked (choice_of candidates args) w)
        → run (choice_of candidates args) v ≡ run (choice_of candidates args) w }
    ensures asks { (w v : World) (candidates : List MethodSig) (args : List ArgType)
        → AnswerAlike w v (asked (choice_of candidates args) w)
        → asked (choice_of candidates args) v ≡ asked (choice_of candidates args) w }
{}
