// Laws of names over all worlds.
ghost use Rattle.std.specs.Prelude.{◌≡◌, List, Option, ℕ};
ghost use Rattle.dialogue.specs.Dialogue.{run, asked, AnswerAlike};
ghost use Rattle.jtypes.specs.World.{World};
ghost use Rattle.j_names.specs.Members.{field_of, member_type_of, methods_of};
ghost use Rattle.j_names.specs.Names.{type_named, variable_named, meaning_of};
ghost use Rattle.j_names.specs.declared.context.Frame.{Frame};
ghost use Rattle.j_names.specs.declared.context.UnitContext.{UnitContext};

/// In two worlds that answer alike what a meaning asked in the first, it is the same and asks the same.
pub fn equal_answers_give_equal_meanings()
    ensures gives { (w v : World) (cx : UnitContext) (frames : List Frame) (n : List ℕ)
        → AnswerAlike w v (asked (meaning_of cx frames n) w)
        → run (meaning_of cx frames n) v ≡ run (meaning_of cx frames n) w }
    ensures asks { (w v : World) (cx : UnitContext) (frames : List Frame) (n : List ℕ)
        → AnswerAlike w v (asked (meaning_of cx frames n) w)
        → asked (meaning_of cx frames n) v ≡ asked (meaning_of cx frames n) w }
    ensures gives_type { (w v : World) (cx : UnitContext) (frames : List Frame) (n : List ℕ)
        → AnswerAlike w v (asked (type_named cx frames n) w)
        → run (type_named cx frames n) v ≡ run (type_named cx frames n) w }
    ensures gives_variable { (w v : World) (cx : UnitContext) (frames : List Frame) (n : List ℕ)
        → AnswerAlike w v (asked (variable_named cx frames n) w)
        → run (variable_named cx frames n) v ≡ run (variable_named cx frames n) w }
{}

/// In two worlds that answer alike what a walk asked in the first, it finds the same. `top` is the top-level class
/// around the place, where there is one.
pub fn equal_answers_give_equal_walks()
    ensures field { (w v : World) (top : Option (List ℕ)) (n name : List ℕ)
        → AnswerAlike w v (asked (field_of top n name) w)
        → run (field_of top n name) v ≡ run (field_of top n name) w }
    ensures member_type { (w v : World) (top : Option (List ℕ)) (n name : List ℕ)
        → AnswerAlike w v (asked (member_type_of top n name) w)
        → run (member_type_of top n name) v ≡ run (member_type_of top n name) w }
    ensures methods { (w v : World) (top : Option (List ℕ)) (n name : List ℕ)
        → AnswerAlike w v (asked (methods_of top n name) w)
        → run (methods_of top n name) v ≡ run (methods_of top n name) w }
{}
