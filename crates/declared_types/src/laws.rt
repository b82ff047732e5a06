// Laws of supertypes and members over all worlds.
ghost use Rattle.std.specs.Prelude.{◌≡◌};
ghost use Rattle.dialogue.specs.Dialogue.{run, asked, AnswerAlike};
ghost use Rattle.jtypes.specs.World.{World};
ghost use Rattle.declared_types.specs.Signatures.{fields_of, methods_of};
ghost use Rattle.declared_types.specs.Supertypes.{supertypes_of};
ghost use Rattle.declared_types.specs.declared.written.DeclaredType.{DeclaredType};

/// In two worlds that answer alike what was asked for the supertypes of a declared type in the first, they are the same
/// and ask the same, and so for its fields and its methods.
pub fn rows_rest_on_their_questions()
    ensures supertypes { (w v : World) (d : DeclaredType) → AnswerAlike w v (asked (supertypes_of d) w)
        → run (supertypes_of d) v ≡ run (supertypes_of d) w }
    ensures supertypes_ask { (w v : World) (d : DeclaredType) → AnswerAlike w v (asked (supertypes_of d) w)
        → asked (supertypes_of d) v ≡ asked (supertypes_of d) w }
    ensures fields { (w v : World) (d : DeclaredType) → AnswerAlike w v (asked (fields_of d) w)
        → run (fields_of d) v ≡ run (fields_of d) w }
    ensures fields_ask { (w v : World) (d : DeclaredType) → AnswerAlike w v (asked (fields_of d) w)
        → asked (fields_of d) v ≡ asked (fields_of d) w }
    ensures methods { (w v : World) (d : DeclaredType) → AnswerAlike w v (asked (methods_of d) w)
        → run (methods_of d) v ≡ run (methods_of d) w }
    ensures methods_ask { (w v : World) (d : DeclaredType) → AnswerAlike w v (asked (methods_of d) w)
        → asked (methods_of d) v ≡ asked (methods_of d) w }
{}
