// Laws of judgements over all worlds.
ghost use Rattle.std.specs.Prelude.{List, Option, ℕ};
ghost use Rattle.j_overload.specs.declared.argument.ArgType.{ArgType};
ghost use Rattle.j_names.specs.declared.context.Frame.{Frame};
ghost use Rattle.j_names.specs.declared.context.UnitContext.{UnitContext};
ghost use Rattle.judging.specs.Alike.{IsDecidedByAnswers};
ghost use Rattle.expression_names.specs.Bodies.{super_type, qualified_super, this_call, super_call};
ghost use Rattle.expression_names.specs.Calls.{call, call_behind, constructing};
ghost use Rattle.expression_names.specs.Primaries.{simple_name, name_behind};
ghost use Rattle.expression_names.specs.declared.bodies.Whose.{Whose};
ghost use Rattle.expression_names.specs.declared.denoted.Denoted.{Denoted};

/// In two worlds that answer alike what a judgement asked in the first, it gives, notes and asks the same.
pub fn equal_answers_give_equal_expression_names()
    ensures simple_name { (cx : UnitContext) (frames : List Frame) (leaf : ℕ) (n : List ℕ)
        → IsDecidedByAnswers (simple_name cx frames leaf n) }
    ensures name_behind { (cx : UnitContext) (before : Denoted) (leaf : ℕ) (n : List ℕ)
        → IsDecidedByAnswers (name_behind cx before leaf n) }
    ensures call { (cx : UnitContext) (frames : List Frame) (leaf : ℕ) (n : List ℕ) (args : List ArgType)
        → IsDecidedByAnswers (call cx frames leaf n args) }
    ensures call_behind { (cx : UnitContext) (before : Denoted) (leaf : ℕ) (n : List ℕ) (args : List ArgType)
        → IsDecidedByAnswers (call_behind cx before leaf n args) }
    ensures constructing { (cx : UnitContext) (class : Option (List ℕ)) (leaf : ℕ) (args : List ArgType)
        → IsDecidedByAnswers (constructing cx class leaf args) }
    ensures this_call { (cx : UnitContext) (whose : Whose) (leaf : ℕ) (args : List ArgType)
        → IsDecidedByAnswers (this_call cx whose leaf args) }
    ensures super_call { (cx : UnitContext) (whose : Whose) (leaf : ℕ) (args : List ArgType)
        → IsDecidedByAnswers (super_call cx whose leaf args) }
    ensures super_type { (whose : Whose) → IsDecidedByAnswers (super_type whose) }
    ensures qualified_super { (before : Denoted) → IsDecidedByAnswers (qualified_super before) }
{}
