// Laws of declared names over all worlds.
ghost use Rattle.std.specs.Prelude.{List, Option, ℕ};
ghost use Rattle.jtypes.specs.declared.types.JType.{JType};
ghost use Rattle.j_names.specs.declared.context.UnitContext.{UnitContext};
ghost use Rattle.judging.specs.Alike.{IsDecidedByAnswers};
ghost use Rattle.declared_names.specs.Cases.{case_name};
ghost use Rattle.declared_names.specs.Declarations.{declared_field, declared_constant, declared_method};
ghost use Rattle.declared_names.specs.Declarations.{declared_constructor};
ghost use Rattle.declared_names.specs.Elements.{element};
ghost use Rattle.declared_names.specs.declared.parameter.Parameter.{Parameter};

/// In two worlds that answer alike what was asked for a declared name in the first, the same is given, noted and asked.
pub fn equal_answers_give_equal_declared_names()
    ensures field { (class : Option (List ℕ)) (leaf : ℕ) (n : List ℕ) (ty : JType)
        → IsDecidedByAnswers (declared_field class leaf n ty) }
    ensures constant { (class : Option (List ℕ)) (leaf : ℕ) (n : List ℕ)
        → IsDecidedByAnswers (declared_constant class leaf n) }
    ensures method { (class : Option (List ℕ)) (leaf : ℕ) (n : List ℕ) (ps : List Parameter)
        → IsDecidedByAnswers (declared_method class leaf n ps) }
    ensures constructor { (class : Option (List ℕ)) (leaf : ℕ) (ps : List Parameter)
        → IsDecidedByAnswers (declared_constructor class leaf ps) }
    ensures element { (cx : UnitContext) (annotation : Option (List ℕ)) (leaf : ℕ) (n : List ℕ)
        → IsDecidedByAnswers (element cx annotation leaf n) }
    ensures case { (selector : JType) (leaf : ℕ) (n : List ℕ)
        → IsDecidedByAnswers (case_name selector leaf n) }
{}
