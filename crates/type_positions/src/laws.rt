// Laws of type positions over all worlds.
ghost use Rattle.std.specs.Prelude.{◌≡◌, List, Bool};
ghost use Rattle.dialogue.specs.Dialogue.{run, asked, AnswerAlike};
ghost use Rattle.jtypes.specs.World.{World};
ghost use Rattle.j_names.specs.declared.context.Frame.{Frame};
ghost use Rattle.j_names.specs.declared.context.UnitContext.{UnitContext};
ghost use Rattle.type_positions.specs.Declarations.{imported};
ghost use Rattle.type_positions.specs.WrittenTypes.{written_type};
ghost use Rattle.type_positions.specs.declared.names.ImportPart.{ImportPart};
ghost use Rattle.type_positions.specs.declared.names.NamedLeaf.{NamedLeaf};
ghost use Rattle.type_positions.specs.declared.written.WrittenType.{WrittenType};

/// In two worlds that answer alike what a written type asked in the first, it means and notes the same and asks the
/// same.
pub fn equal_answers_give_equal_written_types()
    ensures gives { (w v : World) (cx : UnitContext) (frames : List Frame) (t : WrittenType)
        → AnswerAlike w v (asked (written_type cx frames t) w)
        → run (written_type cx frames t) v ≡ run (written_type cx frames t) w }
    ensures asks { (w v : World) (cx : UnitContext) (frames : List Frame) (t : WrittenType)
        → AnswerAlike w v (asked (written_type cx frames t) w)
        → asked (written_type cx frames t) v ≡ asked (written_type cx frames t) w }
{}

/// In two worlds that answer alike what an import asked in the first, its leaves mean the same and it asks the same.
pub fn equal_answers_give_equal_imports()
    ensures gives { (w v : World) (cx : UnitContext) (is_static : Bool) (first : NamedLeaf) (parts : List ImportPart)
        → AnswerAlike w v (asked (imported cx is_static first parts) w)
        → run (imported cx is_static first parts) v ≡ run (imported cx is_static first parts) w }
    ensures asks { (w v : World) (cx : UnitContext) (is_static : Bool) (first : NamedLeaf) (parts : List ImportPart)
        → AnswerAlike w v (asked (imported cx is_static first parts) w)
        → asked (imported cx is_static first parts) v ≡ asked (imported cx is_static first parts) w }
{}
