// Laws of steps and runs: functions that do nothing, whose clauses hold of every plan and state.
ghost use Rattle.std.specs.Prelude.{◌≡◌, ◌⊎◌, ℕ, IsTrue, List, [], Some, Contains};
ghost use Rattle.std.specs.List.{AllByRecursion};
ghost use Rattle.rw_base.specs.Arena.{Arena, IsTree};
ghost use Rattle.rw_base.specs.Gaps.{new_bytes, old_bytes, pieces_of};
ghost use Rattle.rw_base.specs.NewText.{AreEdits};
ghost use Rattle.rw_base.specs.declared.edit.Edit.{Edit};
ghost use Rattle.kept_files.specs.FileEdits.{edited};
ghost use Rattle.kept_files.specs.Readings.{Reads};
ghost use Rattle.kept_files.specs.States.{IsKept, State, has_path, tree_in};
ghost use Rattle.kept_files.specs.declared.file.KeptFile.{KeptFile};
ghost use Rattle.recipe_yaml.specs.declared.plans.Plan.{Plan};
ghost use Rattle.recipe_yaml.specs.declared.plans.PlannedLeaf.{PlannedLeaf};
ghost use Rattle.scheduler.specs.Runs.{end, reached, run};
ghost use Rattle.scheduler.specs.Steps.{stepped};
ghost use Rattle.scheduler.specs.Touched.{IsTouched, StepTouches};
ghost use Rattle.scheduler.specs.Untouched.{IsEdited, IsUntouched, StepSpares, at_path};
ghost use Rattle.scheduler.specs.declared.event.Event.{Event};

use rw_base::gaps_stay;

/// A file that no step alters stays the same file, with its bytes, in each state of a run and in the last. Where no
/// file stands at a path in any state of a run, there is none in the last.
pub fn an_untouched_file_stays()
    ensures step { (read : Reads) (plan : Plan) (leaf : PlannedLeaf) (value : List (List ℕ)) (files : State)
        (path : List ℕ) → IsTrue (has_path files path) → StepSpares plan leaf value files path
        → at_path path (stepped read plan leaf value files) ≡ at_path path files }
    ensures states { (read : Reads) (plan : Plan) (cycles : ℕ) (files : State) (path : List ℕ)
        → IsUntouched read plan cycles files path
        → AllByRecursion (λ stage. at_path path stage.state ≡ at_path path files)
        (run read plan cycles files).stages }
    ensures last { (read : Reads) (plan : Plan) (cycles : ℕ) (files last : State) (events : List Event)
        (path : List ℕ) → IsUntouched read plan cycles files path
        → reached files [] (run read plan cycles files).stages ≡ end last events
        → at_path path last ≡ at_path path files }
{}

/// Each file behind a step is one before it, or what the leaf's edits make of one before it.
pub fn an_altered_file_is_edited()
    ensures { (read : Reads) (plan : Plan) (leaf : PlannedLeaf) (value : List (List ℕ)) (files : State)
        → AllByRecursion (λ g. Contains files g ⊎ IsEdited plan leaf value files g)
        (stepped read plan leaf value files) }
{}

/// An edited file keeps its bytes outside the edited ranges: the old bytes are gap, range, gap and so on, and the new
/// bytes are the same gaps in the same order, with the new text of each range in its place.
pub fn an_edited_file_keeps_its_gaps()
    ensures old { (f : KeptFile) (t : Arena) (bytes : List ℕ) (es : List Edit) → IsKept f
        → tree_in f.reading ≡ Some t → f.bytes ≡ Some bytes → IsTree t → AreEdits t es
        → old_bytes (pieces_of t bytes es) ≡ bytes }
    ensures new { (f : KeptFile) (t : Arena) (bytes : List ℕ) (es : List Edit)
        → tree_in f.reading ≡ Some t → f.bytes ≡ Some bytes → IsTree t → AreEdits t es
        → new_bytes (pieces_of t bytes es) ≡ edited f es }
{
    gaps_stay();
}

/// Behind a step and behind a run a path has the same file as before, with its bytes, or it is touched: a step removes
/// the file there, or edits it in ranges of the tree that it reads as then, or a file is made where none stood.
pub fn a_path_is_the_same_or_touched()
    ensures step { (read : Reads) (plan : Plan) (leaf : PlannedLeaf) (value : List (List ℕ)) (files : State)
        (path : List ℕ) → (at_path path (stepped read plan leaf value files) ≡ at_path path files)
        ⊎ StepTouches read plan leaf value files path }
    ensures run { (read : Reads) (plan : Plan) (cycles : ℕ) (files last : State) (events : List Event)
        (path : List ℕ) → reached files [] (run read plan cycles files).stages ≡ end last events
        → (at_path path last ≡ at_path path files) ⊎ IsTouched read plan cycles files path }
{}
