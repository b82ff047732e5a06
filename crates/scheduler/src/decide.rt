// What becomes of one file at an edit step.
ghost use Rattle.std.specs.Prelude.{◌≡◌, ◌<◌, [], false, not, length, slice_index_or, IfOk, Some, unwrap_or};
ghost use Rattle.std.specs.List.{list_all, list_any};
ghost use Rattle.std.specs.Option.{option_copied};
ghost use Rattle.kept_files.specs.FileEdits.{FitTree, FitsFile, edited};
ghost use Rattle.kept_files.specs.Readings.{AreReadings, EndsWith, IsReading, Reads};
ghost use Rattle.kept_files.specs.States.{IsKept, file_at, tree_in};
ghost use Rattle.conf_recipes.specs.PropertiesRecipes.{properties_key_changed};
ghost use Rattle.scheduler.specs.Edits.{edits};
ghost use Rattle.scheduler.specs.Fates.{fate, fate_at, read_anew};
ghost use Rattle.scheduler.specs.Holds.{gives, holds, is_edit, met_from};
ghost use Rattle.scheduler.specs.Steps.{IsFateKept};

use crate::dispatch::edits_of;
use crate::fate::Fate;
use conf_recipes::renamed_in_file;
use j_repair::Attributed;
use kept_files::{KeptFile, KeptFiles, Reading, ScanValue};
use properties_tree::PropertiesChangePropertyKey;
use recipe_yaml::{Condition, LeafRecipe, Plan, PlannedLeaf};
use rw_base::{Edit, Mem, Shared, Text, Tree, rearranged};
use rw_host::{FileEdit, PathText, Steps};
use sqlite_items::Items;
use std::alloc::Global;
use std::sync::ledger::Ledger;

fn is_edit(edit: &FileEdit) -> bool
    ensures { result ≡ is_edit edit.now }
{
    match edit {
        FileEdit::Keep => false,
        _ => true,
    }
}

// Whether a precondition is met, by what is known of those up to it.
fn is_met(met: &[bool], condition: u32) -> bool
    ensures { result ≡ slice_index_or met.now condition false }
{
    match met.get(condition as usize) {
        Some(is_met) => *is_met,
        None => false,
    }
}

// Whether one of these preconditions isn't met.
#[tactic(auto, using(crate::proofs::Decided::any_by))]
fn any_unmet(met: &[bool], conditions: &[u32]) -> bool
    ensures { result ≡ list_any (λ k. not (slice_index_or met.now k false)) conditions.now }
{
    for condition in conditions {
        if !is_met(met, *condition) {
            return true;
        }
    }
    false
}

// Whether each of these preconditions is met.
#[tactic(auto, using(crate::proofs::Decided::all_from_none))]
fn are_met(met: &[bool], conditions: &[u32]) -> bool
    ensures { result ≡ list_all (λ k. slice_index_or met.now k false) conditions.now }
{
    !any_unmet(met, conditions)
}

// Whether a leaf of a precondition gives the file of a number an edit.
fn gives(alloc: Global, leaf: &PlannedLeaf, kept: &Attributed, file: u32, met: &[bool]) -> Mem<bool>
    requires { file < length kept.now }
    ensures { IfOk result (λ yes. yes ≡ gives kept.now file met.now leaf.now) }
{
    if !are_met(met, leaf.conditions.as_slice()) {
        return Ok(false);
    }
    let nothing = ScanValue {
        texts: Items::new(alloc),
    };
    let edit = edits_of(alloc, &leaf.recipe, kept, file, &nothing)?;
    Ok(is_edit(&edit))
}

// Whether one of these leaves does.
#[tactic(auto, using(crate::proofs::Decided::any_by))]
fn any_gives(
    alloc: Global,
    leaves: &[PlannedLeaf],
    kept: &Attributed,
    file: u32,
    met: &[bool],
) -> Mem<bool>
    requires { file < length kept.now }
    ensures { IfOk result (λ yes. yes ≡ list_any (gives kept.now file met.now) leaves.now) }
{
    for leaf in leaves {
        if gives(alloc, leaf, kept, file, met)? {
            return Ok(true);
        }
    }
    Ok(false)
}

// Which preconditions the file of a number meets.
#[tactic(auto, using(crate::proofs::Decided::met_by))]
fn all_met(alloc: Global, conditions: &[Condition], kept: &Attributed, file: u32) -> Mem<Vec<bool>>
    requires { file < length kept.now }
    ensures { IfOk result (λ met. met.items ≡ met_from kept.now file [] conditions.now) }
{
    let mut met = Vec::new(alloc);
    for condition in conditions {
        let yes = any_gives(alloc, condition.leaves.as_slice(), kept, file, &met)?;
        met.push(yes)?;
    }
    Ok(met)
}

// Whether a leaf runs on the file of a number.
#[tactic(auto, using(crate::proofs::Decided::holds_by_all))]
fn holds(alloc: Global, plan: &Plan, leaf: &PlannedLeaf, kept: &Attributed, file: u32) -> Mem<bool>
    requires { file < length kept.now }
    ensures { IfOk result (λ yes. yes ≡ holds plan.now leaf.now kept.now file) }
{
    if leaf.conditions.is_empty() {
        return Ok(true);
    }
    let met = all_met(alloc, plan.conditions.as_slice(), kept, file)?;
    Ok(are_met(&met, leaf.conditions.as_slice()))
}

// The new bytes of a file with these edits of its tree.
#[tactic(auto, using(crate::proofs::Decided::edited_is))]
fn edited(alloc: Global, file: &KeptFile, edits: &[Edit]) -> Mem<Vec<u8>>
    requires kept { IsKept file.now }
    requires fit { FitTree (tree_in file.now.reading) edits.now }
    ensures { IfOk result (λ text. text.items ≡ edited file.now edits.now) }
{
    let Some(bytes) = &file.bytes else {
        return Ok(Vec::new(alloc));
    };
    let bytes = bytes.get().as_slice();
    match &file.reading {
        Reading::Java(tree) => {
            let text = rearranged(alloc, tree, bytes, edits)?;
            Ok(text)
        }
        Reading::Yaml(tree) => {
            let text = rearranged(alloc, tree, bytes, edits)?;
            Ok(text)
        }
        Reading::Properties(tree) => {
            let tree = tree.made(alloc)?;
            let text = rearranged(alloc, &tree, bytes, edits)?;
            Ok(text)
        }
        Reading::Unread => Ok(Vec::new(alloc)),
        Reading::Refused(_) => Ok(Vec::new(alloc)),
    }
}

// A file of these bytes, where its reader doesn't refuse them.
#[tactic(auto, using(crate::proofs::Decided::accepted_by))]
fn accepted(alloc: Global, path: PathText, bytes: Shared<Text>, reading: Reading) -> Mem<Fate>
    requires reading { IsReading path (Some bytes) reading }
    requires whole { EndsWith bytes reading }
    ensures is { (read : Reads) → reading ≡ read path (Some bytes) → IfOk result (λ d. d ≡ read_anew read path bytes) }
    ensures kept { IfOk result IsFateKept }
{
    if let Reading::Refused(refused) = &reading {
        return Ok(Fate::Lost(*refused));
    }
    let file = KeptFile {
        path,
        bytes: Some(bytes),
        reading,
    };
    Ok(Fate::Becomes(Shared::new(alloc, file)?))
}

/// What becomes of a file with this path and these new bytes.
#[tactic(auto, using(crate::proofs::Decided::anew_by))]
pub(crate) fn read_anew<L: Ledger>(
    alloc: Global,
    kept: &Attributed,
    path: PathText,
    bytes: Vec<u8>,
    steps: &mut Steps<L>,
) -> Mem<Fate>
    ensures is { (read : Reads) → AreReadings read → IfOk result (λ d. d ≡ read_anew read path bytes.items) }
    ensures kept { IfOk result IsFateKept }
{
    let bytes = Shared::new(alloc, Text::from_vec(bytes))?;
    let reading = kept.read_file(alloc, path.as_str(), &bytes, steps)?;
    let fate = accepted(alloc, path, bytes, reading)?;
    Ok(fate)
}

// The new path of a file: the one given, or else its own.
fn path_or_own(alloc: Global, path: Option<PathText>, own: &PathText) -> Mem<PathText>
    ensures { IfOk result (λ p. p ≡ unwrap_or path own.now) }
{
    match path {
        Some(path) => Ok(path),
        None => own.copy(alloc),
    }
}

// What a recipe's edit makes of the file of a number.
#[tactic(auto, using(crate::proofs::Decided::fate_by))]
fn fate<L: Ledger>(
    alloc: Global,
    kept: &Attributed,
    file: &KeptFile,
    edit: FileEdit,
    steps: &mut Steps<L>,
) -> Mem<Fate>
    requires kept { IsKept file.now }
    requires fit { FitsFile file.now edit }
    ensures is { (read : Reads) → AreReadings read → IfOk result (λ d. d ≡ fate read file.now edit) }
    ensures kept { IfOk result IsFateKept }
{
    match edit {
        FileEdit::Edit { edits, path } => {
            let bytes = edited(alloc, file, edits.as_slice())?;
            let path = path_or_own(alloc, path, &file.path)?;
            let fate = read_anew(alloc, kept, path, bytes, steps)?;
            Ok(fate)
        }
        FileEdit::Remove => Ok(Fate::Goes),
        FileEdit::Keep => Ok(Fate::Stays),
        FileEdit::Found => Ok(Fate::Stays),
    }
}

// What a renaming of keys makes of a file, without edits and a tree.
#[tactic(auto, using(crate::proofs::Renamed::renamed_by))]
fn fate_by_renaming<L: Ledger>(
    alloc: Global,
    kept: &Attributed,
    file: &KeptFile,
    options: &PropertiesChangePropertyKey,
    steps: &mut Steps<L>,
) -> Mem<Fate>
    requires kept { IsKept file.now }
    ensures is { (read : Reads) → AreReadings read
        → IfOk result (λ d. d ≡ fate read file.now (properties_key_changed options.now file.now)) }
    ensures kept { IfOk result IsFateKept }
{
    let Some(bytes) = renamed_in_file(alloc, file, options)? else {
        return Ok(Fate::Stays);
    };
    let path = file.path.copy(alloc)?;
    let fate = read_anew(alloc, kept, path, bytes, steps)?;
    Ok(fate)
}

/// What becomes of the file of a number at the edit step of a leaf, before it is known whether its new path is free.
#[tactic(auto, using(crate::proofs::Decided::at_by, crate::proofs::Renamed::at_renamed))]
pub(crate) fn fate_at<L: Ledger>(
    alloc: Global,
    kept: &Attributed,
    plan: &Plan,
    leaf: &PlannedLeaf,
    value: &ScanValue,
    file: u32,
    steps: &mut Steps<L>,
) -> Mem<Fate>
    requires { file < length kept.now }
    ensures is { (read : Reads) → AreReadings read
        → IfOk result (λ d. d ≡ fate_at read plan.now leaf.now value.now.texts kept.now file) }
    ensures kept { IfOk result IsFateKept }
{
    if !holds(alloc, plan, leaf, kept, file)? {
        return Ok(Fate::Stays);
    }
    let own = kept.file(file as usize);
    if let LeafRecipe::PropertiesChangePropertyKey(options) = &leaf.recipe {
        let fate = fate_by_renaming(alloc, kept, own, options, steps)?;
        return Ok(fate);
    }
    let edit = edits_of(alloc, &leaf.recipe, kept, file, value)?;
    let fate = fate(alloc, kept, own, edit, steps)?;
    Ok(fate)
}
