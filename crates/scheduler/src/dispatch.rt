// What each leaf recipe does to a file, what its scanner finds in it, and which files it makes.
ghost use Rattle.std.specs.Prelude.{◌≡◌, ◌<◌, length, IfOk, OnOk};
ghost use Rattle.kept_files.specs.FileEdits.{FitsFile};
ghost use Rattle.kept_files.specs.States.{file_at};
ghost use Rattle.scheduler.specs.Edits.{edits, generated, scan};

use conf_recipes::{
    edits_of_add_property, edits_of_change_key, edits_of_change_property_value,
    edits_of_change_value, edits_of_delete_key, edits_of_delete_property,
    edits_of_delete_source_files, edits_of_find_source_files,
    edits_of_properties_change_property_key, edits_of_yaml_change_property_key, text_files,
};
use j_repair::Attributed;
use kept_files::ScanValue;
use recipe_yaml::LeafRecipe;
use rw_base::Mem;
use rw_host::{FileEdit, SourceFile};
use std::alloc::Global;

/// What a leaf recipe does to the file of a number.
#[tactic(auto, using(crate::proofs::ByRecipe::edits_by))]
pub(crate) fn edits_of(
    alloc: Global,
    leaf: &LeafRecipe,
    kept: &Attributed,
    file: u32,
    value: &ScanValue,
) -> Mem<FileEdit>
    requires { file < length kept.now }
    ensures edits { IfOk result (λ e. e ≡ edits leaf.now kept.now file value.now.texts) }
    ensures fit { IfOk result (λ e. FitsFile (file_at kept.now file) e) }
{
    let _ = value;
    match leaf {
        LeafRecipe::PropertiesChangePropertyKey(options) => Ok(
            edits_of_properties_change_property_key(alloc, kept, file, options)?,
        ),
        LeafRecipe::ChangePropertyValue(options) => Ok(edits_of_change_property_value(
            alloc, kept, file, options,
        )?),
        LeafRecipe::DeleteProperty(options) => Ok(edits_of_delete_property(
            alloc, kept, file, options,
        )?),
        LeafRecipe::AddProperty(options) => Ok(edits_of_add_property(alloc, kept, file, options)?),
        LeafRecipe::ChangeKey(options) => Ok(edits_of_change_key(alloc, kept, file, options)?),
        LeafRecipe::ChangeValue(options) => Ok(edits_of_change_value(alloc, kept, file, options)?),
        LeafRecipe::DeleteKey(options) => Ok(edits_of_delete_key(alloc, kept, file, options)?),
        LeafRecipe::YamlChangePropertyKey(options) => Ok(edits_of_yaml_change_property_key(
            alloc, kept, file, options,
        )?),
        LeafRecipe::FindSourceFiles(options) => Ok(edits_of_find_source_files(
            alloc, kept, file, options,
        )?),
        LeafRecipe::DeleteSourceFiles(options) => Ok(edits_of_delete_source_files(
            alloc, kept, file, options,
        )?),
        LeafRecipe::CreateTextFile(_) => Ok(FileEdit::Keep),
    }
}

/// What a leaf recipe's scanner has found once it has seen the file of a number.
#[tactic(auto, unfolding(crate::specs::Edits::scan))]
pub(crate) fn scan(leaf: &LeafRecipe, kept: &Attributed, file: u32, value: &mut ScanValue)
    requires { file < length kept.now }
    ensures { value.new.texts ≡ scan leaf.now kept.now file value.old.texts }
{
    let _ = leaf;
    let _ = kept;
    let _ = file;
    let _ = &value.texts;
}

/// The files that a leaf recipe makes.
#[tactic(auto, using(crate::proofs::ByRecipe::generated_by))]
pub(crate) fn generated(alloc: Global, leaf: &LeafRecipe, value: &ScanValue) -> Mem<Vec<SourceFile>>
    ensures { IfOk result (λ files. files.items ≡ generated leaf.now value.now.texts) }
{
    let _ = value;
    match leaf {
        LeafRecipe::CreateTextFile(options) => {
            let files = text_files(alloc, options)?;
            Ok(files)
        }
        _ => Ok(Vec::new(alloc)),
    }
}
