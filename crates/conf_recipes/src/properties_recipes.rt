// What the recipes on properties files do to a file of a repository.
ghost use Rattle.std.specs.Prelude.{◌≡◌, ◌<◌, length, IfOk};
ghost use Rattle.std.specs.Option.{option_map};
ghost use Rattle.kept_files.specs.FileEdits.{FitsFile, text_after};
ghost use Rattle.kept_files.specs.States.{file_at, IsKept};
ghost use Rattle.conf_recipes.specs.PropertiesRecipes.{properties_key_changed, property_deleted};
ghost use Rattle.conf_recipes.specs.PropertiesRecipes.{has_entry, property_value_changed, property_added};
ghost use Rattle.properties_tree.specs.Entries.{properties_of};

use crate::adding::adds_in_properties;
use crate::deleting::deletes_in_properties;
use crate::file_edits::with_edits;
use crate::properties::edits_in_properties;
use crate::renaming::renamed_in_properties;
use crate::values::values_in_properties;
use kept_files::{KeptFile, KeptFiles, properties_in};
use properties_tree::{
    AddProperty, ChangePropertyValue, DeleteProperty, PropertiesChangePropertyKey, next_with_key,
};
use rw_base::Mem;
use rw_host::FileEdit;
use std::alloc::Global;

// Whether an entry of a properties file has a key. Its bytes tell, without a tree.
#[tactic(auto, using(crate::proofs::Lacking::entries_told))]
fn has_entry(alloc: Global, bytes: &[u8], key: &[u8]) -> Mem<bool>
    ensures { IfOk result (λ yes. yes ≡ has_entry key.now (properties_of bytes.now).entries) }
{
    let found = next_with_key(alloc, bytes, 0, key)?;
    Ok(found.is_some())
}

#[tactic(auto, using(crate::proofs::FilesEdited::keys_changed))]
fn key_changed_in(
    alloc: Global,
    file: &KeptFile,
    options: &PropertiesChangePropertyKey,
) -> Mem<FileEdit>
    requires { IsKept file.now }
    ensures edits { IfOk result (λ e. e ≡ properties_key_changed options.now file.now) }
    ensures fit { IfOk result (λ e. FitsFile file.now e) }
{
    let Some((tree, bytes)) = properties_in(file) else {
        return Ok(FileEdit::Keep);
    };
    if !has_entry(alloc, bytes, options.old_property_key.as_slice())? {
        return Ok(FileEdit::Keep);
    }
    let tree = tree.made(alloc)?;
    let edits = edits_in_properties(alloc, &tree, bytes, options)?;
    Ok(with_edits(edits))
}

/// What `org.openrewrite.properties.ChangePropertyKey` does to a file: in an accepted properties file the key of each
/// entry with the old key becomes the new one, spelled.
#[tactic(auto, using(crate::proofs::FilesEdited::keys_changed))]
pub fn edits_of_properties_change_property_key<K: KeptFiles>(
    alloc: Global,
    kept: &K,
    file: u32,
    options: &PropertiesChangePropertyKey,
) -> Mem<FileEdit>
    requires { file < length (K.files kept.now) }
    ensures edits { IfOk result (λ e. e ≡ properties_key_changed options.now (file_at (K.files kept.now) file)) }
    ensures fit { IfOk result (λ e. FitsFile (file_at (K.files kept.now) file) e) }
{
    key_changed_in(alloc, kept.file(file as usize), options)
}

/// The new bytes of a file by `org.openrewrite.properties.ChangePropertyKey`, in one pass over the old ones; `None`
/// where it makes no edit.
#[tactic(auto, using(crate::proofs::Renamed::texts))]
pub fn renamed_in_file(
    alloc: Global,
    file: &KeptFile,
    options: &PropertiesChangePropertyKey,
) -> Mem<Option<Vec<u8>>>
    requires { IsKept file.now }
    ensures { IfOk result (λ text. option_map (λ v. v.items) text
        ≡ text_after file.now (properties_key_changed options.now file.now)) }
{
    let Some((_, bytes)) = properties_in(file) else {
        return Ok(None);
    };
    let text = renamed_in_properties(alloc, bytes, options)?;
    Ok(text)
}

#[tactic(auto, using(crate::proofs::FilesEdited::properties_deleted))]
fn deleted_in(alloc: Global, file: &KeptFile, options: &DeleteProperty) -> Mem<FileEdit>
    requires { IsKept file.now }
    ensures edits { IfOk result (λ e. e ≡ property_deleted options.now file.now) }
    ensures fit { IfOk result (λ e. FitsFile file.now e) }
{
    let Some((tree, bytes)) = properties_in(file) else {
        return Ok(FileEdit::Keep);
    };
    if !has_entry(alloc, bytes, options.property_key.as_slice())? {
        return Ok(FileEdit::Keep);
    }
    let tree = tree.made(alloc)?;
    let edits = deletes_in_properties(alloc, &tree, bytes, options)?;
    Ok(with_edits(edits))
}

/// What `org.openrewrite.properties.DeleteProperty` does to a file: from an accepted properties file each entry with
/// the key goes with its line end, and of what stands before it the part up to the last line end stays.
#[tactic(auto, using(crate::proofs::FilesEdited::properties_deleted))]
pub fn edits_of_delete_property<K: KeptFiles>(
    alloc: Global,
    kept: &K,
    file: u32,
    options: &DeleteProperty,
) -> Mem<FileEdit>
    requires { file < length (K.files kept.now) }
    ensures edits { IfOk result (λ e. e ≡ property_deleted options.now (file_at (K.files kept.now) file)) }
    ensures fit { IfOk result (λ e. FitsFile (file_at (K.files kept.now) file) e) }
{
    deleted_in(alloc, kept.file(file as usize), options)
}

#[tactic(auto, using(crate::proofs::FilesEdited::values_changed))]
fn value_changed_in(alloc: Global, file: &KeptFile, options: &ChangePropertyValue) -> Mem<FileEdit>
    requires { IsKept file.now }
    ensures edits { IfOk result (λ e. e ≡ property_value_changed options.now file.now) }
    ensures fit { IfOk result (λ e. FitsFile file.now e) }
{
    let Some((tree, bytes)) = properties_in(file) else {
        return Ok(FileEdit::Keep);
    };
    if !has_entry(alloc, bytes, options.property_key.as_slice())? {
        return Ok(FileEdit::Keep);
    }
    let tree = tree.made(alloc)?;
    let edits = values_in_properties(alloc, &tree, bytes, options)?;
    Ok(with_edits(edits))
}

/// What `org.openrewrite.properties.ChangePropertyValue` does to a file: in an accepted properties file the value of
/// each entry with the key, where it is the old one or none is given, becomes the new one, spelled, and an empty
/// separator before it `=`.
#[tactic(auto, using(crate::proofs::FilesEdited::values_changed))]
pub fn edits_of_change_property_value<K: KeptFiles>(
    alloc: Global,
    kept: &K,
    file: u32,
    options: &ChangePropertyValue,
) -> Mem<FileEdit>
    requires { file < length (K.files kept.now) }
    ensures edits { IfOk result (λ e. e ≡ property_value_changed options.now (file_at (K.files kept.now) file)) }
    ensures fit { IfOk result (λ e. FitsFile (file_at (K.files kept.now) file) e) }
{
    value_changed_in(alloc, kept.file(file as usize), options)
}

#[tactic(auto, using(crate::proofs::FilesEdited::properties_added))]
fn added_in(alloc: Global, file: &KeptFile, options: &AddProperty) -> Mem<FileEdit>
    requires { IsKept file.now }
    ensures edits { IfOk result (λ e. e ≡ property_added options.now file.now) }
    ensures fit { IfOk result (λ e. FitsFile file.now e) }
{
    let Some((tree, bytes)) = properties_in(file) else {
        return Ok(FileEdit::Keep);
    };
    if has_entry(alloc, bytes, options.property.as_slice())? {
        return Ok(FileEdit::Keep);
    }
    let tree = tree.made(alloc)?;
    let edits = adds_in_properties(alloc, &tree, bytes, options)?;
    Ok(with_edits(edits))
}

/// What `org.openrewrite.properties.AddProperty` does to a file: an accepted properties file in which no entry has the
/// key gets one at its end, on a line of its own, unless its last entry goes on into nothing.
#[tactic(auto, using(crate::proofs::FilesEdited::properties_added))]
pub fn edits_of_add_property<K: KeptFiles>(
    alloc: Global,
    kept: &K,
    file: u32,
    options: &AddProperty,
) -> Mem<FileEdit>
    requires { file < length (K.files kept.now) }
    ensures edits { IfOk result (λ e. e ≡ property_added options.now (file_at (K.files kept.now) file)) }
    ensures fit { IfOk result (λ e. FitsFile (file_at (K.files kept.now) file) e) }
{
    added_in(alloc, kept.file(file as usize), options)
}
