//! The recipes of configuration files, of paths and of new files: what each does to one file of a repository.
//!
//! ```text
//! let edit = edits_of_change_key(alloc, &kept, file, &options)?;      // keep, remove, found, or edits of the tree
//! let edit = edits_of_properties_change_property_key(alloc, &kept, file, &options)?;
//! let text = renamed_in_file(alloc, kept.file(file), &options)?;      // the new bytes of the same at once
//! let files = text_files(alloc, &options)?;                           // the files that CreateTextFile makes
//! ```
//!
//! The promise. What becomes of a file is what the recipe's definition says (clause `edits` of each `edits_of_..`), and
//! its edits are edits of the file's tree (`fit`). The recipes on properties files make a tree only of a file that has
//! the key; a renaming of keys, in the step of a run, makes none: `renamed_in_file` gives the bytes that the edits give
//! (`text_after`), and `renamed_in_properties` does so from bytes alone (`text`, `edits`). That text is the file with
//! the keys that say the old key written as the new one is spelled, and every other byte as it was (the law
//! `edits_write_keys`). Two laws speak of new text of properties files: `deletes_leave_the_rest` and
//! `added_entries_stand_at_the_end`.
//!
//! The definitions in specs/, in this order: `PropertiesEdits` and `PropertiesRecipes`, behind properties_tree's
//! `Entries` and `Keys`; `YamlRecipes` over `YamlLeaves` (keys and values), `YamlJoinedKeys` (keys joined by dots) and
//! `YamlDeletions` (what stays of a mapping); `PathPatterns` and, over it, `FileRecipes`; `RecipeLaws`.
#![tactic(auto)]

mod adding;
mod deleting;
mod file_edits;
mod file_recipes;
mod path_patterns;
mod properties;
mod properties_recipes;
mod recipe_laws;
mod renaming;
mod values;
mod yaml_deletions;
mod yaml_joined_keys;
mod yaml_keys;
mod yaml_text;
mod yaml_values;

pub use file_recipes::{edits_of_delete_source_files, edits_of_find_source_files, text_files};
pub use properties::edits_in_properties;
pub use properties_recipes::{
    edits_of_add_property, edits_of_change_property_value, edits_of_delete_property,
    edits_of_properties_change_property_key, renamed_in_file,
};
pub use recipe_laws::{added_entries_stand_at_the_end, deletes_leave_the_rest};
pub use renaming::{edits_write_keys, renamed_in_properties};
pub use yaml_deletions::edits_of_delete_key;
pub use yaml_joined_keys::edits_of_yaml_change_property_key;
pub use yaml_keys::edits_of_change_key;
pub use yaml_values::edits_of_change_value;
