// The recipes on paths, and on new files.
ghost use Rattle.std.specs.Prelude.{◌≡◌, ◌<◌, length, IfOk};
ghost use Rattle.kept_files.specs.FileEdits.{FitsFile};
ghost use Rattle.kept_files.specs.States.{file_at};
ghost use Rattle.conf_recipes.specs.FileRecipes.{file_found, file_deleted, text_files};

use crate::path_patterns::path_matches;
use kept_files::{CreateTextFile, DeleteSourceFiles, FindSourceFiles, KeptFiles};
use rw_base::{Mem, Text};
use rw_host::{FileEdit, SourceFile};
use std::alloc::Global;

/// What `org.openrewrite.FindSourceFiles` does to a file: it is found where its path matches.
#[tactic(auto, using(crate::proofs::FileCases::found_or_not))]
pub fn edits_of_find_source_files<K: KeptFiles>(
    alloc: Global,
    kept: &K,
    file: u32,
    options: &FindSourceFiles,
) -> Mem<FileEdit>
    requires { file < length (K.files kept.now) }
    ensures edits { IfOk result (λ e. e ≡ file_found options.now (file_at (K.files kept.now) file)) }
    ensures fit { IfOk result (λ e. FitsFile (file_at (K.files kept.now) file) e) }
{
    let path = kept.file(file as usize).path.as_str().as_bytes();
    if path_matches(alloc, options.file_pattern.as_slice(), path)? {
        Ok(FileEdit::Found)
    } else {
        Ok(FileEdit::Keep)
    }
}

/// What `org.openrewrite.DeleteSourceFiles` does to a file: it goes where its path matches.
#[tactic(auto, using(crate::proofs::FileCases::removed_or_not))]
pub fn edits_of_delete_source_files<K: KeptFiles>(
    alloc: Global,
    kept: &K,
    file: u32,
    options: &DeleteSourceFiles,
) -> Mem<FileEdit>
    requires { file < length (K.files kept.now) }
    ensures edits { IfOk result (λ e. e ≡ file_deleted options.now (file_at (K.files kept.now) file)) }
    ensures fit { IfOk result (λ e. FitsFile (file_at (K.files kept.now) file) e) }
{
    let path = kept.file(file as usize).path.as_str().as_bytes();
    if path_matches(alloc, options.file_pattern.as_slice(), path)? {
        Ok(FileEdit::Remove)
    } else {
        Ok(FileEdit::Keep)
    }
}

/// The file that `org.openrewrite.text.CreateTextFile` makes.
#[tactic(auto, unfolding(crate::specs::FileRecipes::text_files))]
pub fn text_files(alloc: Global, options: &CreateTextFile) -> Mem<Vec<SourceFile>>
    ensures { IfOk result (λ files. files.items ≡ text_files options.now) }
{
    let mut files = Vec::with_capacity(alloc, 1)?;
    let path = options.relative_file_name.copy(alloc)?;
    let contents = Text::from_slice(alloc, options.file_contents.as_slice())?;
    files.push(SourceFile {
        path,
        bytes: Some(contents),
    })?;
    Ok(files)
}
