// What the recipes on paths and on new files are asked. A struct has the name of its recipe, and a field for each
// option.
use rw_base::Text;
use rw_host::PathText;

/// `org.openrewrite.FindSourceFiles`: each source file whose path matches is found.
#[derive(Debug, Drop)]
pub struct FindSourceFiles {
    pub file_pattern: Text,
}

/// `org.openrewrite.DeleteSourceFiles`: each source file whose path matches is removed.
#[derive(Debug, Drop)]
pub struct DeleteSourceFiles {
    pub file_pattern: Text,
}

/// `org.openrewrite.text.CreateTextFile`: a file of these contents is made, where none has its path.
#[derive(Debug, Drop)]
pub struct CreateTextFile {
    pub file_contents: Text,
    pub relative_file_name: PathText,
}
