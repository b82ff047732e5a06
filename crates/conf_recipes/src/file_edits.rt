// Edits as what becomes of a file.
ghost use Rattle.std.specs.Prelude.{◌≡◌};
ghost use Rattle.kept_files.specs.FileEdits.{with_edits};

use rw_base::Edit;
use rw_host::FileEdit;
use sqlite_items::Items;

// No edit is none.
#[tactic(auto, using(crate::proofs::FilesEdited::no_edit_or_some))]
pub(crate) fn with_edits(edits: Vec<Edit>) -> FileEdit
    ensures { result ≡ with_edits edits.items }
{
    if edits.is_empty() {
        FileEdit::Keep
    } else {
        FileEdit::Edit {
            edits: Items::from_vec(edits),
            path: None,
        }
    }
}
