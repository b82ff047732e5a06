// What a report says of files.
use rw_base::{Cause, Place, Text};
use rw_host::PathText;

/// Why an edit was dropped.
#[derive(Clone, Copy, Debug, PartialEq, Eq)]
pub enum DropCause {
    /// The file's reader refuses the new bytes.
    Refused(Cause),
    /// The new path isn't free.
    Taken,
}

/// What a report says of a file.
#[derive(Debug, Drop)]
pub enum Event {
    /// The file is refused by its reader.
    Refused {
        path: PathText,
        place: Place,
        cause: Cause,
    },
    /// The file stays as it was, since what a recipe makes of it can't stand.
    Dropped {
        path: PathText,
        place: Place,
        cause: DropCause,
        recipe: Text,
    },
}
