// What the members of a declared type have around them.
use crate::written::WrittenParam;
use j_names::{Frames, UnitContext};
use jtypes::{Name, SharedList};
use sqlite_items::Items;

/// Type parameters, as names see them, and the context in which their bounds stand.
#[derive(Drop)]
pub(crate) struct Scope {
    pub(crate) params: SharedList<WrittenParam>,
    pub(crate) frames: Frames,
    pub(crate) cx: UnitContext,
}

/// The body of a declared type: its name, the context of its members, and the type parameters of the type and of those
/// around it, outward.
#[derive(Drop)]
pub(crate) struct Body {
    pub(crate) name: Name,
    pub(crate) cx: UnitContext,
    pub(crate) outer: Items<Scope>,
}
