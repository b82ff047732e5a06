// The root mapping of a recipe document.
use crate::book::WrittenEntry;
use rw_base::Text;
use sqlite_items::Items;

/// The keys that a recipe document knows.
#[derive(Clone, Copy, Debug, PartialEq, Eq)]
pub enum RootKey {
    Type,
    Name,
    Preconditions,
    RecipeList,
    CausesAnotherCycle,
    Unknown,
}

/// What the entries of a root mapping said so far.
#[derive(Debug, Drop)]
pub struct Root {
    pub has_type: bool,
    pub name: Option<Text>,
    pub conditions: Option<Items<WrittenEntry>>,
    pub list: Option<Items<WrittenEntry>>,
    pub again: Option<bool>,
}
