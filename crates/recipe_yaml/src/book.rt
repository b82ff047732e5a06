// Recipes as a recipe file writes them.
use rw_base::{Place, Text};
use sqlite_items::Items;

/// An option of an entry, with its key and its values, and where these stand.
#[derive(Debug, Drop)]
pub struct WrittenOption {
    pub key: Text,
    pub key_place: Place,
    /// One value where this is no list.
    pub values: Items<Text>,
    pub is_list: bool,
    pub value_place: Place,
}

/// An entry of a list of recipes: the name of a recipe, where it stands, and the options.
#[derive(Debug, Drop)]
pub struct WrittenEntry {
    pub name: Text,
    pub place: Place,
    pub options: Items<WrittenOption>,
}

/// A recipe that a document of the file defines: its name, its preconditions, the recipes that it lists, and whether it
/// causes another cycle.
#[derive(Debug, Drop)]
pub struct Written {
    pub name: Text,
    pub conditions: Items<WrittenEntry>,
    pub list: Items<WrittenEntry>,
    pub again: bool,
}

/// The recipes of a file, in the order of its documents.
#[derive(Debug, Drop)]
pub struct RecipeBook {
    pub recipes: Items<Written>,
}
