// Plans.
use kept_files::{CreateTextFile, DeleteSourceFiles, FindSourceFiles};
use properties_tree::{
    AddProperty, ChangePropertyValue, DeleteProperty, PropertiesChangePropertyKey,
};
use rw_base::Text;
use sqlite_items::Items;
use yaml_tree::{ChangeKey, ChangeValue, DeleteKey, YamlChangePropertyKey};

/// A recipe that does work itself, with its options.
#[derive(Debug, Drop)]
pub enum LeafRecipe {
    PropertiesChangePropertyKey(PropertiesChangePropertyKey),
    ChangePropertyValue(ChangePropertyValue),
    DeleteProperty(DeleteProperty),
    AddProperty(AddProperty),
    ChangeKey(ChangeKey),
    ChangeValue(ChangeValue),
    DeleteKey(DeleteKey),
    YamlChangePropertyKey(YamlChangePropertyKey),
    FindSourceFiles(FindSourceFiles),
    DeleteSourceFiles(DeleteSourceFiles),
    CreateTextFile(CreateTextFile),
}

/// A leaf recipe of a plan, with its name and the positions of its preconditions.
#[derive(Debug, Drop)]
pub struct PlannedLeaf {
    pub recipe: LeafRecipe,
    pub name: Text,
    pub conditions: Items<u32>,
}

/// A precondition: it is met by a file in which one of its leaves, whose own preconditions are met, makes an edit.
#[derive(Debug, Drop)]
pub struct Condition {
    pub leaves: Items<PlannedLeaf>,
}

/// What a run does: its leaf recipes in order, their preconditions, each behind those that it needs, and whether
/// another cycle may come after one that changed something.
#[derive(Debug, Drop)]
pub struct Plan {
    pub leaves: Items<PlannedLeaf>,
    pub conditions: Items<Condition>,
    pub again: bool,
}
