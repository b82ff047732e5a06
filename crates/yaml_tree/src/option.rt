// What the recipes on YAML files are asked. A struct has the name of its recipe, and a field for each option.
use crate::key_path::KeyPath;
use rw_base::Text;

/// `org.openrewrite.yaml.ChangeKey`: the key of each entry that the path finds becomes the new one.
#[derive(Debug, Drop)]
pub struct ChangeKey {
    pub old_key_path: KeyPath,
    pub new_key: Text,
}

/// `org.openrewrite.yaml.ChangeValue`: the value of each entry that the path finds becomes this one.
#[derive(Debug, Drop)]
pub struct ChangeValue {
    pub key_path: KeyPath,
    pub value: Text,
}

/// `org.openrewrite.yaml.DeleteKey`: the entries that the path finds go.
#[derive(Debug, Drop)]
pub struct DeleteKey {
    pub key_path: KeyPath,
}

/// `org.openrewrite.yaml.ChangePropertyKey`: the joined keys of an entry, from the root, become the new ones.
#[derive(Debug, Drop)]
pub struct YamlChangePropertyKey {
    pub old_property_key: Text,
    pub new_property_key: Text,
}
