// What the recipes on properties files are asked. A struct has the name of its recipe, and a field for each option.
use rw_base::Text;

/// `org.openrewrite.properties.ChangePropertyKey`: entries whose key is the old one get the new one.
#[derive(Debug, Drop)]
pub struct PropertiesChangePropertyKey {
    pub old_property_key: Text,
    pub new_property_key: Text,
}

/// `org.openrewrite.properties.ChangePropertyValue`: entries of this key get the new value, where their value is the
/// old one, if one is given.
#[derive(Debug, Drop)]
pub struct ChangePropertyValue {
    pub property_key: Text,
    pub new_value: Text,
    pub old_value: Option<Text>,
}

/// `org.openrewrite.properties.DeleteProperty`: entries of this key go.
#[derive(Debug, Drop)]
pub struct DeleteProperty {
    pub property_key: Text,
}

/// `org.openrewrite.properties.AddProperty`: an entry of this key and value is added, where none has the key.
#[derive(Debug, Drop)]
pub struct AddProperty {
    pub property: Text,
    pub value: Text,
}
