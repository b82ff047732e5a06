// The recipes that do work themselves, by their names, and the options that each takes.
ghost use Rattle.std.specs.Prelude.{◌≡◌};
ghost use Rattle.std.specs.Str.{bytes_eq};
ghost use Rattle.recipe_yaml.specs.LeafNames.{file_leaf, is_scanner, key_of, leaf_named};
ghost use Rattle.recipe_yaml.specs.LeafNames.{properties_leaf, taken_by, yaml_leaf};

/// A recipe that does work itself, without its options.
#[derive(Clone, Copy, Debug, PartialEq, Eq)]
pub enum LeafName {
    PropertiesChangePropertyKey,
    ChangePropertyValue,
    DeleteProperty,
    AddProperty,
    ChangeKey,
    ChangeValue,
    DeleteKey,
    YamlChangePropertyKey,
    FindSourceFiles,
    DeleteSourceFiles,
    CreateTextFile,
}

/// An option that some recipe takes.
#[derive(Clone, Copy, Debug, PartialEq, Eq)]
pub enum OptionName {
    OldPropertyKey,
    NewPropertyKey,
    PropertyKey,
    NewValue,
    OldValue,
    Property,
    Value,
    OldKeyPath,
    NewKey,
    KeyPath,
    FilePattern,
    FileContents,
    RelativeFileName,
}

/// What the value of an option is to be.
#[derive(Clone, Copy, Debug, PartialEq, Eq)]
pub enum ValueKind {
    /// Any text.
    Text,
    KeyPath,
    /// A text that can be written as a key or a value of YAML.
    YamlScalar,
    /// The path of a source file.
    SourceFile,
}

/// An option that a recipe takes, and whether it must be given.
#[derive(Clone, Copy, Debug, PartialEq, Eq)]
pub struct TakenOption {
    pub name: OptionName,
    pub kind: ValueKind,
    pub is_required: bool,
}

macro_rules! needs {
    ($name:ident, $kind:ident) => {
        TakenOption {
            name: OptionName::$name,
            kind: ValueKind::$kind,
            is_required: true,
        }
    };
}

macro_rules! may {
    ($name:ident, $kind:ident) => {
        TakenOption {
            name: OptionName::$name,
            kind: ValueKind::$kind,
            is_required: false,
        }
    };
}

const PROPERTIES_CHANGE_PROPERTY_KEY: [TakenOption; 2] = [
    needs!(OldPropertyKey, Text),
    needs!(NewPropertyKey, Text),
];

const CHANGE_PROPERTY_VALUE: [TakenOption; 3] = [
    needs!(PropertyKey, Text),
    needs!(NewValue, Text),
    may!(OldValue, Text),
];

const DELETE_PROPERTY: [TakenOption; 1] = [needs!(PropertyKey, Text)];

const ADD_PROPERTY: [TakenOption; 2] = [needs!(Property, Text), needs!(Value, Text)];

const CHANGE_KEY: [TakenOption; 2] = [needs!(OldKeyPath, KeyPath), needs!(NewKey, YamlScalar)];

const CHANGE_VALUE: [TakenOption; 2] = [needs!(KeyPath, KeyPath), needs!(Value, YamlScalar)];

const DELETE_KEY: [TakenOption; 1] = [needs!(KeyPath, KeyPath)];

const YAML_CHANGE_PROPERTY_KEY: [TakenOption; 2] = [
    needs!(OldPropertyKey, Text),
    needs!(NewPropertyKey, YamlScalar),
];

const ON_SOURCE_FILES: [TakenOption; 1] = [needs!(FilePattern, Text)];

const CREATE_TEXT_FILE: [TakenOption; 2] = [
    needs!(FileContents, Text),
    needs!(RelativeFileName, SourceFile),
];

pub(crate) fn is_same(a: &[u8], b: &[u8]) -> bool
    ensures { result ≡ bytes_eq a.now b.now }
{
    a == b
}

#[tactic(auto, unfolding(crate::specs::LeafNames::properties_leaf))]
fn properties_leaf(name: &[u8]) -> Option<LeafName>
    ensures { result ≡ properties_leaf name.now }
{
    if is_same(name, b"org.openrewrite.properties.ChangePropertyKey") {
        Some(LeafName::PropertiesChangePropertyKey)
    } else if is_same(name, b"org.openrewrite.properties.ChangePropertyValue") {
        Some(LeafName::ChangePropertyValue)
    } else if is_same(name, b"org.openrewrite.properties.DeleteProperty") {
        Some(LeafName::DeleteProperty)
    } else if is_same(name, b"org.openrewrite.properties.AddProperty") {
        Some(LeafName::AddProperty)
    } else {
        None
    }
}

#[tactic(auto, unfolding(crate::specs::LeafNames::yaml_leaf))]
fn yaml_leaf(name: &[u8]) -> Option<LeafName>
    ensures { result ≡ yaml_leaf name.now }
{
    if is_same(name, b"org.openrewrite.yaml.ChangeKey") {
        Some(LeafName::ChangeKey)
    } else if is_same(name, b"org.openrewrite.yaml.ChangeValue") {
        Some(LeafName::ChangeValue)
    } else if is_same(name, b"org.openrewrite.yaml.DeleteKey") {
        Some(LeafName::DeleteKey)
    } else if is_same(name, b"org.openrewrite.yaml.ChangePropertyKey") {
        Some(LeafName::YamlChangePropertyKey)
    } else {
        None
    }
}

#[tactic(auto, unfolding(crate::specs::LeafNames::file_leaf))]
fn file_leaf(name: &[u8]) -> Option<LeafName>
    ensures { result ≡ file_leaf name.now }
{
    if is_same(name, b"org.openrewrite.FindSourceFiles") {
        Some(LeafName::FindSourceFiles)
    } else if is_same(name, b"org.openrewrite.DeleteSourceFiles") {
        Some(LeafName::DeleteSourceFiles)
    } else if is_same(name, b"org.openrewrite.text.CreateTextFile") {
        Some(LeafName::CreateTextFile)
    } else {
        None
    }
}

/// The leaf recipe of a name.
#[tactic(auto, unfolding(crate::specs::LeafNames::leaf_named))]
pub(crate) fn leaf_named(name: &[u8]) -> Option<LeafName>
    ensures { result ≡ leaf_named name.now }
{
    match properties_leaf(name) {
        Some(leaf) => Some(leaf),
        None => match yaml_leaf(name) {
            Some(leaf) => Some(leaf),
            None => file_leaf(name),
        },
    }
}

/// Whether a recipe looks at all files before it makes or edits any.
pub(crate) fn is_scanner(leaf: LeafName) -> bool
    ensures { result ≡ is_scanner leaf }
{
    matches!(leaf, LeafName::CreateTextFile)
}

/// The key of an option.
#[tactic(auto, unfolding(crate::specs::LeafNames::key_of))]
pub(crate) fn key_of(option: OptionName) -> &'static [u8]
    ensures { result.now ≡ key_of option }
{
    match option {
        OptionName::OldPropertyKey => b"oldPropertyKey",
        OptionName::NewPropertyKey => b"newPropertyKey",
        OptionName::PropertyKey => b"propertyKey",
        OptionName::NewValue => b"newValue",
        OptionName::OldValue => b"oldValue",
        OptionName::Property => b"property",
        OptionName::Value => b"value",
        OptionName::OldKeyPath => b"oldKeyPath",
        OptionName::NewKey => b"newKey",
        OptionName::KeyPath => b"keyPath",
        OptionName::FilePattern => b"filePattern",
        OptionName::FileContents => b"fileContents",
        OptionName::RelativeFileName => b"relativeFileName",
    }
}

/// The options that a recipe takes.
#[tactic(auto, unfolding(crate::specs::LeafNames::taken_by))]
pub(crate) fn taken_by(leaf: LeafName) -> &'static [TakenOption]
    ensures { result.now ≡ taken_by leaf }
{
    match leaf {
        LeafName::PropertiesChangePropertyKey => &PROPERTIES_CHANGE_PROPERTY_KEY,
        LeafName::ChangePropertyValue => &CHANGE_PROPERTY_VALUE,
        LeafName::DeleteProperty => &DELETE_PROPERTY,
        LeafName::AddProperty => &ADD_PROPERTY,
        LeafName::ChangeKey => &CHANGE_KEY,
        LeafName::ChangeValue => &CHANGE_VALUE,
        LeafName::DeleteKey => &DELETE_KEY,
        LeafName::YamlChangePropertyKey => &YAML_CHANGE_PROPERTY_KEY,
        LeafName::FindSourceFiles => &ON_SOURCE_FILES,
        LeafName::DeleteSourceFiles => &ON_SOURCE_FILES,
        LeafName::CreateTextFile => &CREATE_TEXT_FILE,
    }
}
