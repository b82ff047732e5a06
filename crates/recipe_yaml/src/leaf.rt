// Leaf recipes of entries.
ghost use Rattle.std.specs.Prelude.{◌≡◌, not, ◌&&◌, [], IfOk, IfSome};
ghost use Rattle.std.specs.List.{list_any};
ghost use Rattle.std.specs.Option.{is_some, option_map};
ghost use Rattle.std.specs.Str.{bytes_eq, is_utf8};
ghost use Rattle.rw_host.specs.Path.{is_path};
ghost use Rattle.kept_files.specs.Kinds.{is_source};
ghost use Rattle.recipe_yaml.specs.KeyPathTexts.{KeyPathsOf, AreKeyPaths};
ghost use Rattle.recipe_yaml.specs.Faults.{IsOutcome};
ghost use Rattle.recipe_yaml.specs.LeafNames.{key_of};
ghost use Rattle.recipe_yaml.specs.Leaves.{allows, given, is_given, is_missed, is_missing, is_refused, is_unknown};
ghost use Rattle.recipe_yaml.specs.Leaves.{leaf_recipe, options_fault, path_given, refused_place, taken_as, text_given};
ghost use Rattle.recipe_yaml.specs.Leaves.{text_of, unknown_place, with_options};
ghost use Rattle.recipe_yaml.specs.declared.leaf_name.LeafName.TheVariants as leaf_names;
ghost use Rattle.recipe_yaml.specs.declared.plans.LeafRecipe.TheVariants as recipes;

use crate::book::{WrittenEntry, WrittenOption};
use crate::fault::{RecipeFault, wrong};
use crate::leaf_name::{
    LeafName, OptionName, TakenOption, ValueKind, is_same, key_of, leaf_named, taken_by,
};
use crate::plans::LeafRecipe;
use kept_files::{CreateTextFile, DeleteSourceFiles, FindSourceFiles, is_source};
use properties_tree::{
    AddProperty, ChangePropertyValue, DeleteProperty, PropertiesChangePropertyKey,
};
use rw_base::{Mem, NoMemory, Place, Text};
use rw_host::PathText;
use std::alloc::Global;
use yaml_texts::spell_yaml;
use yaml_tree::{ChangeKey, ChangeValue, DeleteKey, KeyPath, PathFault, YamlChangePropertyKey};

// ---- values of options

// The text of an option that is no list.
fn text_of(option: &WrittenOption) -> &[u8]
    ensures { result.now ≡ text_of option.now }
{
    match option.values.get(0) {
        Some(text) => text.as_slice(),
        None => &[],
    }
}

// The text of the option of this name, where it is given.
#[tactic(auto, unfolding(crate::specs::Leaves::given))]
fn given(options: &[WrittenOption], name: OptionName) -> Option<&[u8]>
    ensures { option_map (λ s. s.now) result ≡ given name options.now }
{
    let key = key_of(name);
    let option = options
        .iter()
        .find(|option| is_same(option.key.as_slice(), key))?;
    Some(text_of(option))
}

fn is_given(options: &[WrittenOption], name: OptionName) -> bool
    ensures { result ≡ is_given options.now name }
{
    given(options, name).is_some()
}

fn has_key(taken: &TakenOption, key: &[u8]) -> bool
    ensures { result ≡ bytes_eq key.now (key_of taken.now.name) }
{
    is_same(key, key_of(taken.name))
}

// What a recipe takes under a key.
#[tactic(auto, using(crate::proofs::Options::taken_by))]
fn taken_as(taken: &[TakenOption], key: &[u8]) -> Option<TakenOption>
    ensures { result ≡ taken_as taken.now key.now }
{
    for option in taken {
        if has_key(option, key) {
            return Some(*option);
        }
    }
    None
}

// A text spells a key path.
#[tactic(auto, using(crate::proofs::Options::key_paths_by))]
fn key_path_of(alloc: Global, text: &[u8]) -> Mem<Option<KeyPath>>
    ensures { (paths : KeyPathsOf) → AreKeyPaths paths → IfOk result (λ path. path ≡ paths text.now) }
{
    if u32::try_from(text.len()).is_err() {
        return Err(NoMemory);
    }
    match KeyPath::read(alloc, text) {
        Ok(path) => Ok(Some(path)),
        Err(PathFault::At(_)) => Ok(None),
        Err(PathFault::NoMemory) => Err(NoMemory),
    }
}

// The path of a source file.
fn source_path_of(alloc: Global, text: &[u8]) -> Mem<Option<PathText>>
    ensures test { IfOk result (λ path. is_some path ≡ (is_utf8 text.now && (is_path text.now && is_source text.now))) }
    ensures path { IfOk result (λ path. IfSome path (λ p. p ≡ text.now)) }
{
    let Ok(text) = std::str::from_utf8(text) else {
        return Ok(None);
    };
    let path = PathText::new(alloc, text)?;
    if is_source(text) { Ok(path) } else { Ok(None) }
}

// A text is what an option's value is to be.
#[tactic(auto, unfolding(crate::specs::Leaves::allows))]
fn allows(alloc: Global, kind: ValueKind, text: &[u8]) -> Mem<bool>
    ensures { (paths : KeyPathsOf) → AreKeyPaths paths → IfOk result (λ is. is ≡ allows paths kind text.now) }
{
    match kind {
        ValueKind::Text => Ok(true),
        ValueKind::KeyPath => Ok(key_path_of(alloc, text)?.is_some()),
        ValueKind::YamlScalar => Ok(spell_yaml(alloc, text)?.is_some()),
        ValueKind::SourceFile => Ok(source_path_of(alloc, text)?.is_some()),
    }
}

// ---- faults of options

fn is_missed(options: &[WrittenOption], taken: &TakenOption) -> bool
    ensures { result ≡ is_missed options.now taken.now }
{
    taken.is_required && !is_given(options, taken.name)
}

#[tactic(auto, unfolding(crate::specs::Leaves::is_missing))]
fn is_missing(taken: &[TakenOption], options: &[WrittenOption]) -> bool
    ensures { result ≡ is_missing taken.now options.now }
{
    taken.iter().any(|option| is_missed(options, option))
}

#[tactic(auto, unfolding(crate::specs::Leaves::is_unknown))]
fn is_unknown(taken: &[TakenOption], option: &WrittenOption) -> bool
    ensures { result ≡ is_unknown taken.now option.now }
{
    taken_as(taken, option.key.as_slice()).is_none()
}

// Where the first unknown key stands.
#[tactic(auto, unfolding(crate::specs::Leaves::unknown_place))]
fn unknown_place(taken: &[TakenOption], options: &[WrittenOption]) -> Option<Place>
    ensures { result ≡ unknown_place taken.now options.now }
{
    let option = options.iter().find(|option| is_unknown(taken, option))?;
    Some(option.key_place)
}

#[tactic(auto, unfolding(crate::specs::Leaves::is_refused))]
fn is_refused(alloc: Global, taken: &[TakenOption], option: &WrittenOption) -> Mem<bool>
    ensures { (paths : KeyPathsOf) → AreKeyPaths paths →
        IfOk result (λ is. is ≡ is_refused paths taken.now option.now) }
{
    match taken_as(taken, option.key.as_slice()) {
        None => Ok(false),
        Some(_) if option.is_list => Ok(true),
        Some(taken) => Ok(!allows(alloc, taken.kind, text_of(option))?),
    }
}

// Where the first refused value stands.
#[tactic(auto, using(crate::proofs::Options::refused_by))]
fn refused_place(
    alloc: Global,
    taken: &[TakenOption],
    options: &[WrittenOption],
) -> Mem<Option<Place>>
    ensures { (paths : KeyPathsOf) → AreKeyPaths paths →
        IfOk result (λ place. place ≡ refused_place paths taken.now options.now) }
{
    for option in options {
        if is_refused(alloc, taken, option)? {
            return Ok(Some(option.value_place));
        }
    }
    Ok(None)
}

// The fault of the options of an entry that names a recipe which takes these.
#[tactic(auto, unfolding(crate::specs::Leaves::options_fault))]
fn options_fault(
    alloc: Global,
    taken: &[TakenOption],
    entry: &WrittenEntry,
) -> Mem<Option<RecipeFault>>
    ensures { (paths : KeyPathsOf) → AreKeyPaths paths →
        IfOk result (λ fault. fault ≡ options_fault paths taken.now entry.now) }
{
    let options = entry.options.as_slice();
    if is_missing(taken, options) {
        return Ok(Some(wrong(5, entry.place)));
    }
    if let Some(place) = unknown_place(taken, options) {
        return Ok(Some(wrong(6, place)));
    }
    match refused_place(alloc, taken, options)? {
        Some(place) => Ok(Some(wrong(7, place))),
        None => Ok(None),
    }
}

// ---- recipes with their options

// A copy of the text of an option.
fn text_given(alloc: Global, options: &[WrittenOption], name: OptionName) -> Mem<Text>
    ensures { IfOk result (λ text. text ≡ text_given name options.now) }
{
    match given(options, name) {
        Some(text) => Text::from_slice(alloc, text),
        None => Text::from_slice(alloc, &[]),
    }
}

// The key path that an option's text spells. A text that spells none was refused before.
fn path_given(alloc: Global, options: &[WrittenOption], name: OptionName) -> Mem<KeyPath>
    ensures { (paths : KeyPathsOf) → AreKeyPaths paths →
        IfOk result (λ path. path ≡ path_given paths name options.now) }
{
    let text = given(options, name).unwrap_or(&[]);
    match key_path_of(alloc, text)? {
        Some(path) => Ok(path),
        None => Err(NoMemory),
    }
}

fn file_given(alloc: Global, options: &[WrittenOption], name: OptionName) -> Mem<PathText>
    ensures { IfOk result (λ path. path ≡ text_given name options.now) }
{
    let text = given(options, name).unwrap_or(&[]);
    match source_path_of(alloc, text)? {
        Some(path) => Ok(path),
        None => Err(NoMemory),
    }
}

#[tactic(auto, unfolding(crate::specs::Leaves::with_options))]
fn properties_change_property_key(
    alloc: Global,
    options: &[WrittenOption],
) -> Mem<PropertiesChangePropertyKey>
    ensures { (paths : KeyPathsOf) → IfOk result (λ made.
        recipes.PropertiesChangePropertyKey made
        ≡ with_options paths leaf_names.PropertiesChangePropertyKey options.now) }
{
    Ok(PropertiesChangePropertyKey {
        old_property_key: text_given(alloc, options, OptionName::OldPropertyKey)?,
        new_property_key: text_given(alloc, options, OptionName::NewPropertyKey)?,
    })
}

#[tactic(auto, unfolding(crate::specs::Leaves::with_options))]
fn change_property_value(alloc: Global, options: &[WrittenOption]) -> Mem<ChangePropertyValue>
    ensures { (paths : KeyPathsOf) → IfOk result (λ made.
        recipes.ChangePropertyValue made ≡ with_options paths leaf_names.ChangePropertyValue options.now) }
{
    let old_value = match given(options, OptionName::OldValue) {
        Some(text) => Some(Text::from_slice(alloc, text)?),
        None => None,
    };
    Ok(ChangePropertyValue {
        property_key: text_given(alloc, options, OptionName::PropertyKey)?,
        new_value: text_given(alloc, options, OptionName::NewValue)?,
        old_value,
    })
}

#[tactic(auto, unfolding(crate::specs::Leaves::with_options))]
fn delete_property(alloc: Global, options: &[WrittenOption]) -> Mem<DeleteProperty>
    ensures { (paths : KeyPathsOf) → IfOk result (λ made.
        recipes.DeleteProperty made ≡ with_options paths leaf_names.DeleteProperty options.now) }
{
    Ok(DeleteProperty {
        property_key: text_given(alloc, options, OptionName::PropertyKey)?,
    })
}

#[tactic(auto, unfolding(crate::specs::Leaves::with_options))]
fn add_property(alloc: Global, options: &[WrittenOption]) -> Mem<AddProperty>
    ensures { (paths : KeyPathsOf) → IfOk result (λ made.
        recipes.AddProperty made ≡ with_options paths leaf_names.AddProperty options.now) }
{
    Ok(AddProperty {
        property: text_given(alloc, options, OptionName::Property)?,
        value: text_given(alloc, options, OptionName::Value)?,
    })
}

#[tactic(auto, unfolding(crate::specs::Leaves::with_options))]
fn change_key(alloc: Global, options: &[WrittenOption]) -> Mem<ChangeKey>
    ensures { (paths : KeyPathsOf) → AreKeyPaths paths → IfOk result (λ made.
        recipes.ChangeKey made ≡ with_options paths leaf_names.ChangeKey options.now) }
{
    Ok(ChangeKey {
        old_key_path: path_given(alloc, options, OptionName::OldKeyPath)?,
        new_key: text_given(alloc, options, OptionName::NewKey)?,
    })
}

#[tactic(auto, unfolding(crate::specs::Leaves::with_options))]
fn change_value(alloc: Global, options: &[WrittenOption]) -> Mem<ChangeValue>
    ensures { (paths : KeyPathsOf) → AreKeyPaths paths → IfOk result (λ made.
        recipes.ChangeValue made ≡ with_options paths leaf_names.ChangeValue options.now) }
{
    Ok(ChangeValue {
        key_path: path_given(alloc, options, OptionName::KeyPath)?,
        value: text_given(alloc, options, OptionName::Value)?,
    })
}

#[tactic(auto, unfolding(crate::specs::Leaves::with_options))]
fn delete_key(alloc: Global, options: &[WrittenOption]) -> Mem<DeleteKey>
    ensures { (paths : KeyPathsOf) → AreKeyPaths paths → IfOk result (λ made.
        recipes.DeleteKey made ≡ with_options paths leaf_names.DeleteKey options.now) }
{
    Ok(DeleteKey {
        key_path: path_given(alloc, options, OptionName::KeyPath)?,
    })
}

#[tactic(auto, unfolding(crate::specs::Leaves::with_options))]
fn yaml_change_property_key(alloc: Global, options: &[WrittenOption]) -> Mem<YamlChangePropertyKey>
    ensures { (paths : KeyPathsOf) → IfOk result (λ made.
        recipes.YamlChangePropertyKey made ≡ with_options paths leaf_names.YamlChangePropertyKey options.now) }
{
    Ok(YamlChangePropertyKey {
        old_property_key: text_given(alloc, options, OptionName::OldPropertyKey)?,
        new_property_key: text_given(alloc, options, OptionName::NewPropertyKey)?,
    })
}

#[tactic(auto, unfolding(crate::specs::Leaves::with_options))]
fn find_source_files(alloc: Global, options: &[WrittenOption]) -> Mem<FindSourceFiles>
    ensures { (paths : KeyPathsOf) → IfOk result (λ made.
        recipes.FindSourceFiles made ≡ with_options paths leaf_names.FindSourceFiles options.now) }
{
    Ok(FindSourceFiles {
        file_pattern: text_given(alloc, options, OptionName::FilePattern)?,
    })
}

#[tactic(auto, unfolding(crate::specs::Leaves::with_options))]
fn delete_source_files(alloc: Global, options: &[WrittenOption]) -> Mem<DeleteSourceFiles>
    ensures { (paths : KeyPathsOf) → IfOk result (λ made.
        recipes.DeleteSourceFiles made ≡ with_options paths leaf_names.DeleteSourceFiles options.now) }
{
    Ok(DeleteSourceFiles {
        file_pattern: text_given(alloc, options, OptionName::FilePattern)?,
    })
}

#[tactic(auto, unfolding(crate::specs::Leaves::with_options))]
fn create_text_file(alloc: Global, options: &[WrittenOption]) -> Mem<CreateTextFile>
    ensures { (paths : KeyPathsOf) → IfOk result (λ made.
        recipes.CreateTextFile made ≡ with_options paths leaf_names.CreateTextFile options.now) }
{
    Ok(CreateTextFile {
        file_contents: text_given(alloc, options, OptionName::FileContents)?,
        relative_file_name: file_given(alloc, options, OptionName::RelativeFileName)?,
    })
}

// A recipe with the options of an entry that has no fault.
fn with_options(alloc: Global, leaf: LeafName, options: &[WrittenOption]) -> Mem<LeafRecipe>
    ensures { (paths : KeyPathsOf) → AreKeyPaths paths →
        IfOk result (λ made. made ≡ with_options paths leaf options.now) }
{
    let recipe = match leaf {
        LeafName::PropertiesChangePropertyKey => {
            LeafRecipe::PropertiesChangePropertyKey(properties_change_property_key(alloc, options)?)
        }
        LeafName::ChangePropertyValue => {
            LeafRecipe::ChangePropertyValue(change_property_value(alloc, options)?)
        }
        LeafName::DeleteProperty => LeafRecipe::DeleteProperty(delete_property(alloc, options)?),
        LeafName::AddProperty => LeafRecipe::AddProperty(add_property(alloc, options)?),
        LeafName::ChangeKey => LeafRecipe::ChangeKey(change_key(alloc, options)?),
        LeafName::ChangeValue => LeafRecipe::ChangeValue(change_value(alloc, options)?),
        LeafName::DeleteKey => LeafRecipe::DeleteKey(delete_key(alloc, options)?),
        LeafName::YamlChangePropertyKey => {
            LeafRecipe::YamlChangePropertyKey(yaml_change_property_key(alloc, options)?)
        }
        LeafName::FindSourceFiles => LeafRecipe::FindSourceFiles(find_source_files(
            alloc, options,
        )?),
        LeafName::DeleteSourceFiles => {
            LeafRecipe::DeleteSourceFiles(delete_source_files(alloc, options)?)
        }
        LeafName::CreateTextFile => LeafRecipe::CreateTextFile(create_text_file(alloc, options)?),
    };
    Ok(recipe)
}

/// A leaf recipe that needs no option, without any.
pub(crate) fn without_options(alloc: Global, leaf: LeafName) -> Mem<LeafRecipe>
    ensures { (paths : KeyPathsOf) → AreKeyPaths paths → IfOk result (λ made. made ≡ with_options paths leaf []) }
{
    with_options(alloc, leaf, &[])
}

/// The leaf recipe that an entry names, with the entry's options, or the first of the faults 4 to 7.
#[tactic(auto, unfolding(crate::specs::Leaves::leaf_recipe))]
pub(crate) fn leaf_recipe(alloc: Global, entry: &WrittenEntry) -> Result<LeafRecipe, RecipeFault>
    ensures { (paths : KeyPathsOf) → AreKeyPaths paths → IsOutcome (leaf_recipe paths entry.now) result }
{
    let Some(leaf) = leaf_named(entry.name.as_slice()) else {
        return Err(wrong(4, entry.place));
    };
    if let Some(fault) = options_fault(alloc, taken_by(leaf), entry)? {
        return Err(fault);
    }
    let recipe = with_options(alloc, leaf, entry.options.as_slice())?;
    Ok(recipe)
}
