// The entries of the lists of a recipe document, and their options.
ghost use Rattle.std.specs.Prelude.{◌≡◌, ◌<◌, [], ◌∷◌, length, IfOk, Some};
ghost use Rattle.rw_base.specs.Arena.{end_of};
ghost use Rattle.recipe_yaml.specs.declared.fault.RecipeFault.TheVariants as fault;
ghost use Rattle.recipe_yaml.specs.Checked.{Gives, Leaves, each};
ghost use Rattle.recipe_yaml.specs.Nodes.{nodes_of, value_leaf};
ghost use Rattle.recipe_yaml.specs.Parts.{IsNode, AreNodes, IsSlot, leaf_places};
ghost use Rattle.recipe_yaml.specs.WrittenEntries.{leaf_place, once, text_at, item_ends};
ghost use Rattle.recipe_yaml.specs.WrittenEntries.{item_text, with_text, texts, key_leaf, key_text, option_at};
ghost use Rattle.recipe_yaml.specs.WrittenEntries.{has_option, written_option, with_option, options_at, nothing_more};
ghost use Rattle.recipe_yaml.specs.WrittenEntries.{named, entry_at, item_entry, with_entry, entries_at};

use crate::book::{WrittenEntry, WrittenOption};
use crate::fault::RecipeFault;
use crate::node::{Slot, Value};
use crate::parts::{
    beginning, behind_anchor, entry_key, entry_value, item_colon, item_value, last_leaf, nodes_of,
    sequence_leaf, stray_leaf, value_at,
};
use rw_base::{Mem, NodeId, Place, Text, Tree, place_of};
use sqlite_items::Items;
use std::alloc::Global;
use yaml_tree::scalar;

// Where the text of a leaf begins.
#[tactic(auto, using(crate::proofs::LeafPlaces::places))]
pub fn leaf_place(tree: &Tree, bytes: &[u8], places: &[Place], l: u32) -> Place
    requires bytes { length bytes.now ≡ end_of tree.now }
    requires places { places.now ≡ leaf_places bytes.now tree.now }
    ensures { result ≡ leaf_place bytes.now tree.now l }
{
    let _ = tree;
    if (l as usize) < places.len() {
        return places[l as usize];
    }
    place_of(bytes, 0)
}

// The fault that a leaf can't stand.
pub fn cannot_stand(tree: &Tree, bytes: &[u8], places: &[Place], l: u32) -> RecipeFault
    requires bytes { length bytes.now ≡ end_of tree.now }
    requires places { places.now ≡ leaf_places bytes.now tree.now }
    ensures { result ≡ fault.Wrong 2 (Some (leaf_place bytes.now tree.now l)) }
{
    RecipeFault::Wrong {
        number: 2,
        place: Some(leaf_place(tree, bytes, places, l)),
    }
}

// Where a value is missing or is none that can stand, the leaf there.
pub fn value_leaf(tree: &Tree, s: Slot) -> u32
    requires { IsSlot tree.now s }
    ensures { result ≡ value_leaf tree.now s }
{
    beginning(tree, behind_anchor(tree, s))
}

// The fault that a value can't stand.
fn no_value(tree: &Tree, bytes: &[u8], places: &[Place], s: Slot) -> RecipeFault
    requires bytes { length bytes.now ≡ end_of tree.now }
    requires places { places.now ≡ leaf_places bytes.now tree.now }
    requires slot { IsSlot tree.now s }
    ensures { result ≡ fault.Wrong 2 (Some (leaf_place bytes.now tree.now (value_leaf tree.now s))) }
{
    cannot_stand(tree, bytes, places, value_leaf(tree, s))
}

// Refuses what was there before.
pub fn once(
    tree: &Tree,
    bytes: &[u8],
    places: &[Place],
    before: bool,
    l: u32,
) -> Result<(), RecipeFault>
    requires bytes { length bytes.now ≡ end_of tree.now }
    requires places { places.now ≡ leaf_places bytes.now tree.now }
    ensures { Gives result (once bytes.now tree.now before l) }
{
    if before {
        return Err(cannot_stand(tree, bytes, places, l));
    }
    Ok(())
}

// The text of a scalar.
#[tactic(auto, using(crate::proofs::Binds::binds), unfolding(crate::specs::WrittenEntries::text_at))]
pub fn text_at(
    alloc: Global,
    tree: &Tree,
    bytes: &[u8],
    places: &[Place],
    s: Slot,
) -> Result<Text, RecipeFault>
    requires bytes { length bytes.now ≡ end_of tree.now }
    requires places { places.now ≡ leaf_places bytes.now tree.now }
    requires slot { IsSlot tree.now s }
    ensures { Gives result (text_at bytes.now tree.now s) }
{
    match value_at(alloc, tree, bytes, s)? {
        Value::Scalar(text) => Ok(text),
        Value::Mapping(_) => Err(no_value(tree, bytes, places, s)),
        Value::Sequence(_) => Err(no_value(tree, bytes, places, s)),
        Value::Other => Err(no_value(tree, bytes, places, s)),
    }
}

// Refuses an item that goes on behind its value.
#[tactic(auto, using(crate::proofs::Binds::binds), unfolding(crate::specs::WrittenEntries::item_ends))]
fn item_ends(tree: &Tree, bytes: &[u8], places: &[Place], n: NodeId) -> Result<(), RecipeFault>
    requires bytes { length bytes.now ≡ end_of tree.now }
    requires places { places.now ≡ leaf_places bytes.now tree.now }
    requires node { IsNode tree.now n }
    ensures { Gives result (item_ends bytes.now tree.now n) }
{
    match item_colon(tree, n) {
        Some(colon) => Err(cannot_stand(tree, bytes, places, colon)),
        None => Ok(()),
    }
}

// The text of an item.
#[tactic(auto, using(crate::proofs::Binds::binds), unfolding(crate::specs::WrittenEntries::item_text))]
fn item_text(
    alloc: Global,
    tree: &Tree,
    bytes: &[u8],
    places: &[Place],
    n: NodeId,
) -> Result<Text, RecipeFault>
    requires bytes { length bytes.now ≡ end_of tree.now }
    requires places { places.now ≡ leaf_places bytes.now tree.now }
    requires node { IsNode tree.now n }
    ensures { Gives result (item_text bytes.now tree.now n) }
{
    let text = text_at(alloc, tree, bytes, places, item_value(tree, n))?;
    item_ends(tree, bytes, places, n)?;
    Ok(text)
}

// Adds the text of an item.
#[tactic(auto, using(crate::proofs::Binds::binds))]
fn push_text(
    alloc: Global,
    tree: &Tree,
    bytes: &[u8],
    places: &[Place],
    n: NodeId,
    texts: &mut Items<Text>,
) -> Result<(), RecipeFault>
    requires bytes { length bytes.now ≡ end_of tree.now }
    requires places { places.now ≡ leaf_places bytes.now tree.now }
    requires node { IsNode tree.now n }
    ensures { Leaves result texts.new (with_text bytes.now tree.now texts.old n) }
{
    let new = item_text(alloc, tree, bytes, places, n)?;
    texts.push(new)?;
    Ok(())
}

// The texts of a sequence.
fn texts(
    alloc: Global,
    tree: &Tree,
    bytes: &[u8],
    places: &[Place],
    n: NodeId,
) -> Result<Items<Text>, RecipeFault>
    requires bytes { length bytes.now ≡ end_of tree.now }
    requires places { places.now ≡ leaf_places bytes.now tree.now }
    requires node { IsNode tree.now n }
    ensures { Gives result (texts bytes.now tree.now (nodes_of tree.now n)) }
{
    let nodes = nodes_of(alloc, tree, n)?;
    let mut texts = Items::new(alloc);
    for m in &nodes {
        push_text(alloc, tree, bytes, places, *m, &mut texts)?;
    }
    Ok(texts)
}

// The key of a node in a mapping, which must be an entry.
#[tactic(auto, using(crate::proofs::Binds::binds), unfolding(crate::specs::WrittenEntries::key_leaf))]
fn key_leaf(tree: &Tree, bytes: &[u8], places: &[Place], n: NodeId) -> Result<u32, RecipeFault>
    requires bytes { length bytes.now ≡ end_of tree.now }
    requires places { places.now ≡ leaf_places bytes.now tree.now }
    requires node { IsNode tree.now n }
    ensures key { Gives result (key_leaf bytes.now tree.now n) }
    ensures inside { IfOk result (λ l. l < length tree.now.leaves) }
{
    match entry_key(tree, n) {
        Some(key) => Ok(key),
        None => Err(cannot_stand(tree, bytes, places, stray_leaf(tree, n))),
    }
}

// What a key says.
#[tactic(auto, using(crate::proofs::Binds::binds), unfolding(crate::specs::WrittenEntries::key_text))]
fn key_text(
    alloc: Global,
    tree: &Tree,
    bytes: &[u8],
    places: &[Place],
    key: u32,
) -> Result<Text, RecipeFault>
    requires bytes { length bytes.now ≡ end_of tree.now }
    requires places { places.now ≡ leaf_places bytes.now tree.now }
    requires key { key < length tree.now.leaves }
    ensures { Gives result (key_text bytes.now tree.now key) }
{
    match scalar(alloc, tree, bytes, key)? {
        Some(text) => Ok(Text::from_vec(text)),
        None => Err(cannot_stand(tree, bytes, places, key)),
    }
}

// A list of one text.
fn one_text(alloc: Global, text: Text) -> Mem<Items<Text>>
    ensures { IfOk result (λ texts. texts ≡ text ∷ []) }
{
    let mut texts = Items::new(alloc);
    texts.push(text)?;
    Ok(texts)
}

// An option with its key.
#[tactic(auto, using(crate::proofs::Binds::binds), unfolding(crate::specs::WrittenEntries::option_at))]
fn option_at(
    alloc: Global,
    tree: &Tree,
    bytes: &[u8],
    places: &[Place],
    name: Text,
    key: u32,
    s: Slot,
) -> Result<WrittenOption, RecipeFault>
    requires bytes { length bytes.now ≡ end_of tree.now }
    requires places { places.now ≡ leaf_places bytes.now tree.now }
    requires slot { IsSlot tree.now s }
    ensures { Gives result (option_at bytes.now tree.now name key s) }
{
    let key_place = leaf_place(tree, bytes, places, key);
    match value_at(alloc, tree, bytes, s)? {
        Value::Scalar(text) => {
            let value_place = leaf_place(tree, bytes, places, value_leaf(tree, s));
            let values = one_text(alloc, text)?;
            Ok(WrittenOption {
                key: name,
                key_place,
                values,
                is_list: false,
                value_place,
            })
        }
        Value::Sequence(n) => {
            let values = texts(alloc, tree, bytes, places, n)?;
            let value_place = leaf_place(tree, bytes, places, sequence_leaf(tree, n));
            Ok(WrittenOption {
                key: name,
                key_place,
                values,
                is_list: true,
                value_place,
            })
        }
        Value::Mapping(_) => Err(no_value(tree, bytes, places, s)),
        Value::Other => Err(no_value(tree, bytes, places, s)),
    }
}

// Whether one of the options has this key.
#[tactic(auto, using(crate::proofs::Binds::any_by))]
fn has_option(name: &[u8], options: &[WrittenOption]) -> bool
    ensures { result ≡ has_option name.now options.now }
{
    for option in options {
        if option.key.as_slice() == name {
            return true;
        }
    }
    false
}

// An option behind others, none of which has its key.
#[tactic(auto, using(crate::proofs::Binds::binds), unfolding(crate::specs::WrittenEntries::written_option))]
fn written_option(
    alloc: Global,
    tree: &Tree,
    bytes: &[u8],
    places: &[Place],
    n: NodeId,
    before: &[WrittenOption],
) -> Result<WrittenOption, RecipeFault>
    requires bytes { length bytes.now ≡ end_of tree.now }
    requires places { places.now ≡ leaf_places bytes.now tree.now }
    requires node { IsNode tree.now n }
    ensures { Gives result (written_option bytes.now tree.now before.now n) }
{
    let key = key_leaf(tree, bytes, places, n)?;
    let name = key_text(alloc, tree, bytes, places, key)?;
    once(
        tree,
        bytes,
        places,
        has_option(name.as_slice(), before),
        key,
    )?;
    let option = option_at(alloc, tree, bytes, places, name, key, entry_value(tree, n))?;
    Ok(option)
}

// Adds an option.
#[tactic(auto, using(crate::proofs::Binds::binds))]
fn push_option(
    alloc: Global,
    tree: &Tree,
    bytes: &[u8],
    places: &[Place],
    n: NodeId,
    options: &mut Items<WrittenOption>,
) -> Result<(), RecipeFault>
    requires bytes { length bytes.now ≡ end_of tree.now }
    requires places { places.now ≡ leaf_places bytes.now tree.now }
    requires node { IsNode tree.now n }
    ensures { Leaves result options.new (with_option bytes.now tree.now options.old n) }
{
    let new = written_option(alloc, tree, bytes, places, n, options.as_slice())?;
    options.push(new)?;
    Ok(())
}

// The options of a mapping.
fn options(
    alloc: Global,
    tree: &Tree,
    bytes: &[u8],
    places: &[Place],
    n: NodeId,
) -> Result<Items<WrittenOption>, RecipeFault>
    requires bytes { length bytes.now ≡ end_of tree.now }
    requires places { places.now ≡ leaf_places bytes.now tree.now }
    requires node { IsNode tree.now n }
    ensures { Gives result (each (with_option bytes.now tree.now) [] (nodes_of tree.now n)) }
{
    let nodes = nodes_of(alloc, tree, n)?;
    let mut options = Items::new(alloc);
    for m in &nodes {
        push_option(alloc, tree, bytes, places, *m, &mut options)?;
    }
    Ok(options)
}

// The options of a recipe, a mapping.
#[tactic(auto, using(crate::proofs::Binds::binds), unfolding(crate::specs::WrittenEntries::options_at))]
fn options_at(
    alloc: Global,
    tree: &Tree,
    bytes: &[u8],
    places: &[Place],
    s: Slot,
) -> Result<Items<WrittenOption>, RecipeFault>
    requires bytes { length bytes.now ≡ end_of tree.now }
    requires places { places.now ≡ leaf_places bytes.now tree.now }
    requires slot { IsSlot tree.now s }
    ensures { Gives result (options_at bytes.now tree.now s) }
{
    match value_at(alloc, tree, bytes, s)? {
        Value::Mapping(n) => options(alloc, tree, bytes, places, n),
        Value::Sequence(_) => Err(no_value(tree, bytes, places, s)),
        Value::Scalar(_) => Err(no_value(tree, bytes, places, s)),
        Value::Other => Err(no_value(tree, bytes, places, s)),
    }
}

// Refuses what more stands in a mapping.
#[tactic(auto, using(crate::proofs::Binds::binds), unfolding(crate::specs::WrittenEntries::nothing_more))]
fn nothing_more(
    tree: &Tree,
    bytes: &[u8],
    places: &[Place],
    nodes: &[NodeId],
) -> Result<(), RecipeFault>
    requires bytes { length bytes.now ≡ end_of tree.now }
    requires places { places.now ≡ leaf_places bytes.now tree.now }
    requires nodes { AreNodes tree.now nodes.now }
    ensures { Gives result (nothing_more bytes.now tree.now nodes.now) }
{
    match nodes {
        [] => Ok(()),
        [n, ..] => Err(cannot_stand(tree, bytes, places, tree.leaves_of(*n).0)),
    }
}

// A mapping with one name, whose value are the options.
#[tactic(auto, using(crate::proofs::Binds::binds), unfolding(crate::specs::WrittenEntries::named))]
fn named(
    alloc: Global,
    tree: &Tree,
    bytes: &[u8],
    places: &[Place],
    mapping: NodeId,
    nodes: &[NodeId],
) -> Result<WrittenEntry, RecipeFault>
    requires bytes { length bytes.now ≡ end_of tree.now }
    requires places { places.now ≡ leaf_places bytes.now tree.now }
    requires mapping { IsNode tree.now mapping }
    requires nodes { AreNodes tree.now nodes.now }
    ensures { Gives result (named bytes.now tree.now mapping nodes.now) }
{
    let [n, others @ ..] = nodes else {
        return Err(cannot_stand(tree, bytes, places, last_leaf(tree, mapping)));
    };
    let key = key_leaf(tree, bytes, places, *n)?;
    let name = key_text(alloc, tree, bytes, places, key)?;
    let options = options_at(alloc, tree, bytes, places, entry_value(tree, *n))?;
    nothing_more(tree, bytes, places, others)?;
    let place = leaf_place(tree, bytes, places, key);
    Ok(WrittenEntry {
        name,
        place,
        options,
    })
}

// An entry of a list of recipes: a name alone, or such a mapping.
#[tactic(auto, using(crate::proofs::Binds::binds), unfolding(crate::specs::WrittenEntries::entry_at))]
fn entry_at(
    alloc: Global,
    tree: &Tree,
    bytes: &[u8],
    places: &[Place],
    s: Slot,
) -> Result<WrittenEntry, RecipeFault>
    requires bytes { length bytes.now ≡ end_of tree.now }
    requires places { places.now ≡ leaf_places bytes.now tree.now }
    requires slot { IsSlot tree.now s }
    ensures { Gives result (entry_at bytes.now tree.now s) }
{
    match value_at(alloc, tree, bytes, s)? {
        Value::Scalar(name) => Ok(WrittenEntry {
            name,
            place: leaf_place(tree, bytes, places, value_leaf(tree, s)),
            options: Items::new(alloc),
        }),
        Value::Mapping(n) => {
            let nodes = nodes_of(alloc, tree, n)?;
            let entry = named(alloc, tree, bytes, places, n, nodes.as_slice())?;
            Ok(entry)
        }
        Value::Sequence(_) => Err(no_value(tree, bytes, places, s)),
        Value::Other => Err(no_value(tree, bytes, places, s)),
    }
}

// The entry of an item.
#[tactic(auto, using(crate::proofs::Binds::binds), unfolding(crate::specs::WrittenEntries::item_entry))]
fn item_entry(
    alloc: Global,
    tree: &Tree,
    bytes: &[u8],
    places: &[Place],
    n: NodeId,
) -> Result<WrittenEntry, RecipeFault>
    requires bytes { length bytes.now ≡ end_of tree.now }
    requires places { places.now ≡ leaf_places bytes.now tree.now }
    requires node { IsNode tree.now n }
    ensures { Gives result (item_entry bytes.now tree.now n) }
{
    let entry = entry_at(alloc, tree, bytes, places, item_value(tree, n))?;
    item_ends(tree, bytes, places, n)?;
    Ok(entry)
}

// Adds the entry of an item.
#[tactic(auto, using(crate::proofs::Binds::binds))]
fn push_entry(
    alloc: Global,
    tree: &Tree,
    bytes: &[u8],
    places: &[Place],
    n: NodeId,
    entries: &mut Items<WrittenEntry>,
) -> Result<(), RecipeFault>
    requires bytes { length bytes.now ≡ end_of tree.now }
    requires places { places.now ≡ leaf_places bytes.now tree.now }
    requires node { IsNode tree.now n }
    ensures { Leaves result entries.new (with_entry bytes.now tree.now entries.old n) }
{
    let new = item_entry(alloc, tree, bytes, places, n)?;
    entries.push(new)?;
    Ok(())
}

// The entries of a sequence.
fn entries(
    alloc: Global,
    tree: &Tree,
    bytes: &[u8],
    places: &[Place],
    n: NodeId,
) -> Result<Items<WrittenEntry>, RecipeFault>
    requires bytes { length bytes.now ≡ end_of tree.now }
    requires places { places.now ≡ leaf_places bytes.now tree.now }
    requires node { IsNode tree.now n }
    ensures { Gives result (each (with_entry bytes.now tree.now) [] (nodes_of tree.now n)) }
{
    let nodes = nodes_of(alloc, tree, n)?;
    let mut entries = Items::new(alloc);
    for m in &nodes {
        push_entry(alloc, tree, bytes, places, *m, &mut entries)?;
    }
    Ok(entries)
}

// The entries of a list of recipes, a sequence.
#[tactic(auto, using(crate::proofs::Binds::binds), unfolding(crate::specs::WrittenEntries::entries_at))]
pub fn entries_at(
    alloc: Global,
    tree: &Tree,
    bytes: &[u8],
    places: &[Place],
    s: Slot,
) -> Result<Items<WrittenEntry>, RecipeFault>
    requires bytes { length bytes.now ≡ end_of tree.now }
    requires places { places.now ≡ leaf_places bytes.now tree.now }
    requires slot { IsSlot tree.now s }
    ensures { Gives result (entries_at bytes.now tree.now s) }
{
    match value_at(alloc, tree, bytes, s)? {
        Value::Sequence(n) => entries(alloc, tree, bytes, places, n),
        Value::Mapping(_) => Err(no_value(tree, bytes, places, s)),
        Value::Scalar(_) => Err(no_value(tree, bytes, places, s)),
        Value::Other => Err(no_value(tree, bytes, places, s)),
    }
}
