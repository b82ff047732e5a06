// Recipe files.
ghost use Rattle.std.specs.Prelude.{◌≡◌, ◌≢◌, ◌≤◌, ◌<◌, [], length, codes, IfOk, IfErr, Ok, Err, Some, unwrap_or};
ghost use Rattle.std.specs.List.{list_any};
ghost use Rattle.std.specs.Str.{bytes_eq};
ghost use Rattle.rw_base.specs.declared.leaves.TheConstants.{MOST_BYTES};
ghost use Rattle.rw_base.specs.Arena.{end_of};
ghost use Rattle.rw_base.specs.Places.{place_at};
ghost use Rattle.kept_files.specs.Readings.{AreReadings, EndsWith, IsReading, Reads};
ghost use Rattle.yaml_tree.specs.Scalars.{scalar_of};
ghost use Rattle.recipe_yaml.specs.Books.{key_named, root_key, is_type, says_recipe, no_root, is_taken, name_at};
ghost use Rattle.recipe_yaml.specs.Books.{flag_of, flag_at, with_type, with_name, with_conditions, with_list};
ghost use Rattle.recipe_yaml.specs.Books.{with_again, with_root_entry, with_node, finished, recipe_of, has_recipe_type, is_recipe};
ghost use Rattle.recipe_yaml.specs.Books.{with_mapping, with_document, book_in, book_of, recipes_in};
ghost use Rattle.recipe_yaml.specs.Checked.{Gives, Leaves, each};
ghost use Rattle.recipe_yaml.specs.Nodes.{nodes_of};
ghost use Rattle.recipe_yaml.specs.Parts.{IsNode, AreNodes, IsSlot, leaf_places};

use crate::book::{RecipeBook, Written, WrittenEntry};
use crate::fault::RecipeFault;
use crate::lists::{cannot_stand, entries_at, leaf_place, once, text_at, value_leaf};
use crate::names::is_known;
use crate::node::{Slot, Value};
use crate::parts::{document_value, entry_key, entry_value, last_leaf, nodes_of, value_at};
use crate::root::{Root, RootKey};
use kept_files::{Readers, Reading};
use rw_base::{Mem, NodeId, Place, Shared, Text, Tree, place_after, place_of};
use rw_host::Steps;
use sqlite_items::Items;
use std::alloc::Global;
use std::sync::ledger::Ledger;
use yaml_tree::scalar;

// Which key of a root mapping a text is.
#[tactic(auto, unfolding(crate::specs::Books::key_named))]
fn key_named(text: &[u8]) -> RootKey
    ensures { result ≡ key_named text.now }
{
    if text == b"type".as_slice() {
        RootKey::Type
    } else if text == b"name".as_slice() {
        RootKey::Name
    } else if text == b"preconditions".as_slice() {
        RootKey::Preconditions
    } else if text == b"recipeList".as_slice() {
        RootKey::RecipeList
    } else if text == b"causesAnotherCycle".as_slice() {
        RootKey::CausesAnotherCycle
    } else {
        RootKey::Unknown
    }
}

// And which one a leaf is.
fn root_key(alloc: Global, tree: &Tree, bytes: &[u8], l: u32) -> Mem<RootKey>
    requires leaf { l < length tree.now.leaves }
    requires bytes { length bytes.now ≡ end_of tree.now }
    ensures { IfOk result (λ key. key ≡ root_key (scalar_of bytes.now tree.now l)) }
{
    match scalar(alloc, tree, bytes, l)? {
        Some(text) => Ok(key_named(&text)),
        None => Ok(RootKey::Unknown),
    }
}

fn is_type(key: RootKey) -> bool
    ensures { result ≡ is_type key }
{
    match key {
        RootKey::Type => true,
        RootKey::Name => false,
        RootKey::Preconditions => false,
        RootKey::RecipeList => false,
        RootKey::CausesAnotherCycle => false,
        RootKey::Unknown => false,
    }
}

// Whether a value is the type of a recipe.
#[tactic(auto, unfolding(crate::specs::Books::says_recipe))]
fn says_recipe(value: &Value) -> bool
    ensures { result ≡ says_recipe value.now }
{
    match value {
        Value::Scalar(text) => text.as_slice() == b"specs.openrewrite.org/v1beta/recipe".as_slice(),
        Value::Mapping(_) => false,
        Value::Sequence(_) => false,
        Value::Other => false,
    }
}

#[tactic(auto, using(crate::proofs::Binds::any_by))]
fn has_name(before: &[Written], name: &[u8]) -> bool
    ensures { result ≡ list_any (λ w. bytes_eq w.name name.now) before.now }
{
    for written in before {
        if written.name.as_slice() == name {
            return true;
        }
    }
    false
}

// Whether these recipes or this project have taken a name.
fn is_taken(before: &[Written], name: &[u8]) -> bool
    ensures { result ≡ is_taken before.now name.now }
{
    is_known(name) || has_name(before, name)
}

// The name of a recipe, which isn't taken.
#[tactic(auto, using(crate::proofs::Binds::binds), unfolding(crate::specs::Books::name_at, crate::specs::Books::free_name))]
fn name_at(
    alloc: Global,
    tree: &Tree,
    bytes: &[u8],
    places: &[Place],
    before: &[Written],
    s: Slot,
) -> Result<Text, RecipeFault>
    requires bytes { length bytes.now ≡ end_of tree.now }
    requires places { places.now ≡ leaf_places bytes.now tree.now }
    requires slot { IsSlot tree.now s }
    ensures { Gives result (name_at bytes.now tree.now before.now s) }
{
    let name = text_at(alloc, tree, bytes, places, s)?;
    if is_taken(before, name.as_slice()) {
        return Err(RecipeFault::Wrong {
            number: 3,
            place: Some(leaf_place(tree, bytes, places, value_leaf(tree, s))),
        });
    }
    Ok(name)
}

// `true` or `false`.
#[tactic(auto, using(crate::proofs::Binds::binds), unfolding(crate::specs::Books::flag_of))]
fn flag_of(
    tree: &Tree,
    bytes: &[u8],
    places: &[Place],
    s: Slot,
    text: &[u8],
) -> Result<bool, RecipeFault>
    requires bytes { length bytes.now ≡ end_of tree.now }
    requires places { places.now ≡ leaf_places bytes.now tree.now }
    requires slot { IsSlot tree.now s }
    ensures { Gives result (flag_of bytes.now tree.now s text.now) }
{
    if text == b"true".as_slice() {
        return Ok(true);
    }
    if text == b"false".as_slice() {
        return Ok(false);
    }
    Err(cannot_stand(tree, bytes, places, value_leaf(tree, s)))
}

// A value that is one of them.
#[tactic(auto, using(crate::proofs::Binds::binds), unfolding(crate::specs::Books::flag_at))]
fn flag_at(
    alloc: Global,
    tree: &Tree,
    bytes: &[u8],
    places: &[Place],
    s: Slot,
) -> Result<bool, RecipeFault>
    requires bytes { length bytes.now ≡ end_of tree.now }
    requires places { places.now ≡ leaf_places bytes.now tree.now }
    requires slot { IsSlot tree.now s }
    ensures { Gives result (flag_at bytes.now tree.now s) }
{
    let text = text_at(alloc, tree, bytes, places, s)?;
    let flag = flag_of(tree, bytes, places, s, text.as_slice())?;
    Ok(flag)
}

// Notes the type.
#[tactic(auto, using(crate::proofs::Binds::binds), unfolding(crate::specs::Books::with_type))]
fn with_type(
    tree: &Tree,
    bytes: &[u8],
    places: &[Place],
    l: u32,
    root: &mut Root,
) -> Result<(), RecipeFault>
    requires bytes { length bytes.now ≡ end_of tree.now }
    requires places { places.now ≡ leaf_places bytes.now tree.now }
    ensures { Leaves result root.new (with_type bytes.now tree.now root.old l) }
{
    once(tree, bytes, places, root.has_type, l)?;
    root.has_type = true;
    Ok(())
}

// Notes the name.
#[tactic(auto, using(crate::proofs::Binds::binds), unfolding(crate::specs::Books::with_name))]
fn with_name(
    alloc: Global,
    tree: &Tree,
    bytes: &[u8],
    places: &[Place],
    before: &[Written],
    l: u32,
    s: Slot,
    root: &mut Root,
) -> Result<(), RecipeFault>
    requires bytes { length bytes.now ≡ end_of tree.now }
    requires places { places.now ≡ leaf_places bytes.now tree.now }
    requires slot { IsSlot tree.now s }
    ensures { Leaves result root.new (with_name bytes.now tree.now before.now root.old l s) }
{
    once(tree, bytes, places, root.name.is_some(), l)?;
    root.name = Some(name_at(alloc, tree, bytes, places, before, s)?);
    Ok(())
}

// Notes the preconditions.
#[tactic(auto, using(crate::proofs::Binds::binds), unfolding(crate::specs::Books::with_conditions))]
fn with_conditions(
    alloc: Global,
    tree: &Tree,
    bytes: &[u8],
    places: &[Place],
    l: u32,
    s: Slot,
    root: &mut Root,
) -> Result<(), RecipeFault>
    requires bytes { length bytes.now ≡ end_of tree.now }
    requires places { places.now ≡ leaf_places bytes.now tree.now }
    requires slot { IsSlot tree.now s }
    ensures { Leaves result root.new (with_conditions bytes.now tree.now root.old l s) }
{
    once(tree, bytes, places, root.conditions.is_some(), l)?;
    root.conditions = Some(entries_at(alloc, tree, bytes, places, s)?);
    Ok(())
}

// Notes the list.
#[tactic(auto, using(crate::proofs::Binds::binds), unfolding(crate::specs::Books::with_list))]
fn with_list(
    alloc: Global,
    tree: &Tree,
    bytes: &[u8],
    places: &[Place],
    l: u32,
    s: Slot,
    root: &mut Root,
) -> Result<(), RecipeFault>
    requires bytes { length bytes.now ≡ end_of tree.now }
    requires places { places.now ≡ leaf_places bytes.now tree.now }
    requires slot { IsSlot tree.now s }
    ensures { Leaves result root.new (with_list bytes.now tree.now root.old l s) }
{
    once(tree, bytes, places, root.list.is_some(), l)?;
    root.list = Some(entries_at(alloc, tree, bytes, places, s)?);
    Ok(())
}

// Notes whether there may be another cycle.
#[tactic(auto, using(crate::proofs::Binds::binds), unfolding(crate::specs::Books::with_again))]
fn with_again(
    alloc: Global,
    tree: &Tree,
    bytes: &[u8],
    places: &[Place],
    l: u32,
    s: Slot,
    root: &mut Root,
) -> Result<(), RecipeFault>
    requires bytes { length bytes.now ≡ end_of tree.now }
    requires places { places.now ≡ leaf_places bytes.now tree.now }
    requires slot { IsSlot tree.now s }
    ensures { Leaves result root.new (with_again bytes.now tree.now root.old l s) }
{
    once(tree, bytes, places, root.again.is_some(), l)?;
    root.again = Some(flag_at(alloc, tree, bytes, places, s)?);
    Ok(())
}

// Notes an entry with a key at leaf l.
#[tactic(auto, using(crate::proofs::Binds::binds), unfolding(crate::specs::Books::with_root_entry))]
fn with_root_entry(
    alloc: Global,
    tree: &Tree,
    bytes: &[u8],
    places: &[Place],
    before: &[Written],
    key: RootKey,
    l: u32,
    s: Slot,
    root: &mut Root,
) -> Result<(), RecipeFault>
    requires bytes { length bytes.now ≡ end_of tree.now }
    requires places { places.now ≡ leaf_places bytes.now tree.now }
    requires slot { IsSlot tree.now s }
    ensures { Leaves result root.new (with_root_entry bytes.now tree.now before.now root.old key l s) }
{
    match key {
        RootKey::Type => with_type(tree, bytes, places, l, root),
        RootKey::Name => with_name(alloc, tree, bytes, places, before, l, s, root),
        RootKey::Preconditions => with_conditions(alloc, tree, bytes, places, l, s, root),
        RootKey::RecipeList => with_list(alloc, tree, bytes, places, l, s, root),
        RootKey::CausesAnotherCycle => with_again(alloc, tree, bytes, places, l, s, root),
        RootKey::Unknown => Ok(()),
    }
}

// Notes a node of a root mapping.
#[tactic(auto, using(crate::proofs::Binds::binds), unfolding(crate::specs::Books::with_node))]
fn with_node(
    alloc: Global,
    tree: &Tree,
    bytes: &[u8],
    places: &[Place],
    before: &[Written],
    n: NodeId,
    root: &mut Root,
) -> Result<(), RecipeFault>
    requires bytes { length bytes.now ≡ end_of tree.now }
    requires places { places.now ≡ leaf_places bytes.now tree.now }
    requires node { IsNode tree.now n }
    ensures { Leaves result root.new (with_node bytes.now tree.now before.now root.old n) }
{
    let Some(l) = entry_key(tree, n) else {
        return Ok(());
    };
    let key = root_key(alloc, tree, bytes, l)?;
    let s = entry_value(tree, n);
    with_root_entry(alloc, tree, bytes, places, before, key, l, s, root)?;
    Ok(())
}

// What the nodes of a root mapping say.
fn with_nodes(
    alloc: Global,
    tree: &Tree,
    bytes: &[u8],
    places: &[Place],
    before: &[Written],
    nodes: &[NodeId],
) -> Result<Root, RecipeFault>
    requires bytes { length bytes.now ≡ end_of tree.now }
    requires places { places.now ≡ leaf_places bytes.now tree.now }
    requires nodes { AreNodes tree.now nodes.now }
    ensures { Gives result (each (with_node bytes.now tree.now before.now) no_root nodes.now) }
{
    let mut root = Root {
        has_type: false,
        name: None,
        conditions: None,
        list: None,
        again: None,
    };
    for n in nodes {
        with_node(alloc, tree, bytes, places, before, *n, &mut root)?;
    }
    Ok(root)
}

// The entries that are there.
fn entries_or_none(alloc: Global, entries: Option<Items<WrittenEntry>>) -> Items<WrittenEntry>
    ensures { result ≡ unwrap_or entries [] }
{
    match entries {
        Some(entries) => entries,
        None => Items::new(alloc),
    }
}

// The recipe of a root mapping.
#[tactic(auto, using(crate::proofs::Binds::binds), unfolding(crate::specs::Books::finished))]
fn finished(
    alloc: Global,
    tree: &Tree,
    bytes: &[u8],
    places: &[Place],
    mapping: NodeId,
    root: Root,
) -> Result<Written, RecipeFault>
    requires bytes { length bytes.now ≡ end_of tree.now }
    requires places { places.now ≡ leaf_places bytes.now tree.now }
    requires mapping { IsNode tree.now mapping }
    ensures { Gives result (finished bytes.now tree.now mapping root) }
{
    let Root {
        has_type: _,
        name,
        conditions,
        list,
        again,
    } = root;
    let last = last_leaf(tree, mapping);
    let Some(name) = name else {
        return Err(cannot_stand(tree, bytes, places, last));
    };
    let Some(list) = list else {
        return Err(cannot_stand(tree, bytes, places, last));
    };
    Ok(Written {
        name,
        conditions: entries_or_none(alloc, conditions),
        list,
        again: again.unwrap_or(false),
    })
}

// The recipe of a document.
#[tactic(auto, using(crate::proofs::Binds::binds), unfolding(crate::specs::Books::recipe_of))]
fn recipe_of(
    alloc: Global,
    tree: &Tree,
    bytes: &[u8],
    places: &[Place],
    before: &[Written],
    mapping: NodeId,
    nodes: &[NodeId],
) -> Result<Written, RecipeFault>
    requires bytes { length bytes.now ≡ end_of tree.now }
    requires places { places.now ≡ leaf_places bytes.now tree.now }
    requires mapping { IsNode tree.now mapping }
    requires nodes { AreNodes tree.now nodes.now }
    requires kids { nodes.now ≡ nodes_of tree.now mapping }
    ensures { Gives result (recipe_of bytes.now tree.now before.now mapping) }
{
    let root = with_nodes(alloc, tree, bytes, places, before, nodes)?;
    let written = finished(alloc, tree, bytes, places, mapping, root)?;
    Ok(written)
}

// Whether a node of a mapping is an entry with the type of a recipe.
#[tactic(auto, unfolding(crate::specs::Books::has_recipe_type))]
fn has_recipe_type(alloc: Global, tree: &Tree, bytes: &[u8], n: NodeId) -> Mem<bool>
    requires node { IsNode tree.now n }
    requires bytes { length bytes.now ≡ end_of tree.now }
    ensures { IfOk result (λ has. has ≡ has_recipe_type bytes.now tree.now n) }
{
    let Some(l) = entry_key(tree, n) else {
        return Ok(false);
    };
    let key = root_key(alloc, tree, bytes, l)?;
    let value = value_at(alloc, tree, bytes, entry_value(tree, n))?;
    Ok(is_type(key) && says_recipe(&value))
}

// Whether one of the nodes is.
#[tactic(auto, using(crate::proofs::Binds::any_by))]
fn has_recipe(alloc: Global, tree: &Tree, bytes: &[u8], nodes: &[NodeId]) -> Mem<bool>
    requires nodes { AreNodes tree.now nodes.now }
    requires bytes { length bytes.now ≡ end_of tree.now }
    ensures { IfOk result (λ has. has ≡ list_any (has_recipe_type bytes.now tree.now) nodes.now) }
{
    for n in nodes {
        if has_recipe_type(alloc, tree, bytes, *n)? {
            return Ok(true);
        }
    }
    Ok(false)
}

// Adds the recipe of a mapping, if it is that of one.
#[tactic(auto, using(crate::proofs::Binds::binds), unfolding(crate::specs::Books::with_mapping))]
fn with_mapping(
    alloc: Global,
    tree: &Tree,
    bytes: &[u8],
    places: &[Place],
    mapping: NodeId,
    recipes: &mut Items<Written>,
) -> Result<(), RecipeFault>
    requires bytes { length bytes.now ≡ end_of tree.now }
    requires places { places.now ≡ leaf_places bytes.now tree.now }
    requires mapping { IsNode tree.now mapping }
    ensures { Leaves result recipes.new (with_mapping bytes.now tree.now recipes.old mapping) }
{
    let nodes = nodes_of(alloc, tree, mapping)?;
    if !has_recipe(alloc, tree, bytes, nodes.as_slice())? {
        return Ok(());
    }
    let before = recipes.as_slice();
    let new = recipe_of(
        alloc,
        tree,
        bytes,
        places,
        before,
        mapping,
        nodes.as_slice(),
    )?;
    recipes.push(new)?;
    Ok(())
}

// Adds the recipe of a document, if it has one.
#[tactic(auto, using(crate::proofs::Binds::binds), unfolding(crate::specs::Books::with_document))]
fn with_document(
    alloc: Global,
    tree: &Tree,
    bytes: &[u8],
    places: &[Place],
    n: NodeId,
    recipes: &mut Items<Written>,
) -> Result<(), RecipeFault>
    requires bytes { length bytes.now ≡ end_of tree.now }
    requires places { places.now ≡ leaf_places bytes.now tree.now }
    requires node { IsNode tree.now n }
    ensures { Leaves result recipes.new (with_document bytes.now tree.now recipes.old n) }
{
    match value_at(alloc, tree, bytes, document_value(tree, n))? {
        Value::Mapping(mapping) => {
            with_mapping(alloc, tree, bytes, places, mapping, recipes)?;
            Ok(())
        }
        Value::Sequence(_) => Ok(()),
        Value::Scalar(_) => Ok(()),
        Value::Other => Ok(()),
    }
}

// The place of a byte, from one that is mostly before it.
fn place_from(bytes: &[u8], last: Place, at: u32) -> Place
    requires last { last ≡ place_at bytes.now last.byte }
    requires inside { at ≤ length bytes.now }
    requires small { length bytes.now ≤ MOST_BYTES }
    ensures { result ≡ place_at bytes.now at }
{
    if last.byte <= at {
        place_after(bytes, last, at as usize)
    } else {
        place_of(bytes, at as usize)
    }
}

// Where the texts of all leaves begin.
#[tactic(auto, using(crate::proofs::LeafPlaces::all_places))]
fn leaf_places(alloc: Global, tree: &Tree, bytes: &[u8]) -> Mem<Vec<Place>>
    requires bytes { length bytes.now ≡ end_of tree.now }
    requires small { length bytes.now ≤ MOST_BYTES }
    ensures { IfOk result (λ places. places.items ≡ leaf_places bytes.now tree.now) }
{
    let mut places = Vec::with_capacity(alloc, tree.leaf_count() as usize)?;
    let mut last = place_of(bytes, 0);
    for l in 0..tree.leaf_count() {
        last = place_from(bytes, last, tree.leaf(l).from);
        places.push(last)?;
    }
    Ok(places)
}

// The recipes of all documents.
fn documents(
    alloc: Global,
    tree: &Tree,
    bytes: &[u8],
    places: &[Place],
    n: NodeId,
) -> Result<Items<Written>, RecipeFault>
    requires bytes { length bytes.now ≡ end_of tree.now }
    requires places { places.now ≡ leaf_places bytes.now tree.now }
    requires node { IsNode tree.now n }
    ensures { Gives result (each (with_document bytes.now tree.now) [] (nodes_of tree.now n)) }
{
    let nodes = nodes_of(alloc, tree, n)?;
    let mut recipes = Items::new(alloc);
    for m in &nodes {
        with_document(alloc, tree, bytes, places, *m, &mut recipes)?;
    }
    Ok(recipes)
}

// A book without recipes.
fn no_book(alloc: Global) -> RecipeBook
    ensures { result ≡ record { recipes = [] } }
{
    RecipeBook {
        recipes: Items::new(alloc),
    }
}

// The book of a file with a tree.
#[tactic(auto, using(crate::proofs::Binds::binds), unfolding(crate::specs::Books::book_in))]
fn book_in(alloc: Global, tree: &Tree, bytes: &[u8]) -> Result<RecipeBook, RecipeFault>
    requires bytes { length bytes.now ≡ end_of tree.now }
    requires small { length bytes.now ≤ MOST_BYTES }
    ensures { Gives result (book_in bytes.now tree.now) }
{
    let places = leaf_places(alloc, tree, bytes)?;
    let recipes = documents(alloc, tree, bytes, places.as_slice(), tree.root())?;
    Ok(RecipeBook { recipes })
}

// The book of a file, by what it reads as.
#[tactic(auto, using(crate::proofs::BookSteps::readings))]
fn book_of(alloc: Global, bytes: &[u8], reading: &Reading) -> Result<RecipeBook, RecipeFault>
    requires reading { IsReading (codes "recipes.yml") (Some bytes.now) reading.now }
    requires whole { EndsWith bytes.now reading.now }
    ensures { Gives result (book_of bytes.now reading.now) }
{
    match reading {
        Reading::Yaml(tree) => book_in(alloc, tree, bytes),
        Reading::Refused(refused) => Err(RecipeFault::Wrong {
            number: 1,
            place: Some(refused.place),
        }),
        Reading::Java(_) => Ok(no_book(alloc)),
        Reading::Properties(_) => Ok(no_book(alloc)),
        Reading::Unread => Ok(no_book(alloc)),
    }
}

// The bytes of a file once more.
fn copied(alloc: Global, bytes: &[u8]) -> Mem<Shared<Text>>
    ensures { IfOk result (λ text. text ≡ bytes.now) }
{
    let text = Text::from_slice(alloc, bytes)?;
    Shared::new(alloc, text)
}

/// The recipes of a recipe file, or its first fault: 1 where it is no YAML that is accepted, 2 at a leaf of a recipe's
/// document that can't stand, 3 at a name that an earlier document or this project defines. It takes no steps.
pub fn read_recipes<L: Ledger>(
    alloc: Global,
    readers: &Readers,
    bytes: &[u8],
    steps: &mut Steps<L>,
) -> Result<RecipeBook, RecipeFault>
    ensures book { (read : Reads) → AreReadings read → IfOk result (λ book. recipes_in read bytes.now ≡ Ok book) }
    ensures fault { (read : Reads) → AreReadings read → IfErr result (λ fault.
        fault ≢ RecipeFault.NoMemory → recipes_in read bytes.now ≡ Err fault) }
{
    let text = copied(alloc, bytes)?;
    let reading = readers.read_file(alloc, "recipes.yml", &text, steps)?;
    let book = book_of(alloc, bytes, &reading)?;
    Ok(book)
}
