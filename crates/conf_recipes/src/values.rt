// Values that change.
ghost use Rattle.std.specs.Prelude.{◌≡◌, ◌<◌, ◌++◌, length, IfOk, OnOk};
ghost use Rattle.rw_base.specs.NewText.{AreEdits};
ghost use Rattle.properties_tree.specs.Decoding.{entry_at, value_text};
ghost use Rattle.properties_tree.specs.Entries.{bytes_of, properties_of};
ghost use Rattle.properties_tree.specs.Layout.{tree_of};
ghost use Rattle.conf_recipes.specs.PathPatterns.{is_empty};
ghost use Rattle.conf_recipes.specs.PropertiesRecipes.{is_old_value, gets_value, text_edit, separator_edits};
ghost use Rattle.conf_recipes.specs.PropertiesRecipes.{value_edits, values_of};

use crate::deleting::is_of_key;
use properties_tree::{ChangePropertyValue, entry_count, key_leaf, spell_value, value_of};
use rw_base::{Edit, Item, Mem, NodeId, Spot, Text, Tree};
use sqlite_items::Items;
use std::alloc::Global;

// The edit that puts a text in the place of a leaf's.
pub(crate) fn text_edit(alloc: Global, leaf: u32, text: Vec<u8>) -> Mem<Edit>
    ensures { IfOk result (λ edit. edit ≡ text_edit leaf text.items) }
{
    let mut items = Vec::with_capacity(alloc, 1)?;
    items.push(Item::Text(Text::from_vec(text)))?;
    Ok(Edit {
        spot: Spot::Leaf(leaf),
        items: Items::from_vec(items),
    })
}

// Whether an entry's value is the old one, where one is given.
#[tactic(auto, using(crate::proofs::ValueEdits::old_values))]
fn is_old_value(alloc: Global, tree: &Tree, bytes: &[u8], n: u32, old: &Option<Text>) -> Mem<bool>
    requires tree { tree.now ≡ tree_of bytes.now }
    requires there { n < length (properties_of bytes.now).entries }
    ensures { IfOk result (λ same. same ≡ is_old_value old.now (value_text (entry_at bytes.now n))) }
{
    match old {
        Some(old) => {
            let value = value_of(alloc, tree, bytes, NodeId(n))?;
            Ok(value.as_slice() == old.as_slice())
        }
        None => Ok(true),
    }
}

// Whether an entry gets the new value.
#[tactic(auto, using(crate::proofs::ValueEdits::new_values))]
fn gets_value(
    alloc: Global,
    tree: &Tree,
    bytes: &[u8],
    n: u32,
    options: &ChangePropertyValue,
) -> Mem<bool>
    requires tree { tree.now ≡ tree_of bytes.now }
    requires there { n < length (properties_of bytes.now).entries }
    ensures { IfOk result (λ gets. gets ≡ gets_value options.now (entry_at bytes.now n)) }
{
    if !is_of_key(alloc, tree, bytes, n, options.property_key.as_slice())? {
        return Ok(false);
    }
    let same = is_old_value(alloc, tree, bytes, n, &options.old_value)?;
    Ok(same)
}

// Whether nothing stands between an entry's key and its value.
#[tactic(auto, using(crate::proofs::LeafSizes::separator_sizes))]
fn has_no_separator(tree: &Tree, bytes: &[u8], n: u32) -> bool
    requires tree { tree.now ≡ tree_of bytes.now }
    requires there { n < length (properties_of bytes.now).entries }
    ensures { result ≡ is_empty (bytes_of (entry_at bytes.now n).separator) }
{
    let _ = entry_count(tree, bytes);
    let leaf = tree.leaf(key_leaf(tree, bytes, NodeId(n)) + 1);
    leaf.from == leaf.to
}

// Adds the edit in which an empty separator becomes `=`.
#[tactic(auto, using(crate::proofs::ValueEdits::separators))]
fn push_separator(
    alloc: Global,
    edits: &mut Vec<Edit>,
    tree: &Tree,
    bytes: &[u8],
    n: u32,
) -> Mem<()>
    requires tree { tree.now ≡ tree_of bytes.now }
    requires there { n < length (properties_of bytes.now).entries }
    ensures { OnOk result (edits.new.items ≡ edits.old.items ++ separator_edits n (entry_at bytes.now n)) }
{
    if !has_no_separator(tree, bytes, n) {
        return Ok(());
    }
    let text = Vec::from_slice(alloc, b"=")?;
    let leaf = key_leaf(tree, bytes, NodeId(n)) + 1;
    edits.push(text_edit(alloc, leaf, text)?)?;
    Ok(())
}

// Adds the edits in which an entry gets a value.
#[tactic(auto, using(crate::proofs::ValueEdits::values_pushed))]
fn push_value(
    alloc: Global,
    edits: &mut Vec<Edit>,
    tree: &Tree,
    bytes: &[u8],
    n: u32,
    value: &[u8],
) -> Mem<()>
    requires tree { tree.now ≡ tree_of bytes.now }
    requires there { n < length (properties_of bytes.now).entries }
    ensures { OnOk result (edits.new.items ≡ edits.old.items ++ value_edits value.now n (entry_at bytes.now n)) }
{
    push_separator(alloc, &mut *edits, tree, bytes, n)?;
    let _ = entry_count(tree, bytes);
    let leaf = key_leaf(tree, bytes, NodeId(n)) + 2;
    edits.push(text_edit(alloc, leaf, spell_value(alloc, value)?)?)?;
    Ok(())
}

// The edits of ChangePropertyValue, in the order of the entries.
#[tactic(auto, using(crate::proofs::ValueEdits::all_values))]
pub(crate) fn values_in_properties(
    alloc: Global,
    tree: &Tree,
    bytes: &[u8],
    options: &ChangePropertyValue,
) -> Mem<Vec<Edit>>
    requires { tree.now ≡ tree_of bytes.now }
    ensures edits { IfOk result (λ edits. edits.items ≡ values_of bytes.now options.now) }
    ensures fit { IfOk result (λ edits. AreEdits tree.now edits.items) }
{
    let mut edits = Vec::new(alloc);
    for n in 0..entry_count(tree, bytes) {
        if gets_value(alloc, tree, bytes, n, options)? {
            push_value(
                alloc,
                &mut edits,
                tree,
                bytes,
                n,
                options.new_value.as_slice(),
            )?;
        }
    }
    Ok(edits)
}
