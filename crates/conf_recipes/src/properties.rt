// Recipes on properties files.
ghost use Rattle.std.specs.Prelude.{◌≡◌, IfOk, length};
ghost use Rattle.rw_base.specs.NewText.{AreEdits, AreLeafEdits};
ghost use Rattle.properties_tree.specs.Layout.{tree_of};
ghost use Rattle.conf_recipes.specs.PropertiesEdits.{key_edit, edits_of};

use properties_tree::{PropertiesChangePropertyKey, entry_count, has_key, key_leaf, spell_key};
use rw_base::{Edit, Item, Mem, NodeId, Spot, Text, Tree};
use sqlite_items::Items;
use std::alloc::Global;

// The edit that puts a key, spelled, in the place of a leaf's text.
fn key_edit(alloc: Global, leaf: u32, key: &[u8]) -> Mem<Edit>
    ensures { IfOk result (λ edit. edit ≡ key_edit leaf key.now) }
{
    let spelled = spell_key(alloc, key)?;
    let mut items = Vec::with_capacity(alloc, 1)?;
    items.push(Item::Text(Text::from_vec(spelled)))?;
    Ok(Edit {
        spot: Spot::Leaf(leaf),
        items: Items::from_vec(items),
    })
}

/// The edits of `org.openrewrite.properties.ChangePropertyKey`: the Key leaf of each entry with the old key gets the
/// spelled new key. The edits come in the order of the entries.
pub fn edits_in_properties(
    alloc: Global,
    tree: &Tree,
    bytes: &[u8],
    options: &PropertiesChangePropertyKey,
) -> Mem<Vec<Edit>>
    requires { tree.now ≡ tree_of bytes.now }
    ensures edits { IfOk result (λ edits. edits.items ≡ edits_of bytes.now options.now) }
    ensures leaves { IfOk result (λ edits. AreLeafEdits (length tree.now.leaves) edits.items) }
    ensures fit { IfOk result (λ edits. AreEdits tree.now edits.items) }
{
    let mut edits = Vec::new(alloc);
    for n in 0..entry_count(tree, bytes) {
        let entry = NodeId(n);
        let same = has_key(
            alloc,
            tree,
            bytes,
            entry,
            options.old_property_key.as_slice(),
        )?;
        if same {
            let leaf = key_leaf(tree, bytes, entry);
            edits.push(key_edit(alloc, leaf, options.new_property_key.as_slice())?)?;
        }
    }
    Ok(edits)
}
