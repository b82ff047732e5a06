// Entries that go, each with its line end.
ghost use Rattle.std.specs.Prelude.{◌≡◌, ◌<◌, ◌≤◌, length, take, IfOk};
ghost use Rattle.std.specs.Str.{bytes_eq};
ghost use Rattle.rw_base.specs.NewText.{AreEdits};
ghost use Rattle.properties_tree.specs.Characters.{is_line_end};
ghost use Rattle.properties_tree.specs.Decoding.{entry_at, key_text};
ghost use Rattle.properties_tree.specs.Entries.{properties_of};
ghost use Rattle.properties_tree.specs.Layout.{tree_of};
ghost use Rattle.conf_recipes.specs.PropertiesRecipes.{through_last_end, delete_edit, deletes_of};

use properties_tree::{DeleteProperty, entry_count, has_key, prefix_of_entry};
use rw_base::{Edit, Item, Mem, NodeId, Spot, Text, Tree};
use sqlite_items::Items;
use std::alloc::Global;

pub(crate) fn is_line_end(b: u8) -> bool
    ensures { result ≡ is_line_end b }
{
    b == b'\n' || b == b'\r'
}

// How far a text goes up to its last line end.
#[tactic(auto, using(crate::proofs::LastEnd::last_ends))]
fn length_to_last_end(text: &[u8]) -> usize
    ensures kept { take result text.now ≡ through_last_end text.now }
    ensures inside { result ≤ length text.now }
{
    let mut kept = 0;
    for i in 0..text.len() {
        if is_line_end(text[i]) {
            kept = i + 1;
        }
    }
    kept
}

// The edit in which an entry goes, and of its prefix the part up to its last line end stays.
#[tactic(auto, using(crate::proofs::Deleted::edit_by))]
fn delete_edit(alloc: Global, tree: &Tree, bytes: &[u8], n: u32) -> Mem<Edit>
    requires tree { tree.now ≡ tree_of bytes.now }
    requires there { n < length (properties_of bytes.now).entries }
    ensures { IfOk result (λ edit. edit ≡ delete_edit n (entry_at bytes.now n)) }
{
    let prefix = prefix_of_entry(tree, bytes, NodeId(n));
    let kept = Text::from_slice(alloc, &prefix[..length_to_last_end(prefix)])?;
    let mut items = Vec::with_capacity(alloc, 1)?;
    items.push(Item::Text(kept))?;
    Ok(Edit {
        spot: Spot::Node(NodeId(n)),
        items: Items::from_vec(items),
    })
}

// Whether an entry has this key.
#[tactic(auto, using(crate::proofs::Deleted::told))]
pub(crate) fn is_of_key(alloc: Global, tree: &Tree, bytes: &[u8], n: u32, key: &[u8]) -> Mem<bool>
    requires tree { tree.now ≡ tree_of bytes.now }
    requires there { n < length (properties_of bytes.now).entries }
    ensures { IfOk result (λ same. same ≡ bytes_eq (key_text (entry_at bytes.now n)) key.now) }
{
    let same = has_key(alloc, tree, bytes, NodeId(n), key)?;
    Ok(same)
}

// The edits of DeleteProperty, in the order of the entries.
#[tactic(auto, using(crate::proofs::Deleted::all_deletes))]
pub(crate) fn deletes_in_properties(
    alloc: Global,
    tree: &Tree,
    bytes: &[u8],
    options: &DeleteProperty,
) -> Mem<Vec<Edit>>
    requires { tree.now ≡ tree_of bytes.now }
    ensures edits { IfOk result (λ edits. edits.items ≡ deletes_of bytes.now options.now) }
    ensures fit { IfOk result (λ edits. AreEdits tree.now edits.items) }
{
    let mut edits = Vec::new(alloc);
    for n in 0..entry_count(tree, bytes) {
        if is_of_key(alloc, tree, bytes, n, options.property_key.as_slice())? {
            edits.push(delete_edit(alloc, tree, bytes, n)?)?;
        }
    }
    Ok(edits)
}
