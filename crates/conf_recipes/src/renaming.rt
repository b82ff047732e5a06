// A renaming of keys in one pass over a file's bytes.
ghost use Rattle.std.specs.Prelude.{◌≡◌, ◌≤◌, ◌++◌, is_some, length, slice_range, IfOk, OnOk};
ghost use Rattle.std.specs.Option.{option_map};
ghost use Rattle.properties_tree.specs.Entries.{properties_of};
ghost use Rattle.properties_tree.specs.Keys.{IsKeyPlace, with_key};
ghost use Rattle.conf_recipes.specs.PropertiesEdits.{EditsWriteKeys, IsRenamed};
ghost use Rattle.conf_recipes.specs.PropertiesRecipes.{has_entry};

use properties_tree::{KeyPlace, PropertiesChangePropertyKey, next_with_key, spell_key};
use rw_base::{MOST_BYTES, Mem};
use std::alloc::Global;

/// The new text of a properties file that isn't too large, with the edits of a renaming, is the file with the keys that
/// say the old key written as the new one is spelled, and every other byte as it was: a law, whose function does
/// nothing.
pub fn edits_write_keys()
    ensures { EditsWriteKeys }
{
    properties_tree::parts_are_the_file();
    properties_tree::files_have_trees();
}

// Copies the bytes from one place to another and writes a key.
fn push_key(out: &mut Vec<u8>, bytes: &[u8], from: usize, to: usize, spelled: &[u8]) -> Mem<()>
    requires ordered { from ≤ to }
    requires inside { to ≤ length bytes.now }
    ensures { OnOk result (out.new.items ≡ (out.old.items ++ slice_range bytes.now from to) ++ spelled.now) }
{
    out.extend_from_slice(&bytes[from..to])?;
    out.extend_from_slice(spelled)?;
    Ok(())
}

// The bytes of a file whose first entry with the key stands here, with each such key written anew.
fn write_keys(
    alloc: Global,
    bytes: &[u8],
    first: KeyPlace,
    key: &[u8],
    spelled: &[u8],
) -> Mem<Vec<u8>>
    requires { IsKeyPlace key.now bytes.now 0 first }
    ensures { IfOk result (λ text. text.items ≡ with_key key.now spelled.now bytes.now) }
{
    let mut out = Vec::with_capacity(alloc, bytes.len().saturating_add(spelled.len()))?;
    let mut copied = 0;
    let mut next = Some(first);
    while let Some(place) = next {
        push_key(&mut out, bytes, copied, place.from, spelled)?;
        copied = place.to;
        next = next_with_key(alloc, bytes, place.next, key)?;
    }
    out.extend_from_slice(&bytes[copied..])?;
    Ok(out)
}

/// The new text of a properties file of at most `MOST_BYTES`, with the edits of
/// `org.openrewrite.properties.ChangePropertyKey`; `None` where it makes none. It makes no tree and no edits.
#[tactic(auto, using(crate::proofs::Lacking::entries_told))]
pub fn renamed_in_properties(
    alloc: Global,
    bytes: &[u8],
    options: &PropertiesChangePropertyKey,
) -> Mem<Option<Vec<u8>>>
    requires { length bytes.now ≤ MOST_BYTES }
    ensures text { IfOk result (λ text. IsRenamed bytes.now options.now (option_map (λ v. v.items) text)) }
    ensures edits { IfOk result (λ text.
        is_some text ≡ has_entry options.now.old_property_key (properties_of bytes.now).entries) }
{
    edits_write_keys();
    let key = options.old_property_key.as_slice();
    let Some(first) = next_with_key(alloc, bytes, 0, key)? else {
        return Ok(None);
    };
    let spelled = spell_key(alloc, options.new_property_key.as_slice())?;
    Ok(Some(write_keys(alloc, bytes, first, key, &spelled)?))
}
