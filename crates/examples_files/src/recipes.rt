// Recipes on configuration files.
ghost use Rattle.std.specs.Prelude.{◌≡◌, length};
ghost use Rattle.rw_base.specs.Arena.{end_of};
ghost use Rattle.properties_tree.specs.Layout.{tree_of};

use crate::properties::{put_made, tree_in};
use conf_recipes::{edits_in_properties, renamed_in_properties};
use examples_base::{Answer, Words};
use properties_tree::PropertiesChangePropertyKey;
use rw_base::{MOST_BYTES, Text, Tree, rearranged};
use std::alloc::Global;

// A renaming of a key.
fn renaming(alloc: Global, old: &[u8], new: &[u8]) -> Option<PropertiesChangePropertyKey> {
    let old_property_key = Text::from_slice(alloc, old).ok()?;
    let new_property_key = Text::from_slice(alloc, new).ok()?;
    Some(PropertiesChangePropertyKey {
        old_property_key,
        new_property_key,
    })
}

// Writes how many edits a renaming makes in the tree of a file, and the new text.
fn put_edited(
    alloc: Global,
    tree: &Tree,
    bytes: &[u8],
    options: &PropertiesChangePropertyKey,
    out: &mut Answer,
)
    requires tree { tree.now ≡ tree_of bytes.now }
    requires size { length bytes.now ≡ end_of tree.now }
{
    match edits_in_properties(alloc, tree, bytes, options) {
        Ok(edits) => {
            out.put_number(edits.len());
            out.put(" edits, ");
            put_made(rearranged(alloc, tree, bytes, &edits), out);
        }
        Err(_) => out.refuse("memory"),
    }
}

// Writes what a renaming in one pass gives, which is nothing where nothing is renamed.
fn put_in_one_pass(
    alloc: Global,
    bytes: &[u8],
    options: &PropertiesChangePropertyKey,
    out: &mut Answer,
) {
    if bytes.len() > MOST_BYTES {
        out.refuse("file of that size");
        return;
    }
    match renamed_in_properties(alloc, bytes, options) {
        Ok(Some(text)) => put_made(Ok(text), out),
        Ok(None) => out.put("none"),
        Err(_) => out.refuse("memory"),
    }
}

/// Writes the new text of a properties file with a key renamed: by the edits of its tree, and in one pass.
pub fn put_renaming(alloc: Global, bytes: &[u8], old: &[u8], new: &[u8], out: &mut Answer) {
    let Some(options) = renaming(alloc, old, new) else {
        out.refuse("memory");
        return;
    };
    if let Some(tree) = tree_in(alloc, bytes, out) {
        put_edited(alloc, &tree, bytes, &options, out);
    }
    out.put(", in one pass ");
    put_in_one_pass(alloc, bytes, &options, out);
}

/// Writes the same for a file with the old key and the new key behind it.
pub fn put_renamed(alloc: Global, words: &Words, out: &mut Answer) {
    let bytes = words.quoted(0, out);
    let old = words.quoted(1, out);
    let new = words.quoted(2, out);
    put_renaming(alloc, bytes, old, new, out);
}
