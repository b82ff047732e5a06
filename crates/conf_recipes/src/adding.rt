// An entry that is added at the end of a file.
ghost use Rattle.std.specs.Prelude.{◌≡◌, ◌<◌, ◌+◌, ◌-◌, ◌^◌, ◌*◌, ◌++◌, length, IfOk, OnOk, if◌then◌else◌, ◌==◌};
ghost use Rattle.rw_base.specs.NewText.{AreEdits};
ghost use Rattle.properties_tree.specs.Characters.{backslash};
ghost use Rattle.properties_tree.specs.Entries.{properties_of};
ghost use Rattle.properties_tree.specs.Layout.{tree_of};
ghost use Rattle.properties_tree.specs.Lines.{is_continued};
ghost use Rattle.conf_recipes.specs.PathPatterns.{is_empty};
ghost use Rattle.conf_recipes.specs.PropertiesRecipes.{ending_at, first_line_end, ends_in_line_end};
ghost use Rattle.conf_recipes.specs.PropertiesRecipes.{line_end_before, added_text, ends_in_cr_lf, without_line_end};
ghost use Rattle.conf_recipes.specs.PropertiesRecipes.{is_unfinished, has_entry, adds_of};

use crate::deleting::{is_line_end, is_of_key};
use crate::values::text_edit;
use properties_tree::{AddProperty, entry_count, spell_key, spell_value};
use rw_base::{Edit, Mem, Tree};
use std::alloc::Global;

// The line end that a text begins with.
fn ending_at(text: &[u8]) -> &'static [u8]
    ensures { result.now ≡ ending_at text.now }
{
    match text {
        [b'\n', ..] => b"\n".as_slice(),
        [b'\r', b'\n', ..] => b"\r\n".as_slice(),
        [b'\r', ..] => b"\r".as_slice(),
        _ => b"".as_slice(),
    }
}

// The first line end of a file, LF where it has none.
#[tactic(auto, using(crate::proofs::Added::over_lines))]
fn first_line_end(bytes: &[u8]) -> &'static [u8]
    ensures { result.now ≡ first_line_end bytes.now }
{
    for i in 0..bytes.len() {
        if is_line_end(bytes[i]) {
            return ending_at(&bytes[i..]);
        }
    }
    b"\n".as_slice()
}

#[tactic(auto, using(crate::proofs::Added::last_bytes))]
fn ends_in_line_end(bytes: &[u8]) -> bool
    ensures { result ≡ ends_in_line_end bytes.now }
{
    if bytes.is_empty() {
        return false;
    }
    is_line_end(bytes[bytes.len() - 1])
}

// Adds the line end that goes before an entry at the end of a file: none where the file is empty or ends in one.
#[tactic(auto, using(crate::proofs::Added::line_ends))]
fn push_line_end_before(out: &mut Vec<u8>, bytes: &[u8]) -> Mem<()>
    ensures { OnOk result (out.new.items ≡ out.old.items ++ line_end_before bytes.now) }
{
    if bytes.is_empty() || ends_in_line_end(bytes) {
        return Ok(());
    }
    out.extend_from_slice(first_line_end(bytes))?;
    Ok(())
}

// The text of the entry, with the line ends before and behind it.
#[tactic(auto, using(crate::proofs::Added::texts))]
fn added_text(alloc: Global, bytes: &[u8], options: &AddProperty) -> Mem<Vec<u8>>
    ensures { IfOk result (λ text. text.items ≡ added_text bytes.now options.now) }
{
    let mut out = Vec::new(alloc);
    push_line_end_before(&mut out, bytes)?;
    let key = spell_key(alloc, options.property.as_slice())?;
    out.extend_from_slice(&key)?;
    out.push(b'=')?;
    let value = spell_value(alloc, options.value.as_slice())?;
    out.extend_from_slice(&value)?;
    out.extend_from_slice(first_line_end(bytes))?;
    Ok(out)
}

// How many backslashes stand up to a byte, by how many stand before it.
fn backslashes_to(b: u8, count: usize) -> usize
    requires { count < 2 ^ 64 - 1 }
    ensures { result ≡ (if b == backslash then count + 1 else 0) }
{
    if b == b'\\' { count + 1 } else { 0 }
}

// Whether a text ends in an odd number of backslashes.
#[tactic(auto, using(crate::proofs::Added::over_backslashes))]
fn is_continued(text: &[u8]) -> bool
    ensures { result ≡ is_continued text.now }
{
    let mut count = 0;
    for i in 0..text.len() {
        count = backslashes_to(text[i], count);
    }
    count % 2 == 1
}

#[tactic(auto, unfolding(crate::specs::PropertiesRecipes::ends_in_cr_lf))]
fn ends_in_cr_lf(bytes: &[u8]) -> bool
    ensures { result ≡ ends_in_cr_lf bytes.now }
{
    &bytes[bytes.len().saturating_sub(2)..] == b"\r\n".as_slice()
}

// A text without the line end behind it, if it ends in one.
#[tactic(auto, unfolding(crate::specs::PropertiesRecipes::without_line_end))]
fn without_line_end(bytes: &[u8]) -> &[u8]
    ensures { result.now ≡ without_line_end bytes.now }
{
    if ends_in_cr_lf(bytes) {
        &bytes[..bytes.len().saturating_sub(2)]
    } else if ends_in_line_end(bytes) {
        &bytes[..bytes.len().saturating_sub(1)]
    } else {
        bytes
    }
}

// The number of the leaf that is the end of a file.
fn end_leaf(tree: &Tree, bytes: &[u8]) -> u32
    requires { tree.now ≡ tree_of bytes.now }
    ensures number { result ≡ 4 * length (properties_of bytes.now).entries }
    ensures inside { result < length tree.now.leaves }
{
    let _ = entry_count(tree, bytes);
    tree.leaf_count() - 1
}

// Whether nothing stands behind a file's last entry.
#[tactic(auto, using(crate::proofs::LeafSizes::rest_sizes))]
fn has_no_rest(tree: &Tree, bytes: &[u8]) -> bool
    requires { tree.now ≡ tree_of bytes.now }
    ensures { result ≡ is_empty (properties_of bytes.now).rest }
{
    let end = tree.leaf(end_leaf(tree, bytes));
    end.prefix_from == end.from
}

// Whether the last entry of a file goes on into nothing.
#[tactic(auto, unfolding(crate::specs::PropertiesRecipes::is_unfinished))]
fn is_unfinished(tree: &Tree, bytes: &[u8]) -> bool
    requires { tree.now ≡ tree_of bytes.now }
    ensures { result ≡ is_unfinished bytes.now }
{
    has_no_rest(tree, bytes) && is_continued(without_line_end(bytes))
}

// Whether an entry has this key.
#[tactic(auto, using(crate::proofs::Added::over_entries))]
fn has_entry(alloc: Global, tree: &Tree, bytes: &[u8], key: &[u8]) -> Mem<bool>
    requires { tree.now ≡ tree_of bytes.now }
    ensures { IfOk result (λ has. has ≡ has_entry key.now (properties_of bytes.now).entries) }
{
    for n in 0..entry_count(tree, bytes) {
        if is_of_key(alloc, tree, bytes, n, key)? {
            return Ok(true);
        }
    }
    Ok(false)
}

// The edits of AddProperty: one, or none.
#[tactic(auto, using(crate::proofs::Added::added))]
pub(crate) fn adds_in_properties(
    alloc: Global,
    tree: &Tree,
    bytes: &[u8],
    options: &AddProperty,
) -> Mem<Vec<Edit>>
    requires { tree.now ≡ tree_of bytes.now }
    ensures edits { IfOk result (λ edits. edits.items ≡ adds_of bytes.now options.now) }
    ensures fit { IfOk result (λ edits. AreEdits tree.now edits.items) }
{
    let mut edits = Vec::new(alloc);
    if has_entry(alloc, tree, bytes, options.property.as_slice())? {
        return Ok(edits);
    }
    if is_unfinished(tree, bytes) {
        return Ok(edits);
    }
    let text = added_text(alloc, bytes, options)?;
    edits.push(text_edit(alloc, end_leaf(tree, bytes), text)?)?;
    Ok(edits)
}
