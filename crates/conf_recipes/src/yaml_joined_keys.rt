// New keys of entries in YAML files, by the keys from the root joined by dots.
ghost use Rattle.std.specs.Prelude.{◌≡◌, ◌<◌, ◌++◌, true, length, IfOk, IfSome, OnOk};
ghost use Rattle.std.specs.Option.{option_map};
ghost use Rattle.rw_base.specs.Arena.{kind_of, end_of};
ghost use Rattle.rw_base.specs.Laid.{kids_of};
ghost use Rattle.rw_base.specs.NewText.{AreEdits};
ghost use Rattle.kept_files.specs.FileEdits.{FitsFile};
ghost use Rattle.kept_files.specs.States.{file_at};
ghost use Rattle.yaml_texts.specs.Spelled.{spelled};
ghost use Rattle.yaml_tree.specs.Found.{is_marked, key_text};
ghost use Rattle.conf_recipes.specs.YamlJoinedKeys.{behind_dot, left_inside, is_mapping, renamed, from_key, from_entry};
ghost use Rattle.conf_recipes.specs.YamlJoinedKeys.{from_rests, from_value, from_part, joined_keys_in};
ghost use Rattle.conf_recipes.specs.YamlRecipes.{joined_keys_changed, yaml_property_key_changed};
ghost use Rattle.rw_grammar.specs.Results.{class_in};
ghost use Rattle.yaml_tree.specs.Entries.{key_in};

use crate::yaml_keys::key_edit;
use crate::yaml_text::{MAP, with_edits};
use kept_files::{KeptFiles, yaml_in};
use rw_base::{Edit, Mem, NodeId, Part, Tree};
use rw_host::FileEdit;
use std::alloc::Global;
use yaml_texts::{decoded, spell_yaml};
use yaml_tree::{Kind, YamlChangePropertyKey, is_flow_mapping, own_entry};

const DOC_PART: u16 = Kind::DocPart as u16;

const NODE: u16 = Kind::Node as u16;

const ITEM: u16 = Kind::Item as u16;

const FNODE: u16 = Kind::FNode as u16;

fn behind_dot(text: &[u8]) -> Option<&[u8]>
    ensures { option_map (λ s. s.now) result ≡ behind_dot text.now }
{
    match text {
        [b'.', rest @ ..] => Some(rest),
        _ => None,
    }
}

// What is left of joined keys inside an entry with this key.
fn left_inside<'k>(key: &[u8], keys: &'k [u8]) -> Option<&'k [u8]>
    ensures { option_map (λ s. s.now) result ≡ left_inside key.now keys.now }
{
    let size = key.len();
    if size > keys.len() {
        return None;
    }
    if &keys[..size] != key {
        return None;
    }
    behind_dot(&keys[size..])
}

// Whether a node is a mapping, of block or of flow style.
fn is_mapping(tree: &Tree, n: NodeId) -> bool
    requires { n.0 < length tree.now.nodes }
    ensures { result ≡ is_mapping tree.now (kind_of tree.now.nodes n.0) (kids_of tree.now.nodes n.0) }
{
    tree.kind(n) == MAP || is_flow_mapping(tree, n)
}

// Whether nodes of a kind begin with a mark.
fn is_marked(kind: u16) -> bool
    ensures { result ≡ is_marked kind }
{
    kind == DOC_PART || kind == ITEM || kind == NODE || kind == FNODE
}

// Appends the edit that makes a key a new one, where that can be spelled.
fn push_renamed(
    alloc: Global,
    tree: &Tree,
    bytes: &[u8],
    new: &[u8],
    key: u32,
    edits: &mut Vec<Edit>,
) -> Mem<()>
    requires leaf { key < length tree.now.leaves }
    requires bytes { length bytes.now ≡ end_of tree.now }
    ensures { OnOk result (edits.new.items
        ≡ edits.old.items ++ renamed tree.now bytes.now key new.now (spelled new.now)) }
{
    match spell_yaml(alloc, new)? {
        None => {}
        Some(plain) => edits.push(key_edit(alloc, tree, bytes, &plain, new, key)?)?,
    }
    Ok(())
}

// What the key of an entry says, by its leaf.
fn key_text(alloc: Global, tree: &Tree, bytes: &[u8], key: u32) -> Mem<Option<Vec<u8>>>
    requires leaf { key < length tree.now.leaves }
    requires bytes { length bytes.now ≡ end_of tree.now }
    ensures { IfOk result (λ text. option_map (λ v. v.items) text ≡ key_text bytes.now tree.now.leaves key) }
{
    let class = tree.leaf(key).class;
    let text = decoded(alloc, class, None, tree.text(bytes, key), &[])?;
    Ok(text)
}

// The leaf of a node's key, if the node is an entry.
#[tactic(auto, using(crate::proofs::YamlJoinedKeys::keys))]
fn key_of(tree: &Tree, n: NodeId) -> Option<u32>
    requires { n.0 < length tree.now.nodes }
    ensures key { let nodes = tree.now.nodes in
        result ≡ key_in (class_in tree.now.leaves) true (kind_of nodes n.0) (kids_of nodes n.0) }
    ensures inside { IfSome result (λ i. i < length tree.now.leaves) }
{
    match own_entry(tree, n, true) {
        None => None,
        Some(entry) => Some(entry.key_leaf),
    }
}

// Appends the edits in the parts of a node, where this is left of the old and of the new keys.
#[cycle(joined_keys)]
fn edit_parts(
    alloc: Global,
    tree: &Tree,
    bytes: &[u8],
    in_mapping: bool,
    old: &[u8],
    new: &[u8],
    n: NodeId,
    edits: &mut Vec<Edit>,
) -> Mem<()>
    requires bytes { length bytes.now ≡ end_of tree.now }
    requires node { n.0 < length tree.now.nodes }
    ensures { OnOk result (edits.new.items ≡ edits.old.items
        ++ joined_keys_in tree.now bytes.now (kids_of tree.now.nodes n.0) in_mapping old.now new.now) }
{
    let parts = tree.parts(n);
    for part in parts {
        match part {
            Part::Leaf(_) => {}
            Part::Node(m) => { edit_part(alloc, tree, bytes, in_mapping, old, new, n, *m, edits)? }
        }
    }
    Ok(())
}

// Appends those of a part.
#[cycle(joined_keys)]
fn edit_part(
    alloc: Global,
    tree: &Tree,
    bytes: &[u8],
    in_mapping: bool,
    old: &[u8],
    new: &[u8],
    n: NodeId,
    m: NodeId,
    edits: &mut Vec<Edit>,
) -> Mem<()>
    requires bytes { length bytes.now ≡ end_of tree.now }
    requires node { n.0 < length tree.now.nodes }
    requires part { m.0 < n.0 }
    ensures { let t = tree.now in let kids = kids_of t.nodes m.0 in OnOk result (edits.new.items ≡ edits.old.items
        ++ from_part t bytes.now in_mapping old.now new.now (kind_of t.nodes m.0) kids
        (joined_keys_in t bytes.now kids)) }
{
    if in_mapping {
        edit_entry(alloc, tree, bytes, old, new, m, edits)?;
        return Ok(());
    }
    edit_value(alloc, tree, bytes, old, new, m, edits)?;
    Ok(())
}

// Appends those of a node that isn't directly in a mapping.
#[cycle(joined_keys)]
fn edit_value(
    alloc: Global,
    tree: &Tree,
    bytes: &[u8],
    old: &[u8],
    new: &[u8],
    m: NodeId,
    edits: &mut Vec<Edit>,
) -> Mem<()>
    requires bytes { length bytes.now ≡ end_of tree.now }
    requires node { m.0 < length tree.now.nodes }
    ensures { let t = tree.now in let kids = kids_of t.nodes m.0 in OnOk result (edits.new.items ≡ edits.old.items
        ++ from_value t bytes.now old.now new.now (kind_of t.nodes m.0) kids (joined_keys_in t bytes.now kids)) }
{
    if is_mapping(tree, m) {
        edit_parts(alloc, tree, bytes, true, old, new, m, edits)?;
        return Ok(());
    }
    if is_marked(tree.kind(m)) {
        edit_parts(alloc, tree, bytes, false, old, new, m, edits)?;
    }
    Ok(())
}

// Appends those of a part of a mapping.
#[cycle(joined_keys)]
fn edit_entry(
    alloc: Global,
    tree: &Tree,
    bytes: &[u8],
    old: &[u8],
    new: &[u8],
    m: NodeId,
    edits: &mut Vec<Edit>,
) -> Mem<()>
    requires bytes { length bytes.now ≡ end_of tree.now }
    requires node { m.0 < length tree.now.nodes }
    ensures { let t = tree.now in let kids = kids_of t.nodes m.0 in OnOk result (edits.new.items ≡ edits.old.items
        ++ from_entry t bytes.now old.now new.now (joined_keys_in t bytes.now kids)
        (key_in (class_in t.leaves) true (kind_of t.nodes m.0) kids)) }
{
    match key_of(tree, m) {
        None => {}
        Some(key) => edit_key(alloc, tree, bytes, old, new, key, m, edits)?,
    }
    Ok(())
}

// Appends those of an entry with this key.
#[cycle(joined_keys)]
fn edit_key(
    alloc: Global,
    tree: &Tree,
    bytes: &[u8],
    old: &[u8],
    new: &[u8],
    key: u32,
    m: NodeId,
    edits: &mut Vec<Edit>,
) -> Mem<()>
    requires bytes { length bytes.now ≡ end_of tree.now }
    requires leaf { key < length tree.now.leaves }
    requires node { m.0 < length tree.now.nodes }
    ensures { let t = tree.now in OnOk result (edits.new.items ≡ edits.old.items
        ++ from_key t bytes.now key old.now new.now (joined_keys_in t bytes.now (kids_of t.nodes m.0))
        (key_text bytes.now t.leaves key)) }
{
    let Some(text) = key_text(alloc, tree, bytes, key)? else {
        return Ok(());
    };
    let text = text.as_slice();
    if text == old {
        push_renamed(alloc, tree, bytes, new, key, edits)?;
        return Ok(());
    }
    let old_left = left_inside(text, old);
    let new_left = left_inside(text, new);
    edit_rests(alloc, tree, bytes, old_left, new_left, m, edits)?;
    Ok(())
}

// Appends those in an entry, where something is left of both keys.
#[cycle(joined_keys)]
fn edit_rests(
    alloc: Global,
    tree: &Tree,
    bytes: &[u8],
    old: Option<&[u8]>,
    new: Option<&[u8]>,
    m: NodeId,
    edits: &mut Vec<Edit>,
) -> Mem<()>
    requires bytes { length bytes.now ≡ end_of tree.now }
    requires node { m.0 < length tree.now.nodes }
    ensures { let t = tree.now in OnOk result (edits.new.items ≡ edits.old.items
        ++ from_rests t bytes.now (option_map (λ s. s.now) old.entry) (option_map (λ s. s.now) new.entry)
        (joined_keys_in t bytes.now (kids_of t.nodes m.0))) }
{
    let Some(old) = old else {
        return Ok(());
    };
    let Some(new) = new else {
        return Ok(());
    };
    edit_parts(alloc, tree, bytes, false, old, new, m, edits)?;
    Ok(())
}

#[tactic(auto, using(crate::proofs::YamlJoinedKeys::fit))]
fn joined_keys_changed(
    alloc: Global,
    tree: &Tree,
    bytes: &[u8],
    options: &YamlChangePropertyKey,
) -> Mem<Vec<Edit>>
    requires { length bytes.now ≡ end_of tree.now }
    ensures edits { IfOk result (λ edits. edits.items ≡ joined_keys_changed options.now tree.now bytes.now) }
    ensures fit { IfOk result (λ edits. AreEdits tree.now edits.items) }
{
    let old = options.old_property_key.as_slice();
    let new = options.new_property_key.as_slice();
    let mut edits = Vec::new(alloc);
    edit_parts(alloc, tree, bytes, false, old, new, tree.root(), &mut edits)?;
    Ok(edits)
}

/// The edits of `org.openrewrite.yaml.ChangePropertyKey`: an entry whose keys, from the root through mappings alone and
/// joined by dots, are the old ones gets what the new ones say behind those of its parent.
#[tactic(auto, using(crate::proofs::YamlJoinedKeys::files))]
pub fn edits_of_yaml_change_property_key<K: KeptFiles>(
    alloc: Global,
    kept: &K,
    file: u32,
    options: &YamlChangePropertyKey,
) -> Mem<FileEdit>
    requires { file < length (K.files kept.now) }
    ensures edits { IfOk result (λ e.
        e ≡ yaml_property_key_changed options.now (file_at (K.files kept.now) file)) }
    ensures fit { IfOk result (λ e. FitsFile (file_at (K.files kept.now) file) e) }
{
    match yaml_in(kept.file(file as usize)) {
        None => Ok(FileEdit::Keep),
        Some((tree, bytes)) => {
            let edits = joined_keys_changed(alloc, tree, bytes, options)?;
            Ok(with_edits(edits))
        }
    }
}
