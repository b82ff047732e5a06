// New values of entries in YAML files.
ghost use Rattle.std.specs.Prelude.{◌≡◌, ◌<◌, ◌++◌, length, map, IfOk, IfSome, OnOk};
ghost use Rattle.std.specs.List.{flat_map};
ghost use Rattle.std.specs.Option.{option_to_list};
ghost use Rattle.rw_base.specs.Arena.{IsTree, end_of};
ghost use Rattle.rw_base.specs.Laid.{kids_of};
ghost use Rattle.rw_base.specs.NewText.{AreEdits};
ghost use Rattle.rw_grammar.specs.Results.{class_in};
ghost use Rattle.kept_files.specs.FileEdits.{FitsFile};
ghost use Rattle.kept_files.specs.States.{file_at};
ghost use Rattle.yaml_texts.specs.Spelled.{spelled};
ghost use Rattle.conf_recipes.specs.YamlLeaves.{entry_at, entries_found, text_at, lone_leaf, value_leaf};
ghost use Rattle.conf_recipes.specs.YamlLeaves.{is_scalar, value_edits};
ghost use Rattle.conf_recipes.specs.YamlRecipes.{values_changed, value_changed};

use crate::yaml_text::{text_at, with_edits};
use kept_files::{KeptFiles, yaml_in};
use rw_base::{Edit, Mem, NodeId, Part, Tree};
use rw_host::FileEdit;
use std::alloc::Global;
use yaml_lex::class::{FSCALAR, SCALAR};
use yaml_texts::spell_yaml;
use yaml_tree::{ChangeValue, KeyPath, own_entry};

// Whether leaves of a class are scalars, plain or quoted.
fn is_scalar(class: u16) -> bool
    ensures { result ≡ is_scalar class }
{
    class == SCALAR || class == FSCALAR
}

// The leaf of a node that is one scalar.
#[tactic(auto, using(crate::proofs::YamlValues::lone_leaves))]
fn lone_leaf(tree: &Tree, m: NodeId) -> Option<u32>
    requires { m.0 < length tree.now.nodes }
    ensures { result ≡ lone_leaf (class_in tree.now.leaves) (kids_of tree.now.nodes m.0) }
{
    let parts = tree.parts(m);
    if parts.len() != 1 {
        return None;
    }
    match parts[0] {
        Part::Node(_) => None,
        Part::Leaf(i) => {
            if is_scalar(tree.leaf(i).class) {
                Some(i)
            } else {
                None
            }
        }
    }
}

fn value_leaf(tree: &Tree, value: Option<NodeId>) -> Option<u32>
    requires { IfSome value (λ m. m.0 < length tree.now.nodes) }
    ensures { result ≡ value_leaf tree.now value }
{
    match value {
        None => None,
        Some(m) => lone_leaf(tree, m),
    }
}

// Appends the edit of a value, if it is one scalar.
fn push_scalar_edit(
    alloc: Global,
    tree: &Tree,
    text: &[u8],
    value: Option<NodeId>,
    edits: &mut Vec<Edit>,
) -> Mem<()>
    requires { IfSome value (λ m. m.0 < length tree.now.nodes) }
    ensures { OnOk result (edits.new.items
        ≡ edits.old.items ++ map (λ l. text_at l text.now) (option_to_list (value_leaf tree.now value))) }
{
    match value_leaf(tree, value) {
        None => {}
        Some(leaf) => edits.push(text_at(alloc, leaf, text)?)?,
    }
    Ok(())
}

// Appends the edit of the value of the entry that a node is.
#[tactic(auto, using(crate::proofs::YamlValues::at_entries))]
fn push_value_edit(
    alloc: Global,
    tree: &Tree,
    text: &[u8],
    n: NodeId,
    edits: &mut Vec<Edit>,
) -> Mem<()>
    requires { n.0 < length tree.now.nodes }
    ensures { OnOk result (edits.new.items
        ≡ edits.old.items ++ flat_map (value_edits tree.now text.now) (entry_at tree.now n)) }
{
    match own_entry(tree, n, true) {
        None => {}
        Some(entry) => push_scalar_edit(alloc, tree, text, entry.value, edits)?,
    }
    Ok(())
}

// The edits that make the values of the entries that a path finds a new one.
#[tactic(auto, using(crate::proofs::YamlValues::loops))]
fn values_edited(
    alloc: Global,
    tree: &Tree,
    bytes: &[u8],
    path: &KeyPath,
    text: &[u8],
) -> Mem<Vec<Edit>>
    requires { length bytes.now ≡ end_of tree.now }
    ensures edits { IfOk result (λ edits. edits.items
        ≡ flat_map (value_edits tree.now text.now) (entries_found bytes.now path.now tree.now)) }
    ensures tree { IsTree tree.now }
{
    let mut edits = Vec::new(alloc);
    let found = path.finds(alloc, tree, bytes)?;
    for n in found.iter() {
        push_value_edit(alloc, tree, text, *n, &mut edits)?;
    }
    Ok(edits)
}

#[tactic(auto, using(crate::proofs::YamlValues::fit))]
fn values_changed(alloc: Global, tree: &Tree, bytes: &[u8], options: &ChangeValue) -> Mem<Vec<Edit>>
    requires { length bytes.now ≡ end_of tree.now }
    ensures edits { IfOk result (λ edits. edits.items
        ≡ values_changed options.now tree.now bytes.now (spelled options.now.value)) }
    ensures fit { IfOk result (λ edits. AreEdits tree.now edits.items) }
{
    match spell_yaml(alloc, options.value.as_slice())? {
        None => Ok(Vec::new(alloc)),
        Some(text) => {
            let edits = values_edited(alloc, tree, bytes, &options.key_path, &text)?;
            Ok(edits)
        }
    }
}

/// The edits of `org.openrewrite.yaml.ChangeValue`: the value of each entry that the path finds becomes the new one,
/// where it is one plain or quoted scalar.
#[tactic(auto, using(crate::proofs::YamlValues::files))]
pub fn edits_of_change_value<K: KeptFiles>(
    alloc: Global,
    kept: &K,
    file: u32,
    options: &ChangeValue,
) -> Mem<FileEdit>
    requires { file < length (K.files kept.now) }
    ensures edits { IfOk result (λ e. e ≡ value_changed options.now (file_at (K.files kept.now) file)) }
    ensures fit { IfOk result (λ e. FitsFile (file_at (K.files kept.now) file) e) }
{
    match yaml_in(kept.file(file as usize)) {
        None => Ok(FileEdit::Keep),
        Some((tree, bytes)) => {
            let edits = values_changed(alloc, tree, bytes, options)?;
            Ok(with_edits(edits))
        }
    }
}
