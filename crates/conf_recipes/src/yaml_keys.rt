// New keys of entries in YAML files.
ghost use Rattle.std.specs.Prelude.{◌≡◌, ◌<◌, ◌+◌, ◌++◌, length, map, slice_get, IfOk, OnOk};
ghost use Rattle.rw_base.specs.Arena.{IsTree, end_of};
ghost use Rattle.rw_base.specs.NewText.{AreEdits};
ghost use Rattle.kept_files.specs.FileEdits.{FitsFile};
ghost use Rattle.kept_files.specs.States.{file_at};
ghost use Rattle.yaml_lex.specs.Characters.{begins, is_quote, is_flow_sign};
ghost use Rattle.yaml_texts.specs.Spelled.{in_quotes, spelled};
ghost use Rattle.conf_recipes.specs.YamlLeaves.{entry_at, entries_found, is_joined, bytes_behind, wants_quotes};
ghost use Rattle.conf_recipes.specs.YamlLeaves.{key_edit, entry_key_edit};
ghost use Rattle.conf_recipes.specs.YamlRecipes.{keys_changed, key_changed};
ghost use Rattle.std.specs.Prelude.{Some};

use crate::yaml_text::{in_quotes, text_at, with_edits};
use kept_files::{KeptFiles, yaml_in};
use rw_base::{Edit, Mem, NodeId, Tree};
use rw_host::FileEdit;
use std::alloc::Global;
use yaml_lex::{is_blank, is_line_end};
use yaml_texts::spell_yaml;
use yaml_tree::{ChangeKey, KeyPath, own_entry};

fn begins_with_quote(text: &[u8]) -> bool
    ensures { result ≡ begins is_quote text.now }
{
    match text {
        [b, ..] => *b == b'\'' || *b == b'"',
        [] => false,
    }
}

#[tactic(auto, unfolding(yaml_lex::specs::Characters::is_flow_sign))]
fn is_flow_sign(b: u8) -> bool
    ensures { result ≡ is_flow_sign b }
{
    b == b',' || b == b'[' || b == b']' || b == b'{' || b == b'}'
}

// Whether a text begins with what may stand right behind the colon of a quoted key alone.
fn is_joined(text: &[u8]) -> bool
    ensures { result ≡ is_joined text.now }
{
    match text {
        [b, ..] => !(is_blank(*b) || is_line_end(*b) || is_flow_sign(*b)),
        [] => false,
    }
}

// The bytes behind the leaf that follows another, if there is one.
#[tactic(auto, using(crate::proofs::YamlKeys::behind))]
fn behind_next<'b>(tree: &Tree, bytes: &'b [u8], i: u32) -> &'b [u8]
    requires leaf { i < length tree.now.leaves }
    requires bytes { length bytes.now ≡ end_of tree.now }
    ensures { result.now ≡ bytes_behind bytes.now (slice_get tree.now.leaves (i + 1)) }
{
    let count = tree.leaf_count();
    if i + 1 >= count {
        return &[];
    }
    &bytes[tree.leaf(i + 1).to as usize..]
}

#[tactic(auto, unfolding(crate::specs::YamlLeaves::wants_quotes))]
fn wants_quotes(tree: &Tree, bytes: &[u8], key: u32) -> bool
    requires leaf { key < length tree.now.leaves }
    requires bytes { length bytes.now ≡ end_of tree.now }
    ensures { result ≡ wants_quotes bytes.now tree.now.leaves key }
{
    begins_with_quote(tree.text(bytes, key)) && is_joined(behind_next(tree, bytes, key))
}

// The edit that makes a key a new one.
#[tactic(auto, unfolding(crate::specs::YamlLeaves::key_edit))]
pub(crate) fn key_edit(
    alloc: Global,
    tree: &Tree,
    bytes: &[u8],
    plain: &[u8],
    new: &[u8],
    key: u32,
) -> Mem<Edit>
    requires leaf { key < length tree.now.leaves }
    requires bytes { length bytes.now ≡ end_of tree.now }
    ensures { IfOk result (λ edit. edit ≡ key_edit bytes.now tree.now plain.now new.now key) }
{
    if wants_quotes(tree, bytes, key) {
        let quoted = in_quotes(alloc, new)?;
        let edit = text_at(alloc, key, &quoted)?;
        Ok(edit)
    } else {
        let edit = text_at(alloc, key, plain)?;
        Ok(edit)
    }
}

// Appends the edit of the key of the entry that a node is.
#[tactic(auto, using(crate::proofs::YamlKeys::entries))]
fn push_key_edit(
    alloc: Global,
    tree: &Tree,
    bytes: &[u8],
    plain: &[u8],
    new: &[u8],
    n: NodeId,
    edits: &mut Vec<Edit>,
) -> Mem<()>
    requires node { n.0 < length tree.now.nodes }
    requires bytes { length bytes.now ≡ end_of tree.now }
    ensures { OnOk result (edits.new.items ≡ edits.old.items
        ++ map (entry_key_edit bytes.now tree.now plain.now new.now) (entry_at tree.now n)) }
{
    match own_entry(tree, n, true) {
        None => {}
        Some(entry) => {
            edits.push(key_edit(alloc, tree, bytes, plain, new, entry.key_leaf)?)?;
        }
    }
    Ok(())
}

// The edits that make the keys of the entries that a path finds a new one.
#[tactic(auto, using(crate::proofs::YamlKeys::loops))]
fn keys_edited(
    alloc: Global,
    tree: &Tree,
    bytes: &[u8],
    path: &KeyPath,
    plain: &[u8],
    new: &[u8],
) -> Mem<Vec<Edit>>
    requires { length bytes.now ≡ end_of tree.now }
    ensures edits { IfOk result (λ edits. edits.items
        ≡ map (entry_key_edit bytes.now tree.now plain.now new.now) (entries_found bytes.now path.now tree.now)) }
    ensures tree { IsTree tree.now }
{
    let mut edits = Vec::new(alloc);
    let found = path.finds(alloc, tree, bytes)?;
    for n in found.iter() {
        push_key_edit(alloc, tree, bytes, plain, new, *n, &mut edits)?;
    }
    Ok(edits)
}

#[tactic(auto, using(crate::proofs::YamlKeys::fit))]
fn keys_changed(alloc: Global, tree: &Tree, bytes: &[u8], options: &ChangeKey) -> Mem<Vec<Edit>>
    requires { length bytes.now ≡ end_of tree.now }
    ensures edits { IfOk result (λ edits. edits.items
        ≡ keys_changed options.now tree.now bytes.now (spelled options.now.new_key)) }
    ensures fit { IfOk result (λ edits. AreEdits tree.now edits.items) }
{
    let new = options.new_key.as_slice();
    match spell_yaml(alloc, new)? {
        None => Ok(Vec::new(alloc)),
        Some(plain) => {
            let edits = keys_edited(alloc, tree, bytes, &options.old_key_path, &plain, new)?;
            Ok(edits)
        }
    }
}

/// The edits of `org.openrewrite.yaml.ChangeKey`: the key of each entry that the path finds becomes the new one.
#[tactic(auto, using(crate::proofs::YamlKeys::files))]
pub fn edits_of_change_key<K: KeptFiles>(
    alloc: Global,
    kept: &K,
    file: u32,
    options: &ChangeKey,
) -> Mem<FileEdit>
    requires { file < length (K.files kept.now) }
    ensures edits { IfOk result (λ e. e ≡ key_changed options.now (file_at (K.files kept.now) file)) }
    ensures fit { IfOk result (λ e. FitsFile (file_at (K.files kept.now) file) e) }
{
    match yaml_in(kept.file(file as usize)) {
        None => Ok(FileEdit::Keep),
        Some((tree, bytes)) => {
            let edits = keys_changed(alloc, tree, bytes, options)?;
            Ok(with_edits(edits))
        }
    }
}
