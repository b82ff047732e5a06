// What the recipes on YAML files share: edits of leaves, and texts in quotes.
ghost use Rattle.std.specs.Prelude.{◌≡◌, IfOk};
ghost use Rattle.kept_files.specs.FileEdits.{with_edits};
ghost use Rattle.yaml_texts.specs.Spelled.{in_quotes};
ghost use Rattle.conf_recipes.specs.YamlLeaves.{text_at};

use rw_base::{Edit, Item, Mem, Spot, Text};
use rw_host::FileEdit;
use sqlite_items::Items;
use std::alloc::Global;
use yaml_tree::Kind;

// The kind of a block mapping.
pub(crate) const MAP: u16 = Kind::Map as u16;

// What edits make of a file: no edit is none.
pub(crate) fn with_edits(edits: Vec<Edit>) -> FileEdit
    ensures { result ≡ with_edits edits.items }
{
    if edits.is_empty() {
        return FileEdit::Keep;
    }
    FileEdit::Edit {
        edits: Items::from_vec(edits),
        path: None,
    }
}

// The edit that puts a text in the place of a leaf's.
pub(crate) fn text_at(alloc: Global, leaf: u32, text: &[u8]) -> Mem<Edit>
    ensures { IfOk result (λ edit. edit ≡ text_at leaf text.now) }
{
    let mut items = Vec::with_capacity(alloc, 1)?;
    items.push(Item::Text(Text::from_slice(alloc, text)?))?;
    Ok(Edit {
        spot: Spot::Leaf(leaf),
        items: Items::from_vec(items),
    })
}

// A text in single quotes, each quote in it twice.
pub(crate) fn in_quotes(alloc: Global, text: &[u8]) -> Mem<Vec<u8>>
    ensures { IfOk result (λ v. v.items ≡ in_quotes text.now) }
{
    let mut out = Vec::with_capacity(alloc, text.len().saturating_add(2))?;
    out.push(b'\'')?;
    for b in text {
        if *b == b'\'' {
            out.push(b'\'')?;
        }
        out.push(*b)?;
    }
    out.push(b'\'')?;
    Ok(out)
}
