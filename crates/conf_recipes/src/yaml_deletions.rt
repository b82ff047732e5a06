// Entries that go from the mappings of YAML files.
ghost use Rattle.std.specs.Prelude.{◌≡◌, ℕ, ◌<◌, ◌++◌, ◌∷◌, List, [], length, map, if◌then◌else◌, IfOk, OnOk};
ghost use Rattle.std.specs.List.{list_any, flat_map, AllByRecursion};
ghost use Rattle.std.specs.Option.{option_to_list};
ghost use Rattle.rw_base.specs.declared.edit.Item.TheVariants as item;
ghost use Rattle.rw_base.specs.declared.tree.Part.{Part};
ghost use Rattle.rw_base.specs.declared.tree.Part.TheVariants as part;
ghost use Rattle.rw_base.specs.Arena.{IsTree, parts_of, end_of};
ghost use Rattle.rw_base.specs.NewText.{AreEdits, front_of};
ghost use Rattle.rw_grammar.specs.Results.{class_in};
ghost use Rattle.kept_files.specs.FileEdits.{FitsFile};
ghost use Rattle.kept_files.specs.States.{file_at};
ghost use Rattle.conf_recipes.specs.YamlRecipes.{keys_deleted, key_deleted};
ghost use Rattle.conf_recipes.specs.YamlDeletions.{block_place, block_places, flow_places, no_place};
ghost use Rattle.conf_recipes.specs.YamlDeletions.{has_content, first_front};
ghost use Rattle.conf_recipes.specs.YamlDeletions.{first_items, further_items, items_of, in_braces, empty_mapping};
ghost use Rattle.conf_recipes.specs.YamlDeletions.{goes, staying, mapping_items, mapping_edits, node_edits};
ghost use Rattle.conf_recipes.specs.YamlDeletions.{deletions, is_among, is_marked_in};

use crate::yaml_text::{MAP, with_edits};
use kept_files::{KeptFiles, yaml_in};
use rw_base::{Edit, Item, Mem, NodeId, Part, Spot, Text, Tree};
use rw_host::FileEdit;
use sqlite_items::Items;
use std::alloc::Global;
use yaml_lex::class::COMMA;
use yaml_tree::{DeleteKey, is_flow_mapping};

// A place of a mapping: the comma before it and what stands in it, if there are such.
#[derive(Clone, Copy, Debug)]
pub(crate) struct Place {
    pub comma: Option<u32>,
    pub content: Option<NodeId>,
}

// Of each node whether it is among these.
fn marks(alloc: Global, count: u32, found: &[NodeId]) -> Mem<Vec<bool>>
    requires { AllByRecursion (λ n. n.0 < count) found.now }
    ensures { IfOk result (λ marks. (m : ℕ) → is_marked_in marks.items m ≡ is_among found.now m) }
{
    let mut marks = vec![in alloc; false; count as usize]?;
    for n in found {
        marks[n.0 as usize] = true;
    }
    Ok(marks)
}

#[tactic(auto, using(crate::proofs::YamlDeletions::no_marks), unfolding(crate::specs::YamlDeletions::is_marked_in))]
fn is_marked(marks: &[bool], n: NodeId) -> bool
    ensures { result ≡ is_marked_in marks.now n.0 }
{
    let at = n.0 as usize;
    if at >= marks.len() {
        return false;
    }
    marks[at]
}

#[tactic(auto, using(crate::proofs::YamlDeletions::marked_places))]
fn goes(gone: &[bool], place: &Place) -> bool
    ensures { result ≡ goes (is_marked_in gone.now) place.now }
{
    match place.content {
        None => false,
        Some(m) => is_marked(gone, m),
    }
}

// Appends the place of a part of a block mapping, if it is an entry.
fn push_block_place(part: &Part, places: &mut Vec<Place>) -> Mem<()>
    ensures { OnOk result (places.new.items ≡ places.old.items ++ block_place part.now) }
{
    match part {
        Part::Leaf(_) => {}
        Part::Node(m) => places.push(Place {
            comma: None,
            content: Some(*m),
        })?,
    }
    Ok(())
}

// The places of a block mapping.
#[tactic(auto, using(crate::proofs::YamlDeletions::block_loop))]
fn block_places(alloc: Global, parts: &[Part]) -> Mem<Vec<Place>>
    ensures { IfOk result (λ places. places.items ≡ block_places parts.now) }
{
    let mut places = Vec::new(alloc);
    for part in parts {
        push_block_place(part, &mut places)?;
    }
    Ok(places)
}

// Ends a place at a comma; other leaves are passed.
#[tactic(auto, using(crate::proofs::YamlDeletions::flow_steps))]
fn pass_leaf(tree: &Tree, l: u32, place: &mut Place, places: &mut Vec<Place>) -> Mem<()>
    requires { l < length tree.now.leaves }
    ensures { let class = class_in tree.now.leaves in (rest : List Part) → OnOk result (
        places.new.items ++ flow_places class place.new rest
        ≡ places.old.items ++ flow_places class place.old (part.Leaf l ∷ rest)) }
{
    if tree.leaf(l).class != COMMA {
        return Ok(());
    }
    places.push(*place)?;
    *place = Place {
        comma: Some(l),
        content: None,
    };
    Ok(())
}

// The places of a flow mapping.
#[tactic(auto, using(crate::proofs::YamlDeletions::flow_loop))]
fn flow_places(alloc: Global, tree: &Tree, n: NodeId) -> Mem<Vec<Place>>
    requires { n.0 < length tree.now.nodes }
    ensures { IfOk result (λ places. places.items
        ≡ flow_places (class_in tree.now.leaves) no_place (parts_of tree.now.nodes n.0)) }
{
    let mut places = Vec::new(alloc);
    let mut place = Place {
        comma: None,
        content: None,
    };
    let parts = tree.parts(n);
    for part in parts {
        match part {
            Part::Node(m) => place.content = Some(*m),
            Part::Leaf(l) => pass_leaf(tree, *l, &mut place, &mut places)?,
        }
    }
    places.push(place)?;
    Ok(places)
}

// Appends a place, if it stays.
#[tactic(auto, using(crate::proofs::YamlDeletions::stay_steps))]
fn push_staying(gone: &[bool], place: &Place, stays: &mut Vec<Place>) -> Mem<()>
    ensures { OnOk result (stays.new.items ≡ stays.old.items ++ staying (is_marked_in gone.now) (place.now ∷ [])) }
{
    if goes(gone, place) {
        return Ok(());
    }
    stays.push(*place)?;
    Ok(())
}

// The places that stay.
#[tactic(auto, using(crate::proofs::YamlDeletions::stay_loop))]
fn staying(alloc: Global, gone: &[bool], places: &[Place]) -> Mem<Vec<Place>>
    ensures { IfOk result (λ stays. stays.items ≡ staying (is_marked_in gone.now) places.now) }
{
    let mut stays = Vec::new(alloc);
    for place in places {
        push_staying(gone, place, &mut stays)?;
    }
    Ok(stays)
}

fn any_goes(gone: &[bool], places: &[Place]) -> bool
    ensures { result ≡ list_any (goes (is_marked_in gone.now)) places.now }
{
    places.iter().any(|place| goes(gone, place))
}

fn has_content(place: &Place) -> bool
    ensures { result ≡ has_content place.now }
{
    match place.content {
        None => false,
        Some(_) => true,
    }
}

fn any_content(places: &[Place]) -> bool
    ensures { result ≡ list_any has_content places.now }
{
    places.iter().any(|place| has_content(place))
}

// The prefix of a node's first leaf, if the node is there and has one.
#[tactic(auto, using(crate::proofs::YamlDeletions::fronts))]
fn front_of<'b>(tree: &Tree, bytes: &'b [u8], n: NodeId) -> &'b [u8]
    requires { length bytes.now ≡ end_of tree.now }
    ensures { result.now ≡ front_of tree.now bytes.now n.0 }
{
    if n.0 >= tree.node_count() {
        return &[];
    }
    let (first, past) = tree.leaves_of(n);
    if first == past {
        return &[];
    }
    tree.prefix(bytes, first)
}

// The prefix of the first place.
fn first_front<'b>(tree: &Tree, bytes: &'b [u8], places: &[Place]) -> &'b [u8]
    requires { length bytes.now ≡ end_of tree.now }
    ensures { result.now ≡ first_front tree.now bytes.now places.now }
{
    match places {
        [] => &[],
        [place, ..] => match place.content {
            None => &[],
            Some(m) => front_of(tree, bytes, m),
        },
    }
}

// Appends the items of the first place that stays.
fn push_first(alloc: Global, front: &[u8], place: &Place, items: &mut Vec<Item>) -> Mem<()>
    ensures { OnOk result (items.new.items ≡ items.old.items ++ first_items front.now place.now) }
{
    match place.content {
        None => {}
        Some(m) => {
            items.push(Item::Text(Text::from_slice(alloc, front)?))?;
            items.push(Item::NodeBody(m))?;
        }
    }
    Ok(())
}

fn push_leaf(leaf: Option<u32>, items: &mut Vec<Item>) -> Mem<()>
    ensures { OnOk result (items.new.items ≡ items.old.items ++ map (λ l. item.Leaf l) (option_to_list leaf)) }
{
    match leaf {
        None => {}
        Some(l) => items.push(Item::Leaf(l))?,
    }
    Ok(())
}

fn push_node(node: Option<NodeId>, items: &mut Vec<Item>) -> Mem<()>
    ensures { OnOk result (items.new.items ≡ items.old.items ++ map (λ m. item.Node m) (option_to_list node)) }
{
    match node {
        None => {}
        Some(m) => items.push(Item::Node(m))?,
    }
    Ok(())
}

// Appends the items of a place that stays behind another.
#[tactic(auto, using(crate::proofs::YamlDeletions::two_items))]
fn push_place(place: &Place, items: &mut Vec<Item>) -> Mem<()>
    ensures { OnOk result (items.new.items ≡ items.old.items ++ further_items place.now) }
{
    push_leaf(place.comma, items)?;
    push_node(place.content, items)?;
    Ok(())
}

// Appends the items of places that stay behind another.
#[tactic(auto, using(crate::proofs::YamlDeletions::further_loop))]
fn push_further(places: &[Place], items: &mut Vec<Item>) -> Mem<()>
    ensures { OnOk result (items.new.items ≡ items.old.items ++ flat_map further_items places.now) }
{
    for place in places {
        push_place(place, items)?;
    }
    Ok(())
}

// The items of all places that stay.
fn items_of(alloc: Global, front: &[u8], places: &[Place]) -> Mem<Vec<Item>>
    ensures { IfOk result (λ items. items.items ≡ items_of front.now places.now) }
{
    let mut items = Vec::new(alloc);
    match places {
        [] => {}
        [first, rest @ ..] => {
            push_first(alloc, front, first, &mut items)?;
            push_further(rest, &mut items)?;
        }
    }
    Ok(items)
}

// The same between the first and the last leaf of a node.
#[tactic(auto, using(crate::proofs::YamlDeletions::braces))]
fn in_braces(alloc: Global, tree: &Tree, n: NodeId, between: Vec<Item>) -> Mem<Vec<Item>>
    requires { n.0 < length tree.now.nodes }
    ensures { IfOk result (λ items. items.items ≡ in_braces tree.now n.0 between.items) }
{
    let (first, past) = tree.leaves_of(n);
    let mut items = between;
    items.insert(0, Item::Leaf(first))?;
    items.push(Item::Leaf(past.saturating_sub(1)))?;
    Ok(items)
}

// The items of a mapping that has lost all.
#[tactic(auto, unfolding(crate::specs::YamlDeletions::empty_mapping))]
fn empty_mapping(alloc: Global) -> Mem<Vec<Item>>
    ensures { IfOk result (λ items. items.items ≡ empty_mapping) }
{
    let mut items = Vec::new(alloc);
    items.push(Item::Text(Text::from_slice(alloc, b" {}")?))?;
    Ok(items)
}

// What becomes of a mapping of which something goes, by the places that stay.
#[tactic(auto, using(crate::proofs::YamlDeletions::mapping_cases))]
fn mapping_items(
    alloc: Global,
    tree: &Tree,
    n: NodeId,
    block: bool,
    front: &[u8],
    stays: &[Place],
) -> Mem<Vec<Item>>
    requires { n.0 < length tree.now.nodes }
    ensures { let items = items_of front.now stays.now in IfOk result (λ r. r.items
        ≡ (if list_any has_content stays.now then (if block then items else in_braces tree.now n.0 items)
        else empty_mapping)) }
{
    if !any_content(stays) {
        let items = empty_mapping(alloc)?;
        return Ok(items);
    }
    let items = items_of(alloc, front, stays)?;
    if block {
        return Ok(items);
    }
    let items = in_braces(alloc, tree, n, items)?;
    Ok(items)
}

// Appends the edit of a mapping, if some place of it goes.
#[tactic(auto, using(crate::proofs::YamlDeletions::mapping_steps))]
fn push_mapping_edit(
    alloc: Global,
    tree: &Tree,
    bytes: &[u8],
    gone: &[bool],
    n: NodeId,
    block: bool,
    places: &[Place],
    edits: &mut Vec<Edit>,
) -> Mem<()>
    requires node { n.0 < length tree.now.nodes }
    requires bytes { length bytes.now ≡ end_of tree.now }
    ensures { OnOk result (edits.new.items ≡ edits.old.items
        ++ mapping_edits tree.now bytes.now (is_marked_in gone.now) n.0 block places.now) }
{
    if !any_goes(gone, places) {
        return Ok(());
    }
    let front = first_front(tree, bytes, places);
    let stays = staying(alloc, gone, places)?;
    let items = mapping_items(alloc, tree, n, block, front, &stays)?;
    edits.push(Edit {
        spot: Spot::Node(n),
        items: Items::from_vec(items),
    })?;
    Ok(())
}

// Appends the edit of a node, if it is a mapping and some entry of it goes.
#[tactic(auto, using(crate::proofs::YamlDeletions::node_cases))]
fn push_node_edit(
    alloc: Global,
    tree: &Tree,
    bytes: &[u8],
    gone: &[bool],
    n: NodeId,
    edits: &mut Vec<Edit>,
) -> Mem<()>
    requires node { n.0 < length tree.now.nodes }
    requires bytes { length bytes.now ≡ end_of tree.now }
    ensures { OnOk result (edits.new.items ≡ edits.old.items
        ++ node_edits tree.now bytes.now (is_marked_in gone.now) n.0) }
{
    if tree.kind(n) == MAP {
        let places = block_places(alloc, tree.parts(n))?;
        push_mapping_edit(alloc, tree, bytes, gone, n, true, &places, edits)?;
        return Ok(());
    }
    if is_flow_mapping(tree, n) {
        let places = flow_places(alloc, tree, n)?;
        push_mapping_edit(alloc, tree, bytes, gone, n, false, &places, edits)?;
        return Ok(());
    }
    Ok(())
}

#[tactic(auto, using(crate::proofs::YamlDeletions::node_loop))]
fn deletions(alloc: Global, tree: &Tree, bytes: &[u8], gone: &[bool]) -> Mem<Vec<Edit>>
    requires { length bytes.now ≡ end_of tree.now }
    ensures edits { IfOk result (λ edits. edits.items
        ≡ deletions tree.now bytes.now (is_marked_in gone.now)) }
    ensures tree { IsTree tree.now }
{
    let mut edits = Vec::new(alloc);
    for n in 0..tree.node_count() {
        push_node_edit(alloc, tree, bytes, gone, NodeId(n), &mut edits)?;
    }
    Ok(edits)
}

#[tactic(auto, using(crate::proofs::YamlDeleted::fit))]
fn keys_deleted(alloc: Global, tree: &Tree, bytes: &[u8], options: &DeleteKey) -> Mem<Vec<Edit>>
    requires { length bytes.now ≡ end_of tree.now }
    ensures edits { IfOk result (λ edits. edits.items ≡ keys_deleted options.now tree.now bytes.now) }
    ensures fit { IfOk result (λ edits. AreEdits tree.now edits.items) }
{
    let found = options.key_path.finds(alloc, tree, bytes)?;
    let gone = marks(alloc, tree.node_count(), &found)?;
    let edits = deletions(alloc, tree, bytes, &gone)?;
    Ok(edits)
}

/// The edits of `org.openrewrite.yaml.DeleteKey`: the entries that the path finds go. The first entry that stays in a
/// block mapping takes the first prefix, an entry in a flow mapping goes with a comma, and a mapping that loses all
/// becomes ` {}`.
#[tactic(auto, using(crate::proofs::YamlDeleted::files))]
pub fn edits_of_delete_key<K: KeptFiles>(
    alloc: Global,
    kept: &K,
    file: u32,
    options: &DeleteKey,
) -> Mem<FileEdit>
    requires { file < length (K.files kept.now) }
    ensures edits { IfOk result (λ e. e ≡ key_deleted options.now (file_at (K.files kept.now) file)) }
    ensures fit { IfOk result (λ e. FitsFile (file_at (K.files kept.now) file) e) }
{
    match yaml_in(kept.file(file as usize)) {
        None => Ok(FileEdit::Keep),
        Some((tree, bytes)) => {
            let edits = keys_deleted(alloc, tree, bytes, options)?;
            Ok(with_edits(edits))
        }
    }
}
