// The new text of a tree with edits, from its end to its front.
ghost use Rattle.std.specs.Prelude.{◌≡◌, ◌<◌, ◌≤◌, ◌++◌, length, slice_range, IfOk, OnOk, All};
ghost use Rattle.rw_base.specs.Arena.{end_of, leaf_at, prefix_of, text_of};
ghost use Rattle.rw_base.specs.Gaps.{range_of};
ghost use Rattle.rw_base.specs.NewText.{front_of, new_text, AreEdits};
ghost use Rattle.rw_base.specs.Editings.{AreTheirPlaces, IsEditing, Puts, Does};
ghost use Rattle.rw_base.specs.Editings.{node_text, leaf_text, leaf_body, part_text, item_text_of};
ghost use Rattle.rw_base.specs.Tasks.{cut, IsTask, IsInTree, IsPartOf};

use crate::chosen::{edits_at_leaves, edits_at_nodes, touched_nodes};
use crate::front_buffer::FrontBuffer;
use crate::{Edit, Item, Mem, NoMemory, NodeId, Part, Tree};
use std::alloc::Global;

// What is left to put before the text that is there. What lies in front is done last.
#[derive(Clone, Copy, Drop)]
enum Task {
    // The first so many parts of a node.
    Parts(NodeId, usize),
    // The first so many items of the edit at this position.
    Items(usize, usize),
    // The prefix of a leaf.
    Prefix(u32),
    // The prefix of a node's first leaf is taken off the text before the last so many bytes, where that begins with it.
    Cut(NodeId, usize),
}

// The tasks, the last one first, and the text that is there.
#[derive(Drop)]
struct Work {
    tasks: Vec<Task>,
    text: FrontBuffer,
}

// The positions of the edits, and the nodes at or below which one is.
#[derive(Drop)]
struct Chosen {
    leaves: Vec<Option<usize>>,
    nodes: Vec<Option<usize>>,
    touched: Vec<bool>,
}

fn chosen_edits(alloc: Global, tree: &Tree, edits: &[Edit]) -> Mem<Chosen>
    requires { AreEdits tree.now edits.now }
    ensures { IfOk result (AreTheirPlaces tree.now edits.now) }
{
    let leaves = edits_at_leaves(alloc, tree, edits)?;
    let nodes = edits_at_nodes(alloc, tree, edits)?;
    let touched = touched_nodes(alloc, tree, &leaves, &nodes)?;
    Ok(Chosen {
        leaves,
        nodes,
        touched,
    })
}

// Edits of a tree that was read from these bytes, and where they are.
#[derive(Drop)]
struct Editing<'e> {
    tree: &'e Tree,
    bytes: &'e [u8],
    edits: &'e [Edit],
    chosen: Chosen,
}

fn range_at<'b>(bytes: &'b [u8], from: usize, to: usize) -> &'b [u8]
    requires order { from ≤ to }
    requires inside { to ≤ length bytes.now }
    ensures { result.now ≡ slice_range bytes.now from to }
{
    &bytes[from..to]
}

// A node's bytes, from its first prefix to its last text.
fn node_bytes<'b>(tree: &Tree, bytes: &'b [u8], n: NodeId) -> &'b [u8]
    requires bytes { length bytes.now ≡ end_of tree.now }
    requires node { n.0 < length tree.now.nodes }
    ensures { result.now ≡ range_of tree.now bytes.now n.0 }
{
    let (first, past) = tree.leaves_of(n);
    if first == past {
        return &bytes[..0];
    }
    let from = tree.leaf(first).prefix_from as usize;
    let to = tree.leaf(past - 1).to as usize;
    range_at(bytes, from, to)
}

// A leaf's bytes, its prefix and its text.
fn leaf_bytes<'b>(tree: &Tree, bytes: &'b [u8], i: u32) -> &'b [u8]
    requires bytes { length bytes.now ≡ end_of tree.now }
    requires leaf { i < length tree.now.leaves }
    ensures { let l = leaf_at tree.now.leaves i in result.now ≡ prefix_of bytes.now l ++ text_of bytes.now l }
{
    let leaf = tree.leaf(i);
    &bytes[leaf.prefix_from as usize..leaf.to as usize]
}

// The prefix of a node's first leaf.
fn front<'b>(tree: &Tree, bytes: &'b [u8], n: NodeId) -> &'b [u8]
    requires bytes { length bytes.now ≡ end_of tree.now }
    requires node { n.0 < length tree.now.nodes }
    ensures { result.now ≡ front_of tree.now bytes.now n.0 }
{
    let (first, past) = tree.leaves_of(n);
    if first == past {
        &bytes[..0]
    } else {
        tree.prefix(bytes, first)
    }
}

// Takes a front off the text before the last so many bytes, where that begins with it.
fn take_off(text: &mut FrontBuffer, front: &[u8], behind: usize)
    ensures { text.new ≡ cut front.now behind text.old }
{
    let size = text.len().saturating_sub(behind);
    if text.as_slice()[..size].starts_with(front) {
        text.drop_front(front.len());
    }
}

fn put_node(alloc: Global, editing: &Editing<'_>, n: NodeId, work: &mut Work) -> Mem<()>
    requires editing { IsEditing editing.now }
    requires node { n.0 < length editing.now.tree.now.nodes }
    ensures { OnOk result (Puts editing.now (node_text editing.now n.0) work.old work.new) }
{
    if let Some(k) = editing.chosen.nodes[n.0 as usize] {
        work.tasks
            .push(Task::Items(k, editing.edits[k].items.len()))?;
    } else if editing.chosen.touched[n.0 as usize] {
        work.tasks
            .push(Task::Parts(n, editing.tree.parts(n).len()))?;
    } else {
        work.text
            .prepend(alloc, node_bytes(editing.tree, editing.bytes, n))?;
    }
    Ok(())
}

fn put_leaf(alloc: Global, editing: &Editing<'_>, i: u32, work: &mut Work) -> Mem<()>
    requires editing { IsEditing editing.now }
    requires leaf { i < length editing.now.tree.now.leaves }
    ensures { OnOk result (Puts editing.now (leaf_text editing.now i) work.old work.new) }
{
    if let Some(k) = editing.chosen.leaves[i as usize] {
        work.tasks.push(Task::Prefix(i))?;
        work.tasks
            .push(Task::Items(k, editing.edits[k].items.len()))?;
    } else {
        work.text
            .prepend(alloc, leaf_bytes(editing.tree, editing.bytes, i))?;
    }
    Ok(())
}

// The same without the leaf's prefix.
fn put_leaf_body(alloc: Global, editing: &Editing<'_>, i: u32, work: &mut Work) -> Mem<()>
    requires editing { IsEditing editing.now }
    requires leaf { i < length editing.now.tree.now.leaves }
    ensures { OnOk result (Puts editing.now (leaf_body editing.now i) work.old work.new) }
{
    if let Some(k) = editing.chosen.leaves[i as usize] {
        work.tasks
            .push(Task::Items(k, editing.edits[k].items.len()))?;
    } else {
        work.text
            .prepend(alloc, editing.tree.text(editing.bytes, i))?;
    }
    Ok(())
}

fn put_part(alloc: Global, editing: &Editing<'_>, part: Part, work: &mut Work) -> Mem<()>
    requires editing { IsEditing editing.now }
    requires part { IsPartOf editing.now.tree.now part }
    ensures { OnOk result (Puts editing.now (part_text editing.now part) work.old work.new) }
{
    match part {
        Part::Leaf(i) => put_leaf(alloc, editing, i, work),
        Part::Node(m) => put_node(alloc, editing, m, work),
    }
}

fn put_item(alloc: Global, editing: &Editing<'_>, item: &Item, work: &mut Work) -> Mem<()>
    requires editing { IsEditing editing.now }
    requires item { IsInTree editing.now.tree.now editing.now.edits.now item.now }
    ensures { OnOk result (Puts editing.now (item_text_of editing.now item.now) work.old work.new) }
{
    match item {
        Item::Text(text) => work.text.prepend(alloc, text.as_slice()),
        Item::Node(m) => put_node(alloc, editing, *m, work),
        Item::NodeBody(m) => {
            work.tasks.push(Task::Cut(*m, work.text.len()))?;
            put_node(alloc, editing, *m, work)
        }
        Item::Leaf(i) => put_leaf(alloc, editing, *i, work),
        Item::LeafBody(i) => put_leaf_body(alloc, editing, *i, work),
    }
}

fn do_task(alloc: Global, editing: &Editing<'_>, task: Task, work: &mut Work) -> Mem<()>
    requires editing { IsEditing editing.now }
    requires task { IsTask editing.now.tree.now editing.now.edits.now task }
    ensures { OnOk result (Does editing.now task work.old work.new) }
{
    match task {
        Task::Parts(n, count) => {
            if 0 < count {
                work.tasks.push(Task::Parts(n, count - 1))?;
                put_part(alloc, editing, editing.tree.parts(n)[count - 1], work)?;
            }
        }
        Task::Items(k, count) => {
            if 0 < count {
                work.tasks.push(Task::Items(k, count - 1))?;
                let item = &editing.edits[k].items.as_slice()[count - 1];
                put_item(alloc, editing, item, work)?;
            }
        }
        Task::Prefix(i) => work
            .text
            .prepend(alloc, editing.tree.prefix(editing.bytes, i))?,
        Task::Cut(n, behind) => take_off(
            &mut work.text,
            front(editing.tree, editing.bytes, n),
            behind,
        ),
    }
    Ok(())
}

/// The new text. What is nested is kept in a list of tasks, so that no depth of the tree is too great. A node at or
/// below which no edit is is copied in one piece.
pub fn with_nodes_edited(alloc: Global, tree: &Tree, bytes: &[u8], edits: &[Edit]) -> Mem<Vec<u8>>
    requires bytes { length bytes.now ≡ end_of tree.now }
    requires edits { AreEdits tree.now edits.now }
    ensures { IfOk result (λ text. text.items ≡ new_text tree.now bytes.now edits.now) }
{
    let chosen = chosen_edits(alloc, tree, edits)?;
    let editing = Editing {
        tree,
        bytes,
        edits,
        chosen,
    };
    let mut work = Work {
        tasks: Vec::new(alloc),
        text: FrontBuffer::with_room(alloc, bytes.len() + bytes.len() / 4)?,
    };
    put_node(alloc, &editing, tree.root(), &mut work)?;
    for _ in 0..u64::MAX {
        let Some(task) = work.tasks.pop() else {
            return work.text.into_vec(alloc);
        };
        do_task(alloc, &editing, task, &mut work)?;
    }
    Err(NoMemory)
}
