// The machine that derives.
ghost use Rattle.std.specs.Prelude.{◌≡◌, ℕ, true, false, ◌<◌, ◌≤◌, ◌^◌, ◌+◌, [], ◌∷◌, ◌++◌, List, length, IfOk, OnOk};
ghost use Rattle.std.specs.Prelude.{take, drop, Option, Some, None};
ghost use Rattle.rw_base.specs.Arena.{row_of};
ghost use Rattle.rw_grammar.specs.Parts.{rule_of};
ghost use Rattle.rw_grammar.specs.Cells.{IsTable, shape_at, rules_at, column_for, picked};
ghost use Rattle.rw_grammar.specs.Machine.{Does, is_node};
ghost use Rattle.rw_grammar.specs.Faults.{IsFine};
ghost use Rattle.rw_grammar.specs.Results.{AreRowsOf, Stops, class_next};

use crate::cells::Cell;
use crate::known::{first_set, is_set};
use rw_base::{Leaf, Mem, NoMemory, NodeId, Nodes, Part};
use sqlite_items::{Items, at};
use std::alloc::Global;

/// A task that was put off: to derive what a cell stands for; or to close a rule's node, over the parts from a place on
/// and the leaves from a number on.
#[derive(Clone, Copy)]
pub(crate) enum Task {
    Derive(u32),
    Close(u16, u32, u32),
}

/// Where the machine goes on from a cell: at another one, with or without a leaf; at what was put off; or nowhere.
#[derive(Clone, Copy)]
pub(crate) enum Moved {
    To(u32),
    Took(u32),
    Ended,
    Stuck,
}

/// What is known of a table's cells.
#[derive(Clone, Copy)]
pub(crate) struct Known<'t> {
    pub(crate) cells: &'t [Cell],
    pub(crate) roots: &'t [u32],
    pub(crate) empty: &'t [bool],
    pub(crate) columns: &'t [Items<bool>],
}

/// Why there is no tree: no derivation goes past the leaf, or memory was refused.
pub(crate) enum Halt {
    Stop(u32),
    NoMemory,
}

impl From<NoMemory> for Halt {
    ghost use Rattle.std.specs.Prelude.{◌≡◌};
    ghost use Rattle.rw_grammar.specs.declared.machine.Halt.TheVariants as halt;

    ghost from_gives = { λ _ e. e ≡ halt.NoMemory };

    fn from(_: NoMemory) -> Self {
        Halt::NoMemory
    }
}

/// The class of a leaf, if it is there.
fn class_at(leaves: &[Leaf], i: u32) -> Option<u16>
    ensures { result ≡ class_next leaves.now i }
{
    match at(leaves, i as usize) {
        Some(leaf) => Some(leaf.class),
        None => None,
    }
}

/// For each cell whether a leaf of the class, if there is one, can begin it.
#[tactic(auto, using(crate::proofs::CellLaws::column_absent))]
fn column(columns: &[Items<bool>], class: Option<u16>) -> &[bool]
    ensures { result.now ≡ column_for columns.now class }
{
    match class {
        Some(class) => match at(columns, class as usize) {
            Some(column) => column.as_slice(),
            None => &[],
        },
        None => &[],
    }
}

/// The alternative that the leaf can begin, or else the empty one.
fn pick(column: &[bool], empty: &[bool], alternatives: &[u32]) -> Option<u32>
    ensures { result ≡ picked column.now empty.now alternatives.now }
{
    match first_set(column, alternatives) {
        Some(y) => Some(y),
        None => first_set(empty, alternatives),
    }
}

/// Goes on from a cell, before a leaf of a class, and puts off what comes later.
fn step(
    known: Known<'_>,
    current: u32,
    class: Option<u16>,
    leaf: u32,
    place: usize,
    tasks: &mut Vec<Task>,
) -> Mem<Moved>
    requires table { IsTable known.cells.now known.roots.now known.empty.now known.columns.now }
    requires current { current < length known.cells.now }
    requires fine { let rules = rules_at known.cells.now known.roots.now in
        IsFine (rule_of rules) (length known.roots.now) (shape_at known.cells.now current) }
    ensures { let cells = known.entry.cells.now in let rules = rules_at cells known.entry.roots.now in
        IfOk result (λ to. Does (rule_of rules) (shape_at cells) (length cells) class current leaf place
        tasks.old.items tasks.new.items to) }
{
    match &known.cells[current as usize] {
        Cell::End => Ok(Moved::Ended),
        Cell::One(wanted, next) => match class {
            Some(class) if class == *wanted => Ok(Moved::Took(*next)),
            _ => Ok(Moved::Stuck),
        },
        Cell::Rule(rule, next) => {
            if place > u32::MAX as usize {
                return Err(NoMemory);
            }
            keep(tasks, Task::Derive(*next))?;
            keep(tasks, Task::Close(*rule, place as u32, leaf))?;
            Ok(Moved::To(known.roots[*rule as usize]))
        }
        Cell::Choice(alternatives, next) => {
            let column = column(known.columns, class);
            match pick(column, known.empty, alternatives.as_slice()) {
                Some(y) => {
                    keep(tasks, Task::Derive(*next))?;
                    Ok(Moved::To(y))
                }
                None => Ok(Moved::Stuck),
            }
        }
        Cell::Opt(part, next) => {
            if is_set(column(known.columns, class), *part) {
                keep(tasks, Task::Derive(*next))?;
                Ok(Moved::To(*part))
            } else {
                Ok(Moved::To(*next))
            }
        }
        Cell::Many(part, next) => {
            if is_set(column(known.columns, class), *part) {
                keep(tasks, Task::Derive(current))?;
                Ok(Moved::To(*part))
            } else {
                Ok(Moved::To(*next))
            }
        }
    }
}

/// Puts a task off.
fn keep(tasks: &mut Vec<Task>, task: Task) -> Mem<()>
    ensures { OnOk result (tasks.new.items ≡ tasks.old.items ++ task ∷ []) }
{
    tasks.push(task)?;
    Ok(())
}

/// Appends a leaf to the parts.
fn take_leaf(parts: &mut Vec<Part>, leaf: u32) -> Mem<()>
    ensures { OnOk result (parts.new.items ≡ parts.old.items ++ Part.Leaf leaf ∷ []) }
{
    parts.push(Part::Leaf(leaf))?;
    Ok(())
}

/// Whether there is one part, and it is a node.
fn is_one_node(parts: &[Part]) -> bool
    ensures { result ≡ is_node parts.now }
{
    match parts {
        [Part::Node(_)] => true,
        _ => false,
    }
}

/// Closes a rule's node over the parts from a position on, unless they are a node.
fn close(
    rule: u16,
    place: usize,
    leaves: (u32, u32),
    parts: &mut Vec<Part>,
    nodes: &mut Nodes,
) -> Mem<()>
    requires { place ≤ length parts.old.items }
    ensures alone { OnOk result (is_node (drop place parts.old.items) ≡ true
        → (parts.new.items ≡ parts.old.items) × (nodes.new ≡ nodes.old)) }
    ensures parts { OnOk result (is_node (drop place parts.old.items) ≡ false
        → parts.new.items ≡ take place parts.old.items ++ Part.Node (record { 0 = length nodes.old }) ∷ []) }
    ensures row { OnOk result (is_node (drop place parts.old.items) ≡ false
        → nodes.new ≡ nodes.old ++ row_of rule leaves.0 leaves.1 (drop place parts.old.items) ∷ []) }
{
    let own = &parts[place..];
    if is_one_node(own) {
        return Ok(());
    }
    let n = nodes.len();
    nodes.push(rule, leaves.0, leaves.1, own)?;
    parts.truncate(place);
    parts.push(Part::Node(NodeId(n)))?;
    Ok(())
}

/// The nodes of the tree that a rule derives from all of the leaves.
pub(crate) fn run(
    alloc: Global,
    known: Known<'_>,
    start: u16,
    leaves: &[Leaf],
) -> Result<Nodes, Halt>
    requires table { IsTable known.cells.now known.roots.now known.empty.now known.columns.now }
    requires start { start < length known.roots.now }
    requires few { length leaves.now < 2 ^ 32 }
    ensures rows { IfOk result (λ nodes. AreRowsOf (rules_at known.entry.cells.now known.entry.roots.now)
        start leaves.now nodes) }
    ensures stop { (at : ℕ) → result ≡ Err (Halt.Stop at)
        → Stops (rules_at known.entry.cells.now known.entry.roots.now) start leaves.now at }
{
    let mut nodes = Nodes::new(alloc);
    let mut parts = Vec::new(alloc);
    let mut tasks = Vec::new(alloc);
    keep(&mut tasks, Task::Close(start, 0, 0))?;
    let mut current = known.roots[start as usize];
    let mut leaf = 0;
    for _ in 0..u64::MAX {
        let class = class_at(leaves, leaf);
        let moved = step(known, current, class, leaf, parts.len(), &mut tasks)?;
        match moved {
            Moved::Stuck => return Err(Halt::Stop(leaf)),
            Moved::To(next) => {
                current = next;
                continue;
            }
            Moved::Took(next) => {
                take_leaf(&mut parts, leaf)?;
                leaf += 1;
                current = next;
                continue;
            }
            Moved::Ended => {}
        }
        let Some(task) = tasks.pop() else {
            if leaf as usize == leaves.len() {
                return Ok(nodes);
            }
            return Err(Halt::Stop(leaf));
        };
        match task {
            Task::Derive(next) => {
                current = next;
                continue;
            }
            Task::Close(rule, place, first) => {
                close(rule, place as usize, (first, leaf), &mut parts, &mut nodes)?;
                continue;
            }
        }
    }
    Err(Halt::NoMemory)
}
