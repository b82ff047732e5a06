// The tree of the one greedy derivation of a list of leaves.
ghost use Rattle.std.specs.Prelude.{◌≡◌, ℕ, ◌<◌, length, IfOk};
ghost use Rattle.rw_base.specs.Arena.{IsTree};
ghost use Rattle.rw_grammar.specs.Results.{AreTreeLeaves, IsDerived, IsTooDeep, Stops, tree_of};

use crate::depth::first_too_deep;
use crate::machine::{Halt, Known, run};
use crate::table::Table;
use rw_base::{Leaf, NoMemory, NodeId, Nodes, Tree};
use std::alloc::Global;

/// Why there is no tree. `Stop`: no derivation goes past this leaf, or with the number of leaves, past the last one.
/// `TooDeep`: this is the first leaf of the first node with two or more parts that lies below 300 such nodes.
#[derive(Clone, Copy, Debug, PartialEq, Eq)]
pub enum DeriveFault {
    Stop { leaf: u32 },
    TooDeep { leaf: u32 },
    NoMemory,
}

impl From<NoMemory> for DeriveFault {
    ghost use Rattle.std.specs.Prelude.{◌≡◌};
    ghost use Rattle.rw_grammar.specs.declared.greedy.DeriveFault.TheVariants as fault;

    ghost from_gives = { λ _ e. e ≡ fault.NoMemory };

    fn from(_: NoMemory) -> Self {
        DeriveFault::NoMemory
    }
}

/// The nodes of the tree that a rule of the table derives from the leaves, of which the last is the end. The last node
/// is the root.
pub fn derive_nodes(
    alloc: Global,
    table: &Table,
    start: u16,
    leaves: &[Leaf],
) -> Result<Nodes, DeriveFault>
    requires start { start < length table.now }
    requires leaves { AreTreeLeaves leaves.now }
    ensures derived { IfOk result (λ nodes. IsDerived table.now start leaves.now (tree_of leaves.now nodes)) }
    ensures tree { IfOk result (λ nodes. IsTree (tree_of leaves.now nodes)) }
    ensures stop { (leaf : ℕ) → result ≡ Err (DeriveFault.Stop leaf) → Stops table.now start leaves.now leaf }
    ensures too_deep { (leaf : ℕ) → result ≡ Err (DeriveFault.TooDeep leaf)
        → IsTooDeep table.now start leaves.now leaf }
{
    let known = Known {
        cells: table.cells.as_slice(),
        roots: table.roots.as_slice(),
        empty: table.empty.as_slice(),
        columns: table.columns.as_slice(),
    };
    let nodes = match run(alloc, known, start, leaves) {
        Ok(nodes) => nodes,
        Err(Halt::Stop(leaf)) => return Err(DeriveFault::Stop { leaf }),
        Err(Halt::NoMemory) => return Err(DeriveFault::NoMemory),
    };
    match first_too_deep(alloc, &nodes)? {
        Some(leaf) => Err(DeriveFault::TooDeep { leaf }),
        None => Ok(nodes),
    }
}

/// The tree that a rule of the table derives from the leaves, of which the last is the end.
pub fn derive(
    alloc: Global,
    table: &Table,
    start: u16,
    leaves: Vec<Leaf>,
) -> Result<Tree, DeriveFault>
    requires start { start < length table.now }
    requires leaves { AreTreeLeaves leaves.items }
    ensures tree { IfOk result (λ t. IsDerived table.now start leaves.items t) }
    ensures stop { (leaf : ℕ) → result ≡ Err (DeriveFault.Stop leaf) → Stops table.now start leaves.items leaf }
    ensures too_deep { (leaf : ℕ) → result ≡ Err (DeriveFault.TooDeep leaf)
        → IsTooDeep table.now start leaves.items leaf }
{
    match derive_nodes(alloc, table, start, leaves.as_slice()) {
        Ok(nodes) => {
            let root = NodeId(nodes.len() - 1);
            Ok(Tree::of_nodes(leaves, nodes, root))
        }
        Err(fault) => Err(fault),
    }
}
