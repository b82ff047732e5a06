// Reading by a table.
ghost use Rattle.std.specs.Prelude.{◌≡◌, ℕ, ◌<◌, ◌≤◌, ◌^◌, length, Some, Ok, Err, IfOk, IfSome, IfNone};
ghost use Rattle.rw_base.specs.declared.place.Cause.TheVariants as Cause;
ghost use Rattle.rw_base.specs.declared.place.Refused.{Refused};
ghost use Rattle.rw_base.specs.Arena.{end_of};
ghost use Rattle.rw_base.specs.Cut.{AreCutLeaves};
ghost use Rattle.rw_grammar.specs.Reading.{IsOutcome, begin_of, refused_at, refused_leaf, refused_first};
ghost use Rattle.rw_grammar.specs.Refusals.{refused_deep, read_fault};

use crate::greedy::{DeriveFault, derive_nodes};
use crate::table::Table;
use rw_base::{Bad, Cause, Leaf, Leaves, MOST_BYTES, NodeId, ReadFault, Refused, Tree, place_of};
use std::alloc::Global;

/// Refused at a byte.
fn refused_at(bytes: &[u8], at: usize, cause: Cause) -> Refused
    requires inside { at ≤ length bytes.now }
    requires small { at ≤ MOST_BYTES }
    ensures { result ≡ refused_at bytes.now at cause }
{
    Refused {
        place: place_of(bytes, at),
        cause,
    }
}

/// The refusal of a text of more than `MOST_BYTES`.
pub fn too_large(bytes: &[u8]) -> Option<Refused>
    ensures large { IfSome result (λ _. MOST_BYTES < length bytes.now) }
    ensures refused { IfSome result (λ r. r ≡ refused_at bytes.now MOST_BYTES Cause.TooLarge) }
    ensures small { IfNone result (length bytes.now ≤ MOST_BYTES) }
{
    if bytes.len() <= MOST_BYTES {
        return None;
    }
    Some(refused_at(bytes, MOST_BYTES, Cause::TooLarge))
}

/// Where the text of a leaf begins; for the number of leaves, the end of the text.
#[tactic(auto, unfolding(rw_base::specs::Arena::leaf_at))]
fn begin_of(bytes: &[u8], leaves: &[Leaf], leaf: u32) -> usize
    ensures { result ≡ begin_of bytes.now leaves.now leaf }
{
    let leaf = leaf as usize;
    if leaf < leaves.len() {
        leaves[leaf].from as usize
    } else {
        bytes.len()
    }
}

/// A leaf that begins here can't stand.
fn refused_leaf(bytes: &[u8], at: usize) -> Refused
    requires inside { at ≤ length bytes.now }
    requires small { length bytes.now ≤ MOST_BYTES }
    ensures { result ≡ refused_leaf bytes.now at }
{
    let cause = if at == bytes.len() {
        Cause::Unfinished
    } else {
        Cause::Unexpected
    };
    refused_at(bytes, at, cause)
}

/// The earlier of a leaf that can't stand and the bad place.
fn refused_first(bytes: &[u8], bad: Option<Bad>, at: usize) -> Refused
    requires inside { at ≤ length bytes.now }
    requires bad { IfSome bad (λ b. b.byte ≤ length bytes.now) }
    requires small { length bytes.now ≤ MOST_BYTES }
    ensures { result ≡ refused_first bytes.now bad at }
{
    match bad {
        None => refused_leaf(bytes, at),
        Some(bad) => {
            if at < bad.byte as usize {
                refused_leaf(bytes, at)
            } else {
                refused_at(bytes, bad.byte as usize, bad.cause)
            }
        }
    }
}

/// The bad place, or a node that lies too deep and begins here.
fn refused_deep(bytes: &[u8], bad: Option<Bad>, at: usize) -> Refused
    requires inside { at ≤ length bytes.now }
    requires bad { IfSome bad (λ b. b.byte ≤ length bytes.now) }
    requires small { length bytes.now ≤ MOST_BYTES }
    ensures { result ≡ refused_deep bytes.now bad at }
{
    match bad {
        None => refused_at(bytes, at, Cause::TooDeep),
        Some(bad) => refused_at(bytes, bad.byte as usize, bad.cause),
    }
}

/// What a fault of the derivation is for the text.
#[tactic(auto, using(crate::proofs::Cutting::begin_inside, crate::proofs::Cutting::bad_inside))]
fn read_fault(bytes: &[u8], leaves: &[Leaf], bad: Option<Bad>, fault: DeriveFault) -> ReadFault
    requires cut { AreCutLeaves bytes.now leaves.now bad }
    requires small { length bytes.now ≤ MOST_BYTES }
    ensures { result ≡ read_fault bytes.now leaves.now bad fault }
{
    match fault {
        DeriveFault::Stop { leaf } => {
            let at = begin_of(bytes, leaves, leaf);
            ReadFault::Refused(refused_first(bytes, bad, at))
        }
        DeriveFault::TooDeep { leaf } => {
            let at = begin_of(bytes, leaves, leaf);
            ReadFault::Refused(refused_deep(bytes, bad, at))
        }
        DeriveFault::NoMemory => ReadFault::NoMemory,
    }
}

/// The tree that a rule of the table derives from a text, which a language cuts into these leaves up to this bad place.
pub fn read_by(
    alloc: Global,
    table: &Table,
    start: u16,
    bytes: &[u8],
    cut: Leaves,
) -> Result<Tree, ReadFault>
    requires start { start < length table.now }
    requires small { length bytes.now ≤ MOST_BYTES }
    requires cut { AreCutLeaves bytes.now cut.leaves.items cut.bad }
    requires few { length cut.leaves.items < 2 ^ 32 }
    ensures tree { IfOk result (λ t. IsOutcome table.now start bytes.now cut.leaves.items cut.bad (Ok t)) }
    ensures whole { IfOk result (λ t. end_of t ≡ length bytes.now) }
    ensures refused { (r : Refused) → result ≡ Err (ReadFault.Refused r)
        → IsOutcome table.now start bytes.now cut.leaves.items cut.bad (Err r) }
{
    let Leaves { leaves, bad } = cut;
    match derive_nodes(alloc, table, start, leaves.as_slice()) {
        Ok(nodes) => match bad {
            None => {
                let root = NodeId(nodes.len() - 1);
                Ok(Tree::of_nodes(leaves, nodes, root))
            }
            Some(bad) => Err(ReadFault::Refused(refused_at(bytes, bad.byte as usize, bad.cause))),
        },
        Err(fault) => Err(read_fault(bytes, leaves.as_slice(), bad, fault)),
    }
}
