//! What every crate above stands on: lossless trees and edits of them, places in a text, texts, values with several
//! owners, and want of memory.
//!
//! A reader cuts a file into leaves, pushes the nodes over them to `Nodes`, and makes a `Tree`, which keeps offsets and
//! no bytes. A recipe finds leaves and nodes in it and says what takes their place; `rearranged` gives the new bytes:
//!
//! ```text
//! let tree = Tree::of_nodes(leaves, nodes, root);
//! let text = Text::from_slice(alloc, b"new")?;
//! let items = Items::from_vec(vec![in alloc; Item::Text(text)]?);
//! let edit = Edit { spot: Spot::Leaf(3), items };
//! let bytes = rearranged(alloc, &tree, bytes, &[edit])?;
//! ```
//!
//! The promise: `rearranged` ensures that its bytes are `new_text` of the tree, its bytes and the edits; what lies
//! outside the edited places stays, byte for byte, and in its order (`gaps_stay`, clauses `old` and `new`); the order
//! of the edits doesn't matter (`edits_are_known_by_their_spots`). `print` ensures in `ok` that it appends all prefixes
//! and texts, which are the bytes that the tree was read from. `Tree::made` and `Tree::of_nodes` require `IsTree`, and
//! each call of a tree ensures what stands in the list of its rows. `place_of` and `place_after` ensure `place_at`.
//!
//! To read the definitions, in specs/: `Arena` (leaves, nodes, and when they are a tree), `Trees` and `Laid` (trees as
//! plain data, and as rows), `NewText` and `Gaps` (edits), `Claims` (the laws), `Places`, `Cut`, and words for crates
//! above in `NaturalLines`, `Expressions`, `Fronts` and `Utf8`. `Heads` and `KeptNodes` say how nodes are kept, and
//! `Chosen`, `Tasks` and `Editings` how edits are put into a text. The files named Laws, and `LaidTrees`, `Joins`,
//! `Starts`, `SameEdits` and `RankedEdits`, hold lemmas alone.
#![tactic(auto)]

mod chosen;
mod edit;
mod front_buffer;
mod kept_nodes;
mod leaf_edits;
mod leaves;
mod memory;
mod node_edits;
mod nodes;
mod place;
mod rearranging;
mod shared;
mod text;
mod tree;

pub use edit::{Edit, Item, Spot};
pub use leaves::{Bad, Leaves, MOST_BYTES};
pub use memory::{Mem, NoMemory};
pub use nodes::Nodes;
pub use place::{Cause, Place, ReadFault, Refused, place_after, place_of};
pub use rearranging::{
    edits_are_known_by_their_spots, gaps_stay, ranked_edits_are_edits, rearranged,
};
pub use shared::Shared;
pub use text::Text;
pub use tree::{Leaf, NodeId, NodeRow, Part, Tree, print};
