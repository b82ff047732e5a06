//! The judgement of a tree by tables: what each node gives, what it notes, what it asks, and which scopes it leaves, in
//! one walk that is proved once for all tables.
//!
//! ```text
//! let mut frames = Frames::new(alloc);
//! let mut log = Log::new(alloc);
//! let value = judge(alloc, &tables, &tree, node, tree.parts(node), &given, &mut frames, &mut log)?;
//! ```
//!
//! A language says four things of each kind of node (`TreeTables`): what a part is given by its node (the type of what
//! stands before a selector, say), what is in scope for a part (a loop's variable in its body alone), what a node gives
//! to the node around it by what its parts give (the type of a sum), and which scopes it leaves to what stands behind
//! it (a declared local). None of the four calls itself; the walk goes from the left, and visits each node once. A
//! node's values wait on one stack, and scopes are put and left in place: nothing is copied for a node.
//!
//! The promise: `judge` gives what the definition `judged` of the tables gives, with exactly its notes and its
//! questions, and leaves exactly its scopes behind those around the node (clause `judged`). In a world that answers
//! alike what was asked, the judgement and its questions are the same, whatever the tables say
//! (`equal_answers_give_equal_judgements`), so that a tree must be judged again only where an answer to one of its
//! questions has changed. A node may be judged by some of its parts alone: a class by what stands before its body.
//!
//! Read `specs/Tables.antt` first (what a table says), then `Trees` (the judgement, eight lines), `Sites` (the site of
//! a node of a tree), and `Followed` (what the clauses say of scopes). `Parts` serves private functions alone.
#![tactic(auto)]

mod laws;
mod tables;
mod walk;

pub use laws::equal_answers_give_equal_judgements;
pub use tables::TreeTables;
pub use walk::judge;
