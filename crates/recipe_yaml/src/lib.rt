//! Recipe files, and the plans of the recipes that they define.
//!
//! ```text
//! let book = read_recipes(alloc, &readers, bytes, &mut steps)?;       // the recipes of a `rewrite.yml`
//! let plan = plan(alloc, &book, b"shop.Upgrade")?;                    // what a run of this one does
//! ```
//!
//! The promise. A recipe file gives the book of its definition, `recipes_in`, or its first fault: the file is refused
//! (1), a recipe document isn't of the form (2, at the first leaf that can't stand), or a name is taken (3)
//! (`read_recipes`, clauses `book` and `fault`). A name gives the plan of its definition, `plan_of`, or the first fault
//! that is met on the walk from it (4 to 10) with its place (`plan`, clauses `plan` and `fault`). What leads to a
//! scanning recipe through any number of others is found (the law `any_number_leads`). Want of memory alone is free.
//!
//! The definitions in specs/, in this order. Of recipe files: `Names` (names that are taken), `Nodes` (what a node of a
//! YAML tree is), `WrittenEntries` (entries of the lists), `Books` (documents and files). Of plans: `KeyPathTexts`
//! (what a text reads as as a key path), `Faults`, `LeafNames` and `Leaves` (leaf recipes and their options), `Leading`
//! (which recipes lead to scanning ones), `Walks` (the walk through the lists), `Plans`. `Checked` and `Parts` serve
//! private functions alone.
#![tactic(auto)]

mod book;
mod fault;
mod kinds;
mod leading;
mod leaf;
mod leaf_name;
mod lists;
mod names;
mod node;
mod parts;
mod planning;
mod plans;
mod reading;
mod root;
mod walk;

pub use book::{RecipeBook, Written, WrittenEntry, WrittenOption};
pub use fault::RecipeFault;
pub use leading::any_number_leads;
pub use names::is_known;
pub use planning::plan;
pub use plans::{Condition, LeafRecipe, Plan, PlannedLeaf};
pub use reading::read_recipes;
