// The plan of a recipe.
ghost use Rattle.std.specs.Prelude.{◌≡◌, ◌≢◌, Ok, Err, IfOk, IfErr};
ghost use Rattle.std.specs.List.{list_any};
ghost use Rattle.recipe_yaml.specs.KeyPathTexts.{KeyPathsOf, AreKeyPaths};
ghost use Rattle.recipe_yaml.specs.Faults.{IsOutcome};
ghost use Rattle.recipe_yaml.specs.Plans.{leaf_plan, nothing, plan_by, plan_of};

use crate::book::RecipeBook;
use crate::fault::RecipeFault;
use crate::leading::{leading, place_of};
use crate::leaf::without_options;
use crate::leaf_name::{TakenOption, leaf_named, taken_by};
use crate::plans::{Plan, PlannedLeaf};
use crate::walk::{LEVELS, Walked, walk_recipe};
use rw_base::Text;
use sqlite_items::Items;
use std::alloc::Global;

fn needs_any(taken: &[TakenOption]) -> bool
    ensures { result ≡ list_any (λ t. t.is_required) taken.now }
{
    taken.iter().any(|option| option.is_required)
}

fn without_place(number: u8) -> RecipeFault
    ensures { result ≡ RecipeFault.Wrong number None }
{
    RecipeFault::Wrong {
        number,
        place: None,
    }
}

// The plan of a leaf recipe alone.
#[tactic(auto, unfolding(crate::specs::Plans::leaf_plan))]
fn leaf_plan(alloc: Global, name: &[u8]) -> Result<Plan, RecipeFault>
    ensures { (paths : KeyPathsOf) → AreKeyPaths paths → IsOutcome (leaf_plan paths name.now) result }
{
    let Some(leaf) = leaf_named(name) else {
        return Err(without_place(4));
    };
    if needs_any(taken_by(leaf)) {
        return Err(without_place(5));
    }
    let mut leaves = Items::new(alloc);
    leaves.push(PlannedLeaf {
        recipe: without_options(alloc, leaf)?,
        name: Text::from_slice(alloc, name)?,
        conditions: Items::new(alloc),
    })?;
    Ok(Plan {
        leaves,
        conditions: Items::new(alloc),
        again: false,
    })
}

// Before the first entry.
fn nothing(alloc: Global) -> Walked
    ensures { result ≡ nothing }
{
    Walked {
        met: 0,
        conditions: Items::new(alloc),
        again: false,
        leaves: Items::new(alloc),
    }
}

fn plan_by(walked: Walked) -> Plan
    ensures { result ≡ plan_by walked }
{
    let Walked {
        met: _,
        conditions,
        again,
        leaves,
    } = walked;
    Plan {
        leaves,
        conditions,
        again,
    }
}

/// The plan of the recipe of this name: the leaf recipes that its lists lead to, in order, each with the preconditions
/// of the recipes around it; or the first of the faults 4 to 10 on the way.
#[tactic(auto, using(crate::proofs::Planned::planned))]
pub fn plan(alloc: Global, book: &RecipeBook, name: &[u8]) -> Result<Plan, RecipeFault>
    ensures plan { (paths : KeyPathsOf) → AreKeyPaths paths →
        IfOk result (λ plan. plan_of paths book.now name.now ≡ Ok plan) }
    ensures fault { (paths : KeyPathsOf) → AreKeyPaths paths → IfErr result
        (λ fault. fault ≢ RecipeFault.NoMemory → plan_of paths book.now name.now ≡ Err fault) }
{
    let recipes = book.recipes.as_slice();
    let Some(number) = place_of(recipes, name) else {
        let plan = leaf_plan(alloc, name)?;
        return Ok(plan);
    };
    let leading = leading(alloc, recipes)?;
    let mut walked = nothing(alloc);
    walk_recipe(
        alloc,
        recipes,
        &leading,
        LEVELS,
        &[number],
        &[],
        &recipes[number],
        &mut walked,
    )?;
    Ok(plan_by(walked))
}
