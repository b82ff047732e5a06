// Laws of YAML files.
ghost use Rattle.std.specs.Prelude.{◌≡◌, ℕ, List, Result};
ghost use Rattle.rw_base.specs.declared.place.Refused.{Refused};
ghost use Rattle.rw_base.specs.Arena.{Arena, IsTree};
ghost use Rattle.yaml_tree.specs.declared.key_path.PathStep.{PathStep};
ghost use Rattle.yaml_tree.specs.Reading.{IsYamlOutcome};
ghost use Rattle.yaml_tree.specs.KeyPaths.{KeyPathsAreOne};
ghost use Rattle.yaml_tree.specs.Scalars.{KeyPathsCompareScalars};
ghost use Rattle.yaml_tree.specs.Found.{found_in};
ghost use Rattle.yaml_tree.specs.FoundEntries.{entry_nodes, AreSomeOf, AreDistinct};

use rw_grammar::closed_rows_show_a_sound_table;
use yaml_lex::leaves_are_one;

/// One thing comes of a file: two trees of it are one, two refusals are one, and no file has both.
pub fn readings_are_one()
    ensures { (bytes : List ℕ) (a b : Result Arena Refused) → IsYamlOutcome bytes a → IsYamlOutcome bytes b → a ≡ b }
{
    closed_rows_show_a_sound_table();
    leaves_are_one();
}

/// A text spells one key path at most.
pub fn key_paths_are_one()
    ensures { KeyPathsAreOne }
{}

/// The texts that a key path compares with its names are those that `scalar` gives.
pub fn key_paths_compare_scalars()
    ensures { KeyPathsCompareScalars }
{}

/// What a key path finds in a tree are some of the entries that `entries` gives, in their order. No node is twice among
/// the entries, nor among what is found.
pub fn key_paths_find_entries()
    ensures found { (bytes : List ℕ) (path : List PathStep) (t : Arena)
        → AreSomeOf (found_in bytes path t) (entry_nodes t) }
    ensures found_once { (bytes : List ℕ) (path : List PathStep) (t : Arena)
        → IsTree t → AreDistinct (found_in bytes path t) }
    ensures entries_once { (t : Arena) → IsTree t → AreDistinct (entry_nodes t) }
{}
