// Laws of YAML leaves.
ghost use Rattle.std.specs.Prelude.{◌≡◌, ◌≢◌, ℕ, List, Option, AllPairs};
ghost use Rattle.rw_base.specs.declared.tree.Leaf.{Leaf};
ghost use Rattle.rw_base.specs.declared.leaves.Bad.{Bad};
ghost use Rattle.yaml_lex.specs.Leaves.{AreYamlLeaves};
ghost use Rattle.yaml_lex.specs.Tiles.{AreTiles};
ghost use Rattle.yaml_lex.specs.Classes.{classes};

/// Any file has leaves.
pub fn leaves_are_there()
    ensures { (bytes : List ℕ) → (leaves : List Leaf) × (bad : Option Bad) × AreYamlLeaves bytes leaves bad }
{}

/// A file has one list of leaves and one bad place.
pub fn leaves_are_one()
    ensures { (bytes : List ℕ) (leaves others : List Leaf) (bad worse : Option Bad) → AreYamlLeaves bytes leaves bad
        → AreYamlLeaves bytes others worse → (leaves ≡ others) × (bad ≡ worse) }
{}

/// The leaves of a file, each with its prefix, lie one behind another from the first byte to the bad place, or to the
/// end of the file where none is bad. The last of them is the end.
pub fn leaves_tile()
    ensures { (bytes : List ℕ) (leaves : List Leaf) (bad : Option Bad) → AreYamlLeaves bytes leaves bad
        → AreTiles bytes leaves bad }
{}

/// No two classes have one number.
pub fn classes_differ()
    ensures { AllPairs (λ a b. a ≢ b) classes }
{}
