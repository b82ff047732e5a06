// The names of the recipes that this project defines itself.
ghost use Rattle.std.specs.Prelude.{◌≡◌};
ghost use Rattle.recipe_yaml.specs.Names.{is_known};

/// Whether this project itself defines a recipe of this name.
#[tactic(auto, unfolding(crate::specs::Names::known_names, crate::specs::Names::is_known))]
pub fn is_known(name: &[u8]) -> bool
    ensures { result ≡ is_known name.now }
{
    name == b"org.openrewrite.properties.ChangePropertyKey".as_slice()
        || name == b"org.openrewrite.properties.ChangePropertyValue".as_slice()
        || name == b"org.openrewrite.properties.DeleteProperty".as_slice()
        || name == b"org.openrewrite.properties.AddProperty".as_slice()
        || name == b"org.openrewrite.yaml.ChangeKey".as_slice()
        || name == b"org.openrewrite.yaml.ChangeValue".as_slice()
        || name == b"org.openrewrite.yaml.DeleteKey".as_slice()
        || name == b"org.openrewrite.yaml.ChangePropertyKey".as_slice()
        || name == b"org.openrewrite.FindSourceFiles".as_slice()
        || name == b"org.openrewrite.DeleteSourceFiles".as_slice()
        || name == b"org.openrewrite.text.CreateTextFile".as_slice()
}
