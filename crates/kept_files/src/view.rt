// What recipes that need types see of a repository.
ghost use Rattle.std.specs.Prelude.{◌≡◌, ◌<◌, ℕ, Some, length, slice_get};
ghost use Rattle.java_reader.specs.declared.unit.UnitRef.{UnitRef as AUnit};
ghost use Rattle.jtypes.specs.World.{World};
ghost use Rattle.jtypes.specs.declared.unit_types.UnitTypes.{UnitTypes as Kept};
ghost use Rattle.kept_files.specs.States.{file_at};
ghost use Rattle.kept_files.specs.Views.{AreKeptOf, units_at};

use crate::state::KeptFiles;
use java_reader::UnitRef;
use jtypes::{Classes, UnitTypes};

/// What recipes that need types see of a repository: its files, and what is known of the names and expressions in each
/// unit of its Java files, in the world of its classes.
pub trait KeptView: KeptFiles {
    /// The classes of the repository.
    type World: Classes;

    /// What they answer.
    ghost classes: { Self → World };

    /// What is kept of a unit, by the number of its file and its own in the file.
    ghost kept: { Self → ℕ → ℕ → Kept };

    /// How many units a file has; one that isn't an accepted Java file has none.
    fn unit_count(&self, i: usize) -> usize
        requires { i < length (Self.files self.now) }
        ensures count { result ≡ length (units_at (Self.files self.now) i) };

    /// A unit of a file, by its number there.
    fn unit(&self, i: usize, unit: usize) -> UnitRef
        requires file { i < length (Self.files self.now) }
        requires unit { unit < length (units_at (Self.files self.now) i) }
        ensures unit { Some result ≡ slice_get (units_at (Self.files self.now) i) unit };

    /// What is known of the names and expressions of a unit.
    fn unit_types(&self, i: usize, unit: usize) -> &UnitTypes
        requires file { i < length (Self.files self.now) }
        requires unit { unit < length (units_at (Self.files self.now) i) }
        ensures types { result.now ≡ kept self.now i unit }
        ensures fits { (u : AUnit) → slice_get (units_at (Self.files self.now) i) unit ≡ Some u →
            AreKeptOf (file_at (Self.files self.now) i).reading u result.now };

    /// The classes of the repository.
    fn world(&self) -> &Self::World
        ensures world { Self.World.world result.now ≡ classes self.now };
}
