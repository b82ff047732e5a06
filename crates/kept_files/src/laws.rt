// Laws of files: functions that do nothing, whose clauses hold of every file.
ghost use Rattle.std.specs.Prelude.{◌≡◌, ℕ, List, Option};
ghost use Rattle.kept_files.specs.declared.reading.Reading.{Reading};
ghost use Rattle.kept_files.specs.Readings.{AreBytesOrNone, IsReading};

use java_reader::readings_are_one;
use yaml_tree::readings_are_one as yaml_readings_are_one;

/// A file reads as one thing: two readings of one path and bytes are equal.
pub fn a_file_reads_as_one_thing()
    ensures { (path : List ℕ) (bytes : Option (List ℕ)) (a b : Reading) → AreBytesOrNone bytes
        → IsReading path bytes a → IsReading path bytes b → a ≡ b }
{
    readings_are_one();
    yaml_readings_are_one();
}
