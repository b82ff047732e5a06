// Laws of what files stand for: functions that do nothing, whose clauses hold of all files.
ghost use Rattle.std.specs.Prelude.{◌≡◌, ℕ, List, false};
ghost use Rattle.rw_host.specs.Files.{Files};
ghost use Rattle.journal_text.specs.Changes.{Change};
ghost use Rattle.run_journal.specs.Standing.{CallsFor, IsDamaged, IsRecovered, StandAlike, StandsFor};
ghost use Rattle.run_journal.specs.Standing.{applied, bare, committed, is_open};

use journal_text::a_batch_has_one_spelling;

/// Files stand for one repository at most.
pub fn files_stand_for_one_repository()
    ensures { (files one other : Files) → StandsFor files one → StandsFor files other → one ≡ other }
{
    a_batch_has_one_spelling();
}

/// Files that stand for one repository stand for the same ones.
pub fn files_that_stand_alike_stand_for_the_same()
    ensures { (one other repository : Files) → StandAlike one other → StandsFor one repository →
        StandsFor other repository }
{
    a_batch_has_one_spelling();
}

/// Files that are damaged stand for nothing.
pub fn damaged_files_stand_for_nothing()
    ensures { (files repository : Files) (n : ℕ) → IsDamaged files n → ¬ (StandsFor files repository) }
{}

/// Files stand for what the changes that they call for make of them.
pub fn called_changes_make_the_repository()
    ensures { (files : Files) (changes : List Change) → CallsFor files changes →
        StandsFor files (bare (applied changes files)) }
{}

/// What a commit leaves has a closed gate, and is what the changes made of the files before.
pub fn a_commit_makes_the_repository()
    ensures closed { (changes : List Change) (files : Files) → is_open (committed changes files) ≡ false }
    ensures made { (changes : List Change) (files : Files) →
        bare (committed changes files) ≡ bare (applied changes files) }
{}

/// What a recovery leaves has a closed gate, and is what the files before stood for.
pub fn a_recovery_makes_the_repository()
    ensures closed { (old new : Files) (count : ℕ) (changes : List Change) → IsRecovered old new count changes →
        is_open new ≡ false }
    ensures made { (old new : Files) (count : ℕ) (changes : List Change) → IsRecovered old new count changes →
        bare new ≡ bare (applied changes old) }
{}
