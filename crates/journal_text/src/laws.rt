// Laws of journals: functions that do nothing, whose clauses hold of every batch.
ghost use Rattle.std.specs.Prelude.{◌≡◌, ◌≤◌, ℕ, List, length};
ghost use Rattle.journal_text.specs.Changes.{Change, IsBatch};
ghost use Rattle.journal_text.specs.Reading.{Reads, IsPlace};
ghost use Rattle.journal_text.specs.Text.{journal_text};

/// A batch has one spelling: two batches with the same journal are one.
pub fn a_batch_has_one_spelling()
    ensures { (one other : List Change) → IsBatch one → IsBatch other → journal_text one ≡ journal_text other
        → one ≡ other }
{}

/// What is sealed reads back: a batch whose journal isn't too long is what its journal reads as, and the only one.
pub fn sealed_batches_read_back()
    ensures reads { (changes : List Change) → IsBatch changes → length (journal_text changes) ≤ 1073741824
        → Reads (journal_text changes) changes }
    ensures alone { (changes other : List Change) → IsBatch changes → Reads (journal_text changes) other
        → other ≡ changes }
{}

/// A fault has one place: the place that bytes without a reading have is the only one.
pub fn a_fault_has_one_place()
    ensures { (bytes : List ℕ) (one other : ℕ) → IsPlace bytes one → IsPlace bytes other → one ≡ other }
{}
