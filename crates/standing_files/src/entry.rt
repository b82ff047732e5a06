// How an entry stands to a path.
ghost use Rattle.std.specs.Prelude.{◌≡◌, [], ◌<◌, length, slice_index_or, IfOk, IfErr};
ghost use Rattle.std.specs.Option.{option_map};
ghost use Rattle.std.specs.Ordering.{nat_cmp, eq_by_cmp};
ghost use Rattle.std.specs.Cmp.Lexicographic.{slice_cmp};
ghost use Rattle.std.specs.FinMap as map;
ghost use Rattle.journal_text.specs.Changes.{change_of, changes_of, Rises};
ghost use Rattle.standing_files.specs.Merged.{is_before};

use journal_text::Entry;
use std::cmp::Ordering;

fn order_of(entry: &Entry, path: &str) -> Ordering
    ensures { result ≡ slice_cmp nat_cmp entry.now.path path.now }
{
    entry.path.as_str().cmp(path)
}

// Whether the entry's path comes before this one.
pub(crate) fn is_before(entry: &Entry, path: &str) -> bool
    ensures { result ≡ is_before entry.now.path path.now }
{
    order_of(entry, path).is_lt()
}

pub(crate) fn has_path(entry: &Entry, path: &str) -> bool
    ensures { result ≡ eq_by_cmp (slice_cmp nat_cmp) entry.now.path path.now }
{
    order_of(entry, path).is_eq()
}

// Where the entry with this path is, or where it would go.
pub(crate) fn search(entries: &[Entry], path: &str) -> Result<usize, usize>
    requires { Rises [] (changes_of entries.now) }
    ensures in_range { IfOk result (λ at. at < length entries.now) }
    ensures found { IfOk result (λ at. (d : Entry) → map.find (slice_cmp nat_cmp) path.now (changes_of entries.now)
        ≡ Some (change_of (slice_index_or entries.now at d)).1) }
    ensures absent { IfErr result (λ _. map.find (slice_cmp nat_cmp) path.now (changes_of entries.now) ≡ None) }
{
    entries.binary_search_by(|entry| order_of(entry, path))
}

/// The entry with this path, if there is one. Needs entries in the order of their paths, each once.
pub fn entry_at<'e>(entries: &'e [Entry], path: &str) -> Option<&'e Entry>
    requires { Rises [] (changes_of entries.now) }
    ensures { option_map (λ entry. (change_of entry.now).1) result
        ≡ map.find (slice_cmp nat_cmp) path.now (changes_of entries.now) }
{
    match search(entries, path) {
        Ok(at) => Some(&entries[at]),
        Err(_) => None,
    }
}
