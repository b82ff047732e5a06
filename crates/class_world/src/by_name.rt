// Members in the order of their names.
ghost use Rattle.std.specs.Prelude.{◌≡◌, ◌≤◌, ◌-◌, ℕ, List, IfOk, length, take, drop};
ghost use Rattle.class_world.specs.Rows.{of_name};

use jtypes::{FieldSig, MethodSig, Name};
use rw_base::Mem;
use sqlite_items::Items;
use std::marker::Model;

/// What bears a name.
pub(crate) trait Named {
    /// The name that it bears.
    ghost name_of: { Self → List ℕ };

    fn name(&self) -> &Name
        ensures { result.now ≡ name_of self.now };
}

impl Named for FieldSig {
    ghost name_of = { λ f. f.name };

    fn name(&self) -> &Name {
        &self.name
    }
}

impl Named for MethodSig {
    ghost name_of = { λ m. m.name };

    fn name(&self) -> &Name {
        &self.name
    }
}

/// Members in the order of their names. Contracts see the list of them. Those of a name are found by halves.
#[derive(Drop)]
pub(crate) struct ByName<T: Named> {
    items: Items<T>,
}

impl<T: Named> Model for ByName<T> {
    ghost use Rattle.std.specs.Prelude.{List};
    ghost use Rattle.std.specs.Coded.{coded_list};
    ghost use Rattle.std.specs.Cmp.Lexicographic.{slice_cmp};
    ghost use Rattle.std.specs.List.Sorted.{IsSortedByKey};
    ghost use Rattle.std.specs.Ordering.{nat_cmp};

    ghost Value = { List T };

    ghost coded = { coded_list T.code };

    ghost view = { λ b. b.items };

    ghost invariant = { λ b. IsSortedByKey T.name_of (slice_cmp nat_cmp) b.items };
}

/// The items from a place up to another.
fn part<T>(items: &[T], start: usize, end: usize) -> &[T]
    requires order { start ≤ end }
    requires within { end ≤ length items.now }
    ensures { result.now ≡ take (end - start) (drop start items.now) }
{
    &items[start..end]
}

impl<T: Named + Drop> ByName<T> {
    /// Members, put in order. Those of one name keep theirs.
    pub(crate) fn new(members: Vec<T>) -> Mem<ByName<T>>
        ensures { IfOk result (λ all. (n : List ℕ) → of_name T.name_of n all ≡ of_name T.name_of n members.items) }
    {
        let mut items = members;
        items.sort_by(|item, other| item.name().cmp(other.name()))?;
        items.shrink_to_fit();
        Ok(ByName {
            items: Items::from_vec(items),
        })
    }
}

impl<T: Named> ByName<T> {
    /// The members of a name.
    pub(crate) fn of_name(&self, name: &Name) -> &[T]
        ensures { result.now ≡ of_name T.name_of name.now self.now }
    {
        let items = self.items.as_slice();
        let start = items.partition_point(|item| item.name().cmp(name).is_lt());
        let end = items.partition_point(|item| item.name().cmp(name).is_le());
        part(items, start, end)
    }
}
