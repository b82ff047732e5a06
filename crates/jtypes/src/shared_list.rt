// Lists with several owners.
ghost use Rattle.std.specs.Prelude.{◌≡◌, IfOk, [], length};

use rw_base::{Mem, Shared};
use sqlite_items::Items;
use std::alloc::Global;
use std::fmt;
use std::fmt::{Debug, Formatter, Write};
use std::marker::Model;

/// A list with several owners, which none of them changes. Contracts see the list. Copies share it, and the empty one
/// takes no memory.
#[derive(Drop)]
pub struct SharedList<T> {
    items: Option<Shared<Items<T>>>,
}

impl<T> Model for SharedList<T> {
    ghost use Rattle.std.specs.Prelude.{List, [], unwrap_or};
    ghost use Rattle.std.specs.Coded.{coded_list};

    ghost Value = { List T };

    ghost coded = { coded_list T.code };

    ghost view = { λ l. unwrap_or l.items [] };
}

impl<T> SharedList<T> {
    /// The items in order.
    pub fn as_slice(&self) -> &[T]
        ensures { result.now ≡ self.now }
    {
        match &self.items {
            Some(items) => items.get().as_slice(),
            None => &[],
        }
    }

    /// How many there are.
    pub fn len(&self) -> usize
        ensures { result ≡ length self.now }
    {
        self.as_slice().len()
    }
}

impl<T: Drop> SharedList<T> {
    /// The list without items. Takes no memory.
    pub fn empty() -> SharedList<T>
        ensures { result ≡ [] }
    {
        SharedList { items: None }
    }

    /// The list of these items, with one owner so far.
    pub fn new(alloc: Global, items: Vec<T>) -> Mem<SharedList<T>>
        ensures { IfOk result (λ list. list ≡ items.items) }
    {
        if items.is_empty() {
            return Ok(SharedList::empty());
        }
        let items = Shared::new(alloc, Items::from_vec(items))?;
        Ok(SharedList { items: Some(items) })
    }

    /// One owner more of the same list. Takes no memory; it is refused where a list has as many owners as can be
    /// counted.
    pub fn copy(&self) -> Mem<SharedList<T>>
        ensures { IfOk result (λ list. list ≡ self.now) }
    {
        match &self.items {
            Some(items) => {
                let items = items.copy()?;
                Ok(SharedList { items: Some(items) })
            }
            None => Ok(SharedList::empty()),
        }
    }
}

impl<T: Debug> Debug for SharedList<T> {
    fn fmt<W: Write>(&self, f: &mut Formatter<W>) -> fmt::Result {
        f.debug_list().slice(self.as_slice()).finish()
    }
}
