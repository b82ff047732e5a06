// Lists that are kept.
ghost use Rattle.std.specs.Prelude.{◌≡◌, IfOk};

use jtypes::SharedList;
use rw_base::Mem;
use std::alloc::Global;

// The list of some items, in no more room than they take.
pub(crate) fn kept<T: Drop>(alloc: Global, items: Vec<T>) -> Mem<SharedList<T>>
    ensures { IfOk result (λ list. list ≡ items.items) }
{
    let mut items = items;
    items.shrink_to_fit();
    SharedList::new(alloc, items)
}
