// What comes next where a row with gaps is tried on items.
ghost use Rattle.method_pattern.specs.Onwards.{IsBehindFirst};

/// What the first element of a row does with the first item, where both are rows of some kind.
#[derive(Clone, Copy, Debug)]
pub(crate) enum Onward<L, R> {
    /// Both rows are at their end.
    Ended,
    /// A gap is first, with this row behind it.
    Gap(L),
    /// It takes the item; what stands behind both.
    Taken(L, R),
    /// The row doesn't fit the items.
    Stuck,
}

/// What stands behind the first item.
pub(crate) fn behind_first<T>(items: &[T]) -> Option<&[T]>
    ensures { IsBehindFirst (λ rest. rest.now) result items.now }
{
    match items {
        [] => None,
        [_, rest @ ..] => Some(rest),
    }
}
