// Values with several owners.
ghost use Rattle.std.specs.Prelude.{◌≡◌, IfOk};

use crate::Mem;
use std::alloc::Global;
use std::fmt;
use std::fmt::{Debug, Formatter, Write};
use std::marker::Model;
use std::sync::Arc;

/// A value with several owners, which none of them changes. Contracts see the value.
#[derive(Drop)]
pub struct Shared<T> {
    inner: Arc<T, Global>,
}

impl<T> Model for Shared<T> {
    ghost use Rattle.std.specs.Arc.{arc_value};

    ghost Value = { T };

    ghost coded = { T.code };

    ghost view = { λ s. arc_value s.inner };
}

impl<T> Shared<T> {
    /// The value.
    pub fn get(&self) -> &T
        ensures { result.now ≡ self.now }
    {
        &self.inner
    }
}

impl<T: Drop> Shared<T> {
    /// A value with one owner so far.
    pub fn new(alloc: Global, value: T) -> Mem<Shared<T>>
        ensures { IfOk result (λ shared. shared ≡ value) }
    {
        let inner = Arc::new(alloc, value)?;
        Ok(Shared { inner })
    }

    /// One owner more of the same value. Takes no memory; it is refused where the value has as many owners as can be
    /// counted.
    pub fn copy(&self) -> Mem<Shared<T>>
        ensures { IfOk result (λ shared. shared ≡ self.now) }
    {
        let inner = Arc::try_clone(&self.inner)?;
        Ok(Shared { inner })
    }
}

impl<T: Debug> Debug for Shared<T> {
    fn fmt<W: Write>(&self, f: &mut Formatter<W>) -> fmt::Result {
        self.get().fmt(f)
    }
}
