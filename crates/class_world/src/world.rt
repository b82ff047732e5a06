// The world of classes that files declare.
ghost use Rattle.std.specs.Prelude.{◌≡◌, IfOk};
ghost use Rattle.class_world.specs.Worlds.{the_world};

use crate::firsts::types_that_count;
use crate::row::ClassRow;
use crate::rows::rows_of_types;
use declared_types::Skeleton;
use indexmap::IndexMap;
use jtypes::{Classes, FieldSig, Header, MethodSig, Name};
use rw_base::{Mem, Shared};
use std::alloc::Global;

/// The classes of a repository, with what each declares. A look-up takes the same time in a large world as in a small
/// one. The rows are shared, so that a world can be made of another one's.
#[derive(Drop)]
pub struct World {
    rows: IndexMap<Name, Shared<ClassRow>>,
}

impl World {
    ghost use Rattle.class_world.specs.Rows.{world_in};

    /// The world of these files, in this order, then of the stubs, then of the prelude: of two declarations of one name
    /// the first counts.
    pub fn build(
        alloc: Global,
        files: &[Skeleton],
        stubs: &[Skeleton],
        prelude: &Skeleton,
    ) -> Mem<World>
        ensures gives { IfOk result (λ w. world_in w ≡ the_world files.now stubs.now prelude.now) }
    {
        let types = types_that_count(alloc, files, stubs, prelude)?;
        let rows = rows_of_types(alloc, types.as_slice())?;
        Ok(World { rows })
    }
}

impl Classes for World {
    ghost use Rattle.class_world.specs.Rows.{world_in};

    ghost world = { world_in };

    fn class(&self, name: &Name) -> Option<&Header> {
        match self.rows.get(name) {
            Some(row) => Some(&row.get().header),
            None => None,
        }
    }

    fn field(&self, owner: &Name, name: &Name) -> Option<&FieldSig> {
        match self.rows.get(owner) {
            Some(row) => row.get().field(name),
            None => None,
        }
    }

    fn methods(&self, owner: &Name, name: &Name) -> &[MethodSig] {
        match self.rows.get(owner) {
            Some(row) => row.get().methods(name),
            None => &[],
        }
    }
}
