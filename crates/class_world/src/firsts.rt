// The declared types of a repository, each name once.
ghost use Rattle.std.specs.Prelude.{◌≡◌, ◌++◌, ◌∷◌, [], IfOk, OnOk, List, map};
ghost use Rattle.declared_types.specs.declared.written.DeclaredType.{DeclaredType as ADeclaredType};
ghost use Rattle.class_world.specs.Once.{AreFirsts};
ghost use Rattle.class_world.specs.Worlds.{all_declared, first_of_each};

use declared_types::{DeclaredType, Skeleton};
use indexmap::IndexSet;
use jtypes::Name;
use rw_base::Mem;
use std::alloc::Global;

/// Adds the declared types of a file.
fn put_types<'a>(all: &mut Vec<&'a DeclaredType>, skeleton: &'a Skeleton) -> Mem<()>
    ensures { OnOk result (map (λ d. d.now) all.new.items ≡ map (λ d. d.now) all.old.items ++ skeleton.now.types) }
{
    for declared in skeleton.types.as_slice() {
        all.push(declared)?;
    }
    Ok(())
}

/// Adds the declared types of some files, file by file.
fn put_all<'a>(all: &mut Vec<&'a DeclaredType>, skeletons: &'a [Skeleton]) -> Mem<()>
    ensures { OnOk result (map (λ d. d.now) all.new.items
        ≡ map (λ d. d.now) all.old.items ++ all_declared skeletons.now) }
{
    for skeleton in skeletons {
        put_types(all, skeleton)?;
    }
    Ok(())
}

/// Adds a declared type, unless there is one of its name.
fn put_first<'a>(
    names: &mut IndexSet<Name>,
    firsts: &mut Vec<&'a DeclaredType>,
    declared: &'a DeclaredType,
) -> Mem<()>
    ensures { OnOk result ((ds : List ADeclaredType) →
        AreFirsts names.old (map (λ d. d.now) firsts.old.items) ds →
        AreFirsts names.new (map (λ d. d.now) firsts.new.items) (ds ++ declared.now ∷ [])) }
{
    if names.contains(&declared.name) {
        return Ok(());
    }
    let name = declared.name.copy()?;
    names.insert(name)?;
    firsts.push(declared)?;
    Ok(())
}

/// The first declaration of each name.
fn first_of_each<'a>(alloc: Global, all: &[&'a DeclaredType]) -> Mem<Vec<&'a DeclaredType>>
    ensures { IfOk result (λ firsts. map (λ d. d.now) firsts.items ≡ first_of_each (map (λ d. d.now) all.now)) }
{
    let mut names = IndexSet::new(alloc);
    let mut firsts = Vec::new(alloc);
    for declared in all {
        put_first(&mut names, &mut firsts, declared)?;
    }
    Ok(firsts)
}

/// The types that count: those of the files first, then those of the stubs, then the prelude's.
pub(crate) fn types_that_count<'a>(
    alloc: Global,
    files: &'a [Skeleton],
    stubs: &'a [Skeleton],
    prelude: &'a Skeleton,
) -> Mem<Vec<&'a DeclaredType>>
    ensures { IfOk result (λ types. map (λ d. d.now) types.items
        ≡ first_of_each (all_declared (files.now ++ stubs.now ++ prelude.now ∷ []))) }
{
    let mut all = Vec::new(alloc);
    put_all(&mut all, files)?;
    put_all(&mut all, stubs)?;
    put_types(&mut all, prelude)?;
    let firsts = first_of_each(alloc, all.as_slice())?;
    Ok(firsts)
}
