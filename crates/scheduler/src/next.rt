// The files and the events after a step.
ghost use Rattle.std.specs.Prelude.{◌≡◌, ◌++◌, length, IfOk, OnOk};
ghost use Rattle.kept_files.specs.States.{AreKept};
ghost use Rattle.scheduler.specs.Steps.{AreAllKept, AreFatesKept};
ghost use Rattle.scheduler.specs.Steps.{events_at, events_of, left, left_at, moved, moved_from, next};

use crate::event::{DropCause, Event};
use crate::fate::Fate;
use crate::settle::is_beside;
use kept_files::{KeptFile, put_file};
use rw_base::{Mem, Place, Shared, Text};
use std::alloc::Global;

fn push_left(out: &mut Vec<Shared<KeptFile>>, own: &Shared<KeptFile>, fate: &Fate) -> Mem<()>
    ensures { OnOk result (out.new.items ≡ out.old.items ++ left_at own.now fate.now) }
{
    match fate {
        Fate::Goes => {}
        Fate::Becomes(new) => {
            if is_beside(new.get(), own.get()) {
                out.push(new.copy()?)?;
            }
        }
        _ => out.push(own.copy()?)?,
    }
    Ok(())
}

fn push_moved(out: &mut Vec<Shared<KeptFile>>, own: &Shared<KeptFile>, fate: &Fate) -> Mem<()>
    ensures { OnOk result (out.new.items ≡ out.old.items ++ moved_from own.now fate.now) }
{
    if let Fate::Becomes(new) = fate {
        if !is_beside(new.get(), own.get()) {
            out.push(new.copy()?)?;
        }
    }
    Ok(())
}

// What stands at the files' own paths.
#[tactic(auto, using(crate::proofs::Beside::besides))]
fn left(alloc: Global, files: &[Shared<KeptFile>], fates: &[Fate]) -> Mem<Vec<Shared<KeptFile>>>
    requires count { length fates.now ≡ length files.now }
    requires kept { AreKept files.now }
    requires fates { AreFatesKept fates.now }
    ensures left { IfOk result (λ out. out.items ≡ left files.now fates.now) }
    ensures kept { IfOk result (λ out. AreKept out.items) }
{
    let mut out = Vec::with_capacity(alloc, files.len())?;
    for (i, fate) in fates.iter().enumerate() {
        push_left(&mut out, &files[i], fate)?;
    }
    Ok(out)
}

// What stands at other paths because of them.
#[tactic(auto, using(crate::proofs::Beside::besides))]
fn moved(alloc: Global, files: &[Shared<KeptFile>], fates: &[Fate]) -> Mem<Vec<Shared<KeptFile>>>
    requires count { length fates.now ≡ length files.now }
    requires fates { AreFatesKept fates.now }
    ensures moved { IfOk result (λ out. out.items ≡ moved files.now fates.now) }
    ensures kept { IfOk result (λ out. AreAllKept out.items) }
{
    let mut out = Vec::new(alloc);
    for (i, fate) in fates.iter().enumerate() {
        push_moved(&mut out, &files[i], fate)?;
    }
    Ok(out)
}

/// The files after a step.
#[tactic(auto, using(crate::proofs::After::next_is))]
pub(crate) fn next(
    alloc: Global,
    files: &[Shared<KeptFile>],
    fates: &[Fate],
) -> Mem<Vec<Shared<KeptFile>>>
    requires count { length fates.now ≡ length files.now }
    requires kept { AreKept files.now }
    requires fates { AreFatesKept fates.now }
    ensures next { IfOk result (λ out. out.items ≡ next files.now fates.now) }
    ensures kept { IfOk result (λ out. AreKept out.items) }
{
    let mut out = left(alloc, files, fates)?;
    for file in moved(alloc, files, fates)? {
        put_file(&mut out, file)?;
    }
    Ok(out)
}

fn push_event(
    alloc: Global,
    out: &mut Vec<Event>,
    recipe: &[u8],
    own: &KeptFile,
    fate: &Fate,
) -> Mem<()>
    ensures { OnOk result (out.new.items ≡ out.old.items ++ events_at recipe.now own.now fate.now) }
{
    let (place, cause) = match fate {
        Fate::Lost(refused) => (refused.place, DropCause::Refused(refused.cause)),
        Fate::Taken => {
            let first = Place {
                line: 1,
                column: 1,
                byte: 0,
            };
            (first, DropCause::Taken)
        }
        _ => return Ok(()),
    };
    out.push(Event::Dropped {
        path: own.path.copy(alloc)?,
        place,
        cause,
        recipe: Text::from_slice(alloc, recipe)?,
    })?;
    Ok(())
}

/// The events of a step.
#[tactic(auto, using(crate::proofs::Beside::besides))]
pub(crate) fn events_of(
    alloc: Global,
    recipe: &[u8],
    files: &[Shared<KeptFile>],
    fates: &[Fate],
) -> Mem<Vec<Event>>
    requires { length fates.now ≡ length files.now }
    ensures { IfOk result (λ out. out.items ≡ events_of recipe.now files.now fates.now) }
{
    let mut out = Vec::new(alloc);
    for (i, fate) in fates.iter().enumerate() {
        push_event(alloc, &mut out, recipe, files[i].get(), fate)?;
    }
    Ok(out)
}
