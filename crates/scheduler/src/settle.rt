// New paths that aren't free.
ghost use Rattle.std.specs.Prelude.{◌≡◌, ◌∷◌, ◌||◌, [], List, length, IfOk, OnOk};
ghost use Rattle.std.specs.Str.{bytes_eq};
ghost use Rattle.kept_files.specs.States.{State, has_path};
ghost use Rattle.scheduler.specs.declared.fate.Fate.{Fate as AnyFate};
ghost use Rattle.scheduler.specs.Fates.{is_among, settled};

use crate::fate::Fate;
use kept_files::{KeptFile, has_path};
use rw_base::{Mem, Shared};
use rw_host::PathText;
use std::alloc::Global;

/// Whether two files have the same path.
pub(crate) fn is_beside(one: &KeptFile, other: &KeptFile) -> bool
    ensures { result ≡ bytes_eq one.now.path other.now.path }
{
    one.path.as_str() == other.path.as_str()
}

fn is_path(one: &PathText, other: &PathText) -> bool
    ensures { result ≡ bytes_eq one.now other.now }
{
    one.as_str() == other.as_str()
}

#[tactic(auto, using(crate::proofs::Decided::any_by))]
fn is_among(path: &PathText, taken: &[PathText]) -> bool
    ensures { result ≡ is_among path.now taken.now }
{
    for other in taken {
        if is_path(other, path) {
            return true;
        }
    }
    false
}

// Whether a path is taken: a file stood there before the step, or an earlier one went there.
fn is_taken(stood: &[Shared<KeptFile>], taken: &[PathText], path: &PathText) -> bool
    ensures { result ≡ (has_path stood.now path.now || is_among path.now taken.now) }
{
    has_path(stood, path.as_str()) || is_among(path, taken)
}

// What becomes of a file that another is to take the place of. Where that one goes to a free path it is taken now.
#[tactic(auto, using(crate::proofs::Settling::cases))]
fn settle_move(
    alloc: Global,
    stood: &[Shared<KeptFile>],
    taken: &mut Vec<PathText>,
    own: &KeptFile,
    new: &Shared<KeptFile>,
) -> Mem<Fate>
    ensures { OnOk result ((fs : State) (ds : List AnyFate)
        → IfOk result (λ d. settled stood.now taken.old.items (own.now ∷ fs) (AnyFate.Becomes new.now ∷ ds)
        ≡ d ∷ settled stood.now taken.new.items fs ds)) }
{
    if is_beside(new.get(), own) {
        return Ok(Fate::Becomes(new.copy()?));
    }
    let path = &new.get().path;
    if is_taken(stood, taken, path) {
        return Ok(Fate::Taken);
    }
    taken.push(path.copy(alloc)?)?;
    Ok(Fate::Becomes(new.copy()?))
}

// What becomes of a file, by the paths that are taken.
#[tactic(auto, using(crate::proofs::Settling::cases))]
fn settle_one(
    alloc: Global,
    stood: &[Shared<KeptFile>],
    taken: &mut Vec<PathText>,
    own: &KeptFile,
    fate: &Fate,
) -> Mem<Fate>
    ensures { OnOk result ((fs : State) (ds : List AnyFate)
        → IfOk result (λ d. settled stood.now taken.old.items (own.now ∷ fs) (fate.now ∷ ds)
        ≡ d ∷ settled stood.now taken.new.items fs ds)) }
{
    match fate {
        Fate::Becomes(new) => settle_move(alloc, stood, taken, own, new),
        Fate::Stays => Ok(Fate::Stays),
        Fate::Goes => Ok(Fate::Goes),
        Fate::Taken => Ok(Fate::Taken),
        Fate::Lost(refused) => Ok(Fate::Lost(*refused)),
    }
}

/// What becomes of each file at a step, once it is known whose new path is taken.
#[tactic(auto, using(crate::proofs::Settling::cases))]
pub(crate) fn settle(alloc: Global, files: &[Shared<KeptFile>], fates: &[Fate]) -> Mem<Vec<Fate>>
    requires { length fates.now ≡ length files.now }
    ensures settled { IfOk result (λ ds. ds.items ≡ settled files.now [] files.now fates.now) }
    ensures count { IfOk result (λ ds. length ds.items ≡ length files.now) }
{
    let mut taken = Vec::new(alloc);
    let mut all = Vec::with_capacity(alloc, files.len())?;
    for (i, fate) in fates.iter().enumerate() {
        let own = files[i].get();
        all.push(settle_one(alloc, files, &mut taken, own, fate)?)?;
    }
    Ok(all)
}
