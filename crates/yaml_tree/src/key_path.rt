// Key paths: texts that name entries of YAML files.
ghost use Rattle.std.specs.Prelude.{◌≡◌, ℕ, ◌<◌, ◌≤◌, ◌^◌, Err, length, IfOk, IfSome, IfNone};
ghost use Rattle.yaml_tree.specs.declared.key_path.PathFault.TheVariants as path_fault;
ghost use Rattle.yaml_tree.specs.KeyPaths.{in_name, AreNames, IsKeyPath, IsWrongAt};
ghost use Rattle.yaml_tree.specs.PathReading.{run_size, name_size, step_of, start_size, common, IsBehind, GoesOn};

use rw_base::{Mem, NoMemory, Text};
use std::alloc::{AllocFailed, Global};
use std::marker::Model;

/// A step of a key path.
#[derive(Debug, Drop)]
pub enum PathStep {
    /// From a mapping to its entries with this key.
    Name(Text),
    /// From a mapping to all its entries, written `*`.
    AnyName,
    /// From a sequence to all its items, written `[*]`.
    AnyItem,
}

/// Why a text gives no key path.
#[derive(Clone, Copy, Debug, PartialEq, Eq)]
pub enum PathFault {
    /// It is none: the byte behind its longest front that begins some key path.
    At(u32),
    NoMemory,
}

impl From<NoMemory> for PathFault {
    ghost from_gives = { λ _ e. e ≡ path_fault.NoMemory };

    fn from(_: NoMemory) -> Self {
        PathFault::NoMemory
    }
}

impl<T: Drop> From<AllocFailed<T>> for PathFault {
    ghost from_gives = { λ _ e. e ≡ path_fault.NoMemory };

    fn from(_: AllocFailed<T>) -> Self {
        PathFault::NoMemory
    }
}

/// A key path, which contracts see as the list of its steps.
#[derive(Debug, Drop)]
pub struct KeyPath {
    steps: Vec<PathStep>,
}

impl Model for KeyPath {
    ghost use Rattle.std.specs.Prelude.{List};
    ghost use Rattle.yaml_tree.specs.declared.key_path.PathStep.{PathStep};

    ghost Value = { List PathStep };

    ghost view = { λ p. p.steps.items };
}

const ITEMS: [u8; 4] = *b"[*].";

// A byte of a name.
#[tactic(auto, unfolding(crate::specs::KeyPaths::ends_name))]
fn in_name(b: u8) -> bool
    ensures { result ≡ in_name b }
{
    !(b == b'.' || b == b'[' || b == b']' || b == b'*' || b == b'$' || b == b' ' || b == b'\t')
}

// How many bytes of names a text begins with.
fn run_size(text: &[u8]) -> usize
    ensures size { result ≡ run_size text.now }
    ensures inside { result ≤ length text.now }
{
    for (at, b) in text.iter().enumerate() {
        if !in_name(*b) {
            return at;
        }
    }
    text.len()
}

// How long the name is with which a text begins, 0 where none does.
fn name_size(text: &[u8]) -> usize
    ensures size { result ≡ name_size text.now }
    ensures inside { result ≤ length text.now }
{
    match text {
        [] => 0,
        [b'*', ..] => 1,
        _ => run_size(text),
    }
}

// The step of a name.
fn step_of(alloc: Global, name: &[u8]) -> Mem<PathStep>
    ensures { IfOk result (λ step. step ≡ step_of name.now) }
{
    match name {
        [b'*', ..] => Ok(PathStep::AnyName),
        _ => Ok(PathStep::Name(Text::from_slice(alloc, name)?)),
    }
}

// How many bytes of `[*].` a text begins with.
fn items_size(text: &[u8]) -> usize
    ensures size { result ≡ common ITEMS text.now }
    ensures inside { result ≤ length text.now }
    ensures most { result ≤ 4 }
{
    for (at, b) in text.iter().enumerate() {
        if at >= ITEMS.len() || *b != ITEMS[at] {
            return at;
        }
    }
    text.len()
}

// How many bytes stand before the first name: `$.`, `$` or none.
fn start_size(text: &[u8]) -> usize
    ensures { result ≡ start_size text.now }
{
    match text {
        [b'$', b'.', ..] => 2,
        [b'$', ..] => 1,
        _ => 0,
    }
}

// Reads a name, and gives the byte behind it.
fn read_name(
    alloc: Global,
    text: &[u8],
    at: usize,
    steps: &mut Vec<PathStep>,
) -> Result<usize, PathFault>
    requires small { length text.now < 2 ^ 32 }
    requires goes_on { GoesOn AreNames text.now steps.old.items at }
    ensures behind { IfOk result (λ to. GoesOn IsBehind text.now steps.new.items to) }
    ensures farther { IfOk result (λ to. at < to) }
    ensures fault { (n : ℕ) → result ≡ Err (path_fault.At n) → IsWrongAt IsKeyPath text.now n }
{
    let rest = &text[at..];
    let size = name_size(rest);
    if size == 0 {
        return Err(PathFault::At(at as u32));
    }
    steps.push(step_of(alloc, &rest[..size])?)?;
    Ok(at + size)
}

// Reads what stands between a name and the next, and gives the byte where that begins, or none at the end.
fn read_behind(
    text: &[u8],
    at: usize,
    steps: &mut Vec<PathStep>,
) -> Result<Option<usize>, PathFault>
    requires small { length text.now < 2 ^ 32 }
    requires goes_on { GoesOn IsBehind text.now steps.old.items at }
    ensures next { IfOk result (λ next. IfSome next (λ to. GoesOn AreNames text.now steps.new.items to)) }
    ensures farther { IfOk result (λ next. IfSome next (λ to. at < to)) }
    ensures end { IfOk result (λ next. IfNone next (IsKeyPath steps.new.items text.now)) }
    ensures fault { (n : ℕ) → result ≡ Err (path_fault.At n) → IsWrongAt IsKeyPath text.now n }
{
    let rest = &text[at..];
    if rest.is_empty() {
        return Ok(None);
    }
    if rest[0] == b'.' {
        return Ok(Some(at + 1));
    }
    let size = items_size(rest);
    if size < ITEMS.len() {
        return Err(PathFault::At((at + size) as u32));
    }
    steps.push(PathStep::AnyItem)?;
    Ok(Some(at + size))
}

impl KeyPath {
    /// The key path that a text spells.
    pub fn read(alloc: Global, text: &[u8]) -> Result<KeyPath, PathFault>
        requires { length text.now < 2 ^ 32 }
        ensures path { IfOk result (λ path. IsKeyPath path text.now) }
        ensures fault { (n : ℕ) → result ≡ Err (path_fault.At n) → IsWrongAt IsKeyPath text.now n }
    {
        let mut steps = Vec::new(alloc);
        let mut at = start_size(text);
        loop {
            let behind = read_name(alloc, text, at, &mut steps)?;
            match read_behind(text, behind, &mut steps)? {
                None => return Ok(KeyPath { steps }),
                Some(next) => at = next,
            }
        }
    }

    /// Its steps, in order.
    pub fn steps(&self) -> &[PathStep]
        ensures { result.now ≡ self.now }
    {
        &self.steps
    }
}
