// The scopes around a place in a unit.
ghost use Rattle.std.specs.Prelude.{◌≡◌, ◌≤◌, ◌++◌, ◌∷◌, [], ℕ, List, Some, IfOk, OnOk, OnErr, MatchOption};
ghost use Rattle.std.specs.Prelude.{◌⊎◌, take, drop, length, filter, nat_eq};
ghost use Rattle.std.specs.Option.{option_copied};
ghost use Rattle.indexmap.specs.IndexMap.{get};
ghost use Rattle.jtypes.specs.World.{name_eq};
ghost use Rattle.j_names.specs.Indexed.{declared_name, HasNumber};
ghost use Rattle.j_names.specs.Scopes.{behind, IsLastBefore};

use crate::chains::Chains;
use crate::context::Frame;
use indexmap::IndexMap;
use jtypes::Name;
use rw_base::Mem;
use std::alloc::Global;
use std::marker::Model;

/// The scopes around a place, the innermost last. Contracts see the list of them. Those that declare a name are found
/// without going through the others.
#[derive(Drop)]
pub struct Frames {
    items: Vec<Frame>,
    chains: Chains,
    numbers: IndexMap<Name, usize>,
}

impl Model for Frames {
    ghost use Rattle.std.specs.Prelude.{List};
    ghost use Rattle.indexmap.specs.IndexMap.{get};
    ghost use Rattle.jtypes.specs.World.{name_eq};
    ghost use Rattle.j_names.specs.Indexed.{AllNumbered};
    ghost use Rattle.j_names.specs.declared.context.Frame.{Frame};
    ghost use Rattle.jtypes.specs.contracts.types.JType as types;
    ghost use Rattle.std.specs.Coded.{codes};

    ghost Value = { List Frame };

    ghost coded = { Prim.hlevel (codes, types.the_row.coded) };

    ghost view = { λ f. f.items.items };

    ghost invariant = { λ f. AllNumbered (get name_eq f.numbers) f.items.items f.chains };
}

/// The name that a scope declares; the body of a class declares none.
fn declared_name(frame: &Frame) -> Option<&Name>
    ensures { option_copied result ≡ declared_name frame.now }
{
    match frame {
        Frame::Local { name, .. } => Some(name),
        Frame::TypeParam { name } => Some(name),
        Frame::Class { .. } => None,
        Frame::LocalBody { .. } => None,
        Frame::Declared { name } => Some(name),
    }
}

/// The number of a name, which gets one where it has none.
fn number_of_name(numbers: &mut IndexMap<Name, usize>, name: &Name) -> Mem<usize>
    ensures number { IfOk result (λ i. get name_eq numbers.new name.now ≡ Some i) }
    ensures keeps { (n : List ℕ) (i : ℕ) → get name_eq numbers.old n ≡ Some i → get name_eq numbers.new n ≡ Some i }
{
    if let Some(number) = numbers.get(name) {
        return Ok(*number);
    }
    let number = numbers.len() + 1;
    numbers.insert(name.copy()?, number)?;
    Ok(number)
}

/// The number of a scope; that of bodies is 0.
fn number_of(numbers: &mut IndexMap<Name, usize>, frame: &Frame) -> Mem<usize>
    ensures number { IfOk result (HasNumber (get name_eq numbers.new) (declared_name frame.now)) }
    ensures keeps { (n : List ℕ) (i : ℕ) → get name_eq numbers.old n ≡ Some i → get name_eq numbers.new n ≡ Some i }
{
    match declared_name(frame) {
        Some(name) => {
            let number = number_of_name(numbers, name)?;
            Ok(number)
        }
        None => Ok(0),
    }
}

/// The place behind the last of the first so many scopes that has the number of a name; 0 where there is none.
fn last_named(chains: &Chains, numbers: &IndexMap<Name, usize>, n: &Name, end: usize) -> usize
    requires { end ≤ length chains.now }
    ensures within { result ≤ end }
    ensures silent { (k : ℕ) → get name_eq numbers.now n.now ≡ Some k
        → filter (λ i. nat_eq i k) (drop result (take end chains.now)) ≡ [] }
{
    match numbers.get(n) {
        Some(number) => chains.last_before(*number, end),
        None => 0,
    }
}

fn later(a: usize, b: usize) -> usize
    ensures first { a ≤ result }
    ensures second { b ≤ result }
    ensures either { (result ≡ a) ⊎ (result ≡ b) }
{
    if a > b { a } else { b }
}

fn place_before(place: usize) -> Option<usize>
    ensures { behind result ≡ place }
{
    if place > 0 { Some(place - 1) } else { None }
}

impl Frames {
    /// No scopes. Takes no memory.
    pub fn new(alloc: Global) -> Frames
        ensures { result ≡ [] }
    {
        Frames {
            items: Vec::new(alloc),
            chains: Chains::new(alloc),
            numbers: IndexMap::new(alloc),
        }
    }

    /// How many there are.
    pub fn len(&self) -> usize
        ensures { result ≡ length self.now }
    {
        self.items.len()
    }

    /// The scopes, the innermost last.
    pub fn as_slice(&self) -> &[Frame]
        ensures { result.now ≡ self.now }
    {
        self.items.as_slice()
    }

    /// Goes into a scope. Where memory is wanted, all stays as it was.
    pub fn push(&mut self, frame: Frame) -> Mem<()>
        ensures ok { OnOk result (self.new ≡ self.old ++ frame ∷ []) }
        ensures err { OnErr result (self.new ≡ self.old) }
    {
        self.items.reserve(1)?;
        let number = number_of(&mut self.numbers, &frame)?;
        self.chains.push(number)?;
        self.items.push_reserved(frame);
        Ok(())
    }

    /// Leaves the innermost scope, where there is one.
    pub fn pop(&mut self) -> Option<Frame>
        ensures { MatchOption result ((self.old ≡ []) × (self.new ≡ [])) (λ last. self.old ≡ self.new ++ last ∷ []) }
    {
        let last = self.items.pop()?;
        self.chains.pop();
        Some(last)
    }

    /// Leaves all scopes behind the first so many.
    pub fn truncate(&mut self, len: usize)
        ensures { self.new ≡ take len self.old }
    {
        while self.len() > len {
            self.pop();
        }
    }

    /// The last of the first so many scopes that declares a name or is the body of a class, or one behind it.
    pub(crate) fn last_before(&self, n: &Name, end: usize) -> Option<usize>
        requires { end ≤ length self.now }
        ensures { IsLastBefore n.now end self.now result }
    {
        let bodies = self.chains.last_before(0, end);
        let named = last_named(&self.chains, &self.numbers, n, end);
        let place = later(named, bodies);
        place_before(place)
    }
}
