// Numbers in a list, where the last one of a number is at hand.
ghost use Rattle.std.specs.Prelude.{◌≡◌, ◌≤◌, ◌<◌, ◌-◌, ◌++◌, ◌∷◌, [], ℕ, List, OnOk, OnErr, length, take, drop};
ghost use Rattle.std.specs.Prelude.{filter, map, nat_eq};
ghost use Rattle.j_names.specs.Indexed.{IsBehindLast, IsChained, IsPassed};
ghost use Rattle.j_names.specs.declared.link.Link.{Link as ALink};

use crate::link::Link;
use rw_base::Mem;
use std::alloc::Global;
use std::marker::Model;

/// Numbers in the order in which they came. Contracts see the list of them. The last one of a number before a place is
/// found without going through all.
#[derive(Drop)]
pub(crate) struct Chains {
    links: Vec<Link>,
    heads: Vec<usize>,
}

impl Model for Chains {
    ghost use Rattle.std.specs.Prelude.{List, ℕ, map};
    ghost use Rattle.j_names.specs.Indexed.{IsChained};

    ghost Value = { List ℕ };

    ghost view = { λ c. map (λ l. l.number) c.links.items };

    ghost invariant = { λ c. IsChained c.links.items c.heads.items };
}

/// Makes heads for all numbers up to one.
fn grow(heads: &mut Vec<usize>, number: usize) -> Mem<()>
    ensures chained { (links : List ALink) → IsChained links heads.old.items → IsChained links heads.new.items }
    ensures longer { OnOk result (number < length heads.new.items) }
{
    while heads.len() <= number {
        heads.push(0)?;
    }
    Ok(())
}

/// Adds a number that has a head.
fn put(links: &mut Vec<Link>, heads: &mut Vec<usize>, number: usize) -> Mem<()>
    requires known { number < length heads.old.items }
    requires chained { IsChained links.old.items heads.old.items }
    ensures chained { IsChained links.new.items heads.new.items }
    ensures ok { OnOk result (map (λ l. l.number) links.new.items
        ≡ map (λ l. l.number) links.old.items ++ number ∷ []) }
    ensures err { OnErr result (links.new.items ≡ links.old.items) }
{
    let before = heads[number];
    links.push(Link { number, before })?;
    heads[number] = links.as_slice().len();
    Ok(())
}

/// Takes the last number off, where there is one.
fn take_off(links: &mut Vec<Link>, heads: &mut Vec<usize>)
    requires { IsChained links.old.items heads.old.items }
    ensures chained { IsChained links.new.items heads.new.items }
    ensures value { map (λ l. l.number) links.new.items
        ≡ take (length links.old.items - 1) (map (λ l. l.number) links.old.items) }
{
    if let Some(link) = links.pop() {
        heads[link.number] = link.before;
    }
}

/// The place behind the last link with a number.
fn head(links: &[Link], heads: &[usize], number: usize) -> usize
    requires { IsChained links.now heads.now }
    ensures { IsBehindLast number links.now result }
{
    if number < heads.len() {
        heads[number]
    } else {
        0
    }
}

/// The place behind the last one of the first so many links with a number.
fn last_in(links: &[Link], heads: &[usize], number: usize, end: usize) -> usize
    requires chained { IsChained links.now heads.now }
    requires within { end ≤ length links.now }
    ensures within { result ≤ end }
    ensures passed { IsPassed number end links.now result }
{
    let mut at = head(links, heads, number);
    while at > end {
        at = links[at - 1].before;
    }
    at
}

impl Chains {
    /// No numbers. Takes no memory.
    pub(crate) fn new(alloc: Global) -> Chains
        ensures { result ≡ [] }
    {
        Chains {
            links: Vec::new(alloc),
            heads: Vec::new(alloc),
        }
    }

    /// Adds a number. Where memory is wanted, all stays as it was.
    pub(crate) fn push(&mut self, number: usize) -> Mem<()>
        ensures ok { OnOk result (self.new ≡ self.old ++ number ∷ []) }
        ensures err { OnErr result (self.new ≡ self.old) }
    {
        grow(&mut self.heads, number)?;
        put(&mut self.links, &mut self.heads, number)?;
        Ok(())
    }

    /// Takes the last number off, where there is one.
    pub(crate) fn pop(&mut self)
        ensures { self.new ≡ take (length self.old - 1) self.old }
    {
        take_off(&mut self.links, &mut self.heads);
    }

    /// The place behind the last one of the first so many that is a number; 0 where there is none.
    pub(crate) fn last_before(&self, number: usize, end: usize) -> usize
        requires { end ≤ length self.now }
        ensures within { result ≤ end }
        ensures silent { filter (λ i. nat_eq i number) (drop result (take end self.now)) ≡ [] }
    {
        last_in(&self.links, &self.heads, number, end)
    }
}
