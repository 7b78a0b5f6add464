ghost use Rattle.std.specs.Prelude.{◌≡◌, ◌<◌, ◌≤◌, ◌+◌, ◌-◌, ◌*◌, ◌/◌, ◌==◌, ◌↔◌, ◌^◌, ℕ, [], ◌∷◌, ◌++◌, IsTrue, IsErr, IfOk, OnOk, OnErr, length, take, drop, slice_index};
ghost use Rattle.unit_alloc.specs.Owning.{run_from};
ghost use Rattle.unit_alloc.specs.Chains.{stepped, linked, linked_next, AreOwned, freed};

use crate::fill::filled;
use crate::states::States;
use crate::sum::is_sum;
use crate::{NoSpace, Owned};
use fb_frame::memory::Memory;
use std::alloc::Global;
use std::marker::Model;

/// A part's units: the first, the last, and how many there are.
#[derive(Clone, Copy)]
pub(crate) struct Chain {
    first: u32,
    last: u32,
    count: u32,
}

/// Who owns which unit, kept from change to change.
///
/// Beside the states of the units it has, for each unit, the next one of the same part, and each
/// part's chain. A unit is claimed in constant time, and the lowest free one found in the words of
/// 64 units that are passed over; a place of a part is reached along the part's own units.
#[derive(Drop)]
pub struct Owners {
    states: States,
    next: Vec<u32>,
    chains: Vec<Chain>,
}

impl Model for Owners {
    ghost use Rattle.unit_alloc.specs.Owning.{Owning};

    ghost Value = { Owning };

    ghost use Rattle.unit_alloc.specs.Chains.{chained, AreChained};

    ghost view = { λ a. chained a.states a.next.items a.chains.items };

    ghost invariant = { λ a. AreChained a.states a.next.items a.chains.items };
}

impl Owners {
    ghost use Rattle.unit_alloc.specs.Owning.{OneOwner, IsLowestFree, units_of, times, is_owned, free_units, unowned, with_units, handed, kept};

    /// No unit has an owner. Takes all the memory that later calls need.
    pub fn new(alloc: Global, units: u32, parts: u32) -> Result<Owners, Memory>
        ensures unowned { IfOk result (λ owners. owners ≡ unowned units parts) }
        ensures one_owner { IfOk result (λ owners. OneOwner owners) }
    {
        let states = States::new(alloc, units)?;
        let next = filled(alloc, 0, units)?;
        let none = Chain {
            first: 0,
            last: 0,
            count: 0,
        };
        let chains = filled(alloc, none, parts)?;
        Ok(Owners {
            states,
            next,
            chains,
        })
    }

    /// How many units have no owner.
    pub fn free(&self) -> u32
        ensures free { result ≡ length (free_units self.now) }
        ensures one_owner { OneOwner self.now }
    {
        self.states.free()
    }

    /// Hands a unit out to a part, behind those that it has.
    pub fn claim(&mut self, part: u32, unit: u32) -> Result<(), Owned>
        requires part { part < length self.old.parts }
        requires unit { unit < self.old.units }
        ensures owned { IsErr result ↔ IsTrue (is_owned self.old unit) }
        ensures ok { OnOk result (self.new ≡ handed self.old part (unit ∷ [])) }
        ensures err { OnErr result (self.new ≡ self.old) }
        ensures one_owner { OneOwner self.new }
    {
        if self.is_owned(unit) {
            return Err(Owned);
        }
        self.append(part, unit);
        Ok(())
    }

    /// Hands the lowest free units out to a part, in ascending order. The search for the next one
    /// goes on where the last one was found.
    pub fn grow(&mut self, part: u32, more: u32) -> Result<(), NoSpace>
        requires { part < length self.old.parts }
        ensures no_space { IsErr result ↔ (length (free_units self.old) < more) }
        ensures ok { OnOk result (self.new ≡ handed self.old part (take more (free_units self.old))) }
        ensures err { OnErr result (self.new ≡ self.old) }
        ensures one_owner { OneOwner self.new }
    {
        if self.free() < more {
            return Err(NoSpace);
        }
        let mut word = 0;
        for _count in 0..more {
            let unit = self.lowest_free(word);
            self.append(part, unit);
            word = unit as usize / 64;
        }
        Ok(())
    }

    /// Frees the units of a part that stand behind the first `keep`.
    pub fn shrink(&mut self, part: u32, keep: u32)
        requires { part < length self.old.parts }
        ensures kept { self.new ≡ kept self.old part keep }
        ensures one_owner { OneOwner self.new }
    {
        let chain = self.chains[part as usize];
        if keep < chain.count {
            let (last, from) = cut(&self.next, chain, keep);
            free_chain(&mut self.states, &self.next, from, chain.count - keep);
            self.chains[part as usize] = Chain {
                first: chain.first,
                last,
                count: keep,
            };
        }
    }

    /// Frees all units of a part.
    pub fn release(&mut self, part: u32)
        requires { part < length self.old.parts }
        ensures released { self.new ≡ with_units self.old part [] }
        ensures one_owner { OneOwner self.new }
    {
        self.shrink(part, 0);
    }

    /// How many units a part has.
    pub fn count(&self, part: u32) -> u32
        requires { part < length self.now.parts }
        ensures count { result ≡ length (units_of self.now part) }
        ensures small { self.now.units < 2 ^ 32 }
        ensures one_owner { OneOwner self.now }
    {
        self.chains[part as usize].count
    }

    /// The unit at a place of a part's list.
    pub fn unit_at(&self, part: u32, place: u32) -> u32
        requires part { part < length self.now.parts }
        requires place { place < length (units_of self.now part) }
        ensures unit { result ≡ slice_index (units_of self.now part) place }
        ensures there { result < self.now.units }
        ensures one_owner { OneOwner self.now }
    {
        walk(&self.next, self.chains[part as usize].first, place)
    }

    /// The unit at a place of a part's list, and how many units from there on have consecutive
    /// ascending numbers.
    #[tactic(auto, using(crate::proofs::RunLemmas::runs))]
    pub fn run_at(&self, part: u32, place: u32) -> (u32, u32)
        requires part { part < length self.now.parts }
        requires place { place < length (units_of self.now part) }
        ensures unit { result.0 ≡ slice_index (units_of self.now part) place }
        ensures run { result.1 ≡ run_from result.0 (drop place (units_of self.now part)) }
        ensures there { result.0 + result.1 ≤ self.now.units }
        ensures small { self.now.units < 2 ^ 32 }
        ensures some { 0 < result.1 }
        ensures rest { place + result.1 ≤ length (units_of self.now part) }
        ensures each { (k : ℕ) → k < result.1 →
            slice_index (units_of self.now part) (place + k) ≡ result.0 + k }
        ensures one_owner { OneOwner self.now }
    {
        let first = self.unit_at(part, place);
        (first, self.run_of(part, place, first))
    }

    /// The run at a place after the first, where `last` is the unit at the place before: one step from
    /// the end of a run to the next, so that all runs of a part are met in time that is linear in its
    /// units.
    #[tactic(auto, using(crate::proofs::RunLemmas::runs))]
    pub fn run_after(&self, part: u32, place: u32, last: u32) -> (u32, u32)
        requires part { part < length self.now.parts }
        requires place { place < length (units_of self.now part) }
        requires later { 0 < place }
        requires last { last ≡ slice_index (units_of self.now part) (place - 1) }
        ensures unit { result.0 ≡ slice_index (units_of self.now part) place }
        ensures run { result.1 ≡ run_from result.0 (drop place (units_of self.now part)) }
        ensures there { result.0 + result.1 ≤ self.now.units }
        ensures small { self.now.units < 2 ^ 32 }
        ensures some { 0 < result.1 }
        ensures rest { place + result.1 ≤ length (units_of self.now part) }
        ensures each { (k : ℕ) → k < result.1 →
            slice_index (units_of self.now part) (place + k) ≡ result.0 + k }
        ensures one_owner { OneOwner self.now }
    {
        let first = self.unit_after(part, place, last);
        (first, self.run_of(part, place, first))
    }

    /// The unit at a place, where `last` is the one before.
    fn unit_after(&self, part: u32, place: u32, last: u32) -> u32
        requires part { part < length self.now.parts }
        requires place { place < length (units_of self.now part) }
        requires later { 0 < place }
        requires last { last ≡ slice_index (units_of self.now part) (place - 1) }
        ensures unit { result ≡ slice_index (units_of self.now part) place }
        ensures one_owner { OneOwner self.now }
    {
        self.next[last as usize]
    }

    /// How many units from a place on have consecutive ascending numbers, where `first` stands there.
    fn run_of(&self, part: u32, place: u32, first: u32) -> u32
        requires part { part < length self.now.parts }
        requires place { place < length (units_of self.now part) }
        requires first { first ≡ slice_index (units_of self.now part) place }
        ensures run { result ≡ run_from first (drop place (units_of self.now part)) }
        ensures small { self.now.units < 2 ^ 32 }
        ensures one_owner { OneOwner self.now }
    {
        run_length(&self.next, first, self.chains[part as usize].count - place)
    }

    fn is_owned(&self, unit: u32) -> bool
        requires { unit < self.now.units }
        ensures owned { result ≡ is_owned self.now unit }
        ensures one_owner { OneOwner self.now }
    {
        !self.states.is_free(unit)
    }

    /// The lowest free unit, where none is free before the word `from` of 64 units.
    fn lowest_free(&self, from: usize) -> u32
        requires some { 0 < length (free_units self.now) }
        requires below { (unit : ℕ) → unit < 64 * from → 0 < times unit self.now.parts }
        ensures { IsLowestFree self.now result }
    {
        self.states.lowest_free(from)
    }

    fn append(&mut self, part: u32, unit: u32)
        requires part { part < length self.old.parts }
        requires unit { unit < self.old.units }
        requires free { times unit self.old.parts ≡ 0 }
        ensures handed { self.new ≡ handed self.old part (unit ∷ []) }
        ensures one_owner { OneOwner self.new }
    {
        let chain = self.chains[part as usize];
        self.states.give(unit, part);
        link(&mut self.next, chain, unit);
        self.chains[part as usize] = chain.longer(unit);
    }
}

impl Chain {
    ghost use Rattle.unit_alloc.specs.Chains.{longer};

    /// The chain with one more unit behind it.
    fn longer(self, unit: u32) -> Chain
        requires { self.count + 1 < 2 ^ 32 }
        ensures { result ≡ longer self unit }
    {
        Chain {
            first: if self.count == 0 { unit } else { self.first },
            last: unit,
            count: self.count + 1,
        }
    }
}

/// Makes a unit the next of a chain's last.
fn link(next: &mut Vec<u32>, chain: Chain, unit: u32)
    requires { 0 < chain.count → chain.last < length next.old.items }
    ensures { next.new.items ≡ linked_next next.old.items chain unit }
{
    if chain.count > 0 {
        next[chain.last as usize] = unit;
    }
}

/// The unit that a number of steps lead to, each to the next unit.
#[tactic(auto, using(crate::proofs::LinkedLemmas::walking))]
fn walk(next: &[u32], first: u32, steps: u32) -> u32
    requires { (k : ℕ) → k < steps → stepped next.now first k < length next.now }
    ensures { result ≡ stepped next.now first steps }
{
    let mut unit = first;
    for _step in 0..steps {
        unit = next[unit as usize];
    }
    unit
}

/// The last unit that a chain of its first `keep` units has, and the first unit that is cut off.
#[tactic(auto, using(crate::proofs::LinkedLemmas::walking))]
fn cut(next: &[u32], chain: Chain, keep: u32) -> (u32, u32)
    requires some { keep < chain.count }
    requires within { (k : ℕ) → k < chain.count → stepped next.now chain.first k < length next.now }
    ensures last { 0 < keep → result.0 ≡ stepped next.now chain.first (keep - 1) }
    ensures from { result.1 ≡ stepped next.now chain.first keep }
{
    if keep == 0 {
        return (chain.last, chain.first);
    }
    let last = walk(next, chain.first, keep - 1);
    (last, next[last as usize])
}

/// How many of the units that follow one another from the first on have consecutive ascending
/// numbers.
fn run_length(next: &[u32], first: u32, count: u32) -> u32
    requires some { 0 < count }
    requires within { (k : ℕ) → k < count → stepped next.now first k < length next.now }
    ensures { result ≡ run_from first (linked next.now first count) }
{
    let mut run = 1;
    let mut last = first;
    while run < count {
        let unit = next[last as usize];
        if !is_sum(unit, last, 1) {
            break;
        }
        last = unit;
        run += 1;
    }
    run
}

/// Takes a number of units that follow one another back from their owner.
fn free_chain(states: &mut States, next: &[u32], first: u32, count: u32)
    requires long { length next.now ≡ length states.old }
    requires owned { AreOwned states.old (linked next.now first count) }
    ensures { states.new ≡ freed states.old (linked next.now first count) }
{
    let mut unit = first;
    for _taken in 0..count {
        states.take_back(unit);
        unit = next[unit as usize];
    }
}
