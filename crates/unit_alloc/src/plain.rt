//! Owners kept plainly, one entry for each unit that has an owner, found by scanning: slow, and
//! meant for tests of a body that is not.
ghost use Rattle.std.specs.Prelude.{◌≡◌, ◌<◌, ◌≤◌, ◌+◌, ◌-◌, ◌==◌, ◌↔◌, ◌^◌, ℕ, [], ◌∷◌, ◌++◌, All, IsTrue, IsErr, IfOk, OnOk, OnErr, length, take, drop, slice_index, nat_lt, count_by};
ghost use Rattle.std.specs.List.{list_any};
ghost use Rattle.unit_alloc.specs.Log.{given, replayed};
ghost use Rattle.unit_alloc.specs.Owning.{kept};

use crate::sum::is_sum;
use crate::{NoSpace, Owned};
use fb_frame::memory::Memory;
use std::alloc::Global;
use std::marker::Model;

/// A unit, and the part that owns it.
#[derive(Clone, Copy)]
struct Entry {
    part: u32,
    unit: u32,
}

/// Who owns which unit, as the list of the entries in the order in which units were handed out.
#[derive(Drop)]
pub struct PlainOwners {
    units: u32,
    parts: u32,
    entries: Vec<Entry>,
}

impl Model for PlainOwners {
    ghost use Rattle.std.specs.Prelude.{◌^◌, ◌<◌, ◌≤◌};
    ghost use Rattle.std.specs.Vec.{vec_capacity};
    ghost use Rattle.unit_alloc.specs.Owning.{Owning};

    ghost Value = { Owning };

    ghost use Rattle.unit_alloc.specs.Log.{replayed, IsLog};

    ghost view = { λ a. replayed a.units a.parts a.entries.items };

    ghost invariant = { λ a. IsLog a.units a.parts a.entries.items × (a.units ≤ vec_capacity a.entries) × (a.units < 2 ^ 32) };
}

impl PlainOwners {
    ghost use Rattle.unit_alloc.specs.Owning.{OneOwner, IsLowestFree, units_of, times, is_owned, free_units, unowned, with_units, handed, kept, run_from};

    /// No unit has an owner. Takes all the memory that later calls need.
    pub fn new(alloc: Global, units: u32, parts: u32) -> Result<PlainOwners, Memory>
        ensures unowned { IfOk result (λ owners. owners ≡ unowned units parts) }
        ensures one_owner { IfOk result (λ owners. OneOwner owners) }
    {
        let entries = Vec::with_capacity(alloc, units as usize).map_err(|_| Memory)?;
        Ok(PlainOwners {
            units,
            parts,
            entries,
        })
    }

    /// How many units have no owner.
    #[tactic(auto, using(crate::proofs::FreeLemmas::free_steps))]
    pub fn free(&self) -> u32
        ensures free { result ≡ length (free_units self.now) }
        ensures one_owner { OneOwner self.now }
    {
        let mut free = 0;
        for unit in 0..self.units {
            if !self.is_owned(unit) {
                free += 1;
            }
        }
        free
    }

    /// Hands a unit out to a part, behind those that it has.
    pub fn claim(&mut self, part: u32, unit: u32) -> Result<(), Owned>
        requires part { part < length self.old.parts }
        requires unit { unit < self.old.units }
        ensures owned { IsErr result ↔ IsTrue (is_owned self.old unit) }
        ensures ok { OnOk result (self.new ≡ handed self.old part (unit ∷ [])) }
        ensures err { OnErr result (self.new ≡ self.old) }
        ensures one_owner { OneOwner self.new }
    {
        if self.is_owned(unit) {
            return Err(Owned);
        }
        self.append(part, unit);
        Ok(())
    }

    /// Hands the lowest free units out to a part, in ascending order.
    #[tactic(auto, using(crate::proofs::GrownLemmas::growing))]
    pub fn grow(&mut self, part: u32, more: u32) -> Result<(), NoSpace>
        requires { part < length self.old.parts }
        ensures no_space { IsErr result ↔ (length (free_units self.old) < more) }
        ensures ok { OnOk result (self.new ≡ handed self.old part (take more (free_units self.old))) }
        ensures err { OnErr result (self.new ≡ self.old) }
        ensures one_owner { OneOwner self.new }
    {
        if self.free() < more {
            return Err(NoSpace);
        }
        for _count in 0..more {
            let unit = self.lowest_free();
            self.append(part, unit);
        }
        Ok(())
    }

    /// Frees the units of a part that stand behind the first `keep`.
    pub fn shrink(&mut self, part: u32, keep: u32)
        requires { part < length self.old.parts }
        ensures kept { self.new ≡ kept self.old part keep }
        ensures one_owner { OneOwner self.new }
    {
        let count = keep_first(&mut self.entries, part, keep);
        self.entries.truncate(count);
    }

    /// Frees all units of a part.
    pub fn release(&mut self, part: u32)
        requires { part < length self.old.parts }
        ensures released { self.new ≡ with_units self.old part [] }
        ensures one_owner { OneOwner self.new }
    {
        self.shrink(part, 0);
    }

    /// How many units a part has.
    pub fn count(&self, part: u32) -> u32
        requires { part < length self.now.parts }
        ensures count { result ≡ length (units_of self.now part) }
        ensures small { self.now.units < 2 ^ 32 }
        ensures one_owner { OneOwner self.now }
    {
        count_entries(&self.entries, part)
    }

    /// The unit at a place of a part's list.
    pub fn unit_at(&self, part: u32, place: u32) -> u32
        requires part { part < length self.now.parts }
        requires place { place < length (units_of self.now part) }
        ensures unit { result ≡ slice_index (units_of self.now part) place }
        ensures there { result < self.now.units }
        ensures one_owner { OneOwner self.now }
    {
        nth_unit(&self.entries, part, place)
    }

    /// The unit at a place of a part's list, and how many units from there on have consecutive
    /// ascending numbers.
    #[tactic(auto, using(crate::proofs::RunLemmas::runs))]
    pub fn run_at(&self, part: u32, place: u32) -> (u32, u32)
        requires part { part < length self.now.parts }
        requires place { place < length (units_of self.now part) }
        ensures unit { result.0 ≡ slice_index (units_of self.now part) place }
        ensures run { result.1 ≡ run_from result.0 (drop place (units_of self.now part)) }
        ensures there { result.0 + result.1 ≤ self.now.units }
        ensures small { self.now.units < 2 ^ 32 }
        ensures some { 0 < result.1 }
        ensures rest { place + result.1 ≤ length (units_of self.now part) }
        ensures each { (k : ℕ) → k < result.1 →
            slice_index (units_of self.now part) (place + k) ≡ result.0 + k }
        ensures one_owner { OneOwner self.now }
    {
        let first = self.unit_at(part, place);
        (first, self.run_of(part, place, first))
    }

    /// The run at a place after the first, where `last` is the unit at the place before.
    #[tactic(auto, using(crate::proofs::RunLemmas::runs))]
    pub fn run_after(&self, part: u32, place: u32, _last: u32) -> (u32, u32)
        requires part { part < length self.now.parts }
        requires place { place < length (units_of self.now part) }
        requires later { 0 < place }
        requires last { _last ≡ slice_index (units_of self.now part) (place - 1) }
        ensures unit { result.0 ≡ slice_index (units_of self.now part) place }
        ensures run { result.1 ≡ run_from result.0 (drop place (units_of self.now part)) }
        ensures there { result.0 + result.1 ≤ self.now.units }
        ensures small { self.now.units < 2 ^ 32 }
        ensures some { 0 < result.1 }
        ensures rest { place + result.1 ≤ length (units_of self.now part) }
        ensures each { (k : ℕ) → k < result.1 →
            slice_index (units_of self.now part) (place + k) ≡ result.0 + k }
        ensures one_owner { OneOwner self.now }
    {
        self.run_at(part, place)
    }

    /// How many units from a place on have consecutive ascending numbers, where `first` stands there.
    fn run_of(&self, part: u32, place: u32, first: u32) -> u32
        requires part { part < length self.now.parts }
        requires place { place < length (units_of self.now part) }
        requires first { first ≡ slice_index (units_of self.now part) place }
        ensures run { result ≡ run_from first (drop place (units_of self.now part)) }
        ensures small { self.now.units < 2 ^ 32 }
        ensures one_owner { OneOwner self.now }
    {
        let count = self.count(part);
        let mut run = 1;
        while run < count - place && is_sum(self.unit_at(part, place + run), first, run) {
            run += 1;
        }
        run
    }

    fn is_owned(&self, unit: u32) -> bool
        ensures owned { result ≡ is_owned self.now unit }
        ensures one_owner { OneOwner self.now }
    {
        has_entry(&self.entries, unit)
    }

    fn lowest_free(&self) -> u32
        requires { 0 < length (free_units self.now) }
        ensures { IsLowestFree self.now result }
    {
        for unit in 0..self.units {
            if !self.is_owned(unit) {
                return unit;
            }
        }
        unreachable!()
    }

    fn append(&mut self, part: u32, unit: u32)
        requires part { part < length self.old.parts }
        requires unit { unit < self.old.units }
        requires free { times unit self.old.parts ≡ 0 }
        ensures handed { self.new ≡ handed self.old part (unit ∷ []) }
        ensures one_owner { OneOwner self.new }
    {
        let Ok(()) = self.entries.push(Entry { part, unit }) else {
            unreachable!();
        };
    }
}

/// An entry has the unit.
fn has_entry(entries: &[Entry], unit: u32) -> bool
    ensures { result ≡ list_any (λ entry. entry.unit == unit) entries.now }
{
    entries.iter().any(|entry| entry.unit == unit)
}

/// How many entries a part has.
#[tactic(auto, using(crate::proofs::LogLemmas::given_steps))]
fn count_entries(entries: &[Entry], part: u32) -> u32
    requires { length entries.now < 2 ^ 32 }
    ensures { result ≡ length (given part entries.now) }
{
    let mut count = 0;
    for entry in entries {
        if entry.part == part {
            count += 1;
        }
    }
    count
}

/// The unit of the part's entry that has `place` entries of the part before it.
#[tactic(auto, using(crate::proofs::LogLemmas::given_steps))]
fn nth_unit(entries: &[Entry], part: u32, place: u32) -> u32
    requires { place < length (given part entries.now) }
    ensures { result ≡ slice_index (given part entries.now) place }
{
    let mut before = place;
    for entry in entries {
        if entry.part == part {
            if before == 0 {
                return entry.unit;
            }
            before -= 1;
        }
    }
    unreachable!()
}

/// Moves to the front what stays of the entries where a part keeps its first `keep`, and tells how
/// many stay.
fn keep_first(entries: &mut [Entry], part: u32, keep: u32) -> usize
    ensures bound { result ≤ length entries.old }
    ensures parted { (parts : ℕ) → All (λ entry. entry.part < parts) entries.old
        → All (λ entry. entry.part < parts) (take result entries.new) }
    ensures kept { (units parts : ℕ) → part < parts
        → replayed units parts (take result entries.new) ≡ kept (replayed units parts entries.old) part keep }
{
    let mut count = 0;
    let mut to = 0;
    for from in 0..entries.len() {
        let entry = entries[from];
        if entry.part != part {
            entries[to] = entry;
            to += 1;
        } else if count < keep {
            entries[to] = entry;
            to += 1;
            count += 1;
        }
    }
    to
}
