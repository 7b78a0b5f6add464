ghost use Rattle.std.specs.Prelude.{◌≡◌, ◌<◌, ◌≤◌, ◌+◌, ◌*◌, ◌/◌, ◌^◌, ◌==◌, ◌||◌, ◌&&◌, not, ℕ, true, false, IsSome, IfOk, length, replicate, slice_index_or, slice_set, nat_lt};
ghost use Rattle.unit_alloc.specs.Marks.{is_marked};

use crate::fill::filled;
use fb_frame::memory::Memory;
use std::alloc::Global;
use std::marker::Model;

/// The owner of each unit, and the free units as bits of words, by which the lowest is found.
#[derive(Drop)]
pub(crate) struct States {
    owners: Vec<Option<u32>>,
    words: Vec<u64>,
    free: u32,
}

impl Model for States {
    ghost use Rattle.std.specs.Prelude.{ℕ, List, Option};

    ghost Value = { List (Option ℕ) };

    ghost use Rattle.unit_alloc.specs.Marks.{AreMarked};

    ghost view = { λ a. a.owners.items };

    ghost invariant = { λ a. AreMarked a.owners.items a.words.items a.free };
}

impl States {
    ghost use Rattle.unit_alloc.specs.Marks.{is_free, free_count};

    /// All units are free.
    pub(crate) fn new(alloc: Global, units: u32) -> Result<States, Memory>
        ensures { IfOk result (λ states. states ≡ replicate units None) }
    {
        let owners = filled(alloc, None, units)?;
        let mut words = filled(alloc, 0, units.div_ceil(64))?;
        mark_all(&mut words, units);
        Ok(States {
            owners,
            words,
            free: units,
        })
    }

    /// How many units are free.
    pub(crate) fn free(&self) -> u32
        ensures { result ≡ free_count self.now }
    {
        self.free
    }

    /// The unit is free.
    pub(crate) fn is_free(&self, unit: u32) -> bool
        requires { unit < length self.now }
        ensures { result ≡ is_free self.now unit }
    {
        self.owners[unit as usize].is_none()
    }

    /// Gives a free unit to a part.
    pub(crate) fn give(&mut self, unit: u32, part: u32)
        requires { is_free self.old unit ≡ true }
        ensures { self.new ≡ slice_set self.old unit (Some part) }
    {
        self.owners[unit as usize] = Some(part);
        unmark(&mut self.words, unit);
        self.free -= 1;
    }

    /// Takes a unit back from its owner.
    pub(crate) fn take_back(&mut self, unit: u32)
        requires { IsSome (slice_index_or self.old unit None) }
        ensures { self.new ≡ slice_set self.old unit None }
    {
        self.owners[unit as usize] = None;
        mark(&mut self.words, unit);
        self.free += 1;
    }

    /// The lowest free unit, where none is free before the word `from`.
    pub(crate) fn lowest_free(&self, from: usize) -> u32
        requires some { 0 < free_count self.now }
        requires below { (unit : ℕ) → unit < 64 * from → is_free self.now unit ≡ false }
        ensures free { is_free self.now result ≡ true }
        ensures lowest { (lower : ℕ) → lower < result → is_free self.now lower ≡ false }
    {
        for word in from..self.words.len() {
            let bits = self.words[word];
            if bits != 0 {
                return word as u32 * 64 + bits.trailing_zeros();
            }
        }
        unreachable!()
    }
}

/// Sets the bit of a unit.
fn mark(words: &mut Vec<u64>, unit: u32)
    requires { unit < 64 * length words.old.items }
    ensures long { length words.new.items ≡ length words.old.items }
    ensures marks { (other : ℕ) →
        is_marked words.new.items other ≡ (other == unit || is_marked words.old.items other) }
{
    words[unit as usize / 64] |= 1 << (unit % 64);
}

/// Clears the bit of a unit.
fn unmark(words: &mut Vec<u64>, unit: u32)
    requires { unit < 64 * length words.old.items }
    ensures long { length words.new.items ≡ length words.old.items }
    ensures marks { (other : ℕ) →
        is_marked words.new.items other ≡ (not (other == unit) && is_marked words.old.items other) }
{
    words[unit as usize / 64] &= !(1 << (unit % 64));
}

/// Sets the bits of the first units, where none is set.
fn mark_all(words: &mut Vec<u64>, units: u32)
    requires long { units ≤ 64 * length words.old.items }
    requires none { (unit : ℕ) → is_marked words.old.items unit ≡ false }
    ensures long { length words.new.items ≡ length words.old.items }
    ensures marks { (unit : ℕ) → is_marked words.new.items unit ≡ nat_lt unit units }
{
    for unit in 0..units {
        mark(words, unit);
    }
}
