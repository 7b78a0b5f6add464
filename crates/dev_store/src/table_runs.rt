//! The extents of a partition: the maximal runs of its units.
ghost use Rattle.std.specs.Prelude.{◌≡◌, ◌+◌, ◌-◌, ◌*◌, ◌/◌, ◌^◌, ◌<◌, ◌≤◌, ◌++◌, ◌∷◌, length, drop, min};
ghost use Rattle.std.specs.Prelude.{slice_index, vec_capacity};
ghost use Rattle.unit_alloc.specs.Owning.{units_of};
ghost use Rattle.dev_store.specs.LayoutLines.{first_unit, unit_count};
ghost use Rattle.dev_store.specs.SuperBounds.{IsBounded};
ghost use Rattle.dev_store.specs.Runs.{runs_of, extents_for};
ghost use Rattle.dev_store.specs.Building.{run_of};

use crate::layout::SuperPart;
use super_meta::table::Extent;
use unit_alloc::Owners;

/// The maximal run at a place of a part's units: its first unit, and how many there are. After the first
/// place `last` is the unit before.
#[tactic(auto, using(crate::proofs::BuildRuns::runs_here))]
fn run_at(owners: &Owners, part: u32, place: u32, last: u32) -> (u32, u32)
    requires part { part < length owners.now.parts }
    requires place { place < length (units_of owners.now part) }
    requires last { 0 < place → last ≡ slice_index (units_of owners.now part) (place - 1) }
    ensures run { let units = units_of owners.now part in
        runs_of (drop place units) ≡ run_of result ∷ runs_of (drop (place + result.1) units) }
    ensures last { slice_index (units_of owners.now part) (place + result.1 - 1)
        ≡ result.0 + (result.1 - 1) }
    ensures some { 0 < result.1 }
    ensures rest { place + result.1 ≤ length (units_of owners.now part) }
    ensures there { result.0 + result.1 ≤ owners.now.units }
    ensures small { owners.now.units < 2 ^ 32 }
{
    if place == 0 {
        owners.run_at(part, place)
    } else {
        owners.run_after(part, place, last)
    }
}

impl SuperPart {
    /// How many bytes a number of units has.
    fn units_long(&self, count: u32) -> u64
        requires { IsBounded self.now }
        ensures { result ≡ count * self.now.unit }
    {
        u64::from(count) * u64::from(self.unit)
    }

    /// The extent of a run of units, of which no more bytes are taken than are left.
    #[tactic(auto, using(crate::proofs::UnitLemmas::sized))]
    fn run_extent(&self, unit: u32, count: u32, left: u64) -> Extent
        requires { IsBounded self.now }
        ensures { result ≡ record {
          sectors = min left (count * self.now.unit) / 512;
          target = (first_unit self.now + unit * self.now.unit) / 512;
        } }
    {
        Extent {
            sectors: left.min(self.units_long(count)) / 512,
            target: (self.first_unit() + self.units_long(unit)) / 512,
        }
    }

    /// Appends the extents that hold so many bytes of a part's units, into a list that has room for one of
    /// each unit.
    pub(crate) fn add_extents(
        &self,
        owners: &Owners,
        part: u32,
        bytes: u64,
        extents: &mut Vec<Extent>,
    )
        requires bounded { IsBounded self.now }
        requires part { part < length owners.now.parts }
        requires room { length extents.old.items + length (units_of owners.now part)
            ≤ vec_capacity extents.old }
        ensures items { extents.new.items
            ≡ extents.old.items ++ extents_for self.now bytes (runs_of (units_of owners.now part)) }
        ensures room { vec_capacity extents.new ≡ vec_capacity extents.old }
    {
        let count = owners.count(part);
        let mut place = 0;
        let mut last = 0;
        let mut left = bytes;
        while place < count {
            let (unit, run) = run_at(owners, part, place, last);
            extents.push_reserved(self.run_extent(unit, run, left));
            left = left.saturating_sub(self.units_long(run));
            last = unit + (run - 1);
            place += run;
        }
    }
}
