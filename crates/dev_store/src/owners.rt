ghost use Rattle.std.specs.Prelude.{◌≡◌, ◌+◌, ◌^◌, ◌<◌, ◌≤◌, ◌&&◌, length, [], ◌∷◌, not, IsTrue};
ghost use Rattle.std.specs.Prelude.{vec_capacity};
ghost use Rattle.std.specs.Prelude.{Some, None, true, false, IfOk, IfSome, MatchOption};
ghost use Rattle.std.specs.List.{list_all, flat_map, range_with_len};
ghost use Rattle.unit_alloc.specs.Owning.{is_owned, handed};
ghost use Rattle.super_meta.specs.Contents.{content};
ghost use Rattle.dev_store.specs.LayoutLines.{unit_count};
ghost use Rattle.dev_store.specs.Supers.{units_in, units_of, is_at_unit, lies_in_units, are_different};
ghost use Rattle.dev_store.specs.SuperBounds.{IsBounded, are_free, claimed, IsMapOf};

use crate::layout::SuperPart;
use crate::units::extents_of;
use fb_frame::memory::Memory;
use std::alloc::Global;
use super_meta::table::{Extent, Table};
use unit_alloc::Owners;

/// How many parts the map of units has: as many as a device has logical partitions at most.
const PARTS: u32 = 128;

/// Hands a unit out to a part. Answers whether it had no owner.
fn claim_unit(owners: &mut Owners, part: u32, unit: u32) -> bool
    requires part { part < length owners.old.parts }
    requires inside { unit < owners.old.units }
    ensures decided { result ≡ not (is_owned owners.old unit) }
    ensures claimed { IsTrue result → owners.new ≡ handed owners.old part (unit ∷ []) }
{
    owners.claim(part, unit).is_ok()
}

/// Hands consecutive units out to a part. Answers whether each of them had no owner.
fn claim_range(owners: &mut Owners, part: u32, first: u32, count: u32) -> bool
    requires part { part < length owners.old.parts }
    requires inside { first + count ≤ owners.old.units }
    requires fits { first + count < 2 ^ 32 }
    ensures decided { result ≡ are_free owners.old (range_with_len first count) }
    ensures claimed { IsTrue result →
        owners.new ≡ handed owners.old part (range_with_len first count) }
{
    for unit in first..first + count {
        if !claim_unit(owners, part, unit) {
            return false;
        }
    }
    true
}

impl SuperPart {
    /// Hands the units of extents out to a part. Answers whether each of them had no owner.
    fn claim_extents(&self, owners: &mut Owners, part: u32, extents: &[Extent]) -> bool
        requires bounded { IsBounded self.now }
        requires part { part < length owners.old.parts }
        requires units { owners.old.units ≡ unit_count self.now }
        requires inside { list_all (λ e. is_at_unit self.now e && lies_in_units self.now e) extents.now
            ≡ true }
        ensures decided { result ≡ are_free owners.old (flat_map (units_in self.now) extents.now) }
        ensures claimed { IsTrue result →
            owners.new ≡ handed owners.old part (flat_map (units_in self.now) extents.now) }
    {
        for extent in extents {
            let first = self.unit_at(extent) as u32;
            let count = self.units_taken(extent) as u32;
            if !claim_range(owners, part, first, count) {
                return false;
            }
        }
        true
    }

    /// Hands each partition's units out to a part of its own. Answers whether no unit is taken twice.
    fn claim_table(&self, owners: &mut Owners, table: &Table) -> bool
        requires bounded { IsBounded self.now }
        requires few { length (content table.now).partitions ≤ 128 }
        requires parts { length owners.old.parts ≡ 128 }
        requires units { owners.old.units ≡ unit_count self.now }
        requires inside { list_all (λ e. is_at_unit self.now e && lies_in_units self.now e)
            (content table.now).extents ≡ true }
        ensures decided { result ≡ are_free owners.old
            (flat_map (units_of self.now (content table.now)) (content table.now).partitions) }
        ensures claimed { IsTrue result →
            owners.new ≡ claimed self.now (content table.now) owners.old 0 (content table.now).partitions }
    {
        for (part, partition) in table.partitions.iter().enumerate() {
            let extents = extents_of(&table.extents, partition);
            if !self.claim_extents(owners, part as u32, extents) {
                return false;
            }
        }
        true
    }

    /// The map of the units that each partition of a table has, and each partition's part. None where
    /// a unit is taken twice.
    pub(crate) fn own_units(
        &self,
        alloc: Global,
        table: &Table,
    ) -> Result<Option<(Owners, Vec<u32>)>, Memory>
        requires bounded { IsBounded self.now }
        requires few { length (content table.now).partitions ≤ 128 }
        requires inside { list_all (λ e. is_at_unit self.now e && lies_in_units self.now e)
            (content table.now).extents ≡ true }
        ensures decided { let c = content table.now in
            let different = are_different (flat_map (units_of self.now c) c.partitions) in
            IfOk result (λ map. MatchOption map (different ≡ false) (λ m. different ≡ true)) }
        ensures map { IfOk result (λ map. IfSome map (λ m.
            IsMapOf self.now (content table.now) m.0 m.1.items)) }
        ensures room { IfOk result (λ map. IfSome map (λ m. 128 ≤ vec_capacity m.1)) }
    {
        let mut owners = Owners::new(alloc, self.unit_count() as u32, PARTS)?;
        if !self.claim_table(&mut owners, table) {
            return Ok(None);
        }
        let parts = first_parts(alloc, table.partitions.as_slice().len() as u32)?;
        Ok(Some((owners, parts)))
    }
}

/// The first parts, with room for all.
fn first_parts(alloc: Global, count: u32) -> Result<Vec<u32>, Memory>
    requires { count ≤ 128 }
    ensures parts { IfOk result (λ parts. parts.items ≡ range_with_len 0 count) }
    ensures room { IfOk result (λ parts. 128 ≤ vec_capacity parts) }
{
    let mut parts = Vec::with_capacity(alloc, PARTS as usize)?;
    for part in 0..count {
        let Ok(()) = parts.push(part) else {
            return Err(Memory);
        };
    }
    Ok(parts)
}
