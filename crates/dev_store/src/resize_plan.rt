//! What a resize plans in super, before anything is written.
ghost use Rattle.std.specs.Prelude.{◌≡◌, ◌+◌, ◌<◌, ◌≤◌, length, slice_index, IsTrue, None};
ghost use Rattle.std.specs.Prelude.{OnOk, OnErr, IfOk};
ghost use Rattle.std.specs.List.{list_all};
ghost use Rattle.std.specs.Result.{result_err};
ghost use Rattle.dev_model.specs.Images.{round_up};
ghost use Rattle.dev_model.specs.Sizes.{units_for};
ghost use Rattle.unit_alloc.specs.Owning.{OneOwner, units_of, free_units};
ghost use Rattle.super_meta.specs.Contents.{content};
ghost use Rattle.dev_store.specs.Building.{is_short};
ghost use Rattle.dev_store.specs.SuperBounds.{IsBounded};
ghost use Rattle.dev_store.specs.SuperReads.{IsMap, HasRooms};
ghost use Rattle.dev_store.specs.TableCalls.{plans, HavePlace, IsPlanned};
ghost use Rattle.dev_store.specs.TableChanges.{regrown};
ghost use Rattle.dev_store.specs.Growing.{regrown_at, resized_at, resize_bar, AreResized};

use crate::errors::StoreError;
use crate::group_limits::groups_hold;
use crate::layout::SuperPart;
use crate::part_zero::NewBytes;
use crate::super_read::SuperRead;
use crate::table_next::resized_as;
use crate::units::{bytes_in, extents_of};
use dev_model::sizes::round_up;
use unit_alloc::Owners;

/// A new length of a logical partition: its units, and its bytes, which are whole blocks.
#[derive(Clone, Copy)]
struct NewSize {
    units: u64,
    bytes: u64,
}

/// Gives a part of the map of units so many units: its first ones, and the lowest free ones after them.
fn regrow(owners: &mut Owners, part: u32, units: u64)
    requires part { part < length owners.old.parts }
    requires room { units ≤ length (units_of owners.old part) + length (free_units owners.old) }
    ensures regrown { owners.new ≡ regrown owners.old part units }
    ensures one { OneOwner owners.new }
{
    let own = u64::from(owners.count(part));
    if units <= own {
        owners.shrink(part, units as u32);
        return;
    }
    let Ok(()) = owners.grow(part, (units - own) as u32) else {
        unreachable!();
    };
}

impl SuperRead {
    /// The new length of the partition of a name at a place: refused where units run short, and then where
    /// a group would hold more than its limit.
    fn new_size(
        &self,
        s: &SuperPart,
        place: usize,
        name: &[u8],
        size: u64,
    ) -> Result<NewSize, StoreError>
        requires bounded { IsBounded s.now }
        requires mapped { IsMap s.now self.now }
        requires there { place < length (content self.now.table).partitions }
        requires few { length (content self.now.table).partitions ≤ 128 }
        ensures decided { result_err result ≡ resize_bar s.now self.now place name.now (round_up size) }
        ensures units { IfOk result (λ n. n.units ≡ units_for s.now.unit (round_up size)) }
        ensures bytes { IfOk result (λ n. n.bytes ≡ round_up size) }
        ensures room { IfOk result (λ n. n.units ≤ length (units_of self.now.owners
            (slice_index self.now.parts.items place)) + length (free_units self.now.owners)) }
    {
        let bytes = round_up(size);
        let units = bytes.div_ceil(u128::from(s.unit));
        let own = u128::from(self.owners.count(self.parts[place]));
        if units.saturating_sub(own) > u128::from(self.owners.free()) {
            return Err(StoreError::NoSpace);
        }
        let bytes = bytes as u64;
        if !groups_hold(&self.table, name, bytes) {
            return Err(StoreError::GroupFull);
        }
        Ok(NewSize {
            units: units as u64,
            bytes,
        })
    }

    /// Gives the partition at a place another length, in the map of units and in the next table. Answers
    /// its new bytes.
    fn plan_size(&mut self, s: &SuperPart, place: usize, size: NewSize) -> NewBytes
        requires bounded { IsBounded s.now }
        requires mapped { IsMap s.now self.old }
        requires rooms { HasRooms s.now self.old }
        requires groups { length (content self.old.table).groups ≤ 64 }
        requires short { IsTrue (list_all (is_short (content self.old.table))
            (content self.old.table).partitions) }
        requires there { place < length (content self.old.table).partitions }
        requires room { size.units ≤ length (units_of self.old.owners
            (slice_index self.old.parts.items place)) + length (free_units self.old.owners) }
        requires fits { OneOwner (regrown_at self.old place size.units) →
            HavePlace s.now (regrown_at self.old place size.units)
            (plans self.old place (resized_at self.old place size.bytes)) }
        ensures planned { IsPlanned s.now (regrown_at self.old place size.units)
            (plans self.old place (resized_at self.old place size.bytes)) self.old self.new }
        ensures parts { self.new.parts ≡ self.old.parts }
        ensures new { AreResized self.old place size.bytes result }
    {
        let part = self.parts[place];
        let partition = self.table.partitions[place];
        let from = bytes_in(extents_of(&self.table.extents, &partition)) as u64;
        regrow(&mut self.owners, part, size.units);
        s.build_next(
            &mut self.next,
            &self.table,
            &self.owners,
            &self.parts,
            place,
            Some(resized_as(&partition, part, size.bytes)),
        );
        NewBytes {
            part,
            from,
            to: size.bytes,
        }
    }

    /// Gives the partition of a name, which is at a place, another length, in the map of units and in the
    /// next table, unless that is refused. Answers its new bytes.
    pub(crate) fn resize_at(
        &mut self,
        s: &SuperPart,
        place: usize,
        name: &[u8],
        size: u64,
    ) -> Result<NewBytes, StoreError>
        requires bounded { IsBounded s.now }
        requires mapped { IsMap s.now self.old }
        requires rooms { HasRooms s.now self.old }
        requires few { length (content self.old.table).partitions ≤ 128 }
        requires groups { length (content self.old.table).groups ≤ 64 }
        requires short { IsTrue (list_all (is_short (content self.old.table))
            (content self.old.table).partitions) }
        requires there { place < length (content self.old.table).partitions }
        requires fits { resize_bar s.now self.old place name.now (round_up size) ≡ None →
            OneOwner (regrown_at self.old place (units_for s.now.unit (round_up size))) →
            HavePlace s.now (regrown_at self.old place (units_for s.now.unit (round_up size)))
            (plans self.old place (resized_at self.old place (round_up size))) }
        ensures decided { result_err result ≡ resize_bar s.now self.old place name.now (round_up size) }
        ensures unchanged { OnErr result (self.new ≡ self.old) }
        ensures planned { OnOk result (IsPlanned s.now
            (regrown_at self.old place (units_for s.now.unit (round_up size)))
            (plans self.old place (resized_at self.old place (round_up size))) self.old self.new) }
        ensures parts { OnOk result (self.new.parts ≡ self.old.parts) }
        ensures new { IfOk result (AreResized self.old place (round_up size)) }
    {
        let size = match self.new_size(s, place, name, size) {
            Ok(size) => size,
            Err(refusal) => return Err(refusal),
        };
        Ok(self.plan_size(s, place, size))
    }
}
