//! What a new partition needs, and the next table with it as the last one.
ghost use Rattle.std.specs.Prelude.{◌≡◌, ℕ, List, ◌∷◌, [], ◌++◌, ◌==◌, ◌<◌, ◌≤◌, length, nat_le, codes};
ghost use Rattle.std.specs.Prelude.{bytes_eq};
ghost use Rattle.std.specs.Prelude.{Some, None, IfOk, IfSome, OnOk, IsTrue, IsFalse, if◌then◌else◌};
ghost use Rattle.std.specs.List.{list_all, list_any};
ghost use Rattle.std.specs.Result.{IsErrOf};
ghost use Rattle.unit_alloc.specs.Owning.{free_units};
ghost use Rattle.dev_model.specs.Images.{round_up};
ghost use Rattle.dev_model.specs.Sizes.{units_for};
ghost use Rattle.super_meta.specs.Contents.{content};
ghost use Rattle.dev_store.specs.Building.{is_short};
ghost use Rattle.dev_store.specs.Creating.{new_flaw, super_flaw, IsNewPart, handed_new, plans_new};
ghost use Rattle.dev_store.specs.Laid.{IsLaid};
ghost use Rattle.dev_store.specs.Reading.{IsWithinSound};
ghost use Rattle.dev_store.specs.SuperBounds.{IsBounded};
ghost use Rattle.dev_store.specs.SuperReads.{IsMap, HasRooms};
ghost use Rattle.dev_store.specs.TableCalls.{HavePlace, IsPlanned};

use crate::errors::StoreError;
use crate::group_limits::groups_hold_more;
use crate::layout::{Layout, SuperPart};
use crate::super_read::SuperRead;
use crate::table_next::created_as;
use dev_model::sizes::round_up;
use fb_frame::name::Name;
use super_meta::table::Group;

/// What a new partition gets: its length in bytes, as many units, and a part of the map of units.
#[derive(Clone, Copy)]
pub(crate) struct NewPart {
    pub bytes: u64,
    pub units: u32,
    pub part: u32,
}

/// How many bytes a size has in whole blocks, and how many units hold them, where there are at most `most`.
fn whole_units(unit: u32, size: u64, most: u32) -> Option<(u64, u32)>
    requires { 0 < unit }
    ensures { result ≡ (if nat_le (units_for unit (round_up size)) most
        then Some (round_up size, units_for unit (round_up size)) else None) }
{
    let bytes = round_up(size);
    let units = bytes.div_ceil(u128::from(unit));
    if units <= u128::from(most) {
        Some((bytes as u64, units as u32))
    } else {
        None
    }
}

/// Whether one of the groups has the name `default`.
fn has_default(groups: &[Group]) -> bool
    ensures { result ≡ list_any (λ g. bytes_eq g.name (codes "default")) groups.now }
{
    groups
        .iter()
        .any(|group| group.name.bytes() == b"default".as_slice())
}

/// Whether a part of the map of units is a partition's.
fn is_taken(parts: &[u32], part: u32) -> bool
    ensures { result ≡ list_any (λ p. p == part) parts.now }
{
    parts.iter().any(|taken| *taken == part)
}

/// The first part of the map of units that no partition has.
pub(crate) fn free_part(parts: &[u32]) -> u32
    requires few { length parts.now < 128 }
    ensures free { IsFalse (list_any (λ p. p == result) parts.now) }
    ensures inside { result < 128 }
{
    let mut part = 0;
    while is_taken(parts, part) {
        part += 1;
    }
    part
}

impl SuperRead {
    /// What a new partition of a size gets, or why there is no room for it.
    fn room_for(&self, s: &SuperPart, size: u64) -> Result<NewPart, StoreError>
        requires bounded { IsBounded s.now }
        requires mapped { IsMap s.now self.now }
        ensures refused { (e : StoreError) (name : List ℕ) → IsErrOf result e →
            new_flaw s.now self.now name size ≡ Some e }
        ensures taken { (name : List ℕ) → OnOk result (new_flaw s.now self.now name size ≡ None) }
        ensures new { IfOk result (IsNewPart s.now self.now size) }
    {
        if self.table.partitions.len() >= 128 {
            return Err(StoreError::TooManyPartitions);
        }
        if !has_default(&self.table.groups) {
            return Err(StoreError::NoGroup);
        }
        let Some((bytes, units)) = whole_units(s.unit, size, self.owners.free()) else {
            return Err(StoreError::NoSpace);
        };
        if !groups_hold_more(&self.table, bytes) {
            return Err(StoreError::GroupFull);
        }
        Ok(NewPart {
            bytes,
            units,
            part: free_part(&self.parts),
        })
    }

    /// Hands its units to a new partition, and plans the next table with it as the last one.
    pub(crate) fn take_in(&mut self, s: &SuperPart, name: Name, new: NewPart)
        requires bounded { IsBounded s.now }
        requires mapped { IsMap s.now self.old }
        requires rooms { HasRooms s.now self.old }
        requires groups { length (content self.old.table).groups ≤ 64 }
        requires short { IsTrue (list_all (is_short (content self.old.table))
            (content self.old.table).partitions) }
        requires inside { new.part < 128 }
        requires free { new.units ≤ length (free_units self.old.owners) }
        requires few { length self.old.parts.items < 128 }
        requires fits { HavePlace s.now (handed_new self.old new) (plans_new self.old name new) }
        ensures planned { IsPlanned s.now (handed_new self.old new) (plans_new self.old name new)
            self.old self.new }
        ensures parts { self.new.parts.items ≡ self.old.parts.items ++ new.part ∷ [] }
    {
        let Ok(()) = self.owners.grow(new.part, new.units) else {
            unreachable!();
        };
        let planned = created_as(&self.table.groups, name, new.bytes, new.part);
        s.build_next(
            &mut self.next,
            &self.table,
            &self.owners,
            &self.parts,
            self.parts.len(),
            Some(planned),
        );
        self.parts.push_reserved(new.part);
    }
}

/// The super of a layout, and what a new partition of a size gets in it, or why it is refused.
pub(crate) fn find_room(
    layout: &Layout,
    within: &Option<SuperRead>,
    size: u64,
) -> Result<(SuperPart, NewPart), StoreError>
    requires laid { IsLaid layout.now }
    requires sound { IsWithinSound layout.now layout.now.super_part within.now }
    ensures refused { (e : StoreError) (name : List ℕ) → IsErrOf result e →
        super_flaw layout.now.super_part within.now name size ≡ Some e }
    ensures taken { (name : List ℕ) →
        OnOk result (super_flaw layout.now.super_part within.now name size ≡ None) }
    ensures part { IfOk result (λ found. layout.now.super_part ≡ Some found.0) }
    ensures new { IfOk result (λ found. IfSome within.now (λ r. IsNewPart found.0 r size found.1)) }
{
    let Some(s) = layout.super_part() else {
        return Err(StoreError::NoGroup);
    };
    let Some(within) = within else {
        return Err(StoreError::NoGroup);
    };
    match within.room_for(&s, size) {
        Ok(new) => Ok((s, new)),
        Err(refusal) => Err(refusal),
    }
}
