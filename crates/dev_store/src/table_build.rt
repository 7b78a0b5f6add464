//! The next table, built partition by partition into a table that has room for it.
ghost use Rattle.std.specs.Prelude.{◌≡◌, ◌+◌, ◌-◌, ◌^◌, ◌<◌, ◌≤◌, [], ◌∷◌, ◌++◌, length, take, drop, nat_lt, IsTrue};
ghost use Rattle.std.specs.List.{list_all};
ghost use Rattle.unit_alloc.specs.Owning.{units_of};
ghost use Rattle.super_meta.specs.Contents.{content};
ghost use Rattle.dev_store.specs.LayoutLines.{unit_count};
ghost use Rattle.dev_store.specs.Supers.{own_device, extents_of, bytes_in};
ghost use Rattle.dev_store.specs.SuperBounds.{IsBounded};
ghost use Rattle.dev_store.specs.SuperReads.{HasRoom};
ghost use Rattle.dev_store.specs.Runs.{runs_of, extents_for};
ghost use Rattle.dev_store.specs.Building.{bare_table, with_groups, with_planned, built, units_planned};
ghost use Rattle.dev_store.specs.Building.{planned_as, planned_range, is_short};

use crate::layout::SuperPart;
use crate::units::{bytes_in, extents_of};
use fb_frame::name::Name;
use super_meta::table::{BlockDevice, Group, Partition, Table};
use unit_alloc::Owners;

/// What the next table says of a partition: its name and attributes, its group by its place, how many bytes
/// it has, and its part of the map of units.
#[derive(Clone, Copy)]
pub(crate) struct Planned {
    pub name: Name,
    pub attributes: u32,
    pub group: u32,
    pub bytes: u64,
    pub part: u32,
}

/// A partition of a table as it is, with its part of the map of units.
pub(crate) fn planned_as(table: &Table, partition: &Partition, part: u32) -> Planned
    requires { bytes_in (extents_of (content table.now) partition.now) < 2 ^ 64 }
    ensures { result ≡ planned_as (content table.now) partition.now part }
{
    Planned {
        name: partition.name,
        attributes: partition.attributes,
        group: partition.group,
        bytes: bytes_in(extents_of(&table.extents, partition)) as u64,
        part,
    }
}

impl SuperPart {
    /// The block device that a table of this super is made for.
    #[tactic(auto, using(crate::proofs::UnitLemmas::sized))]
    fn own_device(&self) -> BlockDevice
        requires { IsBounded self.now }
        ensures { result ≡ own_device self.now }
    {
        BlockDevice {
            first_sector: self.first_unit() / 512,
            alignment: self.unit,
            offset: 0,
            size: self.size,
            name: self.name,
        }
    }

    /// Makes a table with room one of this super in which nothing is listed.
    pub(crate) fn begin_table(&self, next: &mut Table, minor: u16, flags: u32)
        requires bounded { IsBounded self.now }
        requires room { HasRoom (unit_count self.now) next.old }
        ensures table { content next.new ≡ bare_table self.now minor flags }
        ensures room { HasRoom (unit_count self.now) next.new }
    {
        next.minor = minor;
        next.flags = flags;
        next.partitions.clear();
        next.extents.clear();
        next.groups.clear();
        next.device = self.own_device();
    }

    /// Appends a group.
    pub(crate) fn add_group(&self, next: &mut Table, group: Group)
        requires room { HasRoom (unit_count self.now) next.old }
        requires few { length (content next.old).groups < 64 }
        ensures table { content next.new ≡ with_groups (content next.old) (group ∷ []) }
        ensures room { HasRoom (unit_count self.now) next.new }
    {
        next.groups.push_reserved(group);
    }

    /// Appends groups.
    pub(crate) fn add_groups(&self, next: &mut Table, groups: &[Group])
        requires room { HasRoom (unit_count self.now) next.old }
        requires few { length (content next.old).groups + length groups.now ≤ 64 }
        ensures table { content next.new ≡ with_groups (content next.old) groups.now }
        ensures room { HasRoom (unit_count self.now) next.new }
    {
        for group in groups {
            self.add_group(next, *group);
        }
    }

    /// Appends the extents of a planned partition, and answers the place of the first and how many there are.
    #[tactic(auto, using(crate::proofs::BuildUnits::added))]
    fn add_runs(&self, next: &mut Table, owners: &Owners, planned: &Planned) -> (u32, u32)
        requires bounded { IsBounded self.now }
        requires part { planned.now.part < length owners.now.parts }
        requires room { HasRoom (unit_count self.now) next.old }
        requires units { length (content next.old).extents + length (units_of owners.now planned.now.part)
            ≤ unit_count self.now }
        ensures table { content next.new ≡ record (content next.old) {
          extents = (content next.old).extents
              ++ extents_for self.now planned.now.bytes (runs_of (units_of owners.now planned.now.part));
        } }
        ensures first { result.0 ≡ length (content next.old).extents }
        ensures count { result.1 ≡ length (runs_of (units_of owners.now planned.now.part)) }
        ensures units { length (content next.new).extents
            ≤ length (content next.old).extents + length (units_of owners.now planned.now.part) }
        ensures room { HasRoom (unit_count self.now) next.new }
    {
        let first = next.extents.as_slice().len();
        self.add_extents(owners, planned.part, planned.bytes, &mut next.extents);
        let end = next.extents.as_slice().len();
        (first as u32, (end - first) as u32)
    }

    /// Appends a planned partition, with the extents of its units behind those that there are.
    pub(crate) fn add_planned(&self, next: &mut Table, owners: &Owners, planned: &Planned)
        requires bounded { IsBounded self.now }
        requires part { planned.now.part < length owners.now.parts }
        requires room { HasRoom (unit_count self.now) next.old }
        requires few { length (content next.old).partitions < 128 }
        requires units { length (content next.old).extents + length (units_of owners.now planned.now.part)
            ≤ unit_count self.now }
        ensures table { content next.new
            ≡ with_planned self.now owners.now (content next.old) planned.now }
        ensures room { HasRoom (unit_count self.now) next.new }
        ensures few { length (content next.new).partitions ≡ length (content next.old).partitions + 1 }
        ensures units { length (content next.new).extents
            ≤ length (content next.old).extents + length (units_of owners.now planned.now.part) }
    {
        let (first, count) = self.add_runs(next, owners, planned);
        next.partitions.push_reserved(Partition {
            name: planned.name,
            attributes: planned.attributes,
            first,
            count,
            group: planned.group,
        });
    }
    /// Appends partitions of a table as they are, from one place up to another.
    pub(crate) fn add_range(
        &self,
        next: &mut Table,
        table: &Table,
        owners: &Owners,
        parts: &[u32],
        from: usize,
        to: usize,
    )
        requires bounded { IsBounded self.now }
        requires many { length parts.now ≡ length (content table.now).partitions }
        requires within { to ≤ length parts.now }
        requires there { IsTrue (list_all (λ part. nat_lt part (length owners.now.parts)) parts.now) }
        requires short { IsTrue (list_all (is_short (content table.now)) (content table.now).partitions) }
        requires room { HasRoom (unit_count self.now) next.old }
        requires few { length (content next.old).partitions + (to - from) ≤ 128 }
        requires units { length (content next.old).extents
            + units_planned owners.now (planned_range (content table.now) parts.now from to)
            ≤ unit_count self.now }
        ensures table { content next.new ≡ built self.now owners.now (content next.old)
            (planned_range (content table.now) parts.now from to) }
        ensures room { HasRoom (unit_count self.now) next.new }
        ensures few { length (content next.new).partitions
            ≡ length (content next.old).partitions + (to - from) }
        ensures units { length (content next.new).extents ≤ length (content next.old).extents
            + units_planned owners.now (planned_range (content table.now) parts.now from to) }
    {
        for place in from..to {
            let planned = planned_as(table, &table.partitions[place], parts[place]);
            self.add_planned(next, owners, &planned);
        }
    }
}
