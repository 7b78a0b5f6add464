ghost use Rattle.std.specs.Prelude.{◌≡◌, ℕ, ◌+◌, ◌-◌, ◌*◌, ◌/◌, ◌%◌, ◌^◌, ◌<◌, ◌≤◌, ◌==◌, ◌&&◌, ◌||◌};
ghost use Rattle.std.specs.Prelude.{length, take, drop, nat_le, not, map, bytes_eq, IsTrue};
ghost use Rattle.std.specs.Int.{div_ceil};
ghost use Rattle.std.specs.List.{list_all, list_any};
ghost use Rattle.dev_model.specs.Sizes.{share_of, group_bytes, groups_fit};
ghost use Rattle.super_meta.specs.Contents.{content};
ghost use Rattle.super_meta.specs.Held.{group_name, limited};
ghost use Rattle.dev_store.specs.Supers.{is_own_device, extents_of, bytes_in, unit_at, is_at_unit, are_whole};
ghost use Rattle.dev_store.specs.Supers.{lies_in_units, is_barred, is_placed, size_in};
ghost use Rattle.dev_store.specs.SuperBounds.{IsBounded, are_good_lists, are_good_parts};

use crate::layout::{PhysicalPart, SuperPart};
use super_meta::table::{BlockDevice, Extent, Group, Partition, Table};

impl SuperPart {
    /// Whether a table's block device is this super.
    #[tactic(auto, using(crate::proofs::UnitLemmas::sized))]
    fn is_own_device(&self, device: &BlockDevice) -> bool
        requires { IsBounded self.now }
        ensures { result ≡ is_own_device self.now device.now }
    {
        device.first_sector == self.first_unit() / 512
            && device.alignment == self.unit
            && device.offset == 0
            && device.size == self.size
            && device.name == self.name
    }

    /// The unit in which an extent begins.
    #[tactic(auto, using(crate::proofs::UnitLemmas::sized))]
    pub(crate) fn unit_at(&self, extent: &Extent) -> u128
        requires { IsBounded self.now }
        ensures unit { result ≡ unit_at self.now extent.now }
        ensures bounded { result < 2 ^ 73 }
    {
        let place = 512 * extent.target as u128;
        place.saturating_sub(self.first_unit() as u128) / self.unit as u128
    }

    /// How many units an extent takes, the last one perhaps in part.
    pub(crate) fn units_taken(&self, extent: &Extent) -> u128
        requires { IsBounded self.now }
        ensures units { result ≡ div_ceil (512 * extent.now.sectors) self.now.unit }
        ensures bounded { result < 2 ^ 73 }
    {
        (512 * extent.sectors as u128).div_ceil(self.unit as u128)
    }

    /// Whether an extent begins at a unit.
    #[tactic(auto, using(crate::proofs::UnitLemmas::sized))]
    fn is_at_unit(&self, extent: &Extent) -> bool
        requires { IsBounded self.now }
        ensures { result ≡ is_at_unit self.now extent.now }
    {
        let place = 512 * extent.target as u128;
        let first = self.first_unit() as u128;
        first <= place && (place - first) % self.unit as u128 == 0
    }

    /// Whether each place of an extent lies in one of the counted units.
    #[tactic(auto, using(crate::proofs::UnitLemmas::sized))]
    fn lies_in_units(&self, extent: &Extent) -> bool
        requires { IsBounded self.now }
        ensures { result ≡ lies_in_units self.now extent.now }
    {
        self.unit_at(extent) + self.units_taken(extent) <= self.unit_count() as u128
    }

    /// Whether each extent begins at a unit and lies in the counted ones.
    fn are_in_units(&self, extents: &[Extent]) -> bool
        requires { IsBounded self.now }
        ensures { result ≡ list_all (λ e. is_at_unit self.now e && lies_in_units self.now e) extents.now }
    {
        extents.iter().all(|extent| self.is_at_unit(extent) && self.lies_in_units(extent))
    }

    /// Whether an extent is whole units.
    fn is_whole(&self, extent: &Extent) -> bool
        requires { IsBounded self.now }
        ensures { result ≡ ((512 * extent.now.sectors) % self.now.unit == 0) }
    {
        (512 * extent.sectors as u128) % self.unit as u128 == 0
    }

    /// Whether each of the extents is whole units.
    fn are_all_whole(&self, extents: &[Extent]) -> bool
        requires { IsBounded self.now }
        ensures { result ≡ list_all (λ e. (512 * e.sectors) % self.now.unit == 0) extents.now }
    {
        extents.iter().all(|extent| self.is_whole(extent))
    }

    /// Whether each extent but the last is whole units.
    #[tactic(auto, using(crate::proofs::UnitLemmas::whole_but_last))]
    fn are_whole(&self, extents: &[Extent]) -> bool
        requires { IsBounded self.now }
        ensures { result ≡ are_whole self.now extents.now }
    {
        self.are_all_whole(&extents[..extents.len().saturating_sub(1)])
    }

    /// Whether the extents of a partition are whole units, and the partition whole blocks.
    fn is_placed(&self, extents: &[Extent], partition: &Partition) -> bool
        requires { IsBounded self.now }
        ensures { let own = take partition.now.count (drop partition.now.first extents.now) in
            result ≡ (are_whole self.now own && bytes_in own % 4096 == 0) }
    {
        let own = extents_of(extents, partition);
        self.are_whole(own) && bytes_in(own) % 4096 == 0
    }

    /// Whether each partition is placed so.
    fn are_placed(&self, table: &Table) -> bool
        requires { IsBounded self.now }
        ensures { result ≡ list_all (is_placed self.now (content table.now)) (content table.now).partitions }
    {
        let extents = table.extents.as_slice();
        table
            .partitions
            .iter()
            .all(|partition| self.is_placed(extents, partition))
    }

    /// Whether a partition has the name of a physical one or of super.
    fn is_barred(&self, parts: &[PhysicalPart], partition: &Partition) -> bool
        ensures { result ≡ is_barred parts.now self.now partition.now }
    {
        is_physical(parts, partition) || self.name == partition.name
    }

    /// Whether one of the partitions has such a name.
    pub(crate) fn are_barred(&self, parts: &[PhysicalPart], partitions: &[Partition]) -> bool
        ensures { result ≡ list_any (is_barred parts.now self.now) partitions.now }
    {
        partitions
            .iter()
            .any(|partition| self.is_barred(parts, partition))
    }

    /// Whether a table is one of this super's, and its extents, names and groups are as they must be.
    fn are_good_lists(&self, parts: &[PhysicalPart], table: &Table) -> bool
        requires bounded { IsBounded self.now }
        requires few { length (content table.now).partitions ≤ 128 }
        ensures { result ≡ are_good_lists parts.now self.now (content table.now) }
    {
        self.is_own_device(&table.device)
            && self.are_in_units(&table.extents)
            && self.are_placed(table)
            && !self.are_barred(parts, &table.partitions)
            && groups_fit(table)
    }

    /// Whether a table is one of this super's, and all but that no unit is taken twice.
    #[tactic(auto, unfolding(crate::specs::SuperBounds::are_good_parts))]
    pub(crate) fn are_good_parts(&self, parts: &[PhysicalPart], table: &Table) -> bool
        requires { IsBounded self.now }
        ensures { result ≡ are_good_parts parts.now self.now (content table.now) }
    {
        if table.partitions.len() > 128 {
            return false;
        }
        if table.groups.len() > 64 {
            return false;
        }
        self.are_good_lists(parts, table)
    }
}

/// Whether a partition has the name of a physical one.
fn is_physical(parts: &[PhysicalPart], partition: &Partition) -> bool
    ensures { result ≡ list_any (λ q. bytes_eq q.name partition.now.name) parts.now }
{
    parts.iter().any(|part| part.name == partition.name)
}

/// The extents of a partition.
pub(crate) fn extents_of<'a>(extents: &'a [Extent], partition: &Partition) -> &'a [Extent]
    ensures extents { result.now ≡ take partition.now.count (drop partition.now.first extents.now) }
    ensures short { length result.now < 2 ^ 32 }
{
    let from = extents.len().min(partition.first as usize);
    let rest = &extents[from..];
    &rest[..rest.len().min(partition.count as usize)]
}

/// How many bytes extents hold.
pub(crate) fn bytes_in(extents: &[Extent]) -> u128
    requires { length extents.now < 2 ^ 32 }
    ensures bytes { result ≡ bytes_in extents.now }
    ensures bounded { result < 2 ^ 105 }
{
    let mut bytes = 0;
    for extent in extents {
        bytes += 512 * extent.sectors as u128;
    }
    bytes
}

/// Whether a partition is in a group.
pub(crate) fn is_in_group(table: &Table, partition: &Partition, group: &Group) -> bool
    ensures { result ≡ bytes_eq (group_name (content table.now).groups partition.now.group) group.now.name }
{
    match table.groups.get(partition.group as usize) {
        None => group.name.bytes().is_empty(),
        Some(own) => own.name == group.name,
    }
}

/// How many bytes of a group a partition takes.
fn share(table: &Table, partition: &Partition, group: &Group) -> u128
    ensures share { result ≡ share_of group.now.name (size_in (content table.now) partition.now) }
    ensures bounded { result < 2 ^ 105 }
{
    if is_in_group(table, partition, group) {
        bytes_in(extents_of(&table.extents, partition))
    } else {
        0
    }
}

/// How many bytes the partitions of a group hold together.
pub(crate) fn group_bytes(table: &Table, group: &Group) -> u128
    requires { length (content table.now).partitions ≤ 128 }
    ensures { let c = content table.now in
        result ≡ group_bytes group.now.name (map (size_in c) c.partitions) }
{
    let mut bytes = 0;
    for partition in &table.partitions {
        bytes += share(table, partition, group);
    }
    bytes
}

/// Whether a group has no limit, or its partitions hold at most that.
fn group_fits(table: &Table, group: &Group) -> bool
    requires { length (content table.now).partitions ≤ 128 }
    ensures { result ≡ (group.now.limit == 0 || nat_le (group_bytes group.now.name
        (map (size_in (content table.now)) (content table.now).partitions)) group.now.limit) }
{
    group.limit == 0 || group_bytes(table, group) <= group.limit as u128
}

/// Whether each group has no limit, or its partitions hold at most that.
fn each_fits(table: &Table) -> bool
    requires { length (content table.now).partitions ≤ 128 }
    ensures { let c = content table.now in
        result ≡ list_all (λ g. g.limit == 0
        || nat_le (group_bytes g.name (map (size_in c) c.partitions)) g.limit) c.groups }
{
    table.groups.iter().all(|group| group_fits(table, group))
}

/// Whether each group with a limit holds at most its limit.
fn groups_fit(table: &Table) -> bool
    requires { length (content table.now).partitions ≤ 128 }
    ensures { result ≡ groups_fit (map limited (content table.now).groups)
        (map (size_in (content table.now)) (content table.now).partitions) }
{
    each_fits(table)
}
