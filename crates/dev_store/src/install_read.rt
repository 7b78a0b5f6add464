//! The tables of a file, read into a room of the store, and why they aren't installed.
ghost use Rattle.std.specs.Prelude.{◌≡◌, ◌+◌, ◌*◌, ◌^◌, ◌<◌, ◌≤◌, ◌==◌, ◌||◌, ◌&&◌, length, filter, not};
ghost use Rattle.std.specs.Prelude.{sum_by, nat_le, nat_lt};
ghost use Rattle.std.specs.Prelude.{option_map, bytes_eq, IfSome, IsTrue, Ok};
ghost use Rattle.std.specs.List.{list_all, list_any};
ghost use Rattle.super_meta.specs.Contents.{content};
ghost use Rattle.super_meta.specs.Held.{group_name, tables_in, tables_of_image};
ghost use Rattle.super_meta.specs.ImageText.{image_of};
ghost use Rattle.dev_store.specs.Building.{is_short};
ghost use Rattle.dev_store.specs.Installing.{is_left};
ghost use Rattle.dev_store.specs.InstallTests.{is_misfit, is_other_super, listed_share, left_share};
ghost use Rattle.dev_store.specs.InstallTests.{lacks_group, merged_count, merged_bytes, limits_hold};
ghost use Rattle.dev_store.specs.InstallTests.{install_tests};

use crate::errors::StoreError;
use crate::layout::{PhysicalPart, SuperPart};
use crate::table_install::{Keeps, group_of};
use crate::units::{bytes_in, extents_of, is_in_group};
use super_meta::geometry::Geometry;
use super_meta::image::{LONGEST, TableRoom};
use super_meta::table::{BlockDevice, Group, Partition, Table};

/// Reads the tables of a file into the room: their geometry, none where the file holds none.
pub(crate) fn read_tables(room: &mut TableRoom, file: &[u8]) -> Option<Geometry>
    ensures tables { tables_of_image file.now ≡ option_map (λ g. tables_in g room.new) result }
    ensures image { IfSome result (λ g. image_of file.now ≡ Ok (g, room.new)) }
{
    if file.len() > LONGEST {
        return None;
    }
    let geometry = match room.read(file) {
        Ok(geometry) => geometry,
        Err(_) => return None,
    };
    if !room.table().extents.is_empty() {
        return None;
    }
    Some(geometry)
}

impl SuperPart {
    /// Whether a table's block device isn't this super.
    fn is_misfit(&self, device: &BlockDevice) -> bool
        ensures { result ≡ is_misfit self.now device.now }
    {
        self.name != device.name
            || device.size != self.size
            || device.alignment == 0
            || self.unit % device.alignment != 0
            || device.offset != 0
    }

    /// Whether a table is made for another super.
    fn is_other_super(&self, parts: &[PhysicalPart], geometry: Geometry, new: &Table) -> bool
        ensures { result ≡ is_other_super parts.now self.now geometry (content new.now) }
    {
        !(geometry.max_size == self.max_size && geometry.slots == self.slots)
            || new.groups.len() > 64
            || self.are_barred(parts, &new.partitions)
            || self.is_misfit(&new.device)
    }
}

/// Whether a group of a name is among these.
fn has_group(groups: &[Group], name: &[u8]) -> bool
    ensures { result ≡ list_any (λ g. bytes_eq g.name name.now) groups.now }
{
    groups.iter().any(|group| group.name.bytes() == name)
}

/// Whether a table has no group of the name of a partition's.
fn lacks_own(new: &Table, table: &Table, partition: &Partition) -> bool
    requires { partition.now.group < length (content table.now).groups }
    ensures { result ≡ not (list_any (λ g. bytes_eq g.name
        (group_name (content table.now).groups partition.now.group)) (content new.now).groups) }
{
    !has_group(&new.groups, group_of(table, partition).bytes())
}

impl Keeps {
    /// How many old partitions are left over.
    fn left_count(self, new: &Table, table: &Table) -> usize
        ensures { result ≡ length (filter (is_left self (content new.now)) (content table.now).partitions) }
    {
        let mut count = 0;
        for partition in &table.partitions {
            if self.is_left(new, partition) {
                count += 1;
            }
        }
        count
    }

    /// Whether there are more entries than a device has.
    fn are_too_many(self, new: &Table, table: &Table) -> bool
        ensures { result ≡ nat_lt 128 (merged_count self (content new.now) (content table.now)) }
    {
        let listed = new.partitions.len();
        listed > 128 || self.left_count(new, table) > 128 - listed
    }

    /// Whether an old partition is left over whose group the table lacks.
    fn lacks_group(self, new: &Table, table: &Table) -> bool
        requires grouped { IsTrue (list_all (λ p. nat_lt p.group (length (content table.now).groups))
            (content table.now).partitions) }
        ensures { result ≡ lacks_group self (content new.now) (content table.now) }
    {
        for partition in &table.partitions {
            if self.is_left(new, partition) && lacks_own(new, table, partition) {
                return true;
            }
        }
        false
    }

    /// How many bytes of a group a listed partition takes.
    fn listed_share(self, new: &Table, table: &Table, partition: &Partition, group: &Group) -> u64
        requires { IsTrue (list_all (is_short (content table.now)) (content table.now).partitions) }
        ensures { result ≡ listed_share self (content new.now) (content table.now) group.now.name
            partition.now }
    {
        if is_in_group(new, partition, group) {
            self.kept_long(table, partition.name.bytes())
        } else {
            0
        }
    }

    /// How many bytes of a group an old partition takes that is left over.
    fn left_share(self, new: &Table, table: &Table, partition: &Partition, group: &Group) -> u64
        requires { IsTrue (is_short (content table.now) partition.now) }
        ensures { result ≡ left_share self (content new.now) (content table.now) group.now.name
            partition.now }
    {
        if self.is_left(new, partition) && is_in_group(table, partition, group) {
            bytes_in(extents_of(&table.extents, partition)) as u64
        } else {
            0
        }
    }

    /// How many bytes the listed partitions of a group hold together.
    fn listed_bytes(self, new: &Table, table: &Table, group: &Group) -> u128
        requires few { length (content new.now).partitions ≤ 128 }
        requires short { IsTrue (list_all (is_short (content table.now)) (content table.now).partitions) }
        ensures bytes { result ≡ sum_by (listed_share self (content new.now) (content table.now)
            group.now.name) (content new.now).partitions }
        ensures bounded { result ≤ 2 ^ 64 * 128 }
    {
        let mut bytes = 0;
        for partition in &new.partitions {
            bytes += self.listed_share(new, table, partition, group) as u128;
        }
        bytes
    }

    /// How many bytes those that are left over hold together.
    fn left_bytes(self, new: &Table, table: &Table, group: &Group) -> u128
        requires few { length (content table.now).partitions ≤ 128 }
        requires short { IsTrue (list_all (is_short (content table.now)) (content table.now).partitions) }
        ensures bytes { result ≡ sum_by (left_share self (content new.now) (content table.now)
            group.now.name) (content table.now).partitions }
        ensures bounded { result ≤ 2 ^ 64 * 128 }
    {
        let mut bytes = 0;
        for partition in &table.partitions {
            bytes += self.left_share(new, table, partition, group) as u128;
        }
        bytes
    }

    /// Whether a group has no limit, or holds at most that.
    fn group_holds(self, new: &Table, table: &Table, group: &Group) -> bool
        requires listed { length (content new.now).partitions ≤ 128 }
        requires few { length (content table.now).partitions ≤ 128 }
        requires short { IsTrue (list_all (is_short (content table.now)) (content table.now).partitions) }
        ensures { result ≡ (group.now.limit == 0 || nat_le (merged_bytes self (content new.now)
            (content table.now) group.now.name) group.now.limit) }
    {
        let listed = self.listed_bytes(new, table, group);
        let left = self.left_bytes(new, table, group);
        group.limit == 0 || listed + left <= group.limit as u128
    }

    /// Whether each group does so.
    fn limits_hold(self, new: &Table, table: &Table) -> bool
        requires listed { length (content new.now).partitions ≤ 128 }
        requires few { length (content table.now).partitions ≤ 128 }
        requires short { IsTrue (list_all (is_short (content table.now)) (content table.now).partitions) }
        ensures { result ≡ limits_hold self (content new.now) (content table.now) }
    {
        new.groups
            .iter()
            .all(|group| self.group_holds(new, table, group))
    }

    /// Why a table isn't installed in a super whose table is this one, None where it is.
    pub(crate) fn refusal(
        self,
        s: &SuperPart,
        parts: &[PhysicalPart],
        geometry: Geometry,
        new: &Table,
        table: &Table,
    ) -> Option<StoreError>
        requires few { length (content table.now).partitions ≤ 128 }
        requires grouped { IsTrue (list_all (λ p. nat_lt p.group (length (content table.now).groups))
            (content table.now).partitions) }
        requires short { IsTrue (list_all (is_short (content table.now)) (content table.now).partitions) }
        ensures { result ≡ install_tests self (is_other_super parts.now s.now geometry (content new.now))
            (content new.now) (content table.now) }
    {
        if s.is_other_super(parts, geometry, new) {
            Some(StoreError::BadTable)
        } else if self.are_too_many(new, table) {
            Some(StoreError::TooManyPartitions)
        } else if self.lacks_group(new, table) {
            Some(StoreError::NoGroup)
        } else if !self.limits_hold(new, table) {
            Some(StoreError::GroupFull)
        } else {
            None
        }
    }
}
