//! The next table where the table of an image is installed: its partitions, and the old ones that are kept.
ghost use Rattle.std.specs.Prelude.{◌≡◌, ◌+◌, ◌^◌, ◌<◌, ◌≤◌, ◌&&◌, length, drop, filter, map, nat_lt, not};
ghost use Rattle.std.specs.Prelude.{bytes_eq, IsTrue};
ghost use Rattle.std.specs.List.{list_all, list_any};
ghost use Rattle.super_meta.specs.Contents.{content};
ghost use Rattle.super_meta.specs.Held.{group_name};
ghost use Rattle.dev_store.specs.LayoutLines.{unit_count};
ghost use Rattle.dev_store.specs.SuperBounds.{IsBounded};
ghost use Rattle.dev_store.specs.SuperReads.{HasRoom};
ghost use Rattle.dev_store.specs.Building.{headed, built, is_short};
ghost use Rattle.dev_store.specs.Installing.{keeps, kept_long, listed_as, is_left, left_as, planned_by};
ghost use Rattle.dev_store.specs.Installing.{merged_head, installed_plan, HasSpace};

use crate::layout::SuperPart;
use crate::table_build::{Planned, planned_as};
use crate::table_next::group_place;
use crate::units::{bytes_in, extents_of};
use fb_frame::name::Name;
use fb_frame::slot::Slot;
use super_meta::table::{Partition, Table};
use unit_alloc::Owners;

/// What tells which old partitions are kept: whether all are wiped, and the active slot where there are
/// slots.
#[derive(Clone, Copy)]
pub(crate) struct Keeps {
    pub wipe: bool,
    pub slots: bool,
    pub active: Slot,
}

impl Keeps {
    /// Whether an old partition of a name is kept.
    pub(crate) fn keeps(self, name: &[u8]) -> bool
        ensures { result ≡ keeps self name.now }
    {
        !self.wipe
            && name != b"scratch".as_slice()
            && !(self.slots && name.ends_with([b'_', self.active.letter()].as_slice()))
    }

    /// Whether a partition is the kept one of a name.
    fn keeps_as(self, partition: &Partition, name: &[u8]) -> bool
        ensures { result ≡ (keeps self partition.now.name && bytes_eq partition.now.name name.now) }
    {
        self.keeps(partition.name.bytes()) && partition.name.bytes() == name
    }

    /// How many bytes the kept partition of a name has.
    pub(crate) fn kept_long(self, table: &Table, name: &[u8]) -> u64
        requires { IsTrue (list_all (is_short (content table.now)) (content table.now).partitions) }
        ensures { result ≡ kept_long self (content table.now) name.now (content table.now).partitions }
    {
        for partition in &table.partitions {
            if self.keeps_as(partition, name) {
                return bytes_in(extents_of(&table.extents, partition)) as u64;
            }
        }
        0
    }

    /// A listed partition, with the bytes of the kept one of its name.
    fn listed_as(self, table: &Table, partition: &Partition, part: u32) -> Planned
        requires { IsTrue (list_all (is_short (content table.now)) (content table.now).partitions) }
        ensures { result ≡ listed_as self (content table.now) partition.now part }
    {
        Planned {
            name: partition.name,
            attributes: partition.attributes,
            group: partition.group,
            bytes: self.kept_long(table, partition.name.bytes()),
            part,
        }
    }

    /// Whether an old partition is kept that the new table doesn't list.
    pub(crate) fn is_left(self, new: &Table, partition: &Partition) -> bool
        ensures { result ≡ is_left self (content new.now) partition.now }
    {
        self.keeps(partition.name.bytes()) && !is_listed(&new.partitions, partition.name.bytes())
    }
}

/// Whether a partition of a name is among these.
fn is_listed(partitions: &[Partition], name: &[u8]) -> bool
    ensures { result ≡ list_any (λ q. bytes_eq q.name name.now) partitions.now }
{
    partitions
        .iter()
        .any(|partition| partition.name.bytes() == name)
}

/// The name of a partition's group.
pub(crate) fn group_of(table: &Table, partition: &Partition) -> Name
    requires { partition.now.group < length (content table.now).groups }
    ensures { result ≡ group_name (content table.now).groups partition.now.group }
{
    table.groups[partition.group as usize].name
}

/// A partition as it is, with its group's place in the new table.
fn left_as(new: &Table, table: &Table, partition: &Partition, part: u32) -> Planned
    requires groups { length (content new.now).groups ≤ 64 }
    requires group { partition.now.group < length (content table.now).groups }
    requires short { IsTrue (is_short (content table.now) partition.now) }
    ensures { result ≡ left_as (content new.now) (content table.now) partition.now part }
{
    let mut planned = planned_as(table, partition, part);
    planned.group = group_place(&new.groups, group_of(table, partition).bytes());
    planned
}

impl SuperPart {
    /// Appends the partitions that the new table lists, each with the part at its place.
    fn add_listed(
        &self,
        next: &mut Table,
        new: &Table,
        table: &Table,
        owners: &Owners,
        parts: &[u32],
        keeps: Keeps,
    )
        requires bounded { IsBounded self.now }
        requires there { IsTrue (list_all (λ part. nat_lt part (length owners.now.parts)) parts.now) }
        requires enough { length (content new.now).partitions ≤ length parts.now }
        requires short { IsTrue (list_all (is_short (content table.now)) (content table.now).partitions) }
        requires room { HasRoom (unit_count self.now) next.old }
        requires space { HasSpace self.now owners.now (content next.old)
            (planned_by (listed_as keeps (content table.now)) (content new.now).partitions parts.now) }
        ensures table { content next.new ≡ built self.now owners.now (content next.old)
            (planned_by (listed_as keeps (content table.now)) (content new.now).partitions parts.now) }
        ensures room { HasRoom (unit_count self.now) next.new }
    {
        for place in 0..new.partitions.as_slice().len() {
            let planned = keeps.listed_as(table, &new.partitions[place], parts[place]);
            self.add_planned(next, owners, &planned);
        }
    }

    /// Appends the old partitions that are left over, with the parts after those of the listed ones.
    fn add_left(
        &self,
        next: &mut Table,
        new: &Table,
        table: &Table,
        owners: &Owners,
        parts: &[u32],
        keeps: Keeps,
    )
        requires bounded { IsBounded self.now }
        requires there { IsTrue (list_all (λ part. nat_lt part (length owners.now.parts)) parts.now) }
        requires enough { length (content new.now).partitions
            + length (filter (is_left keeps (content new.now)) (content table.now).partitions)
            ≤ length parts.now }
        requires groups { length (content new.now).groups ≤ 64 }
        requires grouped { IsTrue (list_all (λ p. nat_lt p.group (length (content table.now).groups))
            (content table.now).partitions) }
        requires short { IsTrue (list_all (is_short (content table.now)) (content table.now).partitions) }
        requires room { HasRoom (unit_count self.now) next.old }
        requires space { HasSpace self.now owners.now (content next.old)
            (planned_by (left_as (content new.now) (content table.now))
            (filter (is_left keeps (content new.now)) (content table.now).partitions)
            (drop (length (content new.now).partitions) parts.now)) }
        ensures table { content next.new ≡ built self.now owners.now (content next.old)
            (planned_by (left_as (content new.now) (content table.now))
            (filter (is_left keeps (content new.now)) (content table.now).partitions)
            (drop (length (content new.now).partitions) parts.now)) }
        ensures room { HasRoom (unit_count self.now) next.new }
    {
        let mut place = new.partitions.as_slice().len();
        for partition in &table.partitions {
            if keeps.is_left(new, partition) {
                let planned = left_as(new, table, partition, parts[place]);
                self.add_planned(next, owners, &planned);
                place += 1;
            }
        }
    }
    /// Builds the next table where a new one is installed: the new one's version and groups, its partitions
    /// with the bytes of the kept ones of their names, and the old partitions that are left over. Each has
    /// the part at its place.
    pub(crate) fn build_installed(
        &self,
        next: &mut Table,
        new: &Table,
        table: &Table,
        owners: &Owners,
        parts: &[u32],
        keeps: Keeps,
    )
        requires bounded { IsBounded self.now }
        requires there { IsTrue (list_all (λ part. nat_lt part (length owners.now.parts)) parts.now) }
        requires enough { length (content new.now).partitions
            + length (filter (is_left keeps (content new.now)) (content table.now).partitions)
            ≤ length parts.now }
        requires groups { length (content new.now).groups ≤ 64 }
        requires grouped { IsTrue (list_all (λ p. nat_lt p.group (length (content table.now).groups))
            (content table.now).partitions) }
        requires short { IsTrue (list_all (is_short (content table.now)) (content table.now).partitions) }
        requires room { HasRoom (unit_count self.now) next.old }
        requires space { HasSpace self.now owners.now
            (headed self.now (merged_head (content new.now) (content table.now)))
            (installed_plan keeps (content new.now) (content table.now) parts.now) }
        ensures table { content next.new ≡ built self.now owners.now
            (headed self.now (merged_head (content new.now) (content table.now)))
            (installed_plan keeps (content new.now) (content table.now) parts.now) }
        ensures room { HasRoom (unit_count self.now) next.new }
    {
        self.begin_table(next, table.minor.max(new.minor), new.flags);
        self.add_groups(next, &new.groups);
        self.add_listed(next, new, table, owners, parts, keeps);
        self.add_left(next, new, table, owners, parts, keeps);
    }
}
