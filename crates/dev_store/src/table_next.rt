//! The whole next table: the one that there is, with the partition at a place replaced.
ghost use Rattle.std.specs.Prelude.{◌≡◌, ◌+◌, ◌<◌, ◌≤◌, length, map, nat_lt, codes, option_to_list};
ghost use Rattle.std.specs.Prelude.{bytes_eq, IfSome, IsTrue};
ghost use Rattle.std.specs.List.{list_all, position};
ghost use Rattle.super_meta.specs.Contents.{Content, content};
ghost use Rattle.super_meta.specs.Held.{limited};
ghost use Rattle.dev_store.specs.LayoutLines.{unit_count};
ghost use Rattle.dev_store.specs.SuperBounds.{IsBounded};
ghost use Rattle.dev_store.specs.SuperReads.{HasRoom};
ghost use Rattle.dev_store.specs.Runs.{group_place};
ghost use Rattle.dev_store.specs.Building.{headed, built, units_planned, planned_as, planned_all, replaced};
ghost use Rattle.dev_store.specs.Building.{longer, is_short};

use crate::layout::SuperPart;
use crate::table_build::Planned;
use fb_frame::name::Name;
use super_meta::table::{Group, Partition, Table};
use unit_alloc::Owners;

/// The place of the group of a name, where there is one.
fn place_of(groups: &[Group], name: &[u8]) -> Option<usize>
    ensures { result ≡ position (λ g. bytes_eq g.name name.now) groups.now }
{
    groups.iter().position(|group| group.name.bytes() == name)
}

/// The place of the group of a name, 0 where there is none.
pub(crate) fn group_place(groups: &[Group], name: &[u8]) -> u32
    requires { length groups.now ≤ 64 }
    ensures { result ≡ group_place (map limited groups.now) name.now }
{
    place_of(groups, name).unwrap_or(0) as u32
}

/// A partition of a table as it is, but for its length in bytes, with its part of the map of units.
pub(crate) fn resized_as(partition: &Partition, part: u32, bytes: u64) -> Planned
    ensures { (c : Content) → result ≡ longer bytes (planned_as c partition.now part) }
{
    Planned {
        name: partition.name,
        attributes: partition.attributes,
        group: partition.group,
        bytes,
        part,
    }
}

/// A new partition in the group `default`, one of these, with its length in bytes and its part of the map
/// of units.
pub(crate) fn created_as(groups: &[Group], name: Name, bytes: u64, part: u32) -> Planned
    requires { length groups.now ≤ 64 }
    ensures { result ≡ record {
      name = name;
      attributes = 0;
      group = group_place (map limited groups.now) (codes "default");
      bytes = bytes;
      part = part;
    } }
{
    Planned {
        name,
        attributes: 0,
        group: group_place(groups, b"default"),
        bytes,
        part,
    }
}

impl SuperPart {
    /// Begins the next table with the version and the groups of a table.
    fn begin_as(&self, next: &mut Table, table: &Table)
        requires bounded { IsBounded self.now }
        requires room { HasRoom (unit_count self.now) next.old }
        requires few { length (content table.now).groups ≤ 64 }
        ensures table { content next.new ≡ headed self.now (content table.now) }
        ensures room { HasRoom (unit_count self.now) next.new }
    {
        self.begin_table(next, table.minor, table.flags);
        self.add_groups(next, &table.groups);
    }

    /// Appends a planned partition, where there is one.
    fn add_any(&self, next: &mut Table, owners: &Owners, planned: Option<Planned>)
        requires bounded { IsBounded self.now }
        requires part { IfSome planned (λ p. p.part < length owners.now.parts) }
        requires room { HasRoom (unit_count self.now) next.old }
        requires few { length (content next.old).partitions + length (option_to_list planned) ≤ 128 }
        requires units { length (content next.old).extents
            + units_planned owners.now (option_to_list planned) ≤ unit_count self.now }
        ensures table { content next.new
            ≡ built self.now owners.now (content next.old) (option_to_list planned) }
        ensures room { HasRoom (unit_count self.now) next.new }
        ensures few { length (content next.new).partitions
            ≡ length (content next.old).partitions + length (option_to_list planned) }
        ensures units { length (content next.new).extents
            ≤ length (content next.old).extents + units_planned owners.now (option_to_list planned) }
    {
        if let Some(planned) = planned {
            self.add_planned(next, owners, &planned);
        }
    }

    /// Builds the next table: the partitions of a table as they are, but for the one at a place, in whose
    /// stead the planned one stands, or none. Past the last place the planned one is appended.
    pub(crate) fn build_next(
        &self,
        next: &mut Table,
        table: &Table,
        owners: &Owners,
        parts: &[u32],
        place: usize,
        planned: Option<Planned>,
    )
        requires bounded { IsBounded self.now }
        requires groups { length (content table.now).groups ≤ 64 }
        requires many { length parts.now ≡ length (content table.now).partitions }
        requires within { place ≤ length parts.now }
        requires there { IsTrue (list_all (λ part. nat_lt part (length owners.now.parts)) parts.now) }
        requires short { IsTrue (list_all (is_short (content table.now)) (content table.now).partitions) }
        requires part { IfSome planned (λ p. p.part < length owners.now.parts) }
        requires room { HasRoom (unit_count self.now) next.old }
        requires few { let all = planned_all (content table.now) (content table.now).partitions parts.now in
            length (replaced place planned all) ≤ 128 }
        requires units { let all = planned_all (content table.now) (content table.now).partitions parts.now in
            units_planned owners.now (replaced place planned all) ≤ unit_count self.now }
        ensures table { let all = planned_all (content table.now) (content table.now).partitions parts.now in
            content next.new
            ≡ built self.now owners.now (headed self.now (content table.now)) (replaced place planned all) }
        ensures room { HasRoom (unit_count self.now) next.new }
    {
        let end = parts.len();
        self.begin_as(next, table);
        self.add_range(next, table, owners, parts, 0, place);
        self.add_any(next, owners, planned);
        self.add_range(next, table, owners, parts, place + 1, end);
    }
}
