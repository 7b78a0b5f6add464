ghost use Rattle.std.specs.Prelude.{◌≡◌, ◌<◌, length, map, nat_lt, true, ◌==◌, Some, None, if◌then◌else◌, IfOk, IsTrue};
ghost use Rattle.std.specs.List.{list_all};
ghost use Rattle.super_meta.specs.declared.errors.MetaError.TheVariants.{Unsupported};
ghost use Rattle.super_meta.specs.Contents.{content, are_grouped};
ghost use Rattle.super_meta.specs.Held.{listed, limited, roomed, based, tables_in, tables_of_image, tables_flaw};

use crate::errors::{MetaError, ReadError};
use crate::geometry::Geometry;
use crate::image::{LONGEST, read_empty_image};
use crate::table::{BlockDevice, Group, Partition, Table};
use fb_frame::items::Items;
use fb_frame::memory::Memory;
use fb_frame::tables::{TableDevice, TableGeometry, TableGroup, TablePartition, Tables};
use std::alloc::Global;

impl Partition {
    /// The partition with the name of its group, which is one of these.
    fn listed(&self, groups: &[Group]) -> TablePartition
        requires { self.now.group < length groups.now }
        ensures { result ≡ listed groups.now self.now }
    {
        TablePartition {
            name: self.name,
            attributes: self.attributes,
            group: groups[self.group as usize].name,
        }
    }
}

impl Group {
    /// The group and its limit.
    fn limited(&self) -> TableGroup
        ensures { result ≡ limited self.now }
    {
        TableGroup {
            name: self.name,
            limit: self.limit,
        }
    }
}

impl Geometry {
    /// The room for a copy of the table, and the metadata slots.
    fn roomed(&self) -> TableGeometry
        ensures { result ≡ roomed self.now }
    {
        TableGeometry {
            max_size: self.max_size,
            slots: self.slots,
        }
    }
}

impl BlockDevice {
    /// The block device without its first sector for extents.
    fn based(&self) -> TableDevice
        ensures { result ≡ based self.now }
    {
        TableDevice {
            name: self.name,
            size: self.size,
            alignment: self.alignment,
            offset: self.offset,
        }
    }
}

/// The partitions with the names of their groups, which are among these.
fn list_partitions(
    alloc: Global,
    partitions: &[Partition],
    groups: &[Group],
) -> Result<Items<TablePartition>, Memory>
    requires grouped { list_all (λ p. nat_lt p.group (length groups.now)) partitions.now ≡ true }
    ensures { IfOk result (λ list. list ≡ map (listed groups.now) partitions.now) }
{
    let mut list = Items::new(alloc);
    for partition in partitions {
        list.push(partition.listed(groups)).map_err(|_| Memory)?;
    }
    Ok(list)
}

/// The groups and their limits.
fn list_groups(alloc: Global, groups: &[Group]) -> Result<Items<TableGroup>, Memory>
    ensures { IfOk result (λ list. list ≡ map limited groups.now) }
{
    let mut list = Items::new(alloc);
    for group in groups {
        list.push(group.limited()).map_err(|_| Memory)?;
    }
    Ok(list)
}

impl Table {
    /// What the table and the geometry beside it say to a device that takes them, None where the
    /// table has an extent.
    fn tables(&self, alloc: Global, geometry: &Geometry) -> Result<Option<Tables>, Memory>
        requires grouped { IsTrue (are_grouped (content self.now)) }
        ensures { IfOk result (λ tables. tables
            ≡ (if length self.now.extents.items == 0
            then Some (tables_in geometry.now (content self.now)) else None)) }
    {
        if !self.extents.is_empty() {
            return Ok(None);
        }
        Ok(Some(Tables {
            partitions: list_partitions(alloc, &self.partitions, &self.groups)?,
            groups: list_groups(alloc, &self.groups)?,
            geometry: geometry.roomed(),
            device: self.device.based(),
            minor: self.minor,
            flags: self.flags,
        }))
    }
}

/// The tables that an image of an empty super holds for a device that takes them: each partition with
/// its group's name, and no word of the sectors. None where the file is longer than 131,072 bytes,
/// isn't such an image, or has an extent (liblp, super_empty.img).
pub fn tables_of_image(alloc: Global, file: &[u8]) -> Result<Option<Tables>, Memory>
    ensures held { IfOk result (λ tables. tables ≡ tables_of_image file.now) }
{
    if file.len() > LONGEST {
        return Ok(None);
    }
    match read_empty_image(alloc, file) {
        Ok((geometry, table)) => table.tables(alloc, &geometry),
        Err(ReadError::Bad(_)) => Ok(None),
        Err(ReadError::Memory) => Err(Memory),
    }
}

impl Table {
    /// Why nothing is taken of the table: it has an extent.
    fn extent_flaw(&self) -> Option<MetaError>
        ensures { result ≡ (if length self.now.extents.items == 0 then None else Some Unsupported) }
    {
        if self.extents.is_empty() {
            None
        } else {
            Some(MetaError::Unsupported)
        }
    }
}

/// Why a file holds no tables for a device that takes them, apart from its length: the first thing that is
/// wrong with it as an image of an empty super, or else `Unsupported` where it has an extent.
pub fn tables_flaw(alloc: Global, file: &[u8]) -> Result<Option<MetaError>, Memory>
    ensures flaw { IfOk result (λ flaw. flaw ≡ tables_flaw file.now) }
{
    match read_empty_image(alloc, file) {
        Ok((_, table)) => Ok(table.extent_flaw()),
        Err(ReadError::Bad(flaw)) => Ok(Some(flaw)),
        Err(ReadError::Memory) => Err(Memory),
    }
}
