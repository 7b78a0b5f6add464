ghost use Rattle.std.specs.Prelude.{◌≡◌, ◌↔◌, IsTrue};
ghost use Rattle.super_meta.specs.Contents.{content};

use fb_frame::name::Name;

/// A logical partition: its name and attributes, which extents it has, the first of them and how many,
/// and its group, by its place in the list (liblp metadata_format.h, LpMetadataPartition).
#[derive(Clone, Copy, Debug, PartialEq, Eq)]
pub struct Partition {
    pub name: Name,
    pub attributes: u32,
    pub first: u32,
    pub count: u32,
    pub group: u32,
}

/// Sectors of 512 bytes of super, from a target sector on (liblp metadata_format.h, LpMetadataExtent).
#[derive(Clone, Copy, Debug, PartialEq, Eq)]
pub struct Extent {
    pub sectors: u64,
    pub target: u64,
}

/// A group of partitions, and the most bytes that they may hold together. A limit of 0 is none
/// (liblp metadata_format.h, LpMetadataPartitionGroup).
#[derive(Clone, Copy, Debug, PartialEq, Eq)]
pub struct Group {
    pub name: Name,
    pub limit: u64,
}

/// The block device that the table is made for: its first sector that extents may take, alignment and
/// alignment offset in bytes, size in bytes, and name (liblp metadata_format.h, LpMetadataBlockDevice).
#[derive(Clone, Copy, Debug, PartialEq, Eq)]
pub struct BlockDevice {
    pub first_sector: u64,
    pub alignment: u32,
    pub offset: u32,
    pub size: u64,
    pub name: Name,
}

/// A table of logical partitions. `minor` is its minor version, and `flags` are the header's.
#[derive(Debug, Drop)]
pub struct Table {
    pub minor: u16,
    pub flags: u32,
    pub partitions: Vec<Partition>,
    pub extents: Vec<Extent>,
    pub groups: Vec<Group>,
    pub device: BlockDevice,
}

impl BlockDevice {
    /// Whether two block devices are the same.
    fn is_same(&self, other: &BlockDevice) -> bool
        ensures { IsTrue result ↔ (self.now ≡ other.now) }
    {
        self == other
    }
}

/// Whether two lists of partitions are the same.
fn are_same_partitions(ours: &[Partition], others: &[Partition]) -> bool
    ensures { IsTrue result ↔ (ours.now ≡ others.now) }
{
    ours == others
}

/// Whether two lists of extents are the same.
fn are_same_extents(ours: &[Extent], others: &[Extent]) -> bool
    ensures { IsTrue result ↔ (ours.now ≡ others.now) }
{
    ours == others
}

/// Whether two lists of groups are the same.
fn are_same_groups(ours: &[Group], others: &[Group]) -> bool
    ensures { IsTrue result ↔ (ours.now ≡ others.now) }
{
    ours == others
}

impl Table {
    /// Whether two tables say the same, wherever their lists lie in memory.
    pub fn says_same(&self, other: &Table) -> bool
        ensures same { IsTrue result ↔ (content self.now ≡ content other.now) }
    {
        if self.minor != other.minor {
            return false;
        }
        if self.flags != other.flags {
            return false;
        }
        if !self.device.is_same(&other.device) {
            return false;
        }
        if !are_same_partitions(&self.partitions, &other.partitions) {
            return false;
        }
        if !are_same_extents(&self.extents, &other.extents) {
            return false;
        }
        are_same_groups(&self.groups, &other.groups)
    }
}
