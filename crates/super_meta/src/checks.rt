ghost use Rattle.std.specs.Prelude.{◌≡◌, ℕ, List, ◌+◌, ◌*◌, ◌<◌, ◌≤◌, length, map, nat_lt, ◌==◌, ◌^◌, bytes_eq};
ghost use Rattle.std.specs.List.{list_all, list_any};
ghost use Rattle.fb_frame.specs.Distinct.{are_distinct};
ghost use Rattle.fb_frame.specs.Versions.{are_attributes, is_version};
ghost use Rattle.super_meta.specs.Contents.{take_in_turn, lies_in, shares, are_apart, content, are_indexed, are_laid, are_known, tables_size, is_sound};
ghost use Rattle.super_meta.specs.Contents.{are_named_apart as are_apart_by_name};

use crate::header::{DEVICE, EXTENT, GROUP, PARTITION};
use crate::table::{BlockDevice, Extent, Group, Partition, Table};
use fb_frame::name::Name;

/// An entry of a table that has a name.
pub trait Named {
    /// Its name.
    ghost named: { Self → List ℕ };

    /// Its name.
    fn name(&self) -> &Name
        ensures { result.now ≡ named self.now };
}

impl Named for Partition {
    ghost named = { λ p. p.name };

    fn name(&self) -> &Name {
        &self.name
    }
}

impl Named for Group {
    ghost named = { λ g. g.name };

    fn name(&self) -> &Name {
        &self.name
    }
}

/// Whether one of the entries has the name.
fn is_taken<T: Named>(name: &Name, entries: &[T]) -> bool
    ensures { result ≡ list_any (λ x. bytes_eq (T.named x) name.now) entries.now }
{
    entries.iter().any(|entry| entry.name() == name)
}

/// Whether no two entries have the same name.
pub fn are_named_apart<T: Named>(entries: &[T]) -> bool
    ensures { result ≡ are_distinct (map T.named entries.now) }
{
    for (i, entry) in entries.iter().enumerate() {
        if is_taken(entry.name(), &entries[i + 1..]) {
            return false;
        }
    }
    true
}

impl Extent {
    /// Whether the extent has sectors, and all of them lie in the device's part for extents.
    fn lies_in(&self, device: &BlockDevice) -> bool
        ensures { result ≡ lies_in device.now self.now }
    {
        let end = device.size / 512;
        self.sectors > 0
            && device.first_sector <= self.target
            && self.target <= end
            && self.sectors <= end - self.target
    }

    /// Whether two extents share a sector.
    fn shares(&self, other: &Extent) -> bool
        ensures { result ≡ shares self.now other.now }
    {
        if self.target <= other.target {
            other.target - self.target < self.sectors && other.sectors > 0
        } else {
            self.target - other.target < other.sectors && self.sectors > 0
        }
    }
}

/// Whether the extent shares a sector with one of the others.
fn shares_any(extent: &Extent, others: &[Extent]) -> bool
    ensures { result ≡ list_any (shares extent.now) others.now }
{
    others.iter().any(|other| extent.shares(other))
}

/// Whether no two extents share a sector.
#[tactic(auto, using(crate::proofs::CheckLemmas::apart_steps))]
pub fn are_apart(extents: &[Extent]) -> bool
    ensures { result ≡ are_apart extents.now }
{
    for (i, extent) in extents.iter().enumerate() {
        if shares_any(extent, &extents[i + 1..]) {
            return false;
        }
    }
    true
}

/// Whether each extent lies in the device's part for extents.
pub fn lie_in(extents: &[Extent], device: &BlockDevice) -> bool
    ensures { result ≡ list_all (lies_in device.now) extents.now }
{
    extents.iter().all(|extent| extent.lies_in(device))
}

/// Whether the partitions take `extents` extents in turn.
#[tactic(auto, using(crate::proofs::CheckLemmas::turn_steps))]
pub fn take_in_turn(partitions: &[Partition], extents: usize) -> bool
    ensures { result ≡ take_in_turn extents 0 partitions.now }
{
    let mut at = 0;
    for partition in partitions {
        if u64::from(partition.first) != at {
            return false;
        }
        at += u64::from(partition.count);
    }
    at == extents as u64
}

/// Whether the group of each partition is one of `groups` groups.
pub fn are_grouped(partitions: &[Partition], groups: usize) -> bool
    ensures { result ≡ list_all (λ p. nat_lt p.group groups) partitions.now }
{
    partitions
        .iter()
        .all(|partition| (partition.group as usize) < groups)
}

/// Whether the attributes are known to a minor version.
fn are_attributes(minor: u16, bits: u32) -> bool
    ensures { result ≡ are_attributes minor bits }
{
    if minor == 0 {
        bits < 2
    } else {
        bits < 16 && bits / 2 % 2 == 0
    }
}

/// Whether the attributes of each partition are known to a minor version.
pub fn are_known(partitions: &[Partition], minor: u16) -> bool
    ensures { result ≡ list_all (λ p. are_attributes minor p.attributes) partitions.now }
{
    partitions
        .iter()
        .all(|partition| are_attributes(minor, partition.attributes))
}

impl Table {
    /// Whether no two partitions and no two groups have the same name.
    #[tactic(auto, unfolding(crate::specs::Contents::are_named_apart))]
    pub(crate) fn is_named_apart(&self) -> bool
        ensures { result ≡ are_apart_by_name (content self.now) }
    {
        are_named_apart(&self.partitions) && are_named_apart(&self.groups)
    }

    /// Whether the partitions take the extents in turn, and their groups are there.
    #[tactic(auto, unfolding(crate::specs::Contents::are_indexed))]
    pub(crate) fn is_indexed(&self) -> bool
        ensures { result ≡ are_indexed (content self.now) }
    {
        take_in_turn(&self.partitions, self.extents.len())
            && are_grouped(&self.partitions, self.groups.len())
    }

    /// Whether each extent lies in the device, and no two share a sector.
    #[tactic(auto, unfolding(crate::specs::Contents::are_laid))]
    pub(crate) fn is_laid(&self) -> bool
        ensures { result ≡ are_laid (content self.now) }
    {
        lie_in(&self.extents, &self.device) && are_apart(&self.extents)
    }

    /// Whether each partition's attributes are known.
    #[tactic(auto, unfolding(crate::specs::Contents::are_known))]
    pub(crate) fn is_known(&self) -> bool
        ensures { result ≡ are_known (content self.now) }
    {
        are_known(&self.partitions, self.minor)
    }

    /// Whether the size of the lists fits its field.
    fn is_short(&self) -> bool
        ensures { result ≡ nat_lt (tables_size (content self.now)) (2 ^ 32) }
    {
        let (partitions, extents, groups) = (
            self.partitions.len(),
            self.extents.len(),
            self.groups.len(),
        );
        partitions < 1 << 27
            && extents < 1 << 28
            && groups < 1 << 27
            && PARTITION * partitions + EXTENT * extents + GROUP * groups + DEVICE < 1 << 32
    }

    /// Whether the table can be written: nothing is wrong with what it says, and its size fits its field.
    pub fn is_sound(&self) -> bool
        ensures { result ≡ is_sound (content self.now) }
    {
        self.is_named_apart()
            && self.is_indexed()
            && self.is_laid()
            && self.is_known()
            && is_version(self.minor, self.flags)
            && self.is_short()
    }
}

/// Whether there is such a minor version, and the flags are 0 where it has none.
fn is_version(minor: u16, flags: u32) -> bool
    ensures { result ≡ is_version minor flags }
{
    minor <= 2 && (minor == 2 || flags == 0)
}
