ghost use Rattle.std.specs.Prelude.{◌≡◌, ◌+◌, ◌*◌, ◌^◌, ◌<◌, ◌≤◌, ◌++◌, length, map, take, drop, Some, None, if◌then◌else◌, OnOk, IsOk, [], vec_capacity};
ghost use Rattle.std.specs.List.{list_all, position};
ghost use Rattle.std.specs.Result.{result_err};
ghost use Rattle.super_meta.specs.declared.errors.MetaError.TheVariants.{BadName};
ghost use Rattle.super_meta.specs.Entries.{rows, row_at, is_zero, name_in, name_at, is_named, is_unset, is_name_field, partition_of, extent_of, group_of, device_of};
ghost use Rattle.fb_frame.specs.Fields.{u32_at};

use crate::errors::MetaError;
use crate::header::{EXTENT, GROUP, PARTITION};
use crate::table::{BlockDevice, Extent, Group, Partition};
use fb_frame::fields::{u32_at, u64_at};
use fb_frame::name::Name;

/// How many bytes the field of a name has.
pub const NAME: usize = 36;

/// The row at an index, among rows of `size` bytes.
fn row_at(bytes: &[u8], index: usize, size: usize) -> &[u8]
    requires { index * size + size ≤ length bytes.now }
    ensures row { result.now ≡ row_at size index bytes.now }
    ensures size { length result.now ≡ size }
{
    &bytes[index * size..index * size + size]
}

fn zero_at(field: &[u8]) -> Option<usize>
    ensures { result ≡ position is_zero field.now }
{
    field.iter().position(|b| *b == 0)
}

pub fn are_zeros(bytes: &[u8]) -> bool
    ensures { result ≡ list_all is_zero bytes.now }
{
    bytes.iter().all(|b| *b == 0)
}

/// The name that a field holds, None where it holds none, or more than it and zeros.
#[tactic(auto, unfolding(crate::specs::Entries::is_name_field, crate::specs::Entries::name_in))]
fn name_at(field: &[u8]) -> Option<Name>
    ensures { result ≡ name_at field.now }
{
    let len = zero_at(field).unwrap_or(field.len());
    let (name, rest) = field.split_at(len);
    if !are_zeros(rest) {
        return None;
    }
    Name::read(name)
}

impl Partition {
    /// The partition of an entry, None where it has no name.
    #[tactic(auto, unfolding(crate::specs::Entries::partition_of))]
    fn read(row: &[u8]) -> Option<Partition>
        requires { 52 ≤ length row.now }
        ensures { result ≡ (if is_named row.now then Some (partition_of row.now) else None) }
    {
        let (field, _) = row.split_at(NAME);
        let name = name_at(field)?;
        Some(Partition {
            name,
            attributes: u32_at(row, 36),
            first: u32_at(row, 40),
            count: u32_at(row, 44),
            group: u32_at(row, 48),
        })
    }
}

impl Extent {
    /// The extent of an entry.
    #[tactic(auto, unfolding(crate::specs::Entries::extent_of))]
    fn read(row: &[u8]) -> Extent
        requires { 24 ≤ length row.now }
        ensures { result ≡ extent_of row.now }
    {
        Extent {
            sectors: u64_at(row, 0),
            target: u64_at(row, 12),
        }
    }
}

impl Group {
    /// The group of an entry, None where it has no name.
    #[tactic(auto, unfolding(crate::specs::Entries::group_of))]
    fn read(row: &[u8]) -> Option<Group>
        requires { 48 ≤ length row.now }
        ensures { result ≡ (if is_named row.now then Some (group_of row.now) else None) }
    {
        let (field, _) = row.split_at(NAME);
        let name = name_at(field)?;
        Some(Group {
            name,
            limit: u64_at(row, 40),
        })
    }
}

impl BlockDevice {
    /// The block device of an entry, None where it has no name.
    #[tactic(auto, unfolding(crate::specs::Entries::device_of))]
    pub fn read(row: &[u8]) -> Option<BlockDevice>
        requires { 64 ≤ length row.now }
        ensures { result
            ≡ (if is_name_field (take 36 (drop 24 row.now)) then Some (device_of row.now) else None) }
    {
        let name = name_at(&row[24..24 + NAME])?;
        Some(BlockDevice {
            first_sector: u64_at(row, 0),
            alignment: u32_at(row, 8),
            offset: u32_at(row, 12),
            size: u64_at(row, 16),
            name,
        })
    }
}

/// Reads the entries of `count` partitions into an empty list that has room for them.
#[tactic(auto, using(crate::proofs::RowLemmas::row_steps))]
pub fn read_partitions(
    bytes: &[u8],
    count: u32,
    partitions: &mut Vec<Partition>,
) -> Result<(), MetaError>
    requires long { 52 * count ≤ length bytes.now }
    requires empty { partitions.old.items ≡ [] }
    requires room { count ≤ vec_capacity partitions.old }
    ensures named { result_err result
        ≡ (if list_all is_named (rows 52 count bytes.now) then None else Some BadName) }
    ensures items { OnOk result (partitions.new.items ≡ map partition_of (rows 52 count bytes.now)) }
    ensures room { vec_capacity partitions.new ≡ vec_capacity partitions.old }
{
    for i in 0..count as usize {
        let Some(partition) = Partition::read(row_at(bytes, i, PARTITION)) else {
            return Err(MetaError::BadName);
        };
        partitions.push_reserved(partition);
    }
    Ok(())
}

/// Reads the entries of `count` groups into an empty list that has room for them.
#[tactic(auto, using(crate::proofs::RowLemmas::row_steps))]
pub fn read_groups(bytes: &[u8], count: u32, groups: &mut Vec<Group>) -> Result<(), MetaError>
    requires long { 48 * count ≤ length bytes.now }
    requires empty { groups.old.items ≡ [] }
    requires room { count ≤ vec_capacity groups.old }
    ensures named { result_err result
        ≡ (if list_all is_named (rows 48 count bytes.now) then None else Some BadName) }
    ensures items { OnOk result (groups.new.items ≡ map group_of (rows 48 count bytes.now)) }
    ensures room { vec_capacity groups.new ≡ vec_capacity groups.old }
{
    for i in 0..count as usize {
        let Some(group) = Group::read(row_at(bytes, i, GROUP)) else {
            return Err(MetaError::BadName);
        };
        groups.push_reserved(group);
    }
    Ok(())
}

/// Reads the entries of `count` extents into an empty list that has room for them.
#[tactic(auto, using(crate::proofs::RowLemmas::row_steps))]
pub fn read_extents(bytes: &[u8], count: u32, extents: &mut Vec<Extent>)
    requires long { 24 * count ≤ length bytes.now }
    requires empty { extents.old.items ≡ [] }
    requires room { count ≤ vec_capacity extents.old }
    ensures items { extents.new.items ≡ map extent_of (rows 24 count bytes.now) }
    ensures room { vec_capacity extents.new ≡ vec_capacity extents.old }
{
    for i in 0..count as usize {
        extents.push_reserved(Extent::read(row_at(bytes, i, EXTENT)));
    }
}

/// Whether the number at a place of each of `count` rows is 0.
#[tactic(auto, using(crate::proofs::RowLemmas::row_steps))]
pub fn are_unset(bytes: &[u8], count: u32, size: usize, place: usize) -> bool
    requires long { count * size ≤ length bytes.now }
    requires within { place + 4 ≤ size }
    ensures { result ≡ list_all (is_unset place) (rows size count bytes.now) }
{
    for i in 0..count as usize {
        if u32_at(row_at(bytes, i, size), place) != 0 {
            return false;
        }
    }
    true
}
