ghost use Rattle.std.specs.Prelude.{◌≡◌, ℕ, ◌+◌, ◌*◌, ◌^◌, ◌<◌, ◌≤◌, ◌++◌, length, take, drop, IsTrue, OnOk, OnErr, IfOk};
ghost use Rattle.std.specs.List.{list_all, flat_map};
ghost use Rattle.fb_frame.specs.NameText.{IsName};
ghost use Rattle.super_meta.specs.Entries.{name_field, partition_bytes, extent_bytes, group_bytes, device_bytes};
ghost use Rattle.super_meta.specs.TableBytes.{header_front, descriptor, descriptors, header_core, flags_bytes, tables_bytes, table_bytes, partition_fits, extent_fits, group_fits, device_fits, lists_fit, TableBytes};
ghost use Rattle.super_meta.specs.TableText.{table_size};
ghost use Rattle.super_meta.specs.Sealed.{sealed};
ghost use Rattle.super_meta.specs.HeaderText.{header_size};
ghost use Rattle.super_meta.specs.Contents.{content, tables_size, is_sound};

use crate::entries::NAME;
use crate::header::{DEVICE, EXTENT, GROUP, MAGIC, MAJOR, PARTITION, header_size};
use crate::put::{put, put_zeros};
use crate::table::{BlockDevice, Extent, Group, Partition, Table};
use fb_frame::digest::digest;
use fb_frame::name::Name;
use thiserror::Error;

/// The field of a name: the name, and zeros after it.
fn name_field(name: &Name) -> [u8; 36]
    ensures field { result ≡ name_field name.now }
    ensures name { IsName name.now }
{
    let text = name.bytes();
    let mut field = [0; NAME];
    field[..text.len()].copy_from_slice(text);
    field
}

impl Partition {
    /// The entry of the partition.
    #[tactic(auto, using(crate::proofs::PutLemmas::wholes, crate::proofs::FitLemmas::fitting), unfolding(crate::specs::Entries::partition_bytes))]
    fn entry(&self) -> [u8; 52]
        ensures entry { result ≡ partition_bytes self.now }
        ensures fits { IsTrue (partition_fits self.now) }
    {
        let Partition {
            name,
            attributes,
            first,
            count,
            group,
        } = *self;
        let mut entry = [0; PARTITION];
        let at = put(&mut entry, 0, &name_field(&name));
        let at = put(&mut entry, at, &attributes.to_le_bytes());
        let at = put(&mut entry, at, &first.to_le_bytes());
        let at = put(&mut entry, at, &count.to_le_bytes());
        put(&mut entry, at, &group.to_le_bytes());
        entry
    }
}

impl Extent {
    /// The entry of the extent: linear, on the only block device.
    #[tactic(auto, using(crate::proofs::PutLemmas::wholes, crate::proofs::FitLemmas::fitting), unfolding(crate::specs::Entries::extent_bytes))]
    fn entry(&self) -> [u8; 24]
        ensures entry { result ≡ extent_bytes self.now }
        ensures fits { IsTrue (extent_fits self.now) }
    {
        let Extent { sectors, target } = *self;
        let mut entry = [0; EXTENT];
        let at = put(&mut entry, 0, &sectors.to_le_bytes());
        let at = put(&mut entry, at, &0u32.to_le_bytes());
        let at = put(&mut entry, at, &target.to_le_bytes());
        put(&mut entry, at, &0u32.to_le_bytes());
        entry
    }
}

impl Group {
    /// The entry of the group.
    #[tactic(auto, using(crate::proofs::PutLemmas::wholes, crate::proofs::FitLemmas::fitting), unfolding(crate::specs::Entries::group_bytes))]
    fn entry(&self) -> [u8; 48]
        ensures entry { result ≡ group_bytes self.now }
        ensures fits { IsTrue (group_fits self.now) }
    {
        let Group { name, limit } = *self;
        let mut entry = [0; GROUP];
        let at = put(&mut entry, 0, &name_field(&name));
        let at = put(&mut entry, at, &0u32.to_le_bytes());
        put(&mut entry, at, &limit.to_le_bytes());
        entry
    }
}

impl BlockDevice {
    /// The entry of the block device.
    #[tactic(auto, using(crate::proofs::PutLemmas::wholes, crate::proofs::FitLemmas::fitting), unfolding(crate::specs::Entries::device_bytes))]
    fn entry(&self) -> [u8; 64]
        ensures entry { result ≡ device_bytes self.now }
        ensures fits { IsTrue (device_fits self.now) }
    {
        let BlockDevice {
            first_sector,
            alignment,
            offset,
            size,
            name,
        } = *self;
        let mut entry = [0; DEVICE];
        let at = put(&mut entry, 0, &first_sector.to_le_bytes());
        let at = put(&mut entry, at, &alignment.to_le_bytes());
        let at = put(&mut entry, at, &offset.to_le_bytes());
        let at = put(&mut entry, at, &size.to_le_bytes());
        let at = put(&mut entry, at, &name_field(&name));
        put(&mut entry, at, &0u32.to_le_bytes());
        entry
    }
}

/// Writes the entries of the partitions at a place, and answers the place after them.
fn put_partitions(buf: &mut [u8], at: usize, partitions: &[Partition]) -> usize
    requires { at + 52 * length partitions.now ≤ length buf.old }
    ensures at { result ≡ at + 52 * length partitions.now }
    ensures front { take result buf.new ≡ take at buf.old ++ flat_map partition_bytes partitions.now }
    ensures fits { IsTrue (list_all partition_fits partitions.now) }
    ensures rest { (n : ℕ) → result ≤ n → drop n buf.new ≡ drop n buf.old }
{
    let mut place = at;
    for partition in partitions {
        place = put(buf, place, &partition.entry());
    }
    place
}

/// Writes the entries of the extents at a place, and answers the place after them.
fn put_extents(buf: &mut [u8], at: usize, extents: &[Extent]) -> usize
    requires { at + 24 * length extents.now ≤ length buf.old }
    ensures at { result ≡ at + 24 * length extents.now }
    ensures front { take result buf.new ≡ take at buf.old ++ flat_map extent_bytes extents.now }
    ensures fits { IsTrue (list_all extent_fits extents.now) }
    ensures rest { (n : ℕ) → result ≤ n → drop n buf.new ≡ drop n buf.old }
{
    let mut place = at;
    for extent in extents {
        place = put(buf, place, &extent.entry());
    }
    place
}

/// Writes the entries of the groups at a place, and answers the place after them.
fn put_groups(buf: &mut [u8], at: usize, groups: &[Group]) -> usize
    requires { at + 48 * length groups.now ≤ length buf.old }
    ensures at { result ≡ at + 48 * length groups.now }
    ensures front { take result buf.new ≡ take at buf.old ++ flat_map group_bytes groups.now }
    ensures fits { IsTrue (list_all group_fits groups.now) }
    ensures rest { (n : ℕ) → result ≤ n → drop n buf.new ≡ drop n buf.old }
{
    let mut place = at;
    for group in groups {
        place = put(buf, place, &group.entry());
    }
    place
}

/// A descriptor of a list: its place after the header, how many entries it has, and their size.
#[tactic(auto, using(crate::proofs::PutLemmas::wholes), unfolding(crate::specs::TableBytes::descriptor))]
fn descriptor(place: usize, count: usize, size: usize) -> [u8; 12]
    requires place { place < 2 ^ 32 }
    requires count { count < 2 ^ 32 }
    requires size { size < 2 ^ 32 }
    ensures { result ≡ descriptor place count size }
{
    let mut bytes = [0; 12];
    let at = put(&mut bytes, 0, &(place as u32).to_le_bytes());
    let at = put(&mut bytes, at, &(count as u32).to_le_bytes());
    put(&mut bytes, at, &(size as u32).to_le_bytes());
    bytes
}

/// What stands before the header's digest.
#[tactic(auto, using(crate::proofs::PutLemmas::wholes), unfolding(crate::specs::TableBytes::header_front))]
fn header_front(minor: u16) -> [u8; 12]
    ensures { result ≡ header_front minor }
{
    let mut front = [0; 12];
    let at = put(&mut front, 0, &MAGIC.to_le_bytes());
    let at = put(&mut front, at, &MAJOR.to_le_bytes());
    let at = put(&mut front, at, &minor.to_le_bytes());
    put(&mut front, at, &(header_size(minor) as u32).to_le_bytes());
    front
}

impl Table {
    /// The descriptors of the lists.
    #[tactic(auto, using(crate::proofs::PutLemmas::wholes), unfolding(crate::specs::TableBytes::descriptors))]
    fn descriptors(&self) -> [u8; 48]
        requires { tables_size (content self.now) < 2 ^ 32 }
        ensures { result ≡ descriptors (content self.now) }
    {
        let (partitions, extents, groups) = (
            self.partitions.len(),
            self.extents.len(),
            self.groups.len(),
        );
        let extents_at = PARTITION * partitions;
        let groups_at = extents_at + EXTENT * extents;
        let devices_at = groups_at + GROUP * groups;
        let mut bytes = [0; 48];
        let at = put(&mut bytes, 0, &descriptor(0, partitions, PARTITION));
        let at = put(&mut bytes, at, &descriptor(extents_at, extents, EXTENT));
        let at = put(&mut bytes, at, &descriptor(groups_at, groups, GROUP));
        put(&mut bytes, at, &descriptor(devices_at, 1, DEVICE));
        bytes
    }

    /// What every version has after the header's digest.
    #[tactic(auto, using(crate::proofs::PutLemmas::wholes), unfolding(crate::specs::TableBytes::header_core))]
    fn header_core(&self, size: u32, digest: &[u8; 32]) -> [u8; 84]
        requires size { size ≡ tables_size (content self.now) }
        ensures { result ≡ header_core (content self.now) digest.now }
    {
        let mut core = [0; 84];
        let at = put(&mut core, 0, &size.to_le_bytes());
        let at = put(&mut core, at, digest);
        put(&mut core, at, &self.descriptors());
        core
    }

    /// Writes the flags and the reserved bytes of version 10.2 at a place, and answers the place after them.
    #[tactic(auto, using(crate::proofs::WriteLemmas::groups), unfolding(crate::specs::TableBytes::flags_bytes))]
    fn put_flags(&self, buf: &mut [u8], at: usize) -> usize
        requires { at + header_size self.now.minor ≤ length buf.old + 128 }
        ensures at { result + 128 ≡ at + header_size self.now.minor }
        ensures front { take result buf.new ≡ take at buf.old ++ flags_bytes (content self.now) }
        ensures flags { self.now.flags < 2 ^ 32 }
        ensures rest { (n : ℕ) → result ≤ n → drop n buf.new ≡ drop n buf.old }
    {
        let flags = self.flags;
        if self.minor != 2 {
            return at;
        }
        let at = put(buf, at, &flags.to_le_bytes());
        put_zeros(buf, at, 124)
    }

    /// Writes the header at the front, by the size and the digest of the lists.
    fn put_header(&self, buf: &mut [u8], size: u32, lists: &[u8; 32])
        requires size { size ≡ tables_size (content self.now) }
        requires room { header_size self.now.minor ≤ length buf.old }
        ensures header { take (header_size self.now.minor) buf.new
            ≡ sealed (header_front self.now.minor)
            (header_core (content self.now) lists.now ++ flags_bytes (content self.now)) }
        ensures flags { self.now.flags < 2 ^ 32 }
        ensures rest { (n : ℕ) → header_size self.now.minor ≤ n → drop n buf.new ≡ drop n buf.old }
    {
        let at = put(buf, 0, &header_front(self.minor));
        let at = put_zeros(buf, at, 32);
        let at = put(buf, at, &self.header_core(size, lists));
        let end = self.put_flags(buf, at);
        let seal = digest(&buf[..end]);
        put(buf, 12, &seal);
    }

    /// Writes the lists at a place, and answers the place after them.
    #[tactic(auto, using(crate::proofs::WriteLemmas::groups), unfolding(crate::specs::TableBytes::tables_bytes, crate::specs::TableBytes::lists_fit))]
    fn put_tables(&self, buf: &mut [u8], at: usize) -> usize
        requires { at + tables_size (content self.now) ≤ length buf.old }
        ensures at { result ≡ at + tables_size (content self.now) }
        ensures front { take result buf.new ≡ take at buf.old ++ tables_bytes (content self.now) }
        ensures fits { IsTrue (lists_fit (content self.now)) }
        ensures rest { (n : ℕ) → result ≤ n → drop n buf.new ≡ drop n buf.old }
    {
        let at = put_partitions(buf, at, &self.partitions);
        let at = put_extents(buf, at, &self.extents);
        let at = put_groups(buf, at, &self.groups);
        put(buf, at, &self.device.entry())
    }
}

/// The buffer is shorter than the table.
#[derive(Debug, Drop, Error)]
#[error("table too long")]
pub struct TooLong;

/// Writes a sound table at the front of a buffer in its one spelling, and answers how many bytes it has.
/// `TooLong` comes exactly where the buffer is shorter, which is then unchanged.
pub fn write_table(table: &Table, buf: &mut [u8]) -> Result<usize, TooLong>
    requires sound { IsTrue (is_sound (content table.now)) }
    ensures size { IfOk result (λ size. size ≡ table_size (content table.now)) }
    ensures bytes { OnOk result
        (take (table_size (content table.now)) buf.new ≡ table_bytes (content table.now)) }
    ensures again { OnOk result (TableBytes (content table.now) buf.new) }
    ensures rest { OnOk result (drop (table_size (content table.now)) buf.new
        ≡ drop (table_size (content table.now)) buf.old) }
    ensures fits { OnOk result (table_size (content table.now) ≤ length buf.old) }
    ensures long { OnErr result (length buf.old < table_size (content table.now)) }
    ensures kept { OnErr result (buf.new ≡ buf.old) }
{
    let end = table.size();
    if buf.len() < end {
        return Err(TooLong);
    }
    let start = header_size(table.minor);
    table.put_tables(buf, start);
    let lists = digest(&buf[start..end]);
    table.put_header(buf, (end - start) as u32, &lists);
    Ok(end)
}
