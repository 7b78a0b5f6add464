ghost use Rattle.std.specs.Prelude.{◌≡◌, ◌+◌, ◌*◌, ◌^◌, ◌<◌, ◌≤◌, length, take, drop, map, Some, None, true, if◌then◌else◌, OnOk, IfOk, Ok, Err, vec_capacity};
ghost use Rattle.std.specs.Result.{result_err, IsErrOf};
ghost use Rattle.super_meta.specs.declared.errors.MetaError.{MetaError};
ghost use Rattle.super_meta.specs.declared.errors.MetaError.TheVariants.{BadName};
ghost use Rattle.super_meta.specs.HeaderText.{header_size, lists_size};
ghost use Rattle.super_meta.specs.Entries.{rows, partition_of, extent_of, group_of, device_of};
ghost use Rattle.super_meta.specs.Contents.{Content, content};
ghost use Rattle.super_meta.specs.TableBytes.{TableBytes};
ghost use Rattle.super_meta.specs.TableText.{content_in, names_hold, sources_hold, reserved_hold, kinds_hold, behind, partition_rows, extent_rows, group_rows, device_row, entries_flaw, table_of, table_size};

use crate::entries::{are_unset, are_zeros, read_extents, read_groups, read_partitions};
use crate::errors::{MetaError, ReadError};
use crate::header::{DEVICE, EXTENT, GROUP, Header, PARTITION, header_size};
use crate::table::{BlockDevice, Table};
use fb_frame::fields::u32_at;
use fb_frame::name::Name;
use std::alloc::{AllocError, Global};

impl Header {
    /// The entries of the extents, and what follows them, in the bytes after the header.
    fn extents_in<'a>(&self, tables: &'a [u8]) -> &'a [u8]
        requires { lists_size self.now ≤ length tables.now }
        ensures extents { result.now ≡ drop (52 * self.now.partitions) tables.now }
        ensures long { 24 * self.now.extents ≤ length result.now }
    {
        &tables[PARTITION * self.partitions as usize..]
    }

    /// The entries of the groups, and what follows them.
    fn groups_in<'a>(&self, tables: &'a [u8]) -> &'a [u8]
        requires { lists_size self.now ≤ length tables.now }
        ensures groups { result.now ≡ drop (52 * self.now.partitions + 24 * self.now.extents) tables.now }
        ensures long { 48 * self.now.groups ≤ length result.now }
    {
        &tables[PARTITION * self.partitions as usize + EXTENT * self.extents as usize..]
    }

    /// The entry of the block device.
    fn device_in<'a>(&self, tables: &'a [u8]) -> &'a [u8]
        requires { lists_size self.now + 64 ≤ length tables.now }
        ensures device { result.now ≡ device_row self.now tables.now }
        ensures long { length result.now ≡ 64 }
    {
        let at = self.lists_size() as usize;
        &tables[at..at + DEVICE]
    }
}

impl Table {
    /// Reads the entries of the bytes after a header into the lists, which have room for them.
    #[tactic(auto, unfolding(crate::specs::TableText::content_in, crate::specs::TableText::names_hold))]
    pub(crate) fn fill(&mut self, header: &Header, tables: &[u8]) -> Result<(), MetaError>
        requires long { lists_size header.now + 64 ≤ length tables.now }
        requires partitions { header.now.partitions ≤ vec_capacity self.old.partitions }
        requires extents { header.now.extents ≤ vec_capacity self.old.extents }
        requires groups { header.now.groups ≤ vec_capacity self.old.groups }
        ensures named { result_err result
            ≡ (if names_hold header.now tables.now then None else Some BadName) }
        ensures content { OnOk result (content self.new ≡ content_in header.now tables.now) }
        ensures partitions { vec_capacity self.new.partitions ≡ vec_capacity self.old.partitions }
        ensures extents { vec_capacity self.new.extents ≡ vec_capacity self.old.extents }
        ensures groups { vec_capacity self.new.groups ≡ vec_capacity self.old.groups }
    {
        self.minor = header.minor;
        self.flags = header.flags;
        self.partitions.clear();
        read_partitions(tables, header.partitions, &mut self.partitions)?;
        self.extents.clear();
        let extents = header.extents_in(tables);
        read_extents(extents, header.extents, &mut self.extents);
        self.groups.clear();
        let groups = header.groups_in(tables);
        read_groups(groups, header.groups, &mut self.groups)?;
        let Some(device) = BlockDevice::read(header.device_in(tables)) else {
            return Err(MetaError::BadName);
        };
        self.device = device;
        Ok(())
    }

    /// Tries what the entries of the lists say, and what else stands in them.
    fn check(&self, bytes: &[u8], header: &Header) -> Result<(), MetaError>
        requires long { header_size header.now.minor + (lists_size header.now + 64) ≤ length bytes.now }
        requires content { content self.now ≡ content_in header.now (behind bytes.now header.now) }
        requires named { names_hold header.now (behind bytes.now header.now) ≡ true }
        ensures { result_err result ≡ entries_flaw bytes.now header.now (behind bytes.now header.now) }
    {
        let tables = &bytes[header_size(header.minor)..];
        if !self.is_named_apart() {
            return Err(MetaError::BadName);
        }
        if !self.is_indexed() || !sources_hold(header, tables) {
            return Err(MetaError::BadIndex);
        }
        if !self.is_laid() {
            return Err(MetaError::Overlap);
        }
        if !self.is_known() || !kinds_hold(bytes, header, tables) {
            return Err(MetaError::Unsupported);
        }
        Ok(())
    }

    /// Reads the lists after a header that was read of the same bytes.
    #[tactic(auto, using(crate::proofs::FoundLemmas::sizes))]
    pub(crate) fn take_from(&mut self, bytes: &[u8], header: &Header) -> Result<(), MetaError>
        requires long { header_size header.now.minor + (lists_size header.now + 64) ≤ length bytes.now }
        requires partitions { header.now.partitions ≤ vec_capacity self.old.partitions }
        requires extents { header.now.extents ≤ vec_capacity self.old.extents }
        requires groups { header.now.groups ≤ vec_capacity self.old.groups }
        ensures flaw { result_err result ≡ entries_flaw bytes.now header.now (behind bytes.now header.now) }
        ensures content { OnOk result
            (content self.new ≡ content_in header.now (behind bytes.now header.now)) }
        ensures end { OnOk result (table_size (content self.new) ≤ length bytes.now) }
        ensures partitions { vec_capacity self.new.partitions ≡ vec_capacity self.old.partitions }
        ensures extents { vec_capacity self.new.extents ≡ vec_capacity self.old.extents }
        ensures groups { vec_capacity self.new.groups ≡ vec_capacity self.old.groups }
    {
        self.fill(header, &bytes[header_size(header.minor)..])?;
        self.check(bytes, header)?;
        Ok(())
    }

    /// How many bytes the table has, with its header.
    pub(crate) fn size(&self) -> usize
        requires { table_size (content self.now) < 2 ^ 64 }
        ensures { result ≡ table_size (content self.now) }
    {
        header_size(self.minor)
            + PARTITION * self.partitions.len()
            + EXTENT * self.extents.len()
            + GROUP * self.groups.len()
            + DEVICE
    }

    /// A table with room for these numbers of partitions, extents and groups, which says nothing yet.
    pub(crate) fn with_room(
        alloc: Global,
        partitions: usize,
        extents: usize,
        groups: usize,
    ) -> Result<Table, AllocError>
        ensures partitions { IfOk result (λ table. partitions ≤ vec_capacity table.partitions) }
        ensures extents { IfOk result (λ table. extents ≤ vec_capacity table.extents) }
        ensures groups { IfOk result (λ table. groups ≤ vec_capacity table.groups) }
    {
        let Some(name) = Name::read(b"super") else {
            unreachable!();
        };
        Ok(Table {
            minor: 0,
            flags: 0,
            partitions: Vec::with_capacity(alloc, partitions)?,
            extents: Vec::with_capacity(alloc, extents)?,
            groups: Vec::with_capacity(alloc, groups)?,
            device: BlockDevice {
                first_sector: 0,
                alignment: 0,
                offset: 0,
                size: 0,
                name,
            },
        })
    }
}

/// Whether each extent lies on the only block device.
#[tactic(auto, unfolding(crate::specs::TableText::sources_hold))]
fn sources_hold(header: &Header, tables: &[u8]) -> bool
    requires { lists_size header.now + 64 ≤ length tables.now }
    ensures { result ≡ sources_hold header.now tables.now }
{
    are_unset(header.extents_in(tables), header.extents, EXTENT, 20)
}

/// Whether the reserved bytes of the header are zeros.
fn reserved_hold(bytes: &[u8], header: &Header) -> bool
    requires { header_size header.now.minor ≤ length bytes.now }
    ensures { result ≡ reserved_hold bytes.now header.now }
{
    header.minor != 2 || are_zeros(&bytes[132..256])
}

/// Whether each extent is linear, no group and no block device has a flag, and what is reserved is zeros.
#[tactic(auto, unfolding(crate::specs::TableText::kinds_hold))]
fn kinds_hold(bytes: &[u8], header: &Header, tables: &[u8]) -> bool
    requires header { header_size header.now.minor ≤ length bytes.now }
    requires tables { lists_size header.now + 64 ≤ length tables.now }
    ensures { result ≡ kinds_hold bytes.now header.now tables.now }
{
    are_unset(header.extents_in(tables), header.extents, EXTENT, 8)
        && are_unset(header.groups_in(tables), header.groups, GROUP, 36)
        && u32_at(header.device_in(tables), 60) == 0
        && reserved_hold(bytes, header)
}

/// The table with which the bytes begin, or the first thing that is wrong with it.
fn table_in(alloc: Global, bytes: &[u8]) -> Result<Table, ReadError>
    ensures table { IfOk result (λ table. table_of bytes.now ≡ Ok (content table)) }
    ensures end { IfOk result (λ table. table_size (content table) ≤ length bytes.now) }
    ensures flaw { (flaw : MetaError) → IsErrOf result (ReadError.Bad flaw) → table_of bytes.now ≡ Err flaw }
{
    let header = match Header::read(bytes) {
        Ok(header) => header,
        Err(flaw) => return Err(ReadError::Bad(flaw)),
    };
    let partitions = header.partitions as usize;
    let extents = header.extents as usize;
    let groups = header.groups as usize;
    let mut table = Table::with_room(alloc, partitions, extents, groups).map_err(
        |_| ReadError::Memory,
    )?;
    match table.take_from(bytes, &header) {
        Ok(()) => Ok(table),
        Err(flaw) => Err(ReadError::Bad(flaw)),
    }
}

/// The table with which the bytes begin, or the first thing that is wrong with it, in the order of the
/// errors' numbers. What follows the table is ignored.
pub fn read_table(alloc: Global, bytes: &[u8]) -> Result<Table, ReadError>
    ensures table { IfOk result (λ table. table_of bytes.now ≡ Ok (content table)) }
    ensures flaw { (flaw : MetaError) → IsErrOf result (ReadError.Bad flaw) → table_of bytes.now ≡ Err flaw }
    ensures found { IfOk result (λ table. TableBytes (content table) bytes.now) }
    ensures only { (flaw : MetaError) → IsErrOf result (ReadError.Bad flaw)
        → (c : Content) → ¬ TableBytes c bytes.now }
    ensures end { IfOk result (λ table. table_size (content table) ≤ length bytes.now) }
{
    table_in(alloc, bytes)
}
