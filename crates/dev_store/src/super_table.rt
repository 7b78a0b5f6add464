ghost use Rattle.std.specs.Prelude.{◌≡◌, ◌⊎◌, ℕ, ◌+◌, ◌*◌, ◌^◌, ◌<◌, ◌≤◌, ◌↔◌, length, take, drop, IsTrue};
ghost use Rattle.std.specs.Prelude.{IfOk, IfSome, OnOk, OnErr, option_map, if◌then◌else◌};
ghost use Rattle.std.specs.Result.{IsErrOf};
ghost use Rattle.fb_frame.specs.Causes.{Rose};
ghost use Rattle.dev_disk.specs.Files.{IsInside, copy};
ghost use Rattle.dev_disk.specs.Disks.{open_bytes, FilesKept};
ghost use Rattle.super_meta.specs.Contents.{content, is_sound};
ghost use Rattle.super_meta.specs.TableText.{table_size};
ghost use Rattle.dev_store.specs.Supers.{geometry_copy, holds_geometry, copy_place, copy_reads};
ghost use Rattle.dev_store.specs.SuperBounds.{IsBounded};
ghost use Rattle.dev_store.specs.SuperBounds.{geometry_place, geometry_found};
ghost use Rattle.dev_store.specs.SuperReads.{IsTableFound};

use crate::errors::OpenError;
use crate::layout::SuperPart;
use dev_disk::disk::{Disk, DiskFault};
use std::alloc::Global;
use super_meta::errors::ReadError;
use super_meta::geometry::read_geometry;
use super_meta::reading::read_table;
use super_meta::table::Table;

/// The table of super that is read, and whether of the backup of slot 0.
#[derive(Drop)]
pub struct FoundTable {
    pub table: Table,
    pub backup: bool,
}

/// Where a block of the geometry lies in super, in bytes.
pub(crate) fn geometry_place(second: bool) -> u64
    ensures { result ≡ geometry_place second }
{
    if second { 8192 } else { 4096 }
}

impl SuperPart {
    /// Where a copy of the table lies in super, in bytes: the primary copies first, then the backups.
    pub(crate) fn copy_place(&self, number: u32) -> u64
        requires bounded { IsBounded self.now }
        requires there { number < 2 * self.now.slots }
        ensures { result ≡ copy_place self.now number }
    {
        12_288 + u64::from(number) * u64::from(self.max_size)
    }

    /// Whether a block holds the geometry of the layout.
    #[tactic(auto, unfolding(crate::specs::Supers::holds_geometry))]
    pub(crate) fn holds_geometry(&self, block: &[u8]) -> bool
        ensures { result ≡ holds_geometry self.now block.now }
    {
        match read_geometry(block) {
            Ok(geometry) => geometry.max_size == self.max_size && geometry.slots == self.slots,
            Err(_) => false,
        }
    }

    /// Whether a block of super, which begins at a place of the open file, holds the geometry.
    pub(crate) fn reads_geometry<K: Disk>(
        &self,
        disk: &mut K,
        at: u64,
        second: bool,
    ) -> Result<bool, DiskFault>
        requires bounded { IsBounded self.now }
        requires inside { IsInside (K.told disk.old).open_length at self.now.size }
        requires end { at + self.now.size < 2 ^ 64 }
        ensures holds { IfOk result (λ holds. IfSome (open_bytes (K.told disk.old)) (λ file.
            holds ≡ holds_geometry self.now (geometry_copy second (copy file at self.now.size)))) }
        ensures kept { FilesKept (K.told disk.old) (K.told disk.new) }
        ensures cause { OnErr result (Rose (K.told disk.old).faults (K.told disk.new).faults) }
        ensures same { K.lent disk.new ≡ K.lent disk.old }
    {
        let mut block = [0; 4096];
        let Ok(()) = disk.read_at(at + geometry_place(second), &mut block) else {
            return Err(DiskFault);
        };
        Ok(self.holds_geometry(&block))
    }

    /// Which block of the geometry is read: the first that holds it.
    pub(crate) fn find_geometry<K: Disk>(
        &self,
        disk: &mut K,
        at: u64,
    ) -> Result<Option<bool>, DiskFault>
        requires bounded { IsBounded self.now }
        requires inside { IsInside (K.told disk.old).open_length at self.now.size }
        requires end { at + self.now.size < 2 ^ 64 }
        ensures found { IfOk result (λ found. IfSome (open_bytes (K.told disk.old)) (λ file.
            found ≡ geometry_found self.now (copy file at self.now.size))) }
        ensures kept { FilesKept (K.told disk.old) (K.told disk.new) }
        ensures cause { OnErr result (Rose (K.told disk.old).faults (K.told disk.new).faults) }
        ensures same { K.lent disk.new ≡ K.lent disk.old }
    {
        let Ok(first) = self.reads_geometry(disk, at, false) else {
            return Err(DiskFault);
        };
        if first {
            return Ok(Some(false));
        }
        let Ok(second) = self.reads_geometry(disk, at, true) else {
            return Err(DiskFault);
        };
        if second {
            return Ok(Some(true));
        }
        Ok(None)
    }

    /// The table of a copy, None where it can't be read.
    fn read_copy<K: Disk>(
        &self,
        alloc: Global,
        disk: &mut K,
        at: u64,
        number: u32,
        buffer: &mut [u8],
    ) -> Result<Option<Table>, OpenError>
        requires bounded { IsBounded self.now }
        requires inside { IsInside (K.told disk.old).open_length at self.now.size }
        requires end { at + self.now.size < 2 ^ 64 }
        requires there { number < 2 * self.now.slots }
        requires room { self.now.max_size ≤ length buffer.old }
        ensures table { IfOk result (λ found. IfSome (open_bytes (K.told disk.old)) (λ file.
            option_map content found ≡ copy_reads self.now number (copy file at self.now.size))) }
        ensures sound { IfOk result (λ found. IfSome found (λ table. IsTrue (is_sound (content table)))) }
        ensures fits { IfOk result (λ found. IfSome found (λ table.
            table_size (content table) ≤ self.now.max_size)) }
        ensures kept { FilesKept (K.told disk.old) (K.told disk.new) }
        ensures only { OnErr result (IsErrOf result OpenError.Disk ⊎ IsErrOf result OpenError.Memory) }
        ensures cause { IsErrOf result OpenError.Disk →
            Rose (K.told disk.old).faults (K.told disk.new).faults }
        ensures same { K.lent disk.new ≡ K.lent disk.old }
    {
        let bytes = &mut buffer[..self.max_size as usize];
        let Ok(()) = disk.read_at(at + self.copy_place(number), bytes) else {
            return Err(OpenError::Disk);
        };
        match read_table(alloc, bytes) {
            Ok(table) => Ok(Some(table)),
            Err(ReadError::Bad(_)) => Ok(None),
            Err(ReadError::Memory) => Err(OpenError::Memory),
        }
    }

    /// The table that is read: that of the primary of slot 0, or else that of its backup.
    pub(crate) fn find_table<K: Disk>(
        &self,
        alloc: Global,
        disk: &mut K,
        at: u64,
        buffer: &mut [u8],
    ) -> Result<Option<FoundTable>, OpenError>
        requires bounded { IsBounded self.now }
        requires inside { IsInside (K.told disk.old).open_length at self.now.size }
        requires end { at + self.now.size < 2 ^ 64 }
        requires room { self.now.max_size ≤ length buffer.old }
        ensures table { IfOk result (λ found. IfSome (open_bytes (K.told disk.old)) (λ file.
            IsTableFound self.now (copy file at self.now.size) found)) }
        ensures sound { IfOk result (λ found. IfSome found (λ f. IsTrue (is_sound (content f.table)))) }
        ensures fits { IfOk result (λ found. IfSome found (λ f.
            table_size (content f.table) ≤ self.now.max_size)) }
        ensures kept { FilesKept (K.told disk.old) (K.told disk.new) }
        ensures only { OnErr result (IsErrOf result OpenError.Disk ⊎ IsErrOf result OpenError.Memory) }
        ensures cause { IsErrOf result OpenError.Disk →
            Rose (K.told disk.old).faults (K.told disk.new).faults }
        ensures same { K.lent disk.new ≡ K.lent disk.old }
    {
        let first = match self.read_copy(alloc, disk, at, 0, buffer) {
            Ok(first) => first,
            Err(error) => return Err(error),
        };
        if let Some(table) = first {
            return Ok(Some(FoundTable {
                table,
                backup: false,
            }));
        }
        let second = match self.read_copy(alloc, disk, at, self.slots, buffer) {
            Ok(second) => second,
            Err(error) => return Err(error),
        };
        match second {
            None => Ok(None),
            Some(table) => Ok(Some(FoundTable {
                table,
                backup: true,
            })),
        }
    }
}
