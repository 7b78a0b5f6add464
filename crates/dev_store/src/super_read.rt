ghost use Rattle.std.specs.Prelude.{◌≡◌, ◌⊎◌, ◌+◌, ◌^◌, ◌<◌, ◌≤◌, length, false, Some, Err};
ghost use Rattle.std.specs.Prelude.{IsTrue, IfOk, IfSome, OnErr};
ghost use Rattle.std.specs.Result.{IsErrOf};
ghost use Rattle.fb_frame.specs.Causes.{Rose};
ghost use Rattle.dev_disk.specs.Files.{IsInside, copy};
ghost use Rattle.dev_disk.specs.Disks.{open_bytes, FilesKept};
ghost use Rattle.super_meta.specs.Contents.{content, is_sound};
ghost use Rattle.super_meta.specs.TableText.{table_size};
ghost use Rattle.super_meta.specs.TableBytes.{TableBytes};
ghost use Rattle.dev_model.specs.declared.bad_image.BadImage.{BadImage};
ghost use Rattle.dev_model.specs.declared.bad_image.BadImage.TheVariants.{BadUnits};
ghost use Rattle.dev_store.specs.Laid.{is_good_super};
ghost use Rattle.dev_store.specs.Supers.{are_good_units};
ghost use Rattle.dev_store.specs.Stand.{table_in};
ghost use Rattle.dev_store.specs.SuperBounds.{IsBounded};
ghost use Rattle.dev_store.specs.SuperReads.{IsSuperRead, IsMap, IsSpelled, HasRooms};

use crate::errors::OpenError;
use crate::layout::{PhysicalPart, SuperPart};
use crate::super_rooms::take_rooms;
use crate::super_table::FoundTable;
use dev_disk::disk::Disk;
use dev_model::bad_image::BadImage;
use fb_frame::memory::Memory;
use std::alloc::Global;
use super_meta::image::TableRoom;
use super_meta::table::Table;
use super_meta::writing::write_table;
use unit_alloc::Owners;

/// What opening reads of super: its table, the map of units with each partition's part in the table's
/// order, the copy that is written where one is spoilt, and which copies were read. Rooms for later tables
/// come with it.
#[derive(Drop)]
pub struct SuperRead {
    pub table: Table,
    /// Room for the table that a later call makes of it.
    pub next: Table,
    /// Room for the tables of a file.
    pub room: TableRoom,
    pub owners: Owners,
    pub parts: Vec<u32>,
    /// The table's spelling and zeros after it, as many bytes as a copy has.
    pub copy: Vec<u8>,
    /// How many bytes of the copy are the table's.
    pub size: usize,
    /// The table was read of the backup of slot 0, and not of its primary.
    pub backup: bool,
    /// The geometry was read of the second block, and not of the first.
    pub second: bool,
}

/// The table in its one spelling with zeros after it, as many bytes as a copy has, and how many of them
/// are the table's.
fn spell_copy(alloc: Global, room: u32, table: &Table) -> Result<(Vec<u8>, usize), Memory>
    requires sound { IsTrue (is_sound (content table.now)) }
    requires fits { table_size (content table.now) ≤ room }
    ensures copy { IfOk result (λ copy. TableBytes (content table.now) copy.0.items) }
    ensures size { IfOk result (λ copy. copy.1 ≡ table_size (content table.now)) }
    ensures long { IfOk result (λ copy. length copy.0.items ≡ room) }
{
    let mut copy = vec![in alloc; 0; room as usize]?;
    let Ok(size) = write_table(table, &mut copy) else {
        unreachable!();
    };
    Ok((copy, size))
}

/// Takes a table that was found as that of a super, with its map of units.
fn take_table(
    alloc: Global,
    s: &SuperPart,
    parts: &[PhysicalPart],
    found: FoundTable,
    second: bool,
) -> Result<SuperRead, OpenError>
    requires bounded { IsBounded s.now }
    requires sound { IsTrue (is_sound (content found.table)) }
    requires fits { table_size (content found.table) ≤ s.now.max_size }
    ensures mapped { IfOk result (λ r. IsMap s.now r) }
    ensures rooms { IfOk result (λ r. HasRooms s.now r) }
    ensures good { IfOk result (λ r. IsTrue (are_good_units parts.now s.now (content r.table))) }
    ensures spelled { IfOk result (λ r. IsSpelled s.now r) }
    ensures table { IfOk result (λ r. content r.table ≡ content found.table) }
    ensures backup { IfOk result (λ r. r.backup ≡ found.backup) }
    ensures second { IfOk result (λ r. r.second ≡ second) }
    ensures only { OnErr result (IsErrOf result (OpenError.Bad BadUnits) ⊎ IsErrOf result OpenError.Memory) }
    ensures bad { IsErrOf result (OpenError.Bad BadUnits) →
        are_good_units parts.now s.now (content found.table) ≡ false }
{
    let FoundTable { mut table, backup } = found;
    let (next, room) = match take_rooms(alloc, s, &mut table) {
        Ok(rooms) => rooms,
        Err(Memory) => return Err(OpenError::Memory),
    };
    if !s.are_good_parts(parts, &table) {
        return Err(OpenError::Bad(BadImage::BadUnits));
    }
    let map = match s.own_units(alloc, &table) {
        Ok(map) => map,
        Err(Memory) => return Err(OpenError::Memory),
    };
    let Some((owners, numbers)) = map else {
        return Err(OpenError::Bad(BadImage::BadUnits));
    };
    let (copy, size) = match spell_copy(alloc, s.max_size, &table) {
        Ok(copy) => copy,
        Err(Memory) => return Err(OpenError::Memory),
    };
    Ok(SuperRead {
        table,
        next,
        room,
        owners,
        parts: numbers,
        copy,
        size,
        backup,
        second,
    })
}

/// Reads super's geometry and table, which begin at a place of the open file in bytes, and which units
/// each logical partition has. The buffer has room for a copy of the table.
pub(crate) fn read_super<K: Disk>(
    alloc: Global,
    disk: &mut K,
    s: &SuperPart,
    at: u64,
    parts: &[PhysicalPart],
    buffer: &mut [u8],
) -> Result<SuperRead, OpenError>
    requires laid { IsTrue (is_good_super (Some s.now)) }
    requires inside { IsInside (K.told disk.old).open_length at s.now.size }
    requires end { at + s.now.size < 2 ^ 64 }
    requires buffer { s.now.max_size ≤ length buffer.old }
    ensures read { IfOk result (λ r. IfSome (open_bytes (K.told disk.old)) (λ file.
        IsSuperRead s.now (copy file at s.now.size) r)) }
    ensures mapped { IfOk result (λ r. IsMap s.now r) }
    ensures rooms { IfOk result (λ r. HasRooms s.now r) }
    ensures good { IfOk result (λ r. IsTrue (are_good_units parts.now s.now (content r.table))) }
    ensures spelled { IfOk result (λ r. IsSpelled s.now r) }
    ensures bad { (bad : BadImage) → IsErrOf result (OpenError.Bad bad) →
        IfSome (open_bytes (K.told disk.old)) (λ file.
        table_in parts.now s.now (copy file at s.now.size) ≡ Err bad) }
    ensures there { IsErrOf result OpenError.Absent → ⊥ }
    ensures kept { FilesKept (K.told disk.old) (K.told disk.new) }
    ensures cause { IsErrOf result OpenError.Disk → Rose (K.told disk.old).faults (K.told disk.new).faults }
    ensures same { K.lent disk.new ≡ K.lent disk.old }
{
    let geometry = match s.find_geometry(disk, at) {
        Ok(geometry) => geometry,
        Err(_) => return Err(OpenError::Disk),
    };
    let Some(second) = geometry else {
        return Err(OpenError::Bad(BadImage::NoGeometry));
    };
    let found = match s.find_table(alloc, disk, at, buffer) {
        Ok(found) => found,
        Err(error) => return Err(error),
    };
    let Some(found) = found else {
        return Err(OpenError::Bad(BadImage::NoTable));
    };
    take_table(alloc, s, parts, found, second)
}
