ghost use Rattle.std.specs.Prelude.{◌≡◌, ◌+◌, ◌-◌, ◌*◌, ◌^◌, ◌<◌, ◌≤◌, ◌↔◌, length, Some, IsTrue};
ghost use Rattle.std.specs.Prelude.{IfSome, OnOk, OnErr};
ghost use Rattle.fb_frame.specs.Causes.{Rose};
ghost use Rattle.fb_frame.specs.Told.{Both};
ghost use Rattle.dev_disk.specs.Files.{IsInside, DifferWithin, copy};
ghost use Rattle.dev_disk.specs.Disks.{open_bytes, OpenKept};
ghost use Rattle.super_meta.specs.Contents.{content};
ghost use Rattle.super_meta.specs.TableText.{table_size};
ghost use Rattle.super_meta.specs.TableBytes.{TableBytes};
ghost use Rattle.dev_store.specs.Laid.{is_good_super};
ghost use Rattle.dev_store.specs.LayoutLines.{first_unit};
ghost use Rattle.dev_store.specs.Faults.{IsHonest};
ghost use Rattle.dev_store.specs.Supers.{copy_place, holds_geometry};
ghost use Rattle.dev_store.specs.SuperBounds.{IsBounded, geometry_place};
ghost use Rattle.dev_store.specs.SuperReads.{IsSuperRead, IsSpelled, IsReadOf, copy_read};
ghost use Rattle.dev_store.specs.SuperRepairs.{HoldsGeometry, SaysTable, IsRangeMended, IsRangeLeft};
ghost use Rattle.dev_store.specs.SuperRepairs.{IsCopyMended, IsCopyLeft, AreTablesMended, AreTablesLeft};
ghost use Rattle.dev_store.specs.SuperRepairs.{IsSuperMended, IsSuperLeft};

use crate::layout::SuperPart;
use crate::super_read::SuperRead;
use crate::super_table::geometry_place;
use dev_disk::disk::{Disk, DiskFault};
use super_meta::geometry::{Geometry, write_geometry};

/// Whether two copies are the same.
fn are_same(ours: &[u8], others: &[u8]) -> bool
    ensures { IsTrue result ↔ (ours.now ≡ others.now) }
{
    ours == others
}

impl SuperRead {
    /// Whether a copy says the table that was read.
    fn says_same(&self, bytes: &[u8]) -> bool
        requires copy { TableBytes (content self.now.table) self.now.copy.items }
        requires size { self.now.size ≡ table_size (content self.now.table) }
        requires fits { self.now.size ≤ length self.now.copy.items }
        requires long { self.now.size ≤ length bytes.now }
        ensures { IsTrue result ↔ SaysTable (content self.now.table) bytes.now }
    {
        super_meta::laws();
        are_same(&bytes[..self.size], &self.copy[..self.size])
    }

    /// The copy of the table that was read.
    fn own_copy(&self, s: &SuperPart) -> u32
        ensures { result ≡ copy_read s.now self.now.backup }
    {
        if self.backup { s.slots } else { 0 }
    }
}

impl SuperPart {
    /// Fills a block with the geometry of the layout.
    fn put_geometry(&self, block: &mut [u8; 4096])
        requires { IsBounded self.now }
        ensures holds { HoldsGeometry self.now block.new }
        ensures long { length block.new ≡ 4096 }
    {
        super_meta::laws();
        let geometry = Geometry {
            max_size: self.max_size,
            slots: self.slots,
            block_size: 4096,
        };
        write_geometry(&geometry, block);
    }
}

/// Writes a block of the geometry anew, unless it holds the geometry.
fn mend_geometry<K: Disk>(
    disk: &mut K,
    s: &SuperPart,
    at: u64,
    second: bool,
) -> Result<(), DiskFault>
    requires bounded { IsBounded s.now }
    requires inside { IsInside (K.told disk.old).open_length at s.now.size }
    requires end { at + s.now.size < 2 ^ 64 }
    ensures mended { OnOk result (Both
        (IsRangeMended (at + geometry_place second) 4096 (HoldsGeometry s.now))
        (open_bytes (K.told disk.old)) (open_bytes (K.told disk.new))) }
    ensures within { Both (DifferWithin (at + geometry_place second) 4096)
        (open_bytes (K.told disk.old)) (open_bytes (K.told disk.new)) }
    ensures kept { OpenKept (K.told disk.old) (K.told disk.new) }
    ensures cause { OnErr result (Rose (K.told disk.old).faults (K.told disk.new).faults) }
    ensures same { K.lent disk.new ≡ K.lent disk.old }
{
    let Ok(holds) = s.reads_geometry(disk, at, second) else {
        return Err(DiskFault);
    };
    if holds {
        return Ok(());
    }
    let mut block = [0; 4096];
    s.put_geometry(&mut block);
    let Ok(()) = disk.write_at(at + geometry_place(second), &block) else {
        return Err(DiskFault);
    };
    Ok(())
}

/// Writes a copy of the table anew, which begins at a place of the open file, unless it says the table.
fn mend_copy<K: Disk>(
    disk: &mut K,
    s: &SuperPart,
    at: u64,
    read: &SuperRead,
    buffer: &mut [u8],
) -> Result<(), DiskFault>
    requires inside { IsInside (K.told disk.old).open_length at s.now.max_size }
    requires spelled { IsSpelled s.now read.now }
    requires buffer { s.now.max_size ≤ length buffer.old }
    ensures mended { OnOk result (Both
        (IsRangeMended at s.now.max_size (SaysTable (content read.now.table)))
        (open_bytes (K.told disk.old)) (open_bytes (K.told disk.new))) }
    ensures left { OnErr result (Both
        (IsRangeLeft (K.told disk.new).torn at s.now.max_size read.now.copy.items)
        (open_bytes (K.told disk.old)) (open_bytes (K.told disk.new))) }
    ensures kept { OpenKept (K.told disk.old) (K.told disk.new) }
    ensures cause { OnErr result (Rose (K.told disk.old).faults (K.told disk.new).faults) }
    ensures same { K.lent disk.new ≡ K.lent disk.old }
{
    super_meta::laws();
    let bytes = &mut buffer[..s.max_size as usize];
    let Ok(()) = disk.read_at(at, bytes) else {
        return Err(DiskFault);
    };
    if read.says_same(bytes) {
        return Ok(());
    }
    let copy = read.copy.as_slice();
    let Ok(()) = disk.write_at(at, copy) else {
        return Err(DiskFault);
    };
    Ok(())
}

/// Writes a copy of the table anew, unless it says the table or is the one that was read.
fn mend_other<K: Disk>(
    disk: &mut K,
    s: &SuperPart,
    at: u64,
    number: u32,
    read: &SuperRead,
    buffer: &mut [u8],
) -> Result<(), DiskFault>
    requires bounded { IsBounded s.now }
    requires inside { IsInside (K.told disk.old).open_length at s.now.size }
    requires end { at + s.now.size < 2 ^ 64 }
    requires there { number < 2 * s.now.slots }
    requires spelled { IsSpelled s.now read.now }
    requires buffer { s.now.max_size ≤ length buffer.old }
    ensures mended { OnOk result (Both
        (IsCopyMended s.now at (copy_read s.now read.now.backup) (content read.now.table) number)
        (open_bytes (K.told disk.old)) (open_bytes (K.told disk.new))) }
    ensures left { OnErr result (Both
        (IsCopyLeft (K.told disk.new).torn s.now at read.now number)
        (open_bytes (K.told disk.old)) (open_bytes (K.told disk.new))) }
    ensures kept { OpenKept (K.told disk.old) (K.told disk.new) }
    ensures cause { OnErr result (Rose (K.told disk.old).faults (K.told disk.new).faults) }
    ensures same { K.lent disk.new ≡ K.lent disk.old }
{
    let own = read.own_copy(s);
    if number == own {
        return Ok(());
    }
    let Ok(()) = mend_copy(disk, s, at + s.copy_place(number), read, buffer) else {
        return Err(DiskFault);
    };
    Ok(())
}

/// Writes each copy of the table anew that doesn't say the table, but for the one that was read.
fn mend_tables<K: Disk>(
    disk: &mut K,
    s: &SuperPart,
    at: u64,
    read: &SuperRead,
    buffer: &mut [u8],
) -> Result<(), DiskFault>
    requires bounded { IsBounded s.now }
    requires inside { IsInside (K.told disk.old).open_length at s.now.size }
    requires end { at + s.now.size < 2 ^ 64 }
    requires read { IfSome (open_bytes (K.told disk.old)) (λ file.
        IsReadOf s.now (copy file at s.now.size) read.now.backup (content read.now.table)) }
    requires spelled { IsSpelled s.now read.now }
    requires buffer { s.now.max_size ≤ length buffer.old }
    ensures mended { OnOk result (Both (AreTablesMended s.now at (content read.now.table))
        (open_bytes (K.told disk.old)) (open_bytes (K.told disk.new))) }
    ensures left { OnErr result (Both (AreTablesLeft (K.told disk.new).torn s.now at (content read.now.table))
        (open_bytes (K.told disk.old)) (open_bytes (K.told disk.new))) }
    ensures kept { OpenKept (K.told disk.old) (K.told disk.new) }
    ensures cause { OnErr result (Rose (K.told disk.old).faults (K.told disk.new).faults) }
    ensures same { K.lent disk.new ≡ K.lent disk.old }
{
    super_meta::laws();
    for number in 0..2 * s.slots {
        let Ok(()) = mend_other(disk, s, at, number, read, buffer) else {
            return Err(DiskFault);
        };
    }
    Ok(())
}

/// Writes each copy of the geometry and of the table anew that can't be read or holds another value than
/// was read, and waits until they are kept. The copies that were read are never written. Super begins at a
/// place of the open file in bytes, and the buffer has room for a copy of the table.
pub(crate) fn repair_super<K: Disk>(
    disk: &mut K,
    s: &SuperPart,
    at: u64,
    read: &SuperRead,
    buffer: &mut [u8],
) -> Result<(), DiskFault>
    requires laid { IsTrue (is_good_super (Some s.now)) }
    requires inside { IsInside (K.told disk.old).open_length at s.now.size }
    requires end { at + s.now.size < 2 ^ 64 }
    requires read { IfSome (open_bytes (K.told disk.old)) (λ file.
        IsSuperRead s.now (copy file at s.now.size) read.now) }
    requires spelled { IsSpelled s.now read.now }
    requires buffer { s.now.max_size ≤ length buffer.old }
    ensures repaired { OnOk result (Both (IsSuperMended s.now at)
        (open_bytes (K.told disk.old)) (open_bytes (K.told disk.new))) }
    ensures left { OnErr result (IsHonest (K.told disk.new).torn → Both (IsSuperLeft s.now at)
        (open_bytes (K.told disk.old)) (open_bytes (K.told disk.new))) }
    ensures within { Both (DifferWithin (at + 4096) (first_unit s.now - 4096))
        (open_bytes (K.told disk.old)) (open_bytes (K.told disk.new)) }
    ensures kept { OpenKept (K.told disk.old) (K.told disk.new) }
    ensures cause { OnErr result (Rose (K.told disk.old).faults (K.told disk.new).faults) }
    ensures same { K.lent disk.new ≡ K.lent disk.old }
{
    let other = !read.second;
    let Ok(()) = mend_geometry(disk, s, at, other) else {
        return Err(DiskFault);
    };
    let Ok(()) = mend_tables(disk, s, at, read, buffer) else {
        return Err(DiskFault);
    };
    let Ok(()) = disk.sync() else {
        return Err(DiskFault);
    };
    Ok(())
}
