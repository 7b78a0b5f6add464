ghost use Rattle.std.specs.Prelude.{◌≡◌, ◌+◌, ◌*◌, ◌^◌, ◌<◌, ◌≤◌, length, OnOk, OnErr, IsTrue};
ghost use Rattle.fb_frame.specs.Causes.{Rose};
ghost use Rattle.fb_frame.specs.Told.{Both};
ghost use Rattle.dev_disk.specs.Files.{IsInside};
ghost use Rattle.dev_disk.specs.Disks.{open_bytes, OpenKept, Writes};
ghost use Rattle.dev_model.specs.Images.{copies};
ghost use Rattle.super_meta.specs.Contents.{content, is_sound};
ghost use Rattle.super_meta.specs.TableBytes.{TableBytes};
ghost use Rattle.super_meta.specs.TableText.{table_size};
ghost use Rattle.dev_store.specs.SuperBounds.{IsBounded};
ghost use Rattle.dev_store.specs.SuperReads.{IsSpelled, IsNextSpelled, HasRooms};
ghost use Rattle.dev_store.specs.SuperRepairs.{AreTablesMended, SaysTable};
ghost use Rattle.dev_store.specs.TableWrites.{AreLeft, AreCopiesWritten, AreCopiesLeft, IsTableAround};

use crate::layout::SuperPart;
use crate::making::write_copies;
use crate::super_read::SuperRead;
use dev_disk::disk::{Disk, DiskFault};
use std::mem;
use super_meta::table::Table;
use super_meta::writing::write_table;

/// Writes a block `count` times in a row, from the place `at` on, and waits until they are kept.
fn write_row<K: Disk>(disk: &mut K, at: u64, block: &[u8], count: u32) -> Result<(), DiskFault>
    requires inside { IsInside (K.told disk.old).open_length at (count * length block.now) }
    requires small { at + count * length block.now < 2 ^ 64 }
    requires some { 0 < count }
    ensures writes { OnOk result (Writes (K.told disk.old) (K.told disk.new) at (copies count block.now)) }
    ensures left { OnErr result (Both (AreLeft (K.told disk.new).torn at count block.now)
        (open_bytes (K.told disk.old)) (open_bytes (K.told disk.new))) }
    ensures kept { OpenKept (K.told disk.old) (K.told disk.new) }
    ensures cause { OnErr result (Rose (K.told disk.old).faults (K.told disk.new).faults) }
    ensures same { K.lent disk.new ≡ K.lent disk.old }
{
    let Ok(()) = write_copies(disk, at, block, count) else {
        return Err(DiskFault);
    };
    let Ok(()) = disk.sync() else {
        return Err(DiskFault);
    };
    Ok(())
}

/// Writes the bytes over all copies of the table of super, which begins at the place `at`: over the primary
/// copies in the order of their slots, and then over the backups. Waits until they are kept after each.
pub(crate) fn write_tables<K: Disk>(
    disk: &mut K,
    s: &SuperPart,
    at: u64,
    bytes: &[u8],
) -> Result<(), DiskFault>
    requires bounded { IsBounded s.now }
    requires inside { IsInside (K.told disk.old).open_length at s.now.size }
    requires end { at + s.now.size < 2 ^ 64 }
    requires long { length bytes.now ≡ s.now.max_size }
    ensures written { OnOk result (Both (AreCopiesWritten s.now at bytes.now)
        (open_bytes (K.told disk.old)) (open_bytes (K.told disk.new))) }
    ensures left { OnErr result (Both (AreCopiesLeft (K.told disk.new).torn s.now at bytes.now)
        (open_bytes (K.told disk.old)) (open_bytes (K.told disk.new))) }
    ensures kept { OpenKept (K.told disk.old) (K.told disk.new) }
    ensures cause { OnErr result (Rose (K.told disk.old).faults (K.told disk.new).faults) }
    ensures same { K.lent disk.new ≡ K.lent disk.old }
{
    let Ok(()) = write_row(disk, at + s.copy_place(0), bytes, s.slots) else {
        return Err(DiskFault);
    };
    write_row(disk, at + s.copy_place(s.slots), bytes, s.slots)
}

/// Spells a table over the bytes of a copy, with zeros after it, and answers how many bytes are the
/// table's.
fn spell(table: &Table, copy: &mut [u8]) -> usize
    requires sound { IsTrue (is_sound (content table.now)) }
    requires fits { table_size (content table.now) ≤ length copy.old }
    ensures spelled { TableBytes (content table.now) copy.new }
    ensures size { result ≡ table_size (content table.now) }
{
    copy.fill(0);
    let Ok(size) = write_table(table, copy) else {
        unreachable!();
    };
    size
}

impl SuperRead {
    /// Spells the next table over the copy, with zeros after it.
    pub(crate) fn spell_next(&mut self, s: &SuperPart)
        requires sound { IsTrue (is_sound (content self.old.next)) }
        requires fits { table_size (content self.old.next) ≤ s.now.max_size }
        requires long { length self.old.copy.items ≡ s.now.max_size }
        ensures spelled { IsNextSpelled s.now self.new }
        ensures table { self.new.table ≡ self.old.table }
        ensures next { self.new.next ≡ self.old.next }
        ensures owners { self.new.owners ≡ self.old.owners }
        ensures parts { self.new.parts ≡ self.old.parts }
    {
        self.size = spell(&self.next, &mut self.copy);
    }
}

/// Writes the next table, which the copy holds, over all copies of the table of super, which begins at the
/// place `at`, and puts it in the table's place.
pub(crate) fn write_next<K: Disk>(
    disk: &mut K,
    s: &SuperPart,
    at: u64,
    within: &mut SuperRead,
) -> Result<(), DiskFault>
    requires bounded { IsBounded s.now }
    requires inside { IsInside (K.told disk.old).open_length at s.now.size }
    requires end { at + s.now.size < 2 ^ 64 }
    requires spelled { IsNextSpelled s.now within.old }
    ensures written { OnOk result (Both (AreTablesMended s.now at (content within.old.next))
        (open_bytes (K.told disk.old)) (open_bytes (K.told disk.new))) }
    ensures around { OnErr result (Both (IsTableAround (K.told disk.new).torn s.now at
        (content within.old.next)) (open_bytes (K.told disk.old)) (open_bytes (K.told disk.new))) }
    ensures put { OnOk result (within.new.table ≡ within.old.next) }
    ensures back { OnOk result (within.new.next ≡ within.old.table) }
    ensures stays { OnErr result (within.new ≡ within.old) }
    ensures copy { within.new.copy ≡ within.old.copy }
    ensures size { within.new.size ≡ within.old.size }
    ensures owners { within.new.owners ≡ within.old.owners }
    ensures parts { within.new.parts ≡ within.old.parts }
    ensures kept { OpenKept (K.told disk.old) (K.told disk.new) }
    ensures cause { OnErr result (Rose (K.told disk.old).faults (K.told disk.new).faults) }
    ensures same { K.lent disk.new ≡ K.lent disk.old }
{
    let Ok(()) = write_tables(disk, s, at, &within.copy) else {
        return Err(DiskFault);
    };
    mem::swap(&mut within.table, &mut within.next);
    Ok(())
}

/// Spells the next table, writes it over all copies of the table of super, which begins at the place `at`,
/// and puts it in the table's place.
pub(crate) fn put_next<K: Disk>(
    disk: &mut K,
    s: &SuperPart,
    at: u64,
    within: &mut SuperRead,
) -> Result<(), DiskFault>
    requires bounded { IsBounded s.now }
    requires inside { IsInside (K.told disk.old).open_length at s.now.size }
    requires end { at + s.now.size < 2 ^ 64 }
    requires sound { IsTrue (is_sound (content within.old.next)) }
    requires fits { table_size (content within.old.next) ≤ s.now.max_size }
    requires long { length within.old.copy.items ≡ s.now.max_size }
    ensures written { OnOk result (Both (AreTablesMended s.now at (content within.old.next))
        (open_bytes (K.told disk.old)) (open_bytes (K.told disk.new))) }
    ensures around { OnErr result (Both (IsTableAround (K.told disk.new).torn s.now at
        (content within.old.next)) (open_bytes (K.told disk.old)) (open_bytes (K.told disk.new))) }
    ensures says { SaysTable (content within.old.next) within.new.copy.items }
    ensures put { OnOk result (within.new.table ≡ within.old.next) }
    ensures back { OnOk result (within.new.next ≡ within.old.table) }
    ensures spelled { OnOk result (IsSpelled s.now within.new) }
    ensures rooms { HasRooms s.now within.old → HasRooms s.now within.new }
    ensures stays { OnErr result (within.new.table ≡ within.old.table) }
    ensures owners { within.new.owners ≡ within.old.owners }
    ensures parts { within.new.parts ≡ within.old.parts }
    ensures kept { OpenKept (K.told disk.old) (K.told disk.new) }
    ensures cause { OnErr result (Rose (K.told disk.old).faults (K.told disk.new).faults) }
    ensures same { K.lent disk.new ≡ K.lent disk.old }
{
    within.spell_next(s);
    write_next(disk, s, at, within)
}
