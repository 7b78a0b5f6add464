//! The new bytes of a partition: zeros, before the table that has them is written.
ghost use Rattle.std.specs.Prelude.{◌≡◌, ◌+◌, ◌^◌, ◌<◌, ◌≤◌, length, OnOk, OnErr, IsTrue};
ghost use Rattle.fb_frame.specs.Causes.{Rose};
ghost use Rattle.dev_disk.specs.Files.{IsInside};
ghost use Rattle.dev_disk.specs.Disks.{OpenKept};
ghost use Rattle.super_meta.specs.Contents.{content, is_sound};
ghost use Rattle.super_meta.specs.TableText.{table_size};
ghost use Rattle.dev_store.specs.SuperBounds.{IsBounded};
ghost use Rattle.dev_store.specs.SuperReads.{HasRooms};
ghost use Rattle.dev_store.specs.Growing.{AreHeld, AreZeroed, AreLeftZeroed, IsGrown, IsLeftGrown};

use crate::layout::SuperPart;
use crate::part_place::{Part, Units};
use crate::super_read::SuperRead;
use crate::table_write::write_next;
use crate::zero_fill::zero_fill;
use dev_disk::disk::{Disk, DiskFault};
use unit_alloc::Owners;

/// New bytes of a logical partition: its part of the map of units, and from where up to where they lie in
/// it. There are none where they would end before they begin.
#[derive(Clone, Copy)]
pub(crate) struct NewBytes {
    pub part: u32,
    pub from: u64,
    pub to: u64,
}

impl SuperPart {
    /// Writes zeros over new bytes, where there are any, and waits until they are kept. Super begins at a
    /// place of the open file. The buffer is used for them.
    fn zero_new<K: Disk>(
        &self,
        disk: &mut K,
        at: u64,
        owners: &Owners,
        new: NewBytes,
        buffer: &mut [u8],
    ) -> Result<(), DiskFault>
        requires bounded { IsBounded self.now }
        requires inside { IsInside (K.told disk.old).open_length at self.now.size }
        requires end { at + self.now.size < 2 ^ 64 }
        requires held { AreHeld self.now owners.now new }
        requires room { length buffer.old ≡ 126976 }
        ensures zeroed { OnOk result (AreZeroed K.told at self.now owners.now new disk.old disk.new) }
        ensures left { OnErr result (AreLeftZeroed K.told at self.now owners.now new disk.old disk.new) }
        ensures kept { OpenKept (K.told disk.old) (K.told disk.new) }
        ensures cause { OnErr result (Rose (K.told disk.old).faults (K.told disk.new).faults) }
        ensures same { K.lent disk.new ≡ K.lent disk.old }
    {
        if new.to <= new.from {
            return Ok(());
        }
        let part = Part::InUnits(Units {
            owners,
            part: new.part,
            start: at + self.first_unit(),
            unit: self.unit,
            size: u128::from(new.to),
        });
        zero_fill(disk, &part, new.from, new.to, buffer)
    }
}

/// Writes zeros over new bytes of a partition of the next table, and then that table over all copies of the
/// table of super, which begins at the place `at`, and puts it in the table's place.
pub(crate) fn put_grown<K: Disk>(
    disk: &mut K,
    s: &SuperPart,
    at: u64,
    within: &mut SuperRead,
    new: NewBytes,
    buffer: &mut [u8],
) -> Result<(), DiskFault>
    requires bounded { IsBounded s.now }
    requires inside { IsInside (K.told disk.old).open_length at s.now.size }
    requires end { at + s.now.size < 2 ^ 64 }
    requires sound { IsTrue (is_sound (content within.old.next)) }
    requires fits { table_size (content within.old.next) ≤ s.now.max_size }
    requires long { length within.old.copy.items ≡ s.now.max_size }
    requires rooms { HasRooms s.now within.old }
    requires held { AreHeld s.now within.old.owners new }
    requires room { length buffer.old ≡ 126976 }
    ensures grown { OnOk result (IsGrown K.told at s.now new within.old within.new disk.old disk.new) }
    ensures left { OnErr result (IsLeftGrown K.told at s.now new within.old within.new disk.old disk.new) }
    ensures kept { OpenKept (K.told disk.old) (K.told disk.new) }
    ensures cause { OnErr result (Rose (K.told disk.old).faults (K.told disk.new).faults) }
    ensures same { K.lent disk.new ≡ K.lent disk.old }
{
    within.spell_next(s);
    let Ok(()) = s.zero_new(disk, at, &within.owners, new, buffer) else {
        return Err(DiskFault);
    };
    write_next(disk, s, at, within)
}
