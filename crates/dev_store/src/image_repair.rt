ghost use Rattle.std.specs.Prelude.{◌≡◌, ◌≤◌, length, Some, IfSome, OnOk, OnErr};
ghost use Rattle.fb_frame.specs.Causes.{Rose};
ghost use Rattle.fb_frame.specs.Told.{Both};
ghost use Rattle.dev_disk.specs.Disks.{open_bytes, OpenKept};
ghost use Rattle.dev_store.specs.Laid.{IsLaid};
ghost use Rattle.dev_store.specs.Layouts.{image_size};
ghost use Rattle.dev_store.specs.Faults.{IsHonest};
ghost use Rattle.dev_store.specs.Opening.{StandsAs};
ghost use Rattle.dev_store.specs.Reading.{IsImageRead, IsReadSound, IsSuperMade, IsSuperKept};
ghost use Rattle.dev_store.specs.Reading.{IsWithinRead, IsWithinSound};
ghost use Rattle.dev_store.specs.Reading.{IsMended};

use crate::image_read::ImageRead;
use crate::states_read::repair_states;
use crate::super_repair::repair_super;
use dev_disk::disk::{Disk, DiskFault};

/// Writes each copy in super anew that can't be read or differs, where there is super.
fn repair_within<K: Disk>(
    disk: &mut K,
    read: &ImageRead,
    buffer: &mut [u8],
) -> Result<(), DiskFault>
    requires open { (K.told disk.old).open_length ≡ Some (image_size read.now.layout) }
    requires laid { IsLaid read.now.layout }
    requires sound { IsWithinSound read.now.layout read.now.layout.super_part read.now.within }
    requires read { IfSome (open_bytes (K.told disk.old))
        (IsWithinRead read.now.layout read.now.layout.super_part read.now.within) }
    requires room { 126976 ≤ length buffer.old }
    ensures mended { OnOk result (Both (IsSuperMade read.now.layout)
        (open_bytes (K.told disk.old)) (open_bytes (K.told disk.new))) }
    ensures left { OnErr result (IsHonest (K.told disk.new).torn → Both (IsSuperKept read.now.layout)
        (open_bytes (K.told disk.old)) (open_bytes (K.told disk.new))) }
    ensures kept { OpenKept (K.told disk.old) (K.told disk.new) }
    ensures cause { OnErr result (Rose (K.told disk.old).faults (K.told disk.new).faults) }
    ensures same { K.lent disk.new ≡ K.lent disk.old }
{
    let Some(part) = read.layout.super_part() else {
        return Ok(());
    };
    let Some(within) = &read.within else {
        return Ok(());
    };
    let at = read.layout.parts_end();
    repair_super(disk, &part, at, within, buffer)
}

/// Writes each copy anew that can't be read, differs or is old.
pub fn repair_image<K: Disk>(
    disk: &mut K,
    read: &ImageRead,
    buffer: &mut [u8],
) -> Result<(), DiskFault>
    requires open { (K.told disk.old).open_length ≡ Some (image_size read.now.layout) }
    requires sound { IsReadSound read.now }
    requires read { IfSome (open_bytes (K.told disk.old)) (IsImageRead read.now) }
    requires room { 126976 ≤ length buffer.old }
    ensures mended { OnOk result (Both (IsMended read.now)
        (open_bytes (K.told disk.old)) (open_bytes (K.told disk.new))) }
    ensures left { OnErr result (IsHonest (K.told disk.new).torn → Both StandsAs
        (open_bytes (K.told disk.old)) (open_bytes (K.told disk.new))) }
    ensures kept { OpenKept (K.told disk.old) (K.told disk.new) }
    ensures cause { OnErr result (Rose (K.told disk.old).faults (K.told disk.new).faults) }
    ensures same { K.lent disk.new ≡ K.lent disk.old }
{
    let Ok(()) = repair_states(disk, read.layout.slots(), &read.found) else {
        return Err(DiskFault);
    };
    repair_within(disk, read, buffer)
}
