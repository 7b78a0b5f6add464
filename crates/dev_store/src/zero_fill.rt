//! Zeros over the new bytes of a partition.
ghost use Rattle.std.specs.Prelude.{◌≡◌, ◌+◌, ◌-◌, ◌%◌, ◌<◌, ◌≤◌, length, OnOk, OnErr};
ghost use Rattle.fb_frame.specs.Bytes.{zeros};
ghost use Rattle.fb_frame.specs.Causes.{Rose};
ghost use Rattle.dev_disk.specs.Files.{IsInside};
ghost use Rattle.dev_disk.specs.Disks.{open_bytes, OpenKept};
ghost use Rattle.dev_store.specs.PartPlaces.{IsSafe, size_of, room_end, Puts, PutsSome};

use crate::part_fill::{fill_pieces, repeat};
use crate::part_place::Part;
use dev_disk::disk::{Disk, DiskFault};

/// Writes zeros over a partition's bytes from one place up to another, and waits until they are kept. The
/// buffer is used for them.
pub(crate) fn zero_fill<K: Disk>(
    disk: &mut K,
    part: &Part,
    from: u64,
    to: u64,
    buffer: &mut [u8],
) -> Result<(), DiskFault>
    requires safe { IsSafe part.now }
    requires room { 0 < length buffer.old }
    requires whole { length buffer.old % 4 ≡ 0 }
    requires order { from ≤ to }
    requires first { from % 4 ≡ 0 }
    requires last { to % 4 ≡ 0 }
    requires fits { to ≤ size_of part.now }
    requires inside { IsInside (K.told disk.old).open_length 0 (room_end part.now) }
    ensures written { OnOk result (Puts part.now from (zeros (to - from))
        (open_bytes (K.told disk.old)) (open_bytes (K.told disk.new))) }
    ensures left { OnErr result (PutsSome part.now from (to - from)
        (open_bytes (K.told disk.old)) (open_bytes (K.told disk.new))) }
    ensures kept { OpenKept (K.told disk.old) (K.told disk.new) }
    ensures cause { OnErr result (Rose (K.told disk.old).faults (K.told disk.new).faults) }
    ensures same { K.lent disk.new ≡ K.lent disk.old }
{
    repeat(buffer, [0; 4]);
    let Ok(()) = fill_pieces(disk, part, from, to - from, buffer) else {
        return Err(DiskFault);
    };
    let Ok(()) = disk.sync() else {
        return Err(DiskFault);
    };
    Ok(())
}
