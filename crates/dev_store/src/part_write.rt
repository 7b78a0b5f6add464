ghost use Rattle.std.specs.Prelude.{◌≡◌, ◌+◌, ◌≤◌, length, OnOk, OnErr};
ghost use Rattle.fb_frame.specs.Causes.{Rose};
ghost use Rattle.dev_disk.specs.Files.{IsInside};
ghost use Rattle.dev_disk.specs.Disks.{open_bytes, OpenKept};
ghost use Rattle.dev_store.specs.PartPlaces.{IsSafe, size_of, room_end, Puts, PutsSome};

use crate::part_place::Part;
use dev_disk::disk::{Disk, DiskFault};

/// Writes the bytes over a partition's from a place on, piece by piece.
pub fn write_pieces<K: Disk>(
    disk: &mut K,
    part: &Part,
    at: u64,
    bytes: &[u8],
) -> Result<(), DiskFault>
    requires safe { IsSafe part.now }
    requires fits { at + length bytes.now ≤ size_of part.now }
    requires inside { IsInside (K.told disk.old).open_length 0 (room_end part.now) }
    ensures written { OnOk result (Puts part.now at bytes.now
        (open_bytes (K.told disk.old)) (open_bytes (K.told disk.new))) }
    ensures left { OnErr result (PutsSome part.now at (length bytes.now)
        (open_bytes (K.told disk.old)) (open_bytes (K.told disk.new))) }
    ensures kept { OpenKept (K.told disk.old) (K.told disk.new) }
    ensures cause { OnErr result (Rose (K.told disk.old).faults (K.told disk.new).faults) }
    ensures same { K.lent disk.new ≡ K.lent disk.old }
{
    let mut done = 0;
    let mut before = None;
    while done < bytes.len() {
        let piece = part.piece(at + done as u64, (bytes.len() - done) as u64, before);
        let end = done + piece.count as usize;
        let Ok(()) = disk.write_at(piece.place, &bytes[done..end]) else {
            return Err(DiskFault);
        };
        before = Some(piece.last);
        done = end;
    }
    Ok(())
}
