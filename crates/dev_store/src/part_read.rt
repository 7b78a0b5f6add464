ghost use Rattle.std.specs.Prelude.{◌≡◌, ◌+◌, ◌≤◌, length, OnOk, OnErr};
ghost use Rattle.fb_frame.specs.Causes.{Rose};
ghost use Rattle.dev_disk.specs.Files.{IsInside};
ghost use Rattle.dev_disk.specs.Disks.{open_bytes, FilesKept};
ghost use Rattle.dev_store.specs.PartPlaces.{IsSafe, size_of, room_end, Reads};

use crate::part_place::Part;
use dev_disk::disk::{Disk, DiskFault};

/// Fills the buffer with a partition's bytes from a place on, piece by piece.
pub fn read_pieces<K: Disk>(
    disk: &mut K,
    part: &Part,
    at: u64,
    buf: &mut [u8],
) -> Result<(), DiskFault>
    requires safe { IsSafe part.now }
    requires fits { at + length buf.old ≤ size_of part.now }
    requires inside { IsInside (K.told disk.old).open_length 0 (room_end part.now) }
    ensures read { OnOk result (Reads part.now at buf.new (open_bytes (K.told disk.old))) }
    ensures kept { FilesKept (K.told disk.old) (K.told disk.new) }
    ensures cause { OnErr result (Rose (K.told disk.old).faults (K.told disk.new).faults) }
    ensures same { K.lent disk.new ≡ K.lent disk.old }
{
    let mut done = 0;
    let mut before = None;
    while done < buf.len() {
        let piece = part.piece(at + done as u64, (buf.len() - done) as u64, before);
        let end = done + piece.count as usize;
        let Ok(()) = disk.read_at(piece.place, &mut buf[done..end]) else {
            return Err(DiskFault);
        };
        before = Some(piece.last);
        done = end;
    }
    Ok(())
}
