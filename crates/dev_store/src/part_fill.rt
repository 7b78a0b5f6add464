ghost use Rattle.std.specs.Prelude.{◌≡◌, ◌+◌, ◌%◌, ◌^◌, ◌<◌, ◌≤◌, length, take, OnOk, OnErr};
ghost use Rattle.fb_frame.specs.Causes.{Rose};
ghost use Rattle.fb_frame.specs.Told.{Both};
ghost use Rattle.dev_disk.specs.Files.{IsInside, Wrote, DifferWithin};
ghost use Rattle.dev_disk.specs.Disks.{open_bytes, OpenKept};
ghost use Rattle.dev_store.specs.Changes.{repeated};
ghost use Rattle.dev_store.specs.PartPlaces.{IsSafe, size_of, room_end, Puts, PutsSome};

use crate::part_place::Part;
use dev_disk::disk::{Disk, DiskFault};

/// Fills the buffer with four bytes, over and over.
pub fn repeat(buffer: &mut [u8], pattern: [u8; 4])
    requires whole { length buffer.old % 4 ≡ 0 }
    ensures { buffer.new ≡ repeated (length buffer.old) pattern }
{
    let mut done = 0;
    while done < buffer.len() {
        buffer[done..done + 4].copy_from_slice(&pattern);
        done += 4;
    }
}

/// Writes the first four bytes of the buffer over and over, over so many of the open file from a place on.
/// The buffer holds nothing else.
fn fill_piece<K: Disk>(disk: &mut K, place: u64, count: u64, buffer: &[u8]) -> Result<(), DiskFault>
    requires room { 0 < length buffer.now }
    requires whole { length buffer.now % 4 ≡ 0 }
    requires repeated { buffer.now ≡ repeated (length buffer.now) (take 4 buffer.now) }
    requires fours { count % 4 ≡ 0 }
    requires inside { IsInside (K.told disk.old).open_length place count }
    requires end { place + count < 2 ^ 64 }
    ensures written { OnOk result (Wrote (open_bytes (K.told disk.old)) (open_bytes (K.told disk.new)) place
        (repeated count (take 4 buffer.now))) }
    ensures within { Both (DifferWithin place count)
        (open_bytes (K.told disk.old)) (open_bytes (K.told disk.new)) }
    ensures kept { OpenKept (K.told disk.old) (K.told disk.new) }
    ensures cause { OnErr result (Rose (K.told disk.old).faults (K.told disk.new).faults) }
    ensures same { K.lent disk.new ≡ K.lent disk.old }
{
    let mut done = 0;
    while done < count {
        let size = (count - done).min(buffer.len() as u64);
        let Ok(()) = disk.write_at(place + done, &buffer[..size as usize]) else {
            return Err(DiskFault);
        };
        done += size;
    }
    Ok(())
}

/// Writes the first four bytes of the buffer over and over, over a partition's from a place on, piece by
/// piece. The buffer holds nothing else.
pub fn fill_pieces<K: Disk>(
    disk: &mut K,
    part: &Part,
    at: u64,
    count: u64,
    buffer: &[u8],
) -> Result<(), DiskFault>
    requires safe { IsSafe part.now }
    requires room { 0 < length buffer.now }
    requires whole { length buffer.now % 4 ≡ 0 }
    requires repeated { buffer.now ≡ repeated (length buffer.now) (take 4 buffer.now) }
    requires place { at % 4 ≡ 0 }
    requires fours { count % 4 ≡ 0 }
    requires fits { at + count ≤ size_of part.now }
    requires inside { IsInside (K.told disk.old).open_length 0 (room_end part.now) }
    ensures written { OnOk result (Puts part.now at (repeated count (take 4 buffer.now))
        (open_bytes (K.told disk.old)) (open_bytes (K.told disk.new))) }
    ensures left { OnErr result (PutsSome part.now at count
        (open_bytes (K.told disk.old)) (open_bytes (K.told disk.new))) }
    ensures kept { OpenKept (K.told disk.old) (K.told disk.new) }
    ensures cause { OnErr result (Rose (K.told disk.old).faults (K.told disk.new).faults) }
    ensures same { K.lent disk.new ≡ K.lent disk.old }
{
    let mut done = 0;
    let mut before = None;
    while done < count {
        let piece = part.piece(at + done, count - done, before);
        let Ok(()) = fill_piece(disk, piece.place, piece.count, buffer) else {
            return Err(DiskFault);
        };
        before = Some(piece.last);
        done += piece.count;
    }
    Ok(())
}
