//! The calls of a store that read or write the bytes of a partition.
ghost use Rattle.std.specs.Prelude.{◌≡◌, ◌≢◌, ◌%◌, length, false, IsFalse, OnOk};
ghost use Rattle.std.specs.Result.{IsErrOf};
ghost use Rattle.dev_disk.specs.Disks.{FilesKept};
ghost use Rattle.dev_store.specs.Changes.{range_flaw, put_at, repeated};
ghost use Rattle.dev_store.specs.Held.{IsSound, IsWhole, DiskKept};
ghost use Rattle.dev_store.specs.StoreCalls.{Decided, Changes, IsPartly, KeepsUnits, IsPartRead};

use crate::errors::StoreError;
use crate::part_fill::{fill_pieces, repeat};
use crate::part_place::find_range;
use crate::part_read::read_pieces;
use crate::part_write::write_pieces;
use crate::store::Store;
use dev_disk::disk::Disk;
use fb_frame::name::Name;

impl<K: Disk> Store<K> {
    /// Fills the buffer with the partition's bytes from a place on. The range lies in the partition, or is
    /// refused. After a fault of the disk the buffer may hold any bytes, and the store may be used on.
    pub fn read_part(&mut self, name: &Name, at: u64, buf: &mut [u8]) -> Result<(), StoreError>
        requires usable { IsFalse self.old.broken }
        ensures decided { Decided K.told (range_flaw self.old.device name.now at (length buf.new))
            self.old self.new result }
        ensures read { OnOk result (IsPartRead K.told self.old name.now at buf.new) }
        ensures device { self.new.device ≡ self.old.device }
        ensures units { KeepsUnits self.old self.new }
        ensures usable { self.new.broken ≡ false }
        ensures files { FilesKept (K.told self.old.disk) (K.told self.new.disk) }
        ensures same { K.lent self.new.disk ≡ K.lent self.old.disk }
    {
        let part = match find_range(&self.layout, &self.within, name, at, buf.len() as u64) {
            Ok(part) => part,
            Err(refusal) => return Err(refusal),
        };
        let Ok(()) = read_pieces(&mut self.disk, &part, at, buf) else {
            return Err(StoreError::Disk);
        };
        Ok(())
    }

    /// Writes the bytes over the partition's from a place on. The range lies in the partition, or is
    /// refused. After a fault of the disk the range may hold any bytes, and the store may only be closed.
    pub fn write_part(&mut self, name: &Name, at: u64, bytes: &[u8]) -> Result<(), StoreError>
        requires usable { IsFalse self.old.broken }
        ensures decided { Decided K.told (range_flaw self.old.device name.now at (length bytes.now))
            self.old self.new result }
        ensures unchanged { (e : StoreError) → IsErrOf result e → e ≢ StoreError.Disk →
            self.new ≡ self.old }
        ensures written { OnOk result (Changes K.told (put_at name.now at bytes.now) self.old self.new) }
        ensures part { IsErrOf result StoreError.Disk →
            IsPartly name.now at (length bytes.now) self.old.device self.new.device }
        ensures units { KeepsUnits self.old self.new }
        ensures whole { OnOk result (IsWhole K.told self.new) }
        ensures sound { IsSound K.told self.new }
        ensures kept { DiskKept K.told K.lent self.old.disk self.new.disk }
    {
        let part = match find_range(&self.layout, &self.within, name, at, bytes.len() as u64) {
            Ok(part) => part,
            Err(refusal) => return Err(refusal),
        };
        let Ok(()) = write_pieces(&mut self.disk, &part, at, bytes) else {
            self.broken = true;
            return Err(StoreError::Disk);
        };
        Ok(())
    }

    /// Writes four bytes over and over, over the partition's from a place on. The range lies in the
    /// partition, or is refused. After a fault of the disk the range may hold any bytes, and the store may
    /// only be closed.
    pub fn fill_part(
        &mut self,
        name: &Name,
        at: u64,
        length: u64,
        pattern: [u8; 4],
    ) -> Result<(), StoreError>
        requires usable { IsFalse self.old.broken }
        requires place { at % 4 ≡ 0 }
        requires whole { length % 4 ≡ 0 }
        ensures decided { Decided K.told (range_flaw self.old.device name.now at length)
            self.old self.new result }
        ensures unchanged { (e : StoreError) → IsErrOf result e → e ≢ StoreError.Disk →
            self.new ≡ self.old }
        ensures filled { OnOk result
            (Changes K.told (put_at name.now at (repeated length pattern)) self.old self.new) }
        ensures part { IsErrOf result StoreError.Disk →
            IsPartly name.now at length self.old.device self.new.device }
        ensures units { KeepsUnits self.old self.new }
        ensures whole { OnOk result (IsWhole K.told self.new) }
        ensures sound { IsSound K.told self.new }
        ensures kept { DiskKept K.told K.lent self.old.disk self.new.disk }
    {
        let part = match find_range(&self.layout, &self.within, name, at, length) {
            Ok(part) => part,
            Err(refusal) => return Err(refusal),
        };
        repeat(&mut self.buffer, pattern);
        let Ok(()) = fill_pieces(&mut self.disk, &part, at, length, &self.buffer) else {
            self.broken = true;
            return Err(StoreError::Disk);
        };
        Ok(())
    }
}
