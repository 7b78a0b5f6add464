//! The call of a store that makes a logical partition.
ghost use Rattle.std.specs.Prelude.{◌≡◌, ◌≢◌, ◌||◌, IsFalse, OnOk, bytes_eq, option_map, option_to_list};
ghost use Rattle.std.specs.List.{list_any};
ghost use Rattle.std.specs.Result.{IsErrOf};
ghost use Rattle.fb_frame.specs.NameText.{IsName};
ghost use Rattle.dev_model.specs.Images.{round_up};
ghost use Rattle.dev_model.specs.Partitions.{is_partition, is_super};
ghost use Rattle.dev_model.specs.Steps.{created};
ghost use Rattle.dev_store.specs.Changes.{create_flaw};
ghost use Rattle.dev_store.specs.Faults.{IsHonest};
ghost use Rattle.dev_store.specs.Held.{IsWhole, DiskKept, image_of};
ghost use Rattle.dev_store.specs.StoreCalls.{Decided, Changes, StandsAround, IsAdded, IsTableWritten};

use crate::create_plan::find_room;
use crate::errors::StoreError;
use crate::layout::Layout;
use crate::part_zero::{NewBytes, put_grown};
use crate::store::Store;
use dev_disk::disk::Disk;
use fb_frame::name::Name;

/// Whether super has the name.
fn is_super(layout: &Layout, name: &[u8]) -> bool
    ensures { result ≡ list_any (λ n. bytes_eq n name.now)
        (option_to_list (option_map (λ s. s.name) layout.now.super_part)) }
{
    match layout.super_part() {
        None => false,
        Some(s) => s.name.bytes() == name,
    }
}

impl<K: Disk> Store<K> {
    /// Whether a partition or super has the name.
    fn is_taken(&self, name: &Name) -> bool
        ensures taken { result
            ≡ (is_partition self.now.device name.now || is_super self.now.device name.now) }
        ensures name { IsName name.now }
    {
        let text = name.bytes();
        self.is_logical(name).is_some() || is_super(&self.layout, text)
    }

    /// Makes a logical partition of zeros, the last one of the table, in the group `default`. Its size is
    /// rounded up to whole blocks. After a fault of the disk the store may only be closed.
    pub fn create(&mut self, name: &Name, size: u64) -> Result<(), StoreError>
        requires usable { IsFalse self.old.broken }
        ensures decided { Decided K.told (create_flaw self.old.device name.now size) self.old self.new
            result }
        ensures unchanged { (e : StoreError) → IsErrOf result e → e ≢ StoreError.Disk →
            self.new ≡ self.old }
        ensures changed { OnOk result (Changes K.told (created name.now size) self.old self.new) }
        ensures around { IsErrOf result StoreError.Disk → IsHonest (K.told self.new.disk).torn →
            StandsAround (image_of K.told self.new) self.old.device (created name.now size self.old.device) }
        ensures handed { OnOk result (IsAdded name.now (round_up size) self.old self.new) }
        ensures table { OnOk result (IsTableWritten K.told self.new) }
        ensures whole { OnOk result (IsWhole K.told self.new) }
        ensures kept { DiskKept K.told K.lent self.old.disk self.new.disk }
    {
        if self.is_taken(name) {
            return Err(StoreError::NameTaken);
        }
        let (s, new) = match find_room(&self.layout, &self.within, size) {
            Ok(found) => found,
            Err(refusal) => return Err(refusal),
        };
        let at = self.layout.parts_end();
        let Some(within) = &mut self.within else {
            unreachable!();
        };
        within.take_in(&s, *name, new);
        let bytes = NewBytes {
            part: new.part,
            from: 0,
            to: new.bytes,
        };
        let Ok(()) = put_grown(&mut self.disk, &s, at, within, bytes, &mut self.buffer) else {
            self.broken = true;
            return Err(StoreError::Disk);
        };
        Ok(())
    }
}
