//! The calls of a store that change the table of its logical partitions.
ghost use Rattle.std.specs.Prelude.{◌≡◌, ◌≢◌, IsTrue, IsFalse, OnOk};
ghost use Rattle.std.specs.Result.{IsErrOf};
ghost use Rattle.dev_model.specs.declared.step.Step.TheVariants.{Resize};
ghost use Rattle.dev_model.specs.Images.{round_up};
ghost use Rattle.dev_model.specs.Steps.{apply, deleted};
ghost use Rattle.dev_store.specs.Changes.{delete_flaw, resize_flaw};
ghost use Rattle.dev_store.specs.Faults.{IsHonest};
ghost use Rattle.dev_store.specs.Held.{IsWhole, DiskKept, image_of};
ghost use Rattle.dev_store.specs.Reading.{table_within};
ghost use Rattle.dev_store.specs.TableCalls.{IsFound};
ghost use Rattle.dev_store.specs.StoreCalls.{Decided, Changes, StandsAround, IsRegrown, IsReleased};
ghost use Rattle.dev_store.specs.StoreCalls.{IsTableWritten};

use crate::errors::StoreError;
use crate::layout::{Layout, SuperPart};
use crate::named::place_of;
use crate::part_zero::put_grown;
use crate::store::Store;
use crate::super_read::SuperRead;
use crate::table_write::put_next;
use dev_disk::disk::Disk;
use fb_frame::name::Name;

impl<K: Disk> Store<K> {
    /// Takes a logical partition away. Its units are free, and its bytes stay where they are. After a fault
    /// of the disk the store may only be closed.
    pub fn delete(&mut self, name: &Name) -> Result<(), StoreError>
        requires usable { IsFalse self.old.broken }
        ensures decided { Decided K.told (delete_flaw self.old.device name.now) self.old self.new result }
        ensures unchanged { (e : StoreError) → IsErrOf result e → e ≢ StoreError.Disk →
            self.new ≡ self.old }
        ensures changed { OnOk result (Changes K.told (deleted name.now) self.old self.new) }
        ensures around { IsErrOf result StoreError.Disk → IsHonest (K.told self.new.disk).torn →
            StandsAround (image_of K.told self.new) self.old.device (deleted name.now self.old.device) }
        ensures handed { OnOk result (IsReleased name.now self.old self.new) }
        ensures table { OnOk result (IsTableWritten K.told self.new) }
        ensures whole { OnOk result (IsWhole K.told self.new) }
        ensures kept { DiskKept K.told K.lent self.old.disk self.new.disk }
    {
        let Some((s, place)) = find_in_table(&self.layout, &self.within, name.bytes()) else {
            return Err(StoreError::NoPartition);
        };
        let at = self.layout.parts_end();
        let Some(within) = &mut self.within else {
            unreachable!();
        };
        within.take_away(&s, place);
        let Ok(()) = put_next(&mut self.disk, &s, at, within) else {
            self.broken = true;
            return Err(StoreError::Disk);
        };
        Ok(())
    }

    /// Gives a logical partition another length, which is rounded up to whole blocks. It keeps its first
    /// units, and where it grows it gets the lowest free ones after them, with zeros. After a fault of the
    /// disk the store may only be closed.
    pub fn resize(&mut self, name: &Name, size: u64) -> Result<(), StoreError>
        requires usable { IsFalse self.old.broken }
        ensures decided { Decided K.told (resize_flaw self.old.device name.now size)
            self.old self.new result }
        ensures unchanged { (e : StoreError) → IsErrOf result e → e ≢ StoreError.Disk →
            self.new ≡ self.old }
        ensures changed { OnOk result (Changes K.told (apply (Resize name.now size)) self.old self.new) }
        ensures around { IsErrOf result StoreError.Disk → IsHonest (K.told self.new.disk).torn →
            StandsAround (image_of K.told self.new) self.old.device
            (apply (Resize name.now size) self.old.device) }
        ensures handed { OnOk result (IsRegrown name.now (round_up size) self.old self.new) }
        ensures table { OnOk result (IsTableWritten K.told self.new) }
        ensures whole { OnOk result (IsWhole K.told self.new) }
        ensures kept { DiskKept K.told K.lent self.old.disk self.new.disk }
    {
        let Some((s, place)) = find_in_table(&self.layout, &self.within, name.bytes()) else {
            return Err(StoreError::NoPartition);
        };
        let at = self.layout.parts_end();
        let Some(within) = &mut self.within else {
            unreachable!();
        };
        let new = match within.resize_at(&s, place, name.bytes(), size) {
            Ok(new) => new,
            Err(refusal) => return Err(refusal),
        };
        let Ok(()) = put_grown(&mut self.disk, &s, at, within, new, &mut self.buffer) else {
            self.broken = true;
            return Err(StoreError::Disk);
        };
        Ok(())
    }
}

/// The logical partition of a name, by its place in the table of super.
fn find_in_table(
    layout: &Layout,
    within: &Option<SuperRead>,
    name: &[u8],
) -> Option<(SuperPart, usize)>
    ensures { IsFound layout.now.super_part (table_within within.now) name.now result }
{
    let Some(s) = layout.super_part() else {
        return None;
    };
    let Some(within) = within else {
        return None;
    };
    let Some(place) = place_of(&within.table.partitions, name) else {
        return None;
    };
    Some((s, place))
}
