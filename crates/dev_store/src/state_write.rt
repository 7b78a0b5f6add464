ghost use Rattle.std.specs.Prelude.{◌≡◌, IsTrue, IsFalse, None, IfSome, OnOk, OnErr};
ghost use Rattle.std.specs.Result.{IsErrOf};
ghost use Rattle.fb_frame.specs.Causes.{Rose};
ghost use Rattle.fb_frame.specs.Told.{Both};
ghost use Rattle.dev_disk.specs.Files.{IsInside, DifferWithin};
ghost use Rattle.dev_disk.specs.Disks.{open_bytes, FilesKept, OpenKept};
ghost use Rattle.dev_store.specs.Faults.{IsHonest};
ghost use Rattle.dev_store.specs.States.{is_state, with_state};
ghost use Rattle.dev_store.specs.Held.{IsSound, IsWhole, DiskKept, image_of};
ghost use Rattle.dev_store.specs.Reading.{AreStatesMended, IsStateAround};
ghost use Rattle.dev_store.specs.StoreCalls.{Decided, KeepsUnits, StandsAround};

use crate::errors::StoreError;
use crate::record::write_record;
use crate::state::State;
use crate::states_read::states;
use crate::store::Store;
use dev_disk::disk::{Disk, DiskFault};

/// Writes the record of a state over both copies, the first one first, and waits after each.
fn write_states<K: Disk>(disk: &mut K, slots: u8, state: &State) -> Result<(), DiskFault>
    requires inside { IsInside (K.told disk.old).open_length 0 12288 }
    requires fits { IsTrue (is_state slots state.now) }
    ensures written { OnOk result
        (IfSome (open_bytes (K.told disk.new)) (AreStatesMended slots state.now)) }
    ensures left { OnErr result (IsHonest (K.told disk.new).torn → Both (IsStateAround slots state.now)
        (open_bytes (K.told disk.old)) (open_bytes (K.told disk.new))) }
    ensures within { Both (DifferWithin 4096 8192)
        (open_bytes (K.told disk.old)) (open_bytes (K.told disk.new)) }
    ensures kept { OpenKept (K.told disk.old) (K.told disk.new) }
    ensures cause { OnErr result (Rose (K.told disk.old).faults (K.told disk.new).faults) }
    ensures same { K.lent disk.new ≡ K.lent disk.old }
{
    let mut block = [0; 4096];
    write_record(state, &mut block);
    states().write(disk, &block)
}

impl<K: Disk> Store<K> {
    /// Stores another state: lock, active slot, flags and start mode. The device is then in the mode in
    /// which it starts.
    pub fn set_state(&mut self, state: &State) -> Result<(), StoreError>
        requires usable { IsFalse self.old.broken }
        requires fits { IsTrue (is_state self.old.device.slots state.now) }
        ensures decided { Decided K.told None self.old self.new result }
        ensures changed { OnOk result (self.new.device ≡ with_state state.now self.old.device) }
        ensures around { IsErrOf result StoreError.Disk → IsHonest (K.told self.new.disk).torn →
            StandsAround (image_of K.told self.new) self.old.device (with_state state.now self.old.device) }
        ensures units { KeepsUnits self.old self.new }
        ensures whole { OnOk result (IsWhole K.told self.new) }
        ensures kept { DiskKept K.told K.lent self.old.disk self.new.disk }
    {
        let slots = self.layout.slots();
        let Ok(()) = write_states(&mut self.disk, slots, state) else {
            self.broken = true;
            return Err(StoreError::Disk);
        };
        self.state = *state;
        Ok(())
    }

    /// Waits until what was written is kept.
    pub fn sync(&mut self) -> Result<(), StoreError>
        requires usable { IsFalse self.old.broken }
        ensures decided { Decided K.told None self.old self.new result }
        ensures device { self.new.device ≡ self.old.device }
        ensures units { KeepsUnits self.old self.new }
        ensures whole { OnOk result (IsWhole K.told self.new) }
        ensures sound { IsSound K.told self.new }
        ensures files { FilesKept (K.told self.old.disk) (K.told self.new.disk) }
        ensures same { K.lent self.new.disk ≡ K.lent self.old.disk }
    {
        let Ok(()) = self.disk.sync() else {
            self.broken = true;
            return Err(StoreError::Disk);
        };
        Ok(())
    }
}
