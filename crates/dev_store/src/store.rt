ghost use Rattle.std.specs.Prelude.{◌≡◌, ◌⊎◌, IsTrue, IsFalse, IfOk, IfErr};
ghost use Rattle.fb_frame.specs.Causes.{Rose};
ghost use Rattle.dev_model.specs.Partitions.{is_fastboot};
ghost use Rattle.dev_model.specs.declared.bad_image.BadImage.{BadImage};
ghost use Rattle.dev_store.specs.Faults.{IsHonest};
ghost use Rattle.dev_store.specs.Held.{IsWhole};
ghost use Rattle.dev_store.specs.Opening.{IsAbsent, IsBadImage, OpensImage, LeavesImage};
ghost use Rattle.dev_store.specs.Opening.{OthersKept};

use crate::errors::OpenError;
use crate::layout::Layout;
use crate::open::open_image;
use crate::state::State;
use crate::super_read::SuperRead;
use dev_disk::disk::Disk;
use std::alloc::Global;
use std::marker::Model;

/// A device image that is open.
#[derive(Drop)]
pub struct Store<K: Disk> {
    pub(crate) disk: K,
    pub(crate) layout: Layout,
    pub(crate) state: State,
    pub(crate) within: Option<SuperRead>,
    pub(crate) buffer: Vec<u8>,
    pub(crate) broken: bool,
}

impl<K: Disk> Model for Store<K> {
    ghost use Rattle.dev_store.specs.Held.{Held};
    ghost use Rattle.dev_store.specs.Reading.{IsStored, held_by};

    ghost Value = { Held K };

    ghost view = { λ s. held_by K.told s.disk s.layout s.state s.within s.broken };

    ghost invariant = { λ s. IsStored K.told (held_by K.told s.disk s.layout s.state s.within s.broken)
        s.layout s.state s.within s.buffer.items };
}

impl<K: Disk> Store<K> {
    /// Opens the device image of a path, and writes anew each copy of a state record, of the geometry and
    /// of the table that can't be read, differs from the one that is read, or is of version 1. The disk
    /// is handed back with each error.
    pub fn open(alloc: Global, disk: K, path: &str) -> Result<Store<K>, (K, OpenError)>
        ensures opens { IfOk result (λ store. OpensImage (K.told disk)
            (K.told store.disk) path.now store.device) }
        ensures starts { IfOk result (λ store. IsTrue (is_fastboot store.device.mode)) }
        ensures whole { IfOk result (λ store. IsWhole K.told store) }
        ensures same { IfOk result (λ store. K.lent store.disk ≡ K.lent disk) }
        ensures absent { IfErr result (λ e. e.1 ≡ OpenError.Absent → IsAbsent (K.told disk).files path.now) }
        ensures bad { (bad : BadImage) → IfErr result (λ e. e.1 ≡ OpenError.Bad bad →
            IsBadImage (K.told disk).files path.now bad) }
        ensures unwritten { (bad : BadImage) → IfErr result (λ e. (e.1 ≡ OpenError.Absent)
            ⊎ (e.1 ≡ OpenError.Bad bad) →
            (K.told e.0).files ≡ (K.told disk).files) }
        ensures spared { (bad : BadImage) → IsBadImage (K.told disk).files path.now bad →
            IfErr result (λ e. (K.told e.0).files ≡ (K.told disk).files) }
        ensures left { IfErr result (λ e. IsHonest (K.told e.0).torn →
            LeavesImage (K.told disk) (K.told e.0) path.now) }
        ensures others { IfErr result (λ e. OthersKept (K.told disk) (K.told e.0) path.now) }
        ensures cause { IfErr result (λ e. e.1 ≡ OpenError.Disk →
            Rose (K.told disk).faults (K.told e.0).faults) }
        ensures same_left { IfErr result (λ e. K.lent e.0 ≡ K.lent disk) }
    {
        let mut disk = disk;
        match open_image(alloc, &mut disk, path) {
            Ok(opened) => Ok(Store {
                disk,
                layout: opened.read.layout,
                state: opened.read.found.state,
                within: opened.read.within,
                buffer: opened.buffer,
                broken: false,
            }),
            Err(e) => Err((disk, e)),
        }
    }

    /// Gives the disk back. What the image of a broken store stands for is said by the call that failed.
    pub fn into_disk(self) -> K
        ensures disk { result ≡ self.disk }
        ensures whole { IsFalse self.broken → IsWhole K.told self }
    {
        self.disk
    }
}
