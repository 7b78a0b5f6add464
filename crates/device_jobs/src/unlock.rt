//! Unlocking the device of an image.
ghost use Rattle.std.specs.Prelude.{◌≡◌, ◌≢◌, ◌≤◌, OnOk, IfOk, IfErr};
ghost use Rattle.fb_frame.specs.Causes.{Rose};
ghost use Rattle.dev_model.specs.declared.bad_image.BadImage.{BadImage};
ghost use Rattle.dev_disk.specs.Files.{KeepsOthers, StaysTorn};
ghost use Rattle.dev_store.specs.Faults.{IsHonest};
ghost use Rattle.dev_store.specs.Opening.{IsBadImage, OnFile, OthersKept};
ghost use Rattle.device_jobs.specs.Outcomes.{unlock_outcome};
ghost use Rattle.device_jobs.specs.Jobs.{IsDecided, IsDiskEnd, IsReported};
ghost use Rattle.device_jobs.specs.Leaves.{IsDone, LeavesUnlocking};
ghost use Rattle.device_jobs.specs.Working.{IsStop, IsText, IsEarly, IsImageStop};

use crate::ended::opening_stop;
use crate::job::JobError;
use crate::report::report;
use crate::unlocking::unlock_store;
use dev_disk::disk::Disk;
use dev_store::store::Store;
use fb_frame::sink::Sink;
use std::alloc::Global;

/// Unlocks the device of an image.
fn unlock_job<K: Disk>(alloc: Global, disk: &mut K, file: &str) -> Result<Vec<u8>, JobError>
    ensures text { IfOk result
        (λ text. IsText (unlock_outcome (K.told disk.old).files file.now) text.items) }
    ensures stops { IfErr result (IsStop (unlock_outcome (K.told disk.old).files file.now)
        (Rose (K.told disk.old).faults (K.told disk.new).faults)) }
    ensures never { IfErr result IsImageStop }
    ensures early { IfErr result (λ e. IsEarly e → (K.told disk.new).files ≡ (K.told disk.old).files) }
    ensures done { OnOk result
        (IsDone (unlock_outcome (K.told disk.old).files file.now) (K.told disk.new).files file.now) }
    ensures leaves { IsHonest (K.told disk.new).torn →
        OnFile LeavesUnlocking (K.told disk.old).files (K.told disk.new).files file.now }
    ensures spared { (bad : BadImage) → IsBadImage (K.told disk.old).files file.now bad →
        (K.told disk.new).files ≡ (K.told disk.old).files }
    ensures others { OthersKept (K.told disk.old) (K.told disk.new) file.now }
    ensures same { K.lent disk.new ≡ K.lent disk.old }
{
    match Store::open(alloc, &mut *disk, file) {
        Ok(store) => {
            let mut store = store;
            let job = unlock_store(alloc, &mut store);
            let _disk = store.into_disk();
            job
        }
        Err(lost) => Err(opening_stop(&lost.1)),
    }
}

/// Unlocks the device that an image stands for: fills `userdata` with 0xFF, where there is such a partition,
/// and when that is kept stores the lock. A device that is unlocked stays as it was. Puts `unlocked`, `already
/// unlocked` or the line of what went wrong, and answers the status of the call.
pub fn unlock_image<K: Disk, S: Sink>(alloc: Global, file: &str, disk: &mut K, out: &mut S) -> u8
    ensures decided { IsDecided (unlock_outcome (K.told disk.old).files file.now) result }
    ensures never { result ≢ 5 }
    ensures disk { result ≡ 3 → IsDiskEnd (unlock_outcome (K.told disk.old).files file.now)
        (Rose (K.told disk.old).faults (K.told disk.new).faults) }
    ensures output { result ≡ 9 → Rose (S.faults out.old) (S.faults out.new) }
    ensures reported { IsReported (unlock_outcome (K.told disk.old).files file.now) result
        (S.text out.old) (S.text out.new) }
    ensures done { result ≡ 0 →
        IsDone (unlock_outcome (K.told disk.old).files file.now) (K.told disk.new).files file.now }
    ensures leaves { IsHonest (K.told disk.new).torn →
        OnFile LeavesUnlocking (K.told disk.old).files (K.told disk.new).files file.now }
    ensures spared { (bad : BadImage) → IsBadImage (K.told disk.old).files file.now bad →
        (K.told disk.new).files ≡ (K.told disk.old).files }
    ensures untouched { result ≡ 4 → (K.told disk.new).files ≡ (K.told disk.old).files }
    ensures others { KeepsOthers (K.told disk.old).files (K.told disk.new).files file.now }
    ensures later { (K.told disk.old).faults ≤ (K.told disk.new).faults }
    ensures torn { StaysTorn (K.told disk.old).torn (K.told disk.new).torn }
    ensures same { K.lent disk.new ≡ K.lent disk.old }
    ensures said { S.faults out.old ≤ S.faults out.new }
{
    let job = unlock_job(alloc, disk, file);
    report(alloc, out, &job)
}
