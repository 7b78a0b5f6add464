//! Making the image of a new device from a layout's file.
ghost use Rattle.std.specs.Prelude.{◌≡◌, ◌≢◌, ◌⊎◌, ◌≤◌, OnOk, IfOk, IfErr};
ghost use Rattle.std.specs.Result.{IsErrOf};
ghost use Rattle.fb_frame.specs.Causes.{Rose};
ghost use Rattle.dev_disk.specs.Files.{KeepsOthers, StaysTorn};
ghost use Rattle.dev_store.specs.Layouts.{image_size};
ghost use Rattle.dev_store.specs.Opening.{Makes};
ghost use Rattle.device_jobs.specs.declared.job.JobError.TheVariants as job;
ghost use Rattle.device_jobs.specs.Outcomes.{Made, make_outcome};
ghost use Rattle.device_jobs.specs.Jobs.{IsDecided, IsDiskEnd, IsReported};
ghost use Rattle.device_jobs.specs.Leaves.{IsMadeFor};
ghost use Rattle.device_jobs.specs.Printed.{made_line};
ghost use Rattle.device_jobs.specs.Working.{IsOutcome, IsStop, IsText, IsEarly, IsMakeStop};

use crate::job::JobError;
use crate::lines::made_line;
use crate::report::report;
use dev_disk::disk::Disk;
use dev_store::errors::OpenError;
use dev_store::layout::{Layout, LayoutError, LayoutFail, LayoutKind, read_layout};
use dev_store::make::make;
use fb_frame::sink::Sink;
use std::alloc::Global;

/// How many bytes a layout text may have.
const MOST: u64 = 4096;

/// The layout of a file.
fn read_file<K: Disk>(alloc: Global, disk: &mut K, path: &str) -> Result<Layout, JobError>
    ensures layout { IfOk result (λ layout.
        IsOutcome (make_outcome (K.told disk.old).files path.now) (Made layout)) }
    ensures stops { IfErr result (IsStop (make_outcome (K.told disk.old).files path.now)
        (Rose (K.told disk.old).faults (K.told disk.new).faults)) }
    ensures never { IfErr result IsMakeStop }
    ensures files { (K.told disk.new).files ≡ (K.told disk.old).files }
    ensures later { (K.told disk.old).faults ≤ (K.told disk.new).faults }
    ensures torn { StaysTorn (K.told disk.old).torn (K.told disk.new).torn }
    ensures same { K.lent disk.new ≡ K.lent disk.old }
{
    let size = match disk.open(path) {
        Ok(Some(size)) => size,
        Ok(None) => return Err(JobError::NoFile),
        Err(_) => return Err(JobError::Disk),
    };
    if size > MOST {
        return Err(JobError::Layout(LayoutError {
            line: 0,
            kind: LayoutKind::TooLong,
        }));
    }
    let mut block = [0; 4096];
    let text = &mut block[..size as usize];
    let Ok(()) = disk.read_at(0, text) else {
        return Err(JobError::Disk);
    };
    match read_layout(alloc, text) {
        Ok(layout) => Ok(layout),
        Err(LayoutFail::Bad(bad)) => Err(JobError::Layout(bad)),
        Err(LayoutFail::Memory) => Err(JobError::Memory),
    }
}

/// Makes the image of a layout that was read. The line that says so is made first.
fn make_layout<K: Disk>(
    alloc: Global,
    disk: &mut K,
    layout: &Layout,
    file: &str,
    unlocked: bool,
) -> Result<Vec<u8>, JobError>
    ensures made { OnOk result (Makes (K.told disk.new).files file.now layout.now unlocked) }
    ensures text { IfOk result (λ text. text.items ≡ made_line (image_size layout.now)) }
    ensures only { IfErr result (λ e. (e ≡ job.Memory) ⊎ (e ≡ job.Disk)) }
    ensures cause { IsErrOf result job.Disk → Rose (K.told disk.old).faults (K.told disk.new).faults }
    ensures others { KeepsOthers (K.told disk.old).files (K.told disk.new).files file.now }
    ensures later { (K.told disk.old).faults ≤ (K.told disk.new).faults }
    ensures torn { StaysTorn (K.told disk.old).torn (K.told disk.new).torn }
    ensures same { K.lent disk.new ≡ K.lent disk.old }
{
    let line = made_line(alloc, layout.image_size())?;
    match make(alloc, disk, file, layout, unlocked) {
        Ok(()) => Ok(line),
        Err(OpenError::Memory) => Err(JobError::Memory),
        Err(_) => Err(JobError::Disk),
    }
}

/// Makes the image, and answers the line that says so.
fn make_job<K: Disk>(
    alloc: Global,
    disk: &mut K,
    layout: &str,
    file: &str,
    unlocked: bool,
) -> Result<Vec<u8>, JobError>
    ensures made { OnOk result (IsMadeFor (make_outcome (K.told disk.old).files layout.now) unlocked
        (K.told disk.new).files file.now) }
    ensures text { IfOk result (λ text. IsText (make_outcome (K.told disk.old).files layout.now) text.items) }
    ensures stops { IfErr result (IsStop (make_outcome (K.told disk.old).files layout.now)
        (Rose (K.told disk.old).faults (K.told disk.new).faults)) }
    ensures early { IfErr result (λ e. IsEarly e → (K.told disk.new).files ≡ (K.told disk.old).files) }
    ensures never { IfErr result IsMakeStop }
    ensures others { KeepsOthers (K.told disk.old).files (K.told disk.new).files file.now }
    ensures later { (K.told disk.old).faults ≤ (K.told disk.new).faults }
    ensures torn { StaysTorn (K.told disk.old).torn (K.told disk.new).torn }
    ensures same { K.lent disk.new ≡ K.lent disk.old }
{
    let layout = read_file(alloc, disk, layout)?;
    make_layout(alloc, disk, &layout, file, unlocked)
}

/// Makes the image of a new device, unlocked or not, from the layout text of a file, in place of any file of
/// the path `file`. Puts `made SIZE` or the line of what went wrong, and answers the status of the call. Only
/// with 2, 3 or 9 any file of the path may be left, or none.
pub fn make_image<K: Disk, S: Sink>(
    alloc: Global,
    layout: &str,
    file: &str,
    unlocked: bool,
    disk: &mut K,
    out: &mut S,
) -> u8
    ensures decided { IsDecided (make_outcome (K.told disk.old).files layout.now) result }
    ensures never { result ≢ 4 }
    ensures disk { result ≡ 3 → IsDiskEnd (make_outcome (K.told disk.old).files layout.now)
        (Rose (K.told disk.old).faults (K.told disk.new).faults) }
    ensures output { result ≡ 9 → Rose (S.faults out.old) (S.faults out.new) }
    ensures reported { IsReported (make_outcome (K.told disk.old).files layout.now) result
        (S.text out.old) (S.text out.new) }
    ensures made { result ≡ 0 → IsMadeFor (make_outcome (K.told disk.old).files layout.now) unlocked
        (K.told disk.new).files file.now }
    ensures untouched { result ≡ 5 → (K.told disk.new).files ≡ (K.told disk.old).files }
    ensures others { KeepsOthers (K.told disk.old).files (K.told disk.new).files file.now }
    ensures later { (K.told disk.old).faults ≤ (K.told disk.new).faults }
    ensures torn { StaysTorn (K.told disk.old).torn (K.told disk.new).torn }
    ensures same { K.lent disk.new ≡ K.lent disk.old }
    ensures said { S.faults out.old ≤ S.faults out.new }
{
    let made = make_job(alloc, disk, layout, file, unlocked);
    report(alloc, out, &made)
}
