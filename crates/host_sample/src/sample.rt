//! A sample of an installation.
ghost use Rattle.std.specs.Prelude.{◌≡◌, ◌≤◌, All, IfOk, map, string_bytes};
ghost use Rattle.dev_disk.specs.Memory.{memory_files};
ghost use Rattle.host_sample.specs.Samples.{sample_words, IsSampleLayout, HoldsSample, HasSample};
ghost use Rattle.host_sample.specs.Samples.{IsReported, IsSampled};

use dev_disk::memory::MemoryDisk;
use dev_store::errors::OpenError;
use dev_store::layout::{Layout, LayoutFail, read_layout};
use dev_store::make::make;
use device_jobs::job::JobError;
use device_jobs::report::stop;
use device_jobs::show::show_image;
use fb_frame::sink::Sink;
use flash_plan::memory_dir::MemoryDir;
use host_memory::rehearse::{Rehearsed, rehearse};
use sample_product::files::{layout_text, sample_files};
use std::alloc::{AllocError, Global};

/// The layout of the device.
fn sample_layout(alloc: Global) -> Result<Layout, JobError>
    ensures { IfOk result (λ layout. IsSampleLayout layout) }
{
    match read_layout(alloc, layout_text()) {
        Ok(layout) => Ok(layout),
        Err(LayoutFail::Memory) => Err(JobError::Memory),
        Err(LayoutFail::Bad(_)) => unreachable!(),
    }
}

/// A disk without files.
fn new_disk(alloc: Global) -> Result<MemoryDisk, JobError> {
    match MemoryDisk::new(alloc, Vec::new(alloc)) {
        Ok(disk) => Ok(disk),
        Err(_) => Err(JobError::Memory),
    }
}

/// A disk with the image of the device, unlocked.
fn sample_disk(alloc: Global) -> Result<MemoryDisk, JobError>
    ensures { IfOk result (λ disk. HoldsSample (memory_files disk)) }
{
    let layout = sample_layout(alloc)?;
    let mut disk = new_disk(alloc)?;
    match make(alloc, &mut disk, "DEV", &layout, true) {
        Ok(()) => Ok(disk),
        Err(OpenError::Memory) => Err(JobError::Memory),
        Err(_) => Err(JobError::Disk),
    }
}

/// A folder with the product.
fn sample_folder(alloc: Global, number: u32) -> Result<MemoryDir, JobError>
    ensures { IfOk result (λ dir. HasSample number dir) }
{
    let files = sample_files(alloc, number)?;
    match MemoryDir::new(alloc, "DIR", files, Vec::new(alloc)) {
        Ok(dir) => Ok(dir),
        Err(_) => Err(JobError::Memory),
    }
}

/// What the connections pass at once, in turn.
fn sample_sizes(alloc: Global) -> Result<Vec<u32>, AllocError>
    ensures { IfOk result (λ sizes. All (λ size. 1 ≤ size) sizes.items) }
{
    [1, 7, 4096, 65_536, 3].to_vec(alloc)
}

/// The words of the installation.
fn sample_words(alloc: Global) -> Result<Vec<String>, AllocError>
    ensures { IfOk result (λ words. map string_bytes words.items ≡ sample_words) }
{
    let mut words = Vec::new(alloc);
    words.push("-s".to_string(alloc)?)?;
    words.push("image:DEV".to_string(alloc)?)?;
    words.push("flashall".to_string(alloc)?)?;
    words.push("DIR".to_string(alloc)?)?;
    Ok(words)
}

/// Installs the product that a number draws.
fn install<S: Sink>(alloc: Global, number: u32, out: &mut S) -> Result<Rehearsed, JobError>
    ensures reported { IfOk result (λ done. done.status ≡ 0 →
        IsReported number (memory_files done.disk) (S.text out.old) (S.text out.new)) }
{
    let disk = sample_disk(alloc)?;
    let mut dir = sample_folder(alloc, number)?;
    let words = sample_words(alloc)?;
    let sizes = sample_sizes(alloc)?;
    let done = rehearse(
        alloc,
        words.as_slice(),
        &mut dir,
        disk,
        sizes,
        Vec::new(alloc),
        out,
    );
    Ok(done)
}

/// Makes a device and a product that a number draws, both in memory, installs the product, and puts the
/// lines of the installation and then the text of the device. Answers the status.
pub fn run_sample<S: Sink>(alloc: Global, number: u32, out: &mut S) -> u8
    ensures sampled { result ≡ 0 → IsSampled number (S.text out.old) (S.text out.new) }
{
    match install(alloc, number, out) {
        Ok(mut done) => {
            if done.status != 0 {
                return done.status;
            }
            show_image(alloc, "DEV", &mut done.disk, out)
        }
        Err(error) => stop(alloc, out, &error),
    }
}
