//! The lines of jobs that stopped, and of those that were done.
ghost use Rattle.std.specs.Prelude.{◌≡◌, IfOk};
ghost use Rattle.device_jobs.specs.Printed.{bad_text, kind_text, layout_line, device_line, made_line};
ghost use Rattle.device_jobs.specs.Printed.{unlocked_line};
ghost use Rattle.device_jobs.specs.Working.{stop_line};

use crate::job::JobError;
use dev_model::bad_image::BadImage;
use dev_store::layout::{LayoutError, LayoutKind};
use itoa::Buffer;
use std::alloc::{AllocError, Global};

fn bad_text(kind: BadImage) -> &'static [u8]
    ensures { result.now ≡ bad_text kind }
{
    match kind {
        BadImage::ShortFile => b"ShortFile",
        BadImage::BadLayout => b"BadLayout",
        BadImage::BadLength => b"BadLength",
        BadImage::BadState => b"BadState",
        BadImage::NoGeometry => b"NoGeometry",
        BadImage::NoTable => b"NoTable",
        BadImage::BadUnits => b"BadUnits",
    }
}

fn kind_text(kind: LayoutKind) -> &'static [u8]
    ensures { result.now ≡ kind_text kind }
{
    match kind {
        LayoutKind::BadFirst => b"BadFirst",
        LayoutKind::BadLine => b"BadLine",
        LayoutKind::Duplicate => b"Duplicate",
        LayoutKind::BadSize => b"BadSize",
        LayoutKind::TooMany => b"TooMany",
        LayoutKind::Missing => b"Missing",
        LayoutKind::NoRoom => b"NoRoom",
        LayoutKind::TooLong => b"TooLong",
    }
}

/// The line of a layout text that is refused.
fn layout_line(alloc: Global, bad: &LayoutError) -> Result<Vec<u8>, AllocError>
    ensures { IfOk result (λ line. line.items ≡ layout_line bad.now) }
{
    let mut digits = Buffer::new();
    let mut line = Vec::from_slice(alloc, b"error layout line ")?;
    line.extend_from_slice(digits.format(bad.line).as_bytes())?;
    line.extend_from_slice(b" ")?;
    line.extend_from_slice(kind_text(bad.kind))?;
    line.extend_from_slice(b"\n")?;
    Ok(line)
}

/// The line of a file that stands for no device.
fn device_line(alloc: Global, bad: BadImage) -> Result<Vec<u8>, AllocError>
    ensures { IfOk result (λ line. line.items ≡ device_line bad) }
{
    let mut line = Vec::from_slice(alloc, b"error device ")?;
    line.extend_from_slice(bad_text(bad))?;
    line.extend_from_slice(b"\n")?;
    Ok(line)
}

/// The line of a job that stopped.
pub(crate) fn stop_line(alloc: Global, error: &JobError) -> Result<Vec<u8>, AllocError>
    ensures { IfOk result (λ line. line.items ≡ stop_line error.now) }
{
    match error {
        JobError::Memory => Vec::from_slice(alloc, b"error memory\n"),
        JobError::Disk => Vec::from_slice(alloc, b"error disk\n"),
        JobError::NoFile => Vec::from_slice(alloc, b"error disk\n"),
        JobError::Layout(bad) => layout_line(alloc, bad),
        JobError::Device(bad) => device_line(alloc, *bad),
    }
}

/// The line of an image that was made.
pub(crate) fn made_line(alloc: Global, size: u64) -> Result<Vec<u8>, AllocError>
    ensures { IfOk result (λ line. line.items ≡ made_line size) }
{
    let mut digits = Buffer::new();
    let mut line = Vec::from_slice(alloc, b"made ")?;
    line.extend_from_slice(digits.format(size).as_bytes())?;
    line.extend_from_slice(b"\n")?;
    Ok(line)
}

/// The line of a device that is unlocked, or was so before.
pub(crate) fn unlocked_line(alloc: Global, locked: bool) -> Result<Vec<u8>, AllocError>
    ensures { IfOk result (λ line. line.items ≡ unlocked_line locked) }
{
    if locked {
        Vec::from_slice(alloc, b"unlocked\n")
    } else {
        Vec::from_slice(alloc, b"already unlocked\n")
    }
}
