ghost use Rattle.std.specs.Prelude.{◌≡◌};
ghost use Rattle.device_jobs.specs.declared.job.JobError.TheVariants.{Memory};

use dev_model::bad_image::BadImage;
use dev_store::layout::LayoutError;
use std::alloc::AllocError;

/// Why a job isn't done.
#[derive(Debug, Drop)]
pub enum JobError {
    /// Memory was wanting.
    Memory,
    /// The disk failed.
    Disk,
    /// The file isn't there.
    NoFile,
    /// The layout text is refused.
    Layout(LayoutError),
    /// The file stands for no device.
    Device(BadImage),
}

impl From<AllocError> for JobError {
    ghost from_gives = { λ _ e. e ≡ Memory };

    fn from(_: AllocError) -> JobError {
        JobError::Memory
    }
}
