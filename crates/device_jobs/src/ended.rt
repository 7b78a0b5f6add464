//! What jobs on an image have in common.
ghost use Rattle.std.specs.Prelude.{◌≡◌};
ghost use Rattle.device_jobs.specs.Working.{opening_stop};

use crate::job::JobError;
use dev_store::errors::OpenError;

/// Why a job isn't done on an image that isn't opened.
pub fn opening_stop(error: &OpenError) -> JobError
    ensures { result ≡ opening_stop error.now }
{
    match error {
        OpenError::Absent => JobError::NoFile,
        OpenError::Bad(bad) => JobError::Device(*bad),
        OpenError::Disk => JobError::Disk,
        OpenError::Memory => JobError::Memory,
    }
}
