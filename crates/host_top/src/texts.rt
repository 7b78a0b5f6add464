//! The names of kinds, as they are printed.
ghost use Rattle.std.specs.Prelude.{◌≡◌};
ghost use Rattle.host_top.specs.Verdicts.{info_text, sparse_text, meta_text, image_text, kind_text};

use dev_model::bad_image::BadImage;
use flash_plan::plan::PlanKind;
use product_info::info::InfoKind;
use sparse_image::errors::SparseKind;
use super_meta::errors::MetaError;

/// What is wrong with a line of an info file.
pub(crate) fn info_text(kind: InfoKind) -> &'static [u8]
    ensures { result.now ≡ info_text kind }
{
    match kind {
        InfoKind::NoVersion => b"NoVersion",
        InfoKind::BadVersion => b"BadVersion",
        InfoKind::BadLine => b"BadLine",
        InfoKind::TooMany => b"TooMany",
        InfoKind::NotText => b"NotText",
    }
}

/// What is wrong with an image file.
pub(crate) fn sparse_text(kind: SparseKind) -> &'static [u8]
    ensures { result.now ≡ sparse_text kind }
{
    match kind {
        SparseKind::Truncated => b"Truncated",
        SparseKind::BadHeader => b"BadHeader",
        SparseKind::BadBlockSize => b"BadBlockSize",
        SparseKind::BadChunk => b"BadChunk",
        SparseKind::CrcChunk => b"CrcChunk",
        SparseKind::CountMismatch => b"CountMismatch",
        SparseKind::TrailingBytes => b"TrailingBytes",
        SparseKind::TooLong => b"TooLong",
        SparseKind::Empty => b"Empty",
    }
}

/// What is wrong with super_empty.img.
pub(crate) fn meta_text(error: MetaError) -> &'static [u8]
    ensures { result.now ≡ meta_text error }
{
    match error {
        MetaError::ShortInput => b"ShortInput",
        MetaError::BadMagic => b"BadMagic",
        MetaError::BadVersion => b"BadVersion",
        MetaError::BadSize => b"BadSize",
        MetaError::BadChecksum => b"BadChecksum",
        MetaError::BadDescriptor => b"BadDescriptor",
        MetaError::BadName => b"BadName",
        MetaError::BadIndex => b"BadIndex",
        MetaError::Overlap => b"Overlap",
        MetaError::Unsupported => b"Unsupported",
    }
}

/// What is wrong with the image of a device.
pub(crate) fn image_text(kind: BadImage) -> &'static [u8]
    ensures { result.now ≡ image_text kind }
{
    match kind {
        BadImage::ShortFile => b"ShortFile",
        BadImage::BadLayout => b"BadLayout",
        BadImage::BadLength => b"BadLength",
        BadImage::BadState => b"BadState",
        BadImage::NoGeometry => b"NoGeometry",
        BadImage::NoTable => b"NoTable",
        BadImage::BadUnits => b"BadUnits",
    }
}

/// Why no plan is made.
pub(crate) fn kind_text(kind: PlanKind) -> &'static [u8]
    ensures { result.now ≡ kind_text kind }
{
    match kind {
        PlanKind::NoPartition => b"NoPartition",
        PlanKind::NoSlot => b"NoSlot",
        PlanKind::Reboot => b"Reboot",
        PlanKind::UpdateSuper => b"UpdateSuper",
        PlanKind::NoSuper => b"NoSuper",
    }
}
