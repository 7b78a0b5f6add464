use fb_frame::items::Items;
use fb_frame::word::Word;
use product_info::info::InfoKind;
use product_info::requirement::Requirements;
use product_info::task::Tasks;
use sparse_image::errors::SparseError;
use sparse_image::index::Index;
use super_meta::errors::MetaError;

/// What is wrong with a file of a product.
#[derive(Clone, Copy, Debug, PartialEq, Eq)]
pub enum Flaw {
    /// There is no such file.
    Absent,
    /// The file passes its limit.
    TooLong,
    /// With this image the chunks of all images pass 4,000,000.
    TooManyChunks,
    /// A line of an info file is bad.
    Info { line: u32, kind: InfoKind },
    /// The file is no image.
    Image(SparseError),
    /// The file is no image of an empty super.
    Meta(MetaError),
}

/// Why a folder is taken for no product.
#[derive(Debug, Drop)]
pub enum ProductError {
    /// There was no memory.
    Memory,
    /// The folder failed while this file was looked at.
    Directory(Word),
    /// This file is the first with a flaw.
    Bad(Word, Flaw),
}

/// The bytes of super_empty.img.
pub type EmptyImage = Items<u8>;

/// What a folder holds for a device: its requirements, the tasks that aren't skipped, an index of the
/// image of each flash task, and super_empty.img where a task updates super.
#[derive(Debug, Drop)]
pub struct Product {
    pub requirements: Requirements,
    pub tasks: Tasks,
    pub images: Items<Index>,
    pub empty: Option<EmptyImage>,
}
