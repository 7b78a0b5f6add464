use thiserror::Error;

/// What is wrong with a geometry or a table: the first in the order of these numbers.
#[derive(Clone, Copy, Debug, PartialEq, Eq, Error)]
pub enum MetaError {
    /// There are too few bytes.
    #[error("ShortInput")]
    ShortInput = 1,
    /// Another magic number stands at the front.
    #[error("BadMagic")]
    BadMagic = 2,
    /// The version isn't 10.0, 10.1 or 10.2.
    #[error("BadVersion")]
    BadVersion = 3,
    /// A size isn't as it must be.
    #[error("BadSize")]
    BadSize = 4,
    /// A digest isn't that of its bytes.
    #[error("BadChecksum")]
    BadChecksum = 5,
    /// A descriptor has another place or entry size, or there isn't one block device.
    #[error("BadDescriptor")]
    BadDescriptor = 6,
    /// A field holds no name, or a name stands twice.
    #[error("BadName")]
    BadName = 7,
    /// The partitions don't take the extents in turn, or a group or a block device isn't there.
    #[error("BadIndex")]
    BadIndex = 8,
    /// An extent is empty, lies outside the block device, or shares a sector with another.
    #[error("Overlap")]
    Overlap = 9,
    /// An attribute, a type of extent or a flag isn't known.
    #[error("Unsupported")]
    Unsupported = 10,
}

/// Why a table isn't read.
#[derive(Debug, Drop, Error)]
pub enum ReadError {
    /// Something is wrong with it.
    #[error("{0}")]
    Bad(MetaError),
    /// There was no memory.
    #[error("memory")]
    Memory,
}
