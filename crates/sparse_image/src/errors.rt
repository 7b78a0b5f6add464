ghost use Rattle.std.specs.Prelude.{◌≡◌};
ghost use Rattle.sparse_image.specs.Walks.{flaw};

/// What is wrong with an image file.
#[derive(Clone, Copy, Debug, PartialEq, Eq)]
pub enum SparseKind {
    /// The file ends too early.
    Truncated = 1,
    /// A field of the header isn't as it must be.
    BadHeader = 2,
    /// The block size isn't a multiple of 512 from 512 to 65,536.
    BadBlockSize = 3,
    /// A chunk has an unknown type or a wrong total size.
    BadChunk = 4,
    /// A chunk is a checksum.
    CrcChunk = 5,
    /// The chunks have more or fewer blocks than the header tells.
    CountMismatch = 6,
    /// Bytes follow the last chunk.
    TrailingBytes = 7,
    /// The image or the list of chunks is too long.
    TooLong = 8,
    /// The file has no bytes.
    Empty = 9,
}

/// What is wrong with an image file, and at which byte of it.
#[derive(Clone, Copy, Debug, PartialEq, Eq)]
pub struct SparseError {
    pub kind: SparseKind,
    pub at: u64,
}

/// Why a piece wasn't written.
#[derive(Debug, Drop)]
pub enum PieceFault {
    /// The source couldn't be read.
    Read,
    /// The out couldn't take the bytes.
    Out,
}

impl SparseError {
    /// A flaw of this kind at this place.
    pub(crate) fn new(kind: SparseKind, at: u64) -> SparseError
        ensures { result ≡ flaw kind at }
    {
        SparseError { kind, at }
    }
}
