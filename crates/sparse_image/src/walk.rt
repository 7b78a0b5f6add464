ghost use Rattle.std.specs.Prelude.{◌≡◌, ℕ, ◌+◌, ◌-◌, ◌*◌, ◌^◌, ◌<◌, ◌≤◌, length, take, drop, min, IfOk, OnOk};
ghost use Rattle.std.specs.Result.{result_err};
ghost use Rattle.fb_frame.specs.Fields.{u16_at, u32_at};
ghost use Rattle.dev_model.specs.Images.{round_up, is_sparse, data_size};
ghost use Rattle.sparse_image.specs.Walks.{form_flaw, size_flaw, IsFine, head_of, header_of, content_of, front_of, chunk_len, end_flaw, walked, LiesIn};

use crate::chunk::{Chunk, Content};
use crate::errors::{SparseError, SparseKind};
use fb_frame::fields::{u16_at, u32_at};

/// How many bytes a sparse file's header has.
pub const HEADER: usize = 28;

/// How many bytes a chunk's header has.
pub const HEAD: usize = 12;

/// The longest raw file: its padded length stays below 2^44 bytes.
pub const RAW_LIMIT: u64 = (1 << 44) - 4096;

pub const RAW: u16 = 0xCAC1;

pub const FILL: u16 = 0xCAC2;

pub const DONT_CARE: u16 = 0xCAC3;

const CRC32: u16 = 0xCAC4;

/// What the header of a sparse file tells: bytes a block, blocks of the image, chunks of the file.
#[derive(Clone, Copy, Debug, PartialEq, Eq)]
pub struct Header {
    pub block: u32,
    pub blocks: u32,
    pub chunks: u32,
}

/// What the header of a chunk tells: its type, its blocks, and its bytes with the header.
#[derive(Clone, Copy, Debug, PartialEq, Eq)]
pub struct Head {
    pub kind: u16,
    pub blocks: u32,
    pub size: u32,
}

impl Header {
    /// The header of a sparse file of `len` bytes, whose first 28 bytes are given, or all of them.
    #[tactic(auto, using(crate::proofs::WalkLemmas::headers))]
    pub fn read(head: &[u8], len: u64) -> Result<Header, SparseError>
        requires { min 28 len ≤ length head.now }
        ensures header { result ≡ header_of len head.now }
        ensures fine { IfOk result (λ header. IsFine header) }
        ensures long { OnOk result (28 ≤ len) }
    {
        if len < HEADER as u64 {
            return Err(SparseError::new(SparseKind::Truncated, len));
        }
        Header::check_form(head)?;
        let header = Header {
            block: u32_at(head, 12),
            blocks: u32_at(head, 16),
            chunks: u32_at(head, 20),
        };
        header.check_sizes()?;
        Ok(header)
    }

    /// Tries the fields that are the same in each file.
    fn check_form(head: &[u8]) -> Result<(), SparseError>
        requires { 28 ≤ length head.now }
        ensures { result_err result ≡ form_flaw (u16_at 4 head.now) (u16_at 6 head.now) (u16_at 8 head.now)
            (u16_at 10 head.now) }
    {
        if u16_at(head, 4) != 1 {
            return Err(SparseError::new(SparseKind::BadHeader, 4));
        }
        if u16_at(head, 6) != 0 {
            return Err(SparseError::new(SparseKind::BadHeader, 6));
        }
        if u16_at(head, 8) != HEADER as u16 {
            return Err(SparseError::new(SparseKind::BadHeader, 8));
        }
        if u16_at(head, 10) != HEAD as u16 {
            return Err(SparseError::new(SparseKind::BadHeader, 10));
        }
        Ok(())
    }

    /// Tries the block size, the blocks and the chunks.
    fn check_sizes(&self) -> Result<(), SparseError>
        ensures { result_err result ≡ size_flaw self.now }
    {
        if self.block % 512 != 0 || self.block < 512 || self.block > 65_536 {
            return Err(SparseError::new(SparseKind::BadBlockSize, 12));
        }
        if self.blocks == 0 {
            return Err(SparseError::new(SparseKind::BadHeader, 16));
        }
        if u64::from(self.blocks) * u64::from(self.block) > 1 << 44 {
            return Err(SparseError::new(SparseKind::TooLong, 16));
        }
        if self.chunks > 1_000_000 {
            return Err(SparseError::new(SparseKind::TooLong, 20));
        }
        Ok(())
    }
}

/// A file that begins with the magic number of sparse files.
pub fn is_sparse(file: &[u8]) -> bool
    ensures { result ≡ is_sparse file.now }
{
    file.starts_with(&[0x3a, 0xff, 0x26, 0xed])
}

/// How many zeros stand behind so many bytes of a raw file.
pub fn padding(len: u64) -> u64
    ensures sum { len + result ≡ round_up len }
    ensures short { result < 4096 }
{
    (4096 - len % 4096) % 4096
}

impl Head {
    /// The header at the front of a chunk.
    fn read(bytes: &[u8]) -> Head
        requires { 12 ≤ length bytes.now }
        ensures { result ≡ head_of bytes.now }
    {
        Head {
            kind: u16_at(bytes, 0),
            blocks: u32_at(bytes, 4),
            size: u32_at(bytes, 8),
        }
    }

    /// How many bytes follow the header, where the type is known.
    fn data_size(&self, block: u32) -> Option<u64>
        ensures { result ≡ data_size self.now.kind self.now.blocks block }
    {
        match self.kind {
            RAW => Some(u64::from(self.blocks) * u64::from(block)),
            FILL => Some(4),
            DONT_CARE => Some(0),
            _ => None,
        }
    }

    /// What a chunk of a known type holds, by the place of its data and the chunk's bytes.
    fn content(&self, place: u64, bytes: &[u8]) -> Content
        requires { self.now.kind ≡ 0xCAC2 → 16 ≤ length bytes.now }
        ensures { result ≡ content_of self.now.kind place (take 4 (drop 12 bytes.now)) }
    {
        match self.kind {
            RAW => Content::Raw(place),
            FILL => Content::Fill([bytes[12], bytes[13], bytes[14], bytes[15]]),
            _ => Content::DontCare,
        }
    }
}

impl Chunk {
    /// How many bytes of a sparse file the chunk takes, with its header.
    pub fn len(&self, block: u32) -> u64
        ensures { result ≡ chunk_len block self.now }
    {
        let data = match self.content {
            Content::Raw(_) => u64::from(self.blocks) * u64::from(block),
            Content::Fill(_) => 4,
            Content::DontCare => 0,
        };
        HEAD as u64 + data
    }
}

/// The chunk that begins at a place of the file, where `left` bytes are left of the file and `blocks`
/// of the image. The bytes are those that are left, or at least the first 16 of them.
#[tactic(auto, using(crate::proofs::WalkLemmas::front_lies), unfolding(crate::specs::Walks::front_of))]
pub fn front_chunk(
    block: u32,
    blocks: u32,
    place: u64,
    left: u64,
    bytes: &[u8],
) -> Result<Chunk, SparseError>
    requires fits { place + left < 2 ^ 64 }
    requires enough { min 16 left ≤ length bytes.now }
    ensures chunk { result ≡ front_of block blocks place left bytes.now }
    ensures due { IfOk result (λ chunk. chunk.blocks ≤ blocks) }
    ensures within { IfOk result (λ chunk. chunk_len block chunk ≤ left) }
    ensures lies { IfOk result (λ chunk. LiesIn (place + left) (chunk.blocks * block) chunk.content) }
{
    if left < HEAD as u64 {
        return Err(SparseError::new(SparseKind::Truncated, place + left));
    }
    let head = Head::read(bytes);
    if head.kind == CRC32 {
        return Err(SparseError::new(SparseKind::CrcChunk, place));
    }
    let Some(size) = head.data_size(block) else {
        return Err(SparseError::new(SparseKind::BadChunk, place));
    };
    if head.blocks > blocks {
        return Err(SparseError::new(SparseKind::CountMismatch, place + 4));
    }
    if u64::from(head.size) != HEAD as u64 + size {
        return Err(SparseError::new(SparseKind::BadChunk, place + 8));
    }
    if left < HEAD as u64 + size {
        return Err(SparseError::new(SparseKind::Truncated, place + left));
    }
    Ok(Chunk {
        blocks: head.blocks,
        content: head.content(place + HEAD as u64, bytes),
    })
}

/// Tries that nothing is due or left behind the last chunk.
pub fn check_end(blocks: u32, place: u64, left: u64) -> Result<(), SparseError>
    ensures { result_err result ≡ end_flaw blocks place left }
{
    if blocks > 0 {
        return Err(SparseError::new(SparseKind::CountMismatch, 16));
    }
    if left > 0 {
        return Err(SparseError::new(SparseKind::TrailingBytes, place));
    }
    Ok(())
}

/// Tries each chunk of a sparse file.
#[tactic(auto, using(crate::proofs::WalkSteps::walk_steps))]
pub fn check_chunks(file: &[u8], header: &Header) -> Result<(), SparseError>
    requires { 28 ≤ length file.now }
    ensures { result_err result ≡ result_err (walked header.now.chunks header.now.block header.now.blocks 28
        (drop 28 file.now)) }
{
    let mut blocks = header.blocks;
    let mut place = HEADER;
    for _ in 0..header.chunks {
        let rest = &file[place..];
        let chunk = front_chunk(header.block, blocks, place as u64, rest.len() as u64, rest)?;
        blocks -= chunk.blocks;
        place += chunk.len(header.block) as usize;
    }
    check_end(blocks, place as u64, (file.len() - place) as u64)?;
    Ok(())
}
