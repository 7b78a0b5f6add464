ghost use Rattle.std.specs.Prelude.{◌≡◌};
ghost use Rattle.sparse_image.specs.Pieces.{head_bytes, header_bytes, kind_of};

use crate::chunk::Content;
use crate::walk::{DONT_CARE, FILL, HEAD, HEADER, RAW};

impl Content {
    /// The type that a chunk's header tells of its content.
    pub fn kind(&self) -> u16
        ensures { result ≡ kind_of self.now }
    {
        match self {
            Content::Raw(_) => RAW,
            Content::Fill(_) => FILL,
            Content::DontCare => DONT_CARE,
        }
    }
}

/// The header of a sparse file, with image checksum 0.
pub fn header_bytes(block: u32, blocks: u32, chunks: u32) -> [u8; HEADER]
    ensures { result ≡ header_bytes block blocks chunks }
{
    let mut header = [0; HEADER];
    header[..12].copy_from_slice(b"\x3a\xff\x26\xed\x01\0\0\0\x1c\0\x0c\0");
    header[12..16].copy_from_slice(&block.to_le_bytes());
    header[16..20].copy_from_slice(&blocks.to_le_bytes());
    header[20..24].copy_from_slice(&chunks.to_le_bytes());
    header
}

/// The header of a chunk: its type, two reserved bytes, its blocks, its size with the header.
pub fn head_bytes(kind: u16, blocks: u32, size: u32) -> [u8; HEAD]
    ensures { result ≡ head_bytes kind blocks size }
{
    let mut head = [0; HEAD];
    head[..2].copy_from_slice(&kind.to_le_bytes());
    head[4..8].copy_from_slice(&blocks.to_le_bytes());
    head[8..].copy_from_slice(&size.to_le_bytes());
    head
}
