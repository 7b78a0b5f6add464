//! A sparse image of drawn bytes.
ghost use Rattle.std.specs.Prelude.{◌≡◌, ◌≤◌, ◌*◌, ◌++◌, IfOk, OnOk};
ghost use Rattle.sparse_image.specs.Pieces.{head_bytes, header_bytes};
ghost use Rattle.sample_product.specs.Draws.{next};
ghost use Rattle.sample_product.specs.Images.{chunks, after_chunks, groups, sparse_image};

use crate::draws::Draws;
use std::alloc::{AllocError, Global};

const BLOCK: u32 = 4096;

/// The header of a sparse file of version 1.0, with image checksum 0.
fn header(blocks: u32, chunks: u32) -> [u8; 28]
    ensures { result ≡ header_bytes 4096 blocks chunks }
{
    let mut header = [0; 28];
    header[..12].copy_from_slice(b"\x3a\xff\x26\xed\x01\0\0\0\x1c\0\x0c\0");
    header[12..16].copy_from_slice(&BLOCK.to_le_bytes());
    header[16..20].copy_from_slice(&blocks.to_le_bytes());
    header[20..24].copy_from_slice(&chunks.to_le_bytes());
    header
}

/// The header of a chunk: its type, two reserved bytes, its blocks, its size with the header.
fn head(kind: u16, blocks: u32, size: u32) -> [u8; 12]
    ensures { result ≡ head_bytes kind blocks size }
{
    let mut head = [0; 12];
    head[..2].copy_from_slice(&kind.to_le_bytes());
    head[4..8].copy_from_slice(&blocks.to_le_bytes());
    head[8..].copy_from_slice(&size.to_le_bytes());
    head
}

/// Puts a chunk of one drawn block, one of two blocks of a drawn fill, and a block that stays as it is.
fn put_chunks(draws: &mut Draws, bytes: &mut Vec<u8>) -> Result<(), AllocError>
    ensures put { OnOk result (bytes.new.items ≡ bytes.old.items ++ chunks draws.old.state) }
    ensures after { OnOk result (draws.new.state ≡ after_chunks draws.old.state) }
{
    bytes.extend_from_slice(&head(0xCAC1, 1, 12 + BLOCK))?;
    draws.put_bytes(BLOCK, bytes)?;
    bytes.extend_from_slice(&head(0xCAC2, 2, 16))?;
    draws.put_bytes(4, bytes)?;
    bytes.extend_from_slice(&head(0xCAC3, 1, 12))?;
    Ok(())
}

/// Puts the three chunks this many times.
fn put_groups(count: u32, draws: &mut Draws, bytes: &mut Vec<u8>) -> Result<(), AllocError>
    ensures put { OnOk result (bytes.new.items ≡ bytes.old.items ++ groups count draws.old.state) }
{
    for _group in 0..count {
        put_chunks(draws, bytes)?;
    }
    Ok(())
}

/// A sparse image of three such chunks, 1 to 200 times.
pub fn sparse_image(alloc: Global, draws: &mut Draws) -> Result<Vec<u8>, AllocError>
    ensures image { IfOk result (λ bytes. bytes.items ≡ sparse_image draws.old.state) }
{
    let groups = draws.count(200);
    let mut bytes = Vec::new(alloc);
    bytes.extend_from_slice(&header(4 * groups, 3 * groups))?;
    put_groups(groups, draws, &mut bytes)?;
    Ok(bytes)
}
