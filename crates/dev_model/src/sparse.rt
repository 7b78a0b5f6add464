ghost use Rattle.std.specs.Prelude.{◌≡◌, ◌≤◌, ◌*◌, ◌+◌, ◌^◌, ◌%◌, length, replicate, ◌&&◌, ◌==◌, nat_le, nat_lt, IfOk};
ghost use Rattle.dev_model.specs.declared.cells.Cell.TheVariants.{Skip};
ghost use Rattle.dev_model.specs.Chunks.{FirstChunk, cells_of};
ghost use Rattle.fb_frame.specs.Fields.{u16_at, u32_at};
ghost use Rattle.dev_model.specs.Images.{is_sparse, header_is_good, data_size, chunk_cells, chunks_cells, sparse_cells, copies, image};

use crate::cells::{Cell, Cells};
use crate::images::{byte_cells, raw_cells};
use fb_frame::fields::{u16_at, u32_at};
use fb_frame::items::Items;
use fb_frame::memory::Memory;
use std::alloc::Global;

const HEADER: usize = 28;

const CHUNK_HEADER: usize = 12;

/// Whether a file begins with the sparse magic.
fn is_sparse(file: &[u8]) -> bool
    ensures { result ≡ is_sparse file.now }
{
    file.starts_with([0x3A, 0xFF, 0x26, 0xED].as_slice())
}

fn versions_are_good(file: &[u8]) -> bool
    requires { 28 ≤ length file.now }
    ensures { result ≡ (u16_at 4 file.now == 1 && u16_at 6 file.now == 0 && u16_at 8 file.now == 28
        && u16_at 10 file.now == 12) }
{
    u16_at(file, 4) == 1 && u16_at(file, 6) == 0 && u16_at(file, 8) == 28 && u16_at(file, 10) == 12
}

fn block_is_good(block: u32) -> bool
    ensures { result ≡ (block % 512 == 0 && nat_le 512 block && nat_le block 65536) }
{
    block % 512 == 0 && 512 <= block && block <= 65536
}

fn counts_are_good(blocks: u32, block: u32, chunks: u32) -> bool
    ensures { result ≡ (nat_lt 0 blocks && nat_le (blocks * block) (2 ^ 44) && nat_le chunks 1000000) }
{
    0 < blocks && blocks as u64 * block as u64 <= 1 << 44 && chunks <= 1000000
}

/// Whether a file has a header that a sparse image may have.
fn header_is_good(file: &[u8]) -> bool
    ensures { result ≡ header_is_good file.now }
{
    HEADER <= file.len()
        && versions_are_good(file)
        && block_is_good(u32_at(file, 12))
        && counts_are_good(u32_at(file, 16), u32_at(file, 12), u32_at(file, 20))
}

/// How many bytes of data follow a chunk's header, where its type is known.
fn data_size(kind: u16, blocks: u32, block: u32) -> Option<u64>
    ensures { result ≡ data_size kind blocks block }
{
    match kind {
        0xCAC1 => Some(blocks as u64 * block as u64),
        0xCAC2 => Some(4),
        0xCAC3 => Some(0),
        _ => None,
    }
}

/// The same cells so many times, one after another.
#[tactic(auto, using(crate::proofs::ChunkLemmas::copies_turns))]
fn copies(alloc: Global, count: u64, cells: &[Cell]) -> Result<Cells, Memory>
    ensures { IfOk result (λ all. all ≡ copies count cells.now) }
{
    let mut all = Vec::new(alloc);
    for i in 0..count {
        all.extend_from_slice(cells).map_err(|_| Memory)?;
    }
    Ok(Items::from_vec(all))
}

fn skips(alloc: Global, count: u64) -> Result<Cells, Memory>
    ensures { IfOk result (λ cells. cells ≡ replicate count Skip) }
{
    let mut cells = Vec::new(alloc);
    for i in 0..count {
        cells.push(Cell::Skip).map_err(|_| Memory)?;
    }
    Ok(Items::from_vec(cells))
}

/// The cells of a chunk: its bytes, its four bytes repeated, or skips.
fn chunk_cells(
    alloc: Global,
    kind: u16,
    blocks: u32,
    block: u32,
    content: &[u8],
) -> Result<Cells, Memory>
    ensures { IfOk result (λ cells. cells ≡ chunk_cells kind blocks block content.now) }
{
    let len = blocks as u64 * block as u64;
    match kind {
        0xCAC1 => byte_cells(alloc, content),
        0xCAC2 => {
            let four = byte_cells(alloc, content)?;
            copies(alloc, len / 4, four.as_slice())
        }
        _ => skips(alloc, len),
    }
}

/// A chunk: its type, how many blocks it has, and its data.
#[derive(Clone, Copy)]
struct Chunk<'a> {
    kind: u16,
    blocks: u32,
    data: &'a [u8],
}

/// The chunk at the front, None where there is none that fits so many blocks.
#[tactic(auto, using(crate::proofs::ChunkLemmas::first_chunks))]
fn first_chunk(bytes: &[u8], block: u32, blocks: u32) -> Option<Chunk>
    ensures { FirstChunk block blocks bytes.now result }
{
    if bytes.len() < CHUNK_HEADER {
        return None;
    }
    let kind = u16_at(bytes, 0);
    let own = u32_at(bytes, 4);
    let total = u32_at(bytes, 8);
    let size = data_size(kind, own, block)?;
    let data = &bytes[CHUNK_HEADER..];
    if own > blocks {
        return None;
    }
    if total < 12 {
        return None;
    }
    if total as u64 - 12 != size {
        return None;
    }
    if size > data.len() as u64 {
        return None;
    }
    Some(Chunk {
        kind,
        blocks: own,
        data: &data[..size as usize],
    })
}

/// The cells of so many chunks, which are all of the bytes and have so many blocks.
#[tactic(auto, using(crate::proofs::ChunkLemmas::chunk_turns))]
fn chunks_cells(
    alloc: Global,
    chunks: u32,
    block: u32,
    blocks: u32,
    bytes: &[u8],
) -> Result<Option<Cells>, Memory>
    ensures { IfOk result (λ cells. cells ≡ cells_of chunks block blocks bytes.now) }
{
    let mut cells = Vec::new(alloc);
    let mut left = blocks;
    let mut rest = bytes;
    for i in 0..chunks {
        let Some(chunk) = first_chunk(rest, block, left) else {
            return Ok(None);
        };
        let more = chunk_cells(alloc, chunk.kind, chunk.blocks, block, chunk.data)?;
        cells
            .extend_from_slice(more.as_slice())
            .map_err(|_| Memory)?;
        left -= chunk.blocks;
        rest = &rest[CHUNK_HEADER + chunk.data.len()..];
    }
    if rest.is_empty() && left == 0 {
        Ok(Some(Items::from_vec(cells)))
    } else {
        Ok(None)
    }
}

#[tactic(auto, using(crate::proofs::ChunkLemmas::sparse_files))]
fn sparse_cells(alloc: Global, file: &[u8]) -> Result<Option<Cells>, Memory>
    ensures { IfOk result (λ cells. cells ≡ sparse_cells file.now) }
{
    if !header_is_good(file) {
        return Ok(None);
    }
    let chunks = u32_at(file, 20);
    let block = u32_at(file, 12);
    let blocks = u32_at(file, 16);
    let cells = chunks_cells(alloc, chunks, block, blocks, &file[HEADER..])?;
    Ok(cells)
}

/// The image of a file, where it has one. A file that begins with the sparse magic is a sparse image
/// (sparse_format.h, version 1.0); any other file is padded with zeros to whole blocks of 4,096 bytes.
#[tactic(auto, unfolding(crate::specs::Images::image))]
pub fn image(alloc: Global, file: &[u8]) -> Result<Option<Cells>, Memory>
    ensures { IfOk result (λ cells. cells ≡ image file.now) }
{
    if file.is_empty() {
        return Ok(None);
    }
    if is_sparse(file) {
        sparse_cells(alloc, file)
    } else {
        raw_cells(alloc, file)
    }
}
