ghost use Rattle.std.specs.Prelude.{◌≡◌, ℕ, List, Option, ◌++◌, ◌+◌, ◌-◌, ◌*◌, ◌^◌, ◌<◌, ◌≤◌, length, OnOk, OnErr};
ghost use Rattle.std.specs.List.{flat_map, sum_by};
ghost use Rattle.std.specs.Result.{IsErrOf};
ghost use Rattle.fb_frame.specs.Causes.{Rose, HasCause};
ghost use Rattle.sparse_image.specs.Outside.{Grew, GrewInPart, HasRoom, Fell};
ghost use Rattle.sparse_image.specs.Walks.{chunk_len, content_len, LiesIn};
ghost use Rattle.sparse_image.specs.Pieces.{first_blocks, hole};
ghost use Rattle.sparse_image.specs.Cuts.{rest_chunks, IsRest};
ghost use Rattle.sparse_image.specs.Puts.{Puts, PutsInPart, padded_part, padded_data, padded_chunk, padded_chunks, hole_bytes};

use crate::chunk::{Chunk, Content};
use crate::errors::PieceFault;
use crate::out::Out;
use crate::reads::read_padded;
use crate::rest::Rest;
use crate::source::Bytes;
use crate::spell::head_bytes;
use crate::walk::{DONT_CARE, HEAD};

/// Copies a window's worth of a source's bytes from a place on, with zeros behind their end.
#[tactic(auto, using(crate::proofs::WriteLemmas::puts))]
fn copy_window<B: Bytes, O: Out>(
    source: &mut B,
    out: &mut O,
    at: u64,
    window: &mut [u8],
) -> Result<(), PieceFault>
    requires some { 0 < length window.old }
    requires room { HasRoom (O.room out.old) (length window.old) }
    ensures put { OnOk result (Puts (B.content source.old) (padded_part at (length window.old))
        (length window.old) (O.put_so_far out.old) (O.put_so_far out.new)) }
    ensures part { OnErr result (PutsInPart (B.content source.old) (padded_part at (length window.old))
        (length window.old) (O.put_so_far out.old) (O.put_so_far out.new)) }
    ensures room { OnOk result (Fell (O.room out.old) (O.room out.new) (length window.old)) }
    ensures out_same { O.lent out.new ≡ O.lent out.old }
    ensures out_whole { OnOk result (O.whole out.new ≡ O.whole out.old) }
    ensures read { IsErrOf result PieceFault.Read → Rose (B.faults source.old) (B.faults source.new) }
    ensures out { IsErrOf result PieceFault.Out → Rose (O.faults out.old) (O.faults out.new) }
    ensures content { B.content source.new ≡ B.content source.old }
    ensures same { B.lent source.new ≡ B.lent source.old }
    ensures size { B.size source.new ≡ B.size source.old }
    ensures read_later { B.faults source.old ≤ B.faults source.new }
    ensures out_later { O.faults out.old ≤ O.faults out.new }
{
    let Ok(()) = read_padded(source, at, window) else {
        return Err(PieceFault::Read);
    };
    let Ok(()) = out.put(window) else {
        return Err(PieceFault::Out);
    };
    Ok(())
}

/// Copies so many bytes of a source from a place on, with zeros behind their end, a window's worth
/// at a time.
pub fn copy<B: Bytes, O: Out>(
    source: &mut B,
    out: &mut O,
    window: &mut [u8],
    at: u64,
    n: u64,
) -> Result<(), PieceFault>
    requires some { 0 < length window.old }
    requires fits { at + n < 2 ^ 64 }
    requires room { HasRoom (O.room out.old) n }
    ensures put { OnOk result (Puts (B.content source.old) (padded_part at n) n (O.put_so_far out.old)
        (O.put_so_far out.new)) }
    ensures part { OnErr result (PutsInPart (B.content source.old) (padded_part at n) n
        (O.put_so_far out.old) (O.put_so_far out.new)) }
    ensures room { OnOk result (Fell (O.room out.old) (O.room out.new) n) }
    ensures out_same { O.lent out.new ≡ O.lent out.old }
    ensures out_whole { OnOk result (O.whole out.new ≡ O.whole out.old) }
    ensures read { IsErrOf result PieceFault.Read → Rose (B.faults source.old) (B.faults source.new) }
    ensures out { IsErrOf result PieceFault.Out → Rose (O.faults out.old) (O.faults out.new) }
    ensures content { B.content source.new ≡ B.content source.old }
    ensures same { B.lent source.new ≡ B.lent source.old }
    ensures size { B.size source.new ≡ B.size source.old }
    ensures read_later { B.faults source.old ≤ B.faults source.new }
    ensures out_later { O.faults out.old ≤ O.faults out.new }
{
    let mut done = 0;
    while done < n {
        let size = (n - done).min(window.len() as u64) as usize;
        copy_window(source, out, at + done, &mut window[..size])?;
        done += size as u64;
    }
    Ok(())
}

/// Puts bytes, and turns a fault into the one of a piece.
fn put<O: Out>(out: &mut O, bytes: &[u8]) -> Result<(), PieceFault>
    requires { HasRoom (O.room out.old) (length bytes.now) }
    ensures all { OnOk result (Grew (O.put_so_far out.old) (O.put_so_far out.new) bytes.now) }
    ensures part { OnErr result (GrewInPart (O.put_so_far out.old) (O.put_so_far out.new) bytes.now) }
    ensures room { OnOk result (Fell (O.room out.old) (O.room out.new) (length bytes.now)) }
    ensures out_same { O.lent out.new ≡ O.lent out.old }
    ensures out_whole { OnOk result (O.whole out.new ≡ O.whole out.old) }
    ensures cause { HasCause (O.faults out.old) (O.faults out.new) result }
    ensures kind { ¬ IsErrOf result PieceFault.Read }
{
    let Ok(()) = out.put(bytes) else {
        return Err(PieceFault::Out);
    };
    Ok(())
}

/// Puts the data of a chunk, which has so many bytes of the image.
fn put_data<B: Bytes, O: Out>(
    source: &mut B,
    out: &mut O,
    window: &mut [u8],
    n: u64,
    content: Content,
) -> Result<(), PieceFault>
    requires some { 0 < length window.old }
    requires lies { LiesIn (2 ^ 64 - 1) n content }
    requires room { HasRoom (O.room out.old) (content_len n content) }
    ensures put { OnOk result (Puts (B.content source.old) (padded_data n content) (content_len n content)
        (O.put_so_far out.old) (O.put_so_far out.new)) }
    ensures part { OnErr result (PutsInPart (B.content source.old) (padded_data n content)
        (content_len n content) (O.put_so_far out.old) (O.put_so_far out.new)) }
    ensures room { OnOk result (Fell (O.room out.old) (O.room out.new) (content_len n content)) }
    ensures out_same { O.lent out.new ≡ O.lent out.old }
    ensures out_whole { OnOk result (O.whole out.new ≡ O.whole out.old) }
    ensures read { IsErrOf result PieceFault.Read → Rose (B.faults source.old) (B.faults source.new) }
    ensures out { IsErrOf result PieceFault.Out → Rose (O.faults out.old) (O.faults out.new) }
    ensures content { B.content source.new ≡ B.content source.old }
    ensures same { B.lent source.new ≡ B.lent source.old }
    ensures size { B.size source.new ≡ B.size source.old }
    ensures read_later { B.faults source.old ≤ B.faults source.new }
    ensures out_later { O.faults out.old ≤ O.faults out.new }
{
    match content {
        Content::Raw(place) => copy(source, out, window, place, n),
        Content::Fill(pattern) => put(out, &pattern),
        Content::DontCare => Ok(()),
    }
}

/// Puts a chunk of so many blocks of an image whose blocks have so many bytes.
fn put_chunk<B: Bytes, O: Out>(
    source: &mut B,
    out: &mut O,
    window: &mut [u8],
    block: u32,
    blocks: u32,
    content: Content,
) -> Result<(), PieceFault>
    requires some { 0 < length window.old }
    requires lies { LiesIn (2 ^ 64 - 1) (blocks * block) content }
    requires small { chunk_len block (record { blocks = blocks; content = content }) < 2 ^ 32 }
    requires room { HasRoom (O.room out.old) (chunk_len block
        (record { blocks = blocks; content = content })) }
    ensures put { OnOk result (Puts (B.content source.old) (padded_chunk block
        (record { blocks = blocks; content = content })) (chunk_len block
        (record { blocks = blocks; content = content })) (O.put_so_far out.old) (O.put_so_far out.new)) }
    ensures part { OnErr result (PutsInPart (B.content source.old) (padded_chunk block
        (record { blocks = blocks; content = content })) (chunk_len block
        (record { blocks = blocks; content = content })) (O.put_so_far out.old) (O.put_so_far out.new)) }
    ensures room { OnOk result (Fell (O.room out.old) (O.room out.new) (chunk_len block
        (record { blocks = blocks; content = content }))) }
    ensures out_same { O.lent out.new ≡ O.lent out.old }
    ensures out_whole { OnOk result (O.whole out.new ≡ O.whole out.old) }
    ensures read { IsErrOf result PieceFault.Read → Rose (B.faults source.old) (B.faults source.new) }
    ensures out { IsErrOf result PieceFault.Out → Rose (O.faults out.old) (O.faults out.new) }
    ensures content { B.content source.new ≡ B.content source.old }
    ensures same { B.lent source.new ≡ B.lent source.old }
    ensures size { B.size source.new ≡ B.size source.old }
    ensures read_later { B.faults source.old ≤ B.faults source.new }
    ensures out_later { O.faults out.old ≤ O.faults out.new }
{
    let n = u64::from(blocks) * u64::from(block);
    let size = Chunk { blocks, content }.len(block) as u32;
    put(out, &head_bytes(content.kind(), blocks, size))?;
    put_data(source, out, window, n, content)
}

/// Puts the first so many blocks of chunks.
pub fn put_chunks<B: Bytes, O: Out>(
    source: &mut B,
    out: &mut O,
    window: &mut [u8],
    mut rest: Rest<'_>,
    mut left: u32,
) -> Result<(), PieceFault>
    requires some { 0 < length window.old }
    requires rest { IsRest rest }
    requires small { sum_by (chunk_len rest.block) (first_blocks left (rest_chunks rest)) < 2 ^ 32 }
    requires room { HasRoom (O.room out.old) (sum_by (chunk_len rest.block) (first_blocks left
        (rest_chunks rest))) }
    ensures put { OnOk result (Puts (B.content source.old) (padded_chunks rest.entry.block
        (first_blocks left (rest_chunks rest.entry))) (sum_by (chunk_len rest.entry.block)
        (first_blocks left (rest_chunks rest.entry))) (O.put_so_far out.old) (O.put_so_far out.new)) }
    ensures part { OnErr result (PutsInPart (B.content source.old) (padded_chunks rest.entry.block
        (first_blocks left (rest_chunks rest.entry))) (sum_by (chunk_len rest.entry.block)
        (first_blocks left (rest_chunks rest.entry))) (O.put_so_far out.old) (O.put_so_far out.new)) }
    ensures room { OnOk result (Fell (O.room out.old) (O.room out.new) (sum_by (chunk_len rest.entry.block)
        (first_blocks left (rest_chunks rest.entry)))) }
    ensures out_same { O.lent out.new ≡ O.lent out.old }
    ensures out_whole { OnOk result (O.whole out.new ≡ O.whole out.old) }
    ensures read { IsErrOf result PieceFault.Read → Rose (B.faults source.old) (B.faults source.new) }
    ensures out { IsErrOf result PieceFault.Out → Rose (O.faults out.old) (O.faults out.new) }
    ensures content { B.content source.new ≡ B.content source.old }
    ensures same { B.lent source.new ≡ B.lent source.old }
    ensures size { B.size source.new ≡ B.size source.old }
    ensures read_later { B.faults source.old ≤ B.faults source.new }
    ensures out_later { O.faults out.old ≤ O.faults out.new }
{
    while left > 0 {
        let Some(chunk) = rest.front() else {
            return Ok(());
        };
        let blocks = chunk.blocks.min(left);
        put_chunk(source, out, window, rest.block, blocks, chunk.content)?;
        rest.advance(blocks);
        left -= blocks;
    }
    Ok(())
}

/// Puts a chunk of so many blocks that stay as they were, if there are any.
pub fn put_hole<O: Out>(out: &mut O, blocks: u32) -> Result<(), PieceFault>
    requires { HasRoom (O.room out.old) (length (hole_bytes blocks)) }
    ensures all { OnOk result (Grew (O.put_so_far out.old) (O.put_so_far out.new) (hole_bytes blocks)) }
    ensures part { OnErr result (GrewInPart (O.put_so_far out.old) (O.put_so_far out.new)
        (hole_bytes blocks)) }
    ensures some { OnErr result (0 < length (hole_bytes blocks)) }
    ensures room { OnOk result (Fell (O.room out.old) (O.room out.new) (length (hole_bytes blocks))) }
    ensures out_same { O.lent out.new ≡ O.lent out.old }
    ensures out_whole { OnOk result (O.whole out.new ≡ O.whole out.old) }
    ensures cause { HasCause (O.faults out.old) (O.faults out.new) result }
    ensures kind { ¬ IsErrOf result PieceFault.Read }
{
    if blocks == 0 {
        return Ok(());
    }
    put(out, &head_bytes(DONT_CARE, blocks, HEAD as u32))
}

/// Puts the header of a piece and the chunk of so many blocks before its first one.
pub fn put_front<O: Out>(out: &mut O, header: &[u8], first: u32) -> Result<(), PieceFault>
    requires room { HasRoom (O.room out.old) (length (header.now ++ hole_bytes first)) }
    ensures all { OnOk result (Grew (O.put_so_far out.old) (O.put_so_far out.new)
        (header.now ++ hole_bytes first)) }
    ensures part { OnErr result (GrewInPart (O.put_so_far out.old) (O.put_so_far out.new)
        (header.now ++ hole_bytes first)) }
    ensures room { OnOk result (Fell (O.room out.old) (O.room out.new) (length
        (header.now ++ hole_bytes first))) }
    ensures out_same { O.lent out.new ≡ O.lent out.old }
    ensures out_whole { OnOk result (O.whole out.new ≡ O.whole out.old) }
    ensures cause { HasCause (O.faults out.old) (O.faults out.new) result }
    ensures kind { ¬ IsErrOf result PieceFault.Read }
{
    put(out, header)?;
    put_hole(out, first)
}
