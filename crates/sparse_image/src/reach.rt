ghost use Rattle.std.specs.Prelude.{◌≡◌, ◌+◌, ◌-◌, ◌*◌, ◌^◌, ◌<◌, ◌≤◌, ◌⊎◌, ℕ, length, true, false, Some};
ghost use Rattle.std.specs.List.{sum_by};
ghost use Rattle.sparse_image.specs.Walks.{Kept, chunk_len, content_len};
ghost use Rattle.sparse_image.specs.Pieces.{behind_blocks, hole};
ghost use Rattle.sparse_image.specs.Cuts.{first_chunk, rest_chunks, IsRest};
ghost use Rattle.sparse_image.specs.Reaches.{Keeps, Breaks, IsReach, IsSame, Grows, GrowsInPart, Begins, IsGrown, IsEnded};

use crate::chunk::{Chunk, Content};
use crate::rest::Rest;
use crate::walk::{HEAD, HEADER};

/// The most chunks of a piece.
const MOST_CHUNKS: u32 = 1_000_000;

/// How far a piece reaches while it grows, and what it takes so far.
#[derive(Clone, Copy, Debug)]
pub struct Reach<'a> {
    /// The most bytes that it may have.
    max: u32,
    /// The image's blocks.
    blocks: u32,
    /// The block up to which it reaches.
    pub at: u32,
    /// Its bytes, without a chunk of skips at its end until it is ended.
    pub bytes: u64,
    /// Its chunks, counted in the same way.
    pub chunks: u32,
    /// The chunks behind it.
    pub rest: Rest<'a>,
}

/// How many bytes so many chunks of skips take.
fn holes_len(holes: u32) -> u64
    ensures { result ≡ 12 * holes }
{
    HEAD as u64 * u64::from(holes)
}

impl<'a> Reach<'a> {
    /// A piece without blocks yet, which begins at a block from which on these chunks are.
    fn begin(max: u32, blocks: u32, first: u32, rest: Rest<'a>) -> Reach<'a>
        ensures bytes { result.bytes ≡ 28 + 12 * length (hole first) }
        ensures chunks { result.chunks ≡ length (hole first) }
        ensures max { result.max ≡ max }
        ensures blocks { result.blocks ≡ blocks }
        ensures at { result.at ≡ first }
        ensures rest { result.rest ≡ rest.entry }
    {
        let holes = u32::from(first > 0);
        Reach {
            max,
            blocks,
            at: first,
            bytes: HEADER as u64 + holes_len(holes),
            chunks: holes,
            rest,
        }
    }

    /// Whether a chunk more of so many blocks and so many bytes keeps both bounds.
    fn fits(&self, blocks: u32, len: u64) -> bool
        requires within { self.now.at + blocks ≤ self.now.blocks }
        requires small { self.now.bytes + len + 12 < 2 ^ 64 }
        requires few { self.now.chunks ≤ 1000000 }
        ensures yes { result ≡ true → Keeps self.now blocks len }
        ensures no { result ≡ false → Breaks self.now blocks len }
    {
        let holes = u32::from(self.at + blocks < self.blocks);
        self.bytes + len + holes_len(holes) <= u64::from(self.max)
            && self.chunks + 1 + holes <= MOST_CHUNKS
    }

    /// Takes the next chunk, where it fits as it is.
    fn take_whole(&mut self, chunk: &Chunk) -> bool
        requires front { first_chunk (rest_chunks self.old.rest) ≡ Some chunk.now }
        requires reach { IsReach self.old }
        ensures taken { result ≡ true → Grows self.old chunk.now.blocks
            (chunk_len self.old.rest.block chunk.now) self.new }
        ensures reach { IsReach self.new }
        ensures breaks { result ≡ false
            → Breaks self.old chunk.now.blocks (chunk_len self.old.rest.block chunk.now) }
        ensures stays { result ≡ false → self.new ≡ self.old }
    {
        let len = chunk.len(self.rest.block);
        if !self.fits(chunk.blocks, len) {
            return false;
        }
        self.at += chunk.blocks;
        self.bytes += len;
        self.chunks += 1;
        self.rest.advance(chunk.blocks);
        true
    }

    /// How many blocks fit of a chunk that doesn't fit as it is.
    fn room(&self, chunk: &Chunk) -> u32
        requires reach { IsReach self.now }
        requires some { 0 < chunk.now.blocks }
        requires breaks { Breaks self.now chunk.now.blocks (chunk_len self.now.rest.block chunk.now) }
        ensures below { result < chunk.now.blocks }
        ensures size { 0 < result → self.now.bytes + (12 + content_len
            (result * self.now.rest.block) chunk.now.content) + 12 ≤ self.now.max }
        ensures few { 0 < result → self.now.chunks + 2 ≤ 1000000 }
        ensures full { (n : ℕ) → result < n → n < chunk.now.blocks
            → (self.now.max < self.now.bytes + (12 + content_len
            (n * self.now.rest.block) chunk.now.content) + 12) ⊎ (1000000 < self.now.chunks + 2) }
        ensures some { self.now.bytes ≤ 40 → self.now.chunks ≤ 1 → 0 < result }
    {
        let Content::Raw(_) = chunk.content else {
            return 0;
        };
        if self.chunks + 2 > MOST_CHUNKS {
            return 0;
        }
        let free = u64::from(self.max).saturating_sub(self.bytes + 2 * HEAD as u64);
        (free / u64::from(self.rest.block)) as u32
    }

    /// Takes as many blocks as fit of the next chunk, which doesn't fit as it is.
    fn take_part(&mut self, chunk: &Chunk)
        requires front { first_chunk (rest_chunks self.old.rest) ≡ Some chunk.now }
        requires reach { IsReach self.old }
        requires some { 0 < chunk.now.blocks }
        requires breaks { Breaks self.old chunk.now.blocks (chunk_len self.old.rest.block chunk.now) }
        ensures taken { GrowsInPart self.old chunk.now (self.new.at - self.old.at) self.new }
        ensures reach { IsReach self.new }
    {
        let blocks = self.room(chunk);
        if blocks == 0 {
            return;
        }
        let content = chunk.content;
        self.at += blocks;
        self.bytes += Chunk { blocks, content }.len(self.rest.block);
        self.chunks += 1;
        self.rest.advance(blocks);
    }

    /// Takes what fits of the chunks behind.
    fn grow(&mut self)
        requires { IsReach self.old }
        ensures grown { (kept : Kept) → Begins kept self.old → IsGrown kept self.old.at self.new }
        ensures same { IsSame self.old self.new }
        ensures reach { IsReach self.new }
    {
        while let Some(chunk) = self.rest.front() {
            if !self.take_whole(&chunk) {
                self.take_part(&chunk);
                return;
            }
        }
    }

    /// The longest piece of both bounds that begins at a block from which on these chunks are.
    pub fn of(max: u32, blocks: u32, first: u32, rest: Rest<'a>) -> Reach<'a>
        requires rest { IsRest rest }
        requires low { 512 ≤ rest.block }
        requires high { rest.block ≤ 65536 }
        requires large { 131072 ≤ max }
        requires total { first + sum_by (λ chunk. chunk.blocks) (rest_chunks rest) ≡ blocks }
        ensures piece { (kept : Kept) → kept.block ≡ rest.entry.block → kept.blocks ≡ blocks
            → first < blocks → rest_chunks rest.entry ≡ behind_blocks kept.block first kept.chunks
            → IsEnded kept first result }
        ensures max { result.max ≡ max }
        ensures rest { IsRest result.rest }
        ensures block { result.rest.block ≡ rest.entry.block }
    {
        let mut reach = Reach::begin(max, blocks, first, rest);
        reach.grow();
        let holes = u32::from(reach.at < blocks);
        reach.bytes += holes_len(holes);
        reach.chunks += holes;
        reach
    }
}
