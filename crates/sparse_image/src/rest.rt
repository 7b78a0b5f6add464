ghost use Rattle.std.specs.Prelude.{◌≡◌, ◌+◌, ◌-◌, ◌*◌, ◌^◌, ◌<◌, ◌≤◌, [], ◌∷◌, ◌++◌, length, IfSome, Some};
ghost use Rattle.std.specs.List.{All};
ghost use Rattle.sparse_image.specs.Walks.{LiesIn};
ghost use Rattle.sparse_image.specs.Pieces.{behind_blocks, content_behind};
ghost use Rattle.sparse_image.specs.Cuts.{first_chunk, rest_chunks, IsRest};

use crate::chunk::{Chunk, Content};

/// The chunks of an image from one of its blocks on, which may lie inside the first of them.
#[derive(Clone, Copy, Debug)]
pub struct Rest<'a> {
    /// How many bytes a block has.
    pub block: u32,
    /// How many blocks of the first chunk are left out.
    skip: u32,
    chunks: &'a [Chunk],
}

impl Content {
    /// What is left of the content behind so many of its bytes.
    fn behind(self, n: u64) -> Content
        requires { LiesIn (2 ^ 64 - 1) n self }
        ensures { result ≡ content_behind n self }
    {
        match self {
            Content::Raw(place) => Content::Raw(place + n),
            Content::Fill(pattern) => Content::Fill(pattern),
            Content::DontCare => Content::DontCare,
        }
    }
}

#[tactic(auto, using(crate::proofs::RestLemmas::insides))]
impl<'a> Rest<'a> {
    /// All of some chunks, whose blocks have so many bytes.
    pub fn new(block: u32, chunks: &'a [Chunk]) -> Rest<'a>
        requires some { All (λ chunk. 0 < chunk.blocks) chunks.now }
        requires lies { All (λ chunk. LiesIn (2 ^ 64 - 1) (chunk.blocks * block) chunk.content) chunks.now }
        ensures chunks { rest_chunks result ≡ behind_blocks block 0 chunks.now }
        ensures rest { IsRest result }
        ensures block { result.block ≡ block }
    {
        Rest {
            block,
            skip: 0,
            chunks,
        }
    }

    /// The next chunk, or what is left of it.
    pub fn front(&self) -> Option<Chunk>
        requires { IsRest self.now }
        ensures front { result ≡ first_chunk (rest_chunks self.now) }
        ensures some { IfSome result (λ chunk. 0 < chunk.blocks) }
        ensures lies { IfSome result (λ chunk. LiesIn (2 ^ 64 - 1)
            (chunk.blocks * self.now.block) chunk.content) }
    {
        let (chunk, _) = self.chunks.split_first()?;
        let behind = u64::from(self.skip) * u64::from(self.block);
        Some(Chunk {
            blocks: chunk.blocks - self.skip,
            content: chunk.content.behind(behind),
        })
    }

    /// Goes past so many blocks of the next chunk.
    pub fn advance(&mut self, blocks: u32)
        requires rest { IsRest self.old }
        requires within { IfSome (first_chunk (rest_chunks self.old)) (λ chunk. blocks ≤ chunk.blocks) }
        ensures chunks { rest_chunks self.new ≡ behind_blocks self.old.block blocks (rest_chunks self.old) }
        ensures rest { IsRest self.new }
        ensures block { self.new.block ≡ self.old.block }
    {
        let Some((chunk, more)) = self.chunks.split_first() else {
            return;
        };
        if blocks == chunk.blocks - self.skip {
            self.chunks = more;
            self.skip = 0;
        } else {
            self.skip += blocks;
        }
    }
}
