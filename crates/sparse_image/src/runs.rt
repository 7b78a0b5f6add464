ghost use Rattle.std.specs.Prelude.{◌≡◌, ℕ, ◌+◌, ◌-◌, ◌*◌, ◌^◌, ◌<◌, ◌≤◌, [], length, IfOk, IfErr, Err};
ghost use Rattle.dev_model.specs.Images.{sparse_cells, raw_cells};
ghost use Rattle.sparse_image.specs.Walks.{sparse_checked, raw_checked, cells_of, LiesIn};
ghost use Rattle.sparse_image.specs.Runs.{IsImage, Gives, GivesFront, Advances, AreWhole, chunks_left, padded_left};

use crate::chunk::{Chunk, Content};
use crate::errors::{SparseError, SparseKind};
use crate::walk::{HEADER, Header, RAW_LIMIT, check_chunks, front_chunk, padding};
use std::marker::Model;

/// Bytes of an image that are written at a place.
#[derive(Clone, Copy, Debug)]
pub enum Run<'a> {
    /// These bytes.
    Copy {
        at: u64,
        bytes: &'a [u8],
    },
    /// Four bytes, again and again, `length` bytes together.
    Fill {
        at: u64,
        length: u64,
        pattern: [u8; 4],
    },
    /// The zeros behind a raw file.
    Zeros {
        at: u64,
        length: u64,
    },
}

/// What is left of a sparse file: the bytes of so many chunks, which have so many blocks.
#[derive(Clone, Copy, Debug)]
pub struct Chunks<'a> {
    bytes: &'a [u8],
    at: u64,
    block: u32,
    blocks: u32,
    chunks: u32,
}

/// What is left of a raw file: bytes, and zeros behind them.
#[derive(Clone, Copy, Debug)]
pub struct Padded<'a> {
    bytes: &'a [u8],
    at: u64,
    zeros: u64,
}

/// What is left of an image file.
#[derive(Clone, Copy, Debug)]
enum Walk<'a> {
    Sparse(Chunks<'a>),
    Raw(Padded<'a>),
}

impl<'a> Chunks<'a> {
    /// Takes the first chunk off. A raw chunk's place is counted from the bytes as they were.
    fn advance(&mut self) -> Chunk
        requires some { 0 < self.old.chunks }
        requires whole { AreWhole self.old }
        ensures advances { Advances (chunks_left self.old)
            (cells_of self.old.block self.old.bytes.now result) (chunks_left self.new) }
        ensures whole { AreWhole self.new }
        ensures fewer { self.new.chunks + 1 ≡ self.old.chunks }
        ensures block { self.new.block ≡ self.old.block }
        ensures lies { LiesIn (length self.old.bytes.now) (result.blocks * self.old.block) result.content }
        ensures long { length (cells_of self.old.block self.old.bytes.now result) ≡ result.blocks *
            self.old.block }
        ensures within { self.old.at + result.blocks * self.old.block ≤ self.old.at + self.old.blocks *
            self.old.block }
        ensures small { self.old.at + result.blocks * self.old.block < 2 ^ 64 }
    {
        let bytes = self.bytes;
        let Ok(chunk) = front_chunk(self.block, self.blocks, 0, bytes.len() as u64, bytes) else {
            unreachable!();
        };
        self.bytes = &bytes[chunk.len(self.block) as usize..];
        self.at += u64::from(chunk.blocks) * u64::from(self.block);
        self.blocks -= chunk.blocks;
        self.chunks -= 1;
        chunk
    }

    /// Takes the first chunk off, and gives its run.
    #[tactic(auto, using(crate::proofs::RunLemmas::fours))]
    fn take_front(&mut self) -> Option<Run<'a>>
        requires some { 0 < self.old.chunks }
        requires whole { AreWhole self.old }
        ensures gives { GivesFront (chunks_left self.old) result (chunks_left self.new) }
        ensures whole { AreWhole self.new }
        ensures fewer { self.new.chunks + 1 ≡ self.old.chunks }
    {
        let at = self.at;
        let bytes = self.bytes;
        let block = self.block;
        let chunk = self.advance();
        let length = u64::from(chunk.blocks) * u64::from(block);
        if length == 0 {
            return None;
        }
        match chunk.content {
            Content::Raw(place) => {
                let place = place as usize;
                Some(Run::Copy {
                    at,
                    bytes: &bytes[place..place + length as usize],
                })
            }
            Content::Fill(pattern) => Some(Run::Fill {
                at,
                length,
                pattern,
            }),
            Content::DontCare => None,
        }
    }

    /// The next run, past chunks that have none.
    #[tactic(auto, using(crate::proofs::RunLemmas::skips))]
    fn next_run(&mut self) -> Option<Run<'a>>
        requires { AreWhole self.old }
        ensures gives { Gives (chunks_left self.old) result (chunks_left self.new) }
        ensures whole { AreWhole self.new }
    {
        while self.chunks > 0 {
            if let Some(run) = self.take_front() {
                return Some(run);
            }
        }
        None
    }
}

impl<'a> Padded<'a> {
    /// The bytes, then the zeros.
    fn next_run(&mut self) -> Option<Run<'a>>
        requires { self.old.at + (length self.old.bytes.now + self.old.zeros) < 2 ^ 64 }
        ensures gives { Gives (padded_left self.old) result (padded_left self.new) }
        ensures small { self.new.at + (length self.new.bytes.now + self.new.zeros) < 2 ^ 64 }
    {
        let at = self.at;
        let bytes = self.bytes;
        if !bytes.is_empty() {
            self.bytes = &bytes[bytes.len()..];
            self.at += bytes.len() as u64;
            return Some(Run::Copy { at, bytes });
        }
        let length = self.zeros;
        if length > 0 {
            self.zeros = 0;
            self.at += length;
            return Some(Run::Zeros { at, length });
        }
        None
    }
}

/// The runs of an image, in ascending places.
#[derive(Debug, Drop)]
pub struct Runs<'a> {
    walk: Walk<'a>,
}

impl<'a> Model for Runs<'a> {
    ghost use Rattle.sparse_image.specs.Runs.{Left, walk_left, IsWalk};

    ghost Value = { Left };

    ghost view = { λ runs. walk_left runs.walk };

    ghost invariant = { λ runs. IsWalk runs.walk };
}

impl<'a> Runs<'a> {
    /// How many bytes the whole image has.
    pub fn len(&self) -> u64
        ensures { result ≡ self.now.len }
    {
        match self.walk {
            Walk::Sparse(chunks) => chunks.at + u64::from(chunks.blocks) * u64::from(chunks.block),
            Walk::Raw(padded) => padded.at + (padded.bytes.len() as u64 + padded.zeros),
        }
    }

    /// The next run, behind all earlier ones. None means that all that is left stays as it was.
    pub fn next(&mut self) -> Option<Run<'a>>
        ensures { Gives self.old result self.new }
    {
        match self.walk {
            Walk::Sparse(mut chunks) => {
                let run = chunks.next_run();
                self.walk = Walk::Sparse(chunks);
                run
            }
            Walk::Raw(mut padded) => {
                let run = padded.next_run();
                self.walk = Walk::Raw(padded);
                run
            }
        }
    }

    /// The runs of a sparse file, or the first thing that is wrong with it.
    pub(crate) fn sparse(file: &'a [u8]) -> Result<Runs<'a>, SparseError>
        ensures image { IfOk result (λ runs. IsImage (sparse_cells file.now) runs) }
        ensures flaw { IfErr result (λ flaw. sparse_checked file.now ≡ Err flaw) }
    {
        let header = Header::read(file, file.len() as u64)?;
        check_chunks(file, &header)?;
        let chunks = Chunks {
            bytes: &file[HEADER..],
            at: 0,
            block: header.block,
            blocks: header.blocks,
            chunks: header.chunks,
        };
        Ok(Runs {
            walk: Walk::Sparse(chunks),
        })
    }

    /// The runs of a raw file, or what is wrong with it.
    pub(crate) fn raw(file: &'a [u8]) -> Result<Runs<'a>, SparseError>
        ensures image { IfOk result (λ runs. IsImage (raw_cells file.now) runs) }
        ensures flaw { IfErr result (λ flaw. raw_checked file.now ≡ Err flaw) }
    {
        let len = file.len() as u64;
        if len > RAW_LIMIT {
            return Err(SparseError::new(SparseKind::TooLong, 0));
        }
        let padded = Padded {
            bytes: file,
            at: 0,
            zeros: padding(len),
        };
        Ok(Runs {
            walk: Walk::Raw(padded),
        })
    }
}
