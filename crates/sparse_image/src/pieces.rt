ghost use Rattle.std.specs.Prelude.{◌≡◌, ◌+◌, ◌≤◌, ◌<◌, IfSome};
ghost use Rattle.sparse_image.specs.Walks.{IsKept};
ghost use Rattle.sparse_image.specs.Pieces.{behind_blocks};
ghost use Rattle.sparse_image.specs.Cuts.{Cuts, IsRest, part_len, rest_chunks, most_left};

use crate::index::Index;
use crate::piece::Piece;
use crate::reach::Reach;
use crate::rest::Rest;
use std::marker::Model;

/// The pieces of an image file that are still to be given.
#[derive(Debug, Drop)]
pub struct Pieces<'a> {
    index: &'a Index,
    max: u32,
    first: u32,
    rest: Rest<'a>,
}

impl<'a> Model for Pieces<'a> {
    ghost use Rattle.sparse_image.specs.Cuts.{Cutting, IsCutting};

    ghost Value = { Cutting };

    ghost view = { λ pieces. record { kept = pieces.index.now; max = pieces.max; first = pieces.first } };

    ghost invariant = { λ pieces. IsCutting pieces.index.now pieces.max pieces.first pieces.rest };
}

impl<'a> Pieces<'a> {
    /// All pieces of an image whose chunks these are.
    pub(crate) fn new(index: &'a Index, max: u32, rest: Rest<'a>) -> Pieces<'a>
        requires index { IsKept index.now }
        requires large { 131072 ≤ max }
        requires well { IsRest rest }
        requires block { rest.block ≡ index.now.block }
        requires chunks { rest_chunks rest ≡ behind_blocks index.now.block 0 index.now.chunks }
        ensures { result ≡ record { kept = index.now; max = max; first = 0 } }
    {
        Pieces {
            index,
            max,
            first: 0,
            rest,
        }
    }

    /// The next piece, which begins where the one before it ended. None means that all were given.
    #[tactic(auto, using(crate::proofs::MostLemmas::mosts))]
    pub fn next(&mut self) -> Option<Piece<'a>>
        ensures next { Cuts self.old result self.new }
        ensures more { IfSome result (λ part. part.first < part.last) }
        ensures most { IfSome result (λ part. part_len part + most_left self.new ≤ most_left self.old + 64) }
        ensures within { IfSome result (λ part. part.last ≤ part.kept.blocks) }
        ensures size { IfSome result (λ part. part_len part ≤ self.old.max) }
    {
        let index = self.index;
        let first = self.first;
        let rest = self.rest;
        if first == index.blocks() {
            return None;
        }
        let len = index.whole_len();
        if len <= u64::from(self.max) {
            self.first = index.blocks();
            return Some(Piece::whole(index, len as u32, rest));
        }
        let reach = Reach::of(self.max, index.blocks(), first, rest);
        self.first = reach.at;
        self.rest = reach.rest;
        Some(Piece::cut(index, first, rest, &reach))
    }
}
