ghost use Rattle.std.specs.Prelude.{◌≡◌, ◌≤◌, ◌<◌, ◌^◌, true, false, length, Ok, IfSome, OnOk, OnErr};
ghost use Rattle.std.specs.Result.{IsErrOf};
ghost use Rattle.fb_frame.specs.Causes.{Rose};
ghost use Rattle.sparse_image.specs.Outside.{HasRoom, Fell};
ghost use Rattle.sparse_image.specs.Walks.{IsKept, IsChecked, checked};
ghost use Rattle.sparse_image.specs.Pieces.{behind_blocks, whole_len};
ghost use Rattle.sparse_image.specs.Cuts.{IsRest, PutsPart, PutsPartInPart, HasPartImage, part_len, part_bytes, rest_chunks};
ghost use Rattle.sparse_image.specs.Puts.{Puts, PutsInPart};
ghost use Rattle.sparse_image.specs.Reaches.{IsEnded};

use crate::errors::PieceFault;
use crate::index::Index;
use crate::out::Out;
use crate::puts::{copy, put_chunks, put_front, put_hole};
use crate::reach::Reach;
use crate::rest::Rest;
use crate::source::Bytes;
use crate::spell::header_bytes;
use crate::window::{AHEAD, Window};
use std::marker::Model;

/// How many bytes of a source are held at a time.
const WINDOW: usize = 65_536;

/// A piece of an image file: a file that a device takes by itself.
#[derive(Debug, Drop)]
pub struct Piece<'a> {
    index: &'a Index,
    whole: bool,
    first: u32,
    last: u32,
    size: u32,
    chunks: u32,
    rest: Rest<'a>,
}

impl<'a> Model for Piece<'a> {
    ghost use Rattle.sparse_image.specs.Cuts.{Part, IsPart};

    ghost Value = { Part };

    ghost view = { λ piece. record { kept = piece.index.now; whole = piece.whole; first = piece.first; last = piece.last } };

    ghost invariant = { λ piece. IsPart (record { kept = piece.index.now; whole = piece.whole; first = piece.first; last = piece.last }) piece.size piece.chunks piece.rest };
}

impl<'a> Piece<'a> {
    /// The whole file, of so many bytes.
    pub(crate) fn whole(index: &'a Index, size: u32, rest: Rest<'a>) -> Piece<'a>
        requires index { IsKept index.now }
        requires size { size ≡ whole_len index.now }
        ensures { result ≡ record { kept = index.now; whole = true; first = 0; last = index.now.blocks } }
    {
        Piece {
            index,
            whole: true,
            first: 0,
            last: index.blocks(),
            size,
            chunks: 0,
            rest,
        }
    }

    /// The piece from a block on, from which on these chunks are, up to where it reaches.
    pub(crate) fn cut(index: &'a Index, first: u32, rest: Rest<'a>, reach: &Reach<'a>) -> Piece<'a>
        requires index { IsKept index.now }
        requires ended { IsEnded index.now first reach.now }
        requires small { reach.now.max < 2 ^ 32 }
        requires well { IsRest rest }
        requires block { rest.block ≡ index.now.block }
        requires chunks { rest_chunks rest ≡ behind_blocks index.now.block first index.now.chunks }
        ensures { result ≡ record { kept = index.now; whole = false; first = first; last = reach.now.at } }
    {
        Piece {
            index,
            whole: false,
            first,
            last: reach.at,
            size: reach.bytes as u32,
            chunks: reach.chunks,
            rest,
        }
    }

    /// How many bytes the piece has.
    pub fn size(&self) -> u32
        ensures { result ≡ part_len self.now }
    {
        self.size
    }

    /// Writes a piece that isn't the whole file, through small reads where chunks are small.
    fn write_chunks<B: Bytes, O: Out>(
        &self,
        source: &mut B,
        out: &mut O,
        window: &mut [u8],
    ) -> Result<(), PieceFault>
        requires cut { self.now.whole ≡ false }
        requires some { 0 < length window.old }
        requires told { IfSome (B.content source.old) (λ file. checked file ≡ Ok self.now.kept) }
        requires room { HasRoom (O.room out.old) (part_len self.now) }
        ensures put { OnOk result (Puts (B.content source.old) (part_bytes self.now) (part_len self.now)
            (O.put_so_far out.old) (O.put_so_far out.new)) }
        ensures part { OnErr result (PutsInPart (B.content source.old) (part_bytes self.now)
            (part_len self.now) (O.put_so_far out.old) (O.put_so_far out.new)) }
        ensures room { OnOk result (Fell (O.room out.old) (O.room out.new) (part_len self.now)) }
        ensures out_same { O.lent out.new ≡ O.lent out.old }
        ensures out_whole { OnOk result (O.whole out.new ≡ O.whole out.old) }
        ensures read { IsErrOf result PieceFault.Read → Rose (B.faults source.old) (B.faults source.new) }
        ensures out { IsErrOf result PieceFault.Out → Rose (O.faults out.old) (O.faults out.new) }
        ensures content { B.content source.new ≡ B.content source.old }
        ensures same { B.lent source.new ≡ B.lent source.old }
        ensures size { B.size source.new ≡ B.size source.old }
        ensures read_later { B.faults source.old ≤ B.faults source.new }
        ensures out_later { O.faults out.old ≤ O.faults out.new }
    {
        let header = header_bytes(self.rest.block, self.index.blocks(), self.chunks);
        put_front(out, &header, self.first)?;
        put_chunks(source, out, window, self.rest, self.last - self.first)?;
        put_hole(out, self.index.blocks() - self.last)
    }

    /// Writes a piece that isn't the whole file. Of its small chunks the source is read ahead.
    fn write_cut<B: Bytes, O: Out>(
        &self,
        source: &mut B,
        out: &mut O,
        window: &mut [u8],
    ) -> Result<(), PieceFault>
        requires cut { self.now.whole ≡ false }
        requires some { 0 < length window.old }
        requires told { IfSome (B.content source.old) (λ file. checked file ≡ Ok self.now.kept) }
        requires room { HasRoom (O.room out.old) (part_len self.now) }
        ensures put { OnOk result (Puts (B.content source.old) (part_bytes self.now) (part_len self.now)
            (O.put_so_far out.old) (O.put_so_far out.new)) }
        ensures part { OnErr result (PutsInPart (B.content source.old) (part_bytes self.now)
            (part_len self.now) (O.put_so_far out.old) (O.put_so_far out.new)) }
        ensures room { OnOk result (Fell (O.room out.old) (O.room out.new) (part_len self.now)) }
        ensures out_same { O.lent out.new ≡ O.lent out.old }
        ensures out_whole { OnOk result (O.whole out.new ≡ O.whole out.old) }
        ensures read { IsErrOf result PieceFault.Read → Rose (B.faults source.old) (B.faults source.new) }
        ensures out { IsErrOf result PieceFault.Out → Rose (O.faults out.old) (O.faults out.new) }
        ensures content { B.content source.new ≡ B.content source.old }
        ensures same { B.lent source.new ≡ B.lent source.old }
        ensures size { B.size source.new ≡ B.size source.old }
        ensures read_later { B.faults source.old ≤ B.faults source.new }
        ensures out_later { O.faults out.old ≤ O.faults out.new }
    {
        let mut room = [0; AHEAD];
        let mut ahead = Window::new(source, &mut room);
        self.write_chunks(&mut ahead, out, window)
    }

    /// Writes the piece, from the source that was checked. After a fault a front of it was put.
    pub fn write<B: Bytes, O: Out>(&self, source: &mut B, out: &mut O) -> Result<(), PieceFault>
        requires len { B.size source.old ≡ self.now.kept.source_len }
        requires told { IsChecked (B.content source.old) (Ok self.now.kept) }
        requires room { HasRoom (O.room out.old) (part_len self.now) }
        ensures put { OnOk result (PutsPart self.now (B.content source.old) (O.put_so_far out.old)
            (O.put_so_far out.new)) }
        ensures part { OnErr result (PutsPartInPart self.now (B.content source.old) (O.put_so_far out.old)
            (O.put_so_far out.new)) }
        ensures room { OnOk result (Fell (O.room out.old) (O.room out.new) (part_len self.now)) }
        ensures out_same { O.lent out.new ≡ O.lent out.old }
        ensures out_whole { OnOk result (O.whole out.new ≡ O.whole out.old) }
        ensures read { IsErrOf result PieceFault.Read → Rose (B.faults source.old) (B.faults source.new) }
        ensures out { IsErrOf result PieceFault.Out → Rose (O.faults out.old) (O.faults out.new) }
        ensures content { B.content source.new ≡ B.content source.old }
        ensures same { B.lent source.new ≡ B.lent source.old }
        ensures size { B.size source.new ≡ B.size source.old }
        ensures read_later { B.faults source.old ≤ B.faults source.new }
        ensures out_later { O.faults out.old ≤ O.faults out.new }
        ensures image { HasPartImage self.now (B.content source.old) }
    {
        let mut window = [0; WINDOW];
        if self.whole {
            return copy(source, out, &mut window, 0, u64::from(self.size));
        }
        self.write_cut(source, out, &mut window)
    }
}
