//! An image is put over a partition, in the pieces that a device takes.
ghost use Rattle.std.specs.Prelude.{◌≡◌, ◌≤◌, Ok, IfOk, IfErr, IfSome};
ghost use Rattle.fb_frame.specs.Causes.{Rose};
ghost use Rattle.fb_link.specs.Seen.{seen};
ghost use Rattle.sparse_image.specs.Walks.{IsChecked};
ghost use Rattle.wire_told.specs.Peers.{OfLink};
ghost use Rattle.host_driver.specs.PutPieces.{IsUnread};
ghost use Rattle.host_driver.specs.Puts.{HasPutAll, PutBreaks, image_cost};
ghost use Rattle.host_driver.specs.Stepping.{Serving};

use crate::drive::DriveError;
use crate::put_piece::put_piece;
use fb_frame::name::Name;
use fb_frame::sink::Sink;
use fb_frame::word::Word;
use fb_link::port::Port;
use fb_link::states::{Lost, Ready};
use sparse_image::index::Index;
use sparse_image::source::Bytes;

/// Puts the image of this file over the partition, in pieces of at most `most` bytes.
#[tactic(auto, using(crate::proofs::PutLemmas::puts))]
pub fn put<P: Port, B: Bytes, S: Sink>(
    ready: Ready<P>,
    name: &Name,
    index: &Index,
    most: u32,
    file: &Word,
    source: &mut B,
    shown: &mut S,
) -> Result<Ready<P>, (Lost<P>, DriveError)>
    requires large { 131072 ≤ most }
    requires serving { Serving (image_cost index.now) (P.told ready).peer }
    requires fits { OfLink (λ w. most ≤ w.device.max) (P.told ready).peer }
    requires len { B.size source.old ≡ index.now.source_len }
    requires told { IsChecked (B.content source.old) (Ok index.now) }
    ensures put { IfOk result (λ r. HasPutAll (record {
      name = name.now;
      kept = index.now;
      most = most;
      told = B.content source.old;
    }) (seen (P.told ready) (S.text shown.old)) (seen (P.told r) (S.text shown.new))) }
    ensures breaks { IfErr result (λ e. PutBreaks
        (IsUnread file.now (B.faults source.old) (B.faults source.new)) (record {
          name = name.now;
          kept = index.now;
          most = most;
          told = B.content source.old;
        }) (seen (P.told ready) (S.text shown.old)) (seen (P.told e.0) (S.text shown.new)) e.1) }
    ensures same { IfOk result (λ r. P.lent r ≡ P.lent ready) }
    ensures same_lost { IfErr result (λ e. P.lent e.0 ≡ P.lent ready) }
    ensures shown_later { S.faults shown.old ≤ S.faults shown.new }
    ensures output { IfErr result (λ e.
        e.1 ≡ DriveError.Output → Rose (S.faults shown.old) (S.faults shown.new)) }
    ensures content { B.content source.new ≡ B.content source.old }
    ensures size { B.size source.new ≡ B.size source.old }
    ensures source_same { B.lent source.new ≡ B.lent source.old }
    ensures read_later { B.faults source.old ≤ B.faults source.new }
{
    let _len = index.len();
    let mut pieces = index.pieces(most);
    let mut ready = ready;
    while let Some(piece) = pieces.next() {
        match put_piece(ready, name, &piece, file, source, shown) {
            Ok(next) => ready = next,
            Err(stop) => return Err(stop),
        }
    }
    Ok(ready)
}
