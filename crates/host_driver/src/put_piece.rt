//! A piece of an image is downloaded and flashed.
ghost use Rattle.std.specs.Prelude.{◌≡◌, ◌≤◌, Ok, IfOk, IfErr};
ghost use Rattle.fb_frame.specs.Causes.{Rose};
ghost use Rattle.fb_link.specs.Seen.{seen};
ghost use Rattle.sparse_image.specs.Cuts.{part_len};
ghost use Rattle.sparse_image.specs.Walks.{IsChecked};
ghost use Rattle.wire_told.specs.Peers.{OfLink};
ghost use Rattle.host_driver.specs.PutPieces.{ArePart, IsUnread};
ghost use Rattle.host_driver.specs.Puts.{HasFlashed, FlashFails, HasPut, PutFails, put_cost};
ghost use Rattle.host_driver.specs.Stepping.{Serving};

use crate::drive::DriveError;
use crate::load_piece::load_piece;
use crate::step::stopped;
use fb_frame::name::Name;
use fb_frame::sink::Sink;
use fb_frame::word::Word;
use fb_link::port::Port;
use fb_link::states::{Answer, Lost, Ready};
use fb_message::command::Command;
use sparse_image::piece::Piece;
use sparse_image::source::Bytes;

/// Flashes what was loaded onto the partition.
#[tactic(auto, using(crate::proofs::FlashLemmas::flashes))]
fn flash_loaded<P: Port, S: Sink>(
    ready: Ready<P>,
    name: &Name,
    shown: &mut S,
) -> Result<Ready<P>, (Lost<P>, DriveError)>
    requires serving { Serving 4104 (P.told ready).peer }
    ensures flashed { IfOk result (λ r. HasFlashed name.now
        (seen (P.told ready) (S.text shown.old)) (seen (P.told r) (S.text shown.new))) }
    ensures fails { IfErr result (λ e. FlashFails name.now
        (seen (P.told ready) (S.text shown.old)) (seen (P.told e.0) (S.text shown.new)) e.1) }
    ensures same { IfOk result (λ r. P.lent r ≡ P.lent ready) }
    ensures same_lost { IfErr result (λ e. P.lent e.0 ≡ P.lent ready) }
    ensures shown_later { S.faults shown.old ≤ S.faults shown.new }
    ensures output { IfErr result (λ e.
        e.1 ≡ DriveError.Output → Rose (S.faults shown.old) (S.faults shown.new)) }
{
    let _bytes = name.bytes();
    match ready.command(&Command::Flash(*name), shown) {
        Answer::Okay(ready, _) => Ok(ready),
        Answer::Fail(ready, text) => Err((ready.hang_up(), DriveError::Refused(text))),
        Answer::Broken(lost, error) => Err((lost, stopped(error))),
        Answer::Load(_) => unreachable!(),
        Answer::Unshown(lost) => Err((lost, DriveError::Output)),
    }
}

/// Downloads a piece of this file and flashes it onto the partition.
#[tactic(auto, using(crate::proofs::PutPieceLemmas::puts))]
pub(crate) fn put_piece<P: Port, B: Bytes, S: Sink>(
    ready: Ready<P>,
    name: &Name,
    piece: &Piece<'_>,
    file: &Word,
    source: &mut B,
    shown: &mut S,
) -> Result<Ready<P>, (Lost<P>, DriveError)>
    requires serving { Serving (put_cost (part_len piece.now)) (P.told ready).peer }
    requires fits { OfLink (λ w. part_len piece.now ≤ w.device.max) (P.told ready).peer }
    requires len { B.size source.old ≡ piece.now.kept.source_len }
    requires told { IsChecked (B.content source.old) (Ok piece.now.kept) }
    ensures put { IfOk result (λ r. HasPut (record {
      name = name.now;
      Wanted = ArePart (B.content source.old) piece.now;
      Files = IsUnread file.now (B.faults source.old) (B.faults source.new);
    }) (put_cost (part_len piece.now))
        (seen (P.told ready) (S.text shown.old)) (seen (P.told r) (S.text shown.new))) }
    ensures fails { IfErr result (λ e. PutFails (record {
      name = name.now;
      Wanted = ArePart (B.content source.old) piece.now;
      Files = IsUnread file.now (B.faults source.old) (B.faults source.new);
    })
        (seen (P.told ready) (S.text shown.old)) (seen (P.told e.0) (S.text shown.new)) e.1) }
    ensures same { IfOk result (λ r. P.lent r ≡ P.lent ready) }
    ensures same_lost { IfErr result (λ e. P.lent e.0 ≡ P.lent ready) }
    ensures shown_later { S.faults shown.old ≤ S.faults shown.new }
    ensures output { IfErr result (λ e.
        e.1 ≡ DriveError.Output → Rose (S.faults shown.old) (S.faults shown.new)) }
    ensures content { B.content source.new ≡ B.content source.old }
    ensures size { B.size source.new ≡ B.size source.old }
    ensures source_same { B.lent source.new ≡ B.lent source.old }
    ensures read_later { B.faults source.old ≤ B.faults source.new }
{
    match load_piece(ready, piece, file, source, shown) {
        Ok(ready) => match flash_loaded(ready, name, shown) {
            Ok(ready) => Ok(ready),
            Err(stop) => Err(stop),
        },
        Err(stop) => Err(stop),
    }
}
