//! A piece of an image is downloaded.
ghost use Rattle.std.specs.Prelude.{◌≡◌, ◌≤◌, [], IsTrue, Ok, IfOk, IfErr};
ghost use Rattle.fb_frame.specs.Causes.{Rose};
ghost use Rattle.fb_link.specs.Seen.{seen};
ghost use Rattle.sparse_image.specs.Cuts.{part_len};
ghost use Rattle.sparse_image.specs.Walks.{IsChecked};
ghost use Rattle.wire_told.specs.Answered.{Free, Downloading};
ghost use Rattle.wire_told.specs.Peers.{OfLink};
ghost use Rattle.host_driver.specs.HeardLast.{HeardThen};
ghost use Rattle.host_driver.specs.PutPieces.{HasBegun, HasEnded, HeardLoad, IsUnloaded};
ghost use Rattle.host_driver.specs.PutPieces.{AreLoaded, ArePart, GoesOn, IsUnread};
ghost use Rattle.host_driver.specs.Stepping.{NoFiles};

use crate::drive::DriveError;
use crate::send_piece::send_piece;
use crate::step::stopped;
use fb_frame::sink::Sink;
use fb_frame::word::Word;
use fb_link::port::Port;
use fb_link::states::{Answer, Lost, Ready, Sending};
use fb_message::command::Command;
use sparse_image::errors::PieceFault;
use sparse_image::piece::Piece;
use sparse_image::source::Bytes;

/// Announces a download of so many bytes.
#[tactic(auto, using(crate::proofs::LoadLemmas::announces))]
pub(crate) fn announce<P: Port, S: Sink>(
    ready: Ready<P>,
    size: u32,
    shown: &mut S,
) -> Result<Sending<P>, (Lost<P>, DriveError)>
    requires free { Free (P.told ready).peer }
    requires fits { OfLink (λ w. size ≤ w.device.max) (P.told ready).peer }
    ensures left { IfOk result (λ s. s.left ≡ size) }
    ensures begun { IfOk result (λ s. HasBegun size
        (seen (P.told ready) (S.text shown.old)) (seen (P.told s.port) (S.text shown.new)) s.lines) }
    ensures same { IfOk result (λ s. P.lent s.port ≡ P.lent ready) }
    ensures same_lost { IfErr result (λ e. P.lent e.0 ≡ P.lent ready) }
    ensures unloaded { IfErr result (λ e. IsUnloaded NoFiles (HeardThen (P.told ready).heard [])
        (seen (P.told ready) (S.text shown.old)) (seen (P.told e.0) (S.text shown.new)) e.1) }
    ensures shown_later { S.faults shown.old ≤ S.faults shown.new }
    ensures output { IfErr result (λ e.
        e.1 ≡ DriveError.Output → Rose (S.faults shown.old) (S.faults shown.new)) }
{
    match ready.command(&Command::Download(size), shown) {
        Answer::Load(sending) => Ok(sending),
        Answer::Fail(ready, text) => Err((ready.hang_up(), DriveError::Refused(text))),
        Answer::Broken(lost, error) => Err((lost, stopped(error))),
        Answer::Okay(_, _) => unreachable!(),
        Answer::Unshown(lost) => Err((lost, DriveError::Output)),
    }
}

/// Hears the end of a download of which all data was sent.
pub(crate) fn conclude<P: Port, S: Sink>(
    sending: Sending<P>,
    shown: &mut S,
) -> Result<Ready<P>, (Lost<P>, DriveError)>
    requires all { sending.left ≡ 0 }
    requires sending { Downloading 0 (P.told sending.port).peer }
    ensures ended { IfOk result (λ r. HasEnded sending.lines
        (seen (P.told sending.port) (S.text shown.old)) (seen (P.told r) (S.text shown.new))) }
    ensures same { IfOk result (λ r. P.lent r ≡ P.lent sending.port) }
    ensures same_lost { IfErr result (λ e. P.lent e.0 ≡ P.lent sending.port) }
    ensures unloaded { IfErr result (λ e.
        IsUnloaded NoFiles (HeardLoad sending.lines (P.told sending.port).heard)
        (seen (P.told sending.port) (S.text shown.old)) (seen (P.told e.0) (S.text shown.new)) e.1) }
    ensures shown_later { S.faults shown.old ≤ S.faults shown.new }
    ensures output { IfErr result (λ e.
        e.1 ≡ DriveError.Output → Rose (S.faults shown.old) (S.faults shown.new)) }
{
    match sending.finish(shown) {
        Answer::Okay(ready, _) => Ok(ready),
        Answer::Fail(ready, text) => Err((ready.hang_up(), DriveError::Refused(text))),
        Answer::Broken(lost, error) => Err((lost, stopped(error))),
        Answer::Load(_) => unreachable!(),
        Answer::Unshown(lost) => Err((lost, DriveError::Output)),
    }
}

/// Downloads a piece of this file.
#[tactic(auto, using(crate::proofs::LoadLemmas::loads))]
pub(crate) fn load_piece<P: Port, B: Bytes, S: Sink>(
    ready: Ready<P>,
    piece: &Piece<'_>,
    file: &Word,
    source: &mut B,
    shown: &mut S,
) -> Result<Ready<P>, (Lost<P>, DriveError)>
    requires free { Free (P.told ready).peer }
    requires fits { OfLink (λ w. part_len piece.now ≤ w.device.max) (P.told ready).peer }
    requires len { B.size source.old ≡ piece.now.kept.source_len }
    requires told { IsChecked (B.content source.old) (Ok piece.now.kept) }
    ensures loaded { IfOk result (λ r.
        AreLoaded (ArePart (B.content source.old) piece.now) (P.told ready) (P.told r)) }
    ensures goes { IfOk result (λ r.
        GoesOn (seen (P.told ready) (S.text shown.old)) (seen (P.told r) (S.text shown.new))) }
    ensures unloaded { IfErr result (λ e. IsUnloaded
        (IsUnread file.now (B.faults source.old) (B.faults source.new)) (HeardThen (P.told ready).heard [])
        (seen (P.told ready) (S.text shown.old)) (seen (P.told e.0) (S.text shown.new)) e.1) }
    ensures same { IfOk result (λ r. P.lent r ≡ P.lent ready) }
    ensures same_lost { IfErr result (λ e. P.lent e.0 ≡ P.lent ready) }
    ensures shown_later { S.faults shown.old ≤ S.faults shown.new }
    ensures output { IfErr result (λ e.
        e.1 ≡ DriveError.Output → Rose (S.faults shown.old) (S.faults shown.new)) }
    ensures content { B.content source.new ≡ B.content source.old }
    ensures size { B.size source.new ≡ B.size source.old }
    ensures source_same { B.lent source.new ≡ B.lent source.old }
    ensures read_later { B.faults source.old ≤ B.faults source.new }
{
    let sending = match announce(ready, piece.size(), shown) {
        Ok(sending) => sending,
        Err(stop) => return Err(stop),
    };
    match send_piece(sending, piece, source) {
        Ok(sending) => match conclude(sending, shown) {
            Ok(ready) => Ok(ready),
            Err(stop) => Err(stop),
        },
        Err((lost, PieceFault::Read)) => Err((lost, DriveError::Directory(*file))),
        Err((lost, PieceFault::Out)) => Err((lost, DriveError::Link)),
    }
}
