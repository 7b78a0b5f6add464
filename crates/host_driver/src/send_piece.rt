//! A piece of an image as the data of a download.
ghost use Rattle.std.specs.Prelude.{◌≡◌, ◌<◌, ◌≤◌, [], Ok, IfOk, IfErr, IfSome};
ghost use Rattle.fb_frame.specs.Causes.{Rose};
ghost use Rattle.sparse_image.specs.Cuts.{part_len};
ghost use Rattle.sparse_image.specs.Walks.{IsChecked};
ghost use Rattle.host_driver.specs.LinkOuts.{IsSending, HasGivenUp, data_by};
ghost use Rattle.host_driver.specs.PutPieces.{AreSent, ArePart};

use crate::before::Before;
use crate::link_out::LinkOut;
use fb_link::port::Port;
use fb_link::states::{InParts, Lost, Sending};
use sparse_image::errors::PieceFault;
use sparse_image::piece::Piece;
use sparse_image::source::Bytes;
use std::marker::Brand;

/// Sends a piece as all the data of a download that began with what `F` says.
#[tactic(auto, using(crate::proofs::PieceLemmas::sends))]
fn send_since<P: Port, F: Before, B: Bytes>(
    parts: InParts<P>,
    piece: &Piece<'_>,
    source: &mut B,
) -> Result<Sending<P>, (Lost<P>, PieceFault)>
    requires begun { IsSending F.before (P.told parts.port) parts.left }
    requires unsent { IfSome (data_by F.before.peer (P.told parts.port).peer []) (λ bytes. bytes ≡ []) }
    requires few { parts.lines < 10000 }
    requires announced { parts.left ≡ part_len piece.now }
    requires len { B.size source.old ≡ piece.now.kept.source_len }
    requires told { IsChecked (B.content source.old) (Ok piece.now.kept) }
    ensures sent { IfOk result (λ s.
        AreSent (ArePart (B.content source.old) piece.now) F.before (P.told s.port)) }
    ensures left { IfOk result (λ s. s.left ≡ 0) }
    ensures lines { IfOk result (λ s. s.lines ≡ parts.lines) }
    ensures same { IfOk result (λ s. P.lent s.port ≡ P.lent parts.port) }
    ensures same_lost { IfErr result (λ e. P.lent e.0 ≡ P.lent parts.port) }
    ensures given_up { IfErr result (λ e. HasGivenUp F.before (P.told e.0)) }
    ensures link { IfErr result (λ e. e.1 ≡ PieceFault.Out →
        Rose (P.told parts.port).faults (P.told e.0).faults) }
    ensures read { IfErr result (λ e. e.1 ≡ PieceFault.Read →
        Rose (B.faults source.old) (B.faults source.new)) }
    ensures content { B.content source.new ≡ B.content source.old }
    ensures size { B.size source.new ≡ B.size source.old }
    ensures source_same { B.lent source.new ≡ B.lent source.old }
    ensures read_later { B.faults source.old ≤ B.faults source.new }
{
    let mut out = LinkOut::<P, F>::new(parts);
    match piece.write(source, &mut out) {
        Ok(()) => match out.finish() {
            Ok(sending) => Ok(sending),
            Err(broken) => Err((broken.0, PieceFault::Out)),
        },
        Err(fault) => {
            let lost = out.abandon();
            Err((lost, fault))
        }
    }
}

/// Sends a piece as the data of a download that announced its length. After a fault of the source, or of the
/// link, the connection is given up.
#[tactic(auto, using(crate::proofs::PieceLemmas::begins))]
pub fn send_piece<P: Port, B: Bytes>(
    sending: Sending<P>,
    piece: &Piece<'_>,
    source: &mut B,
) -> Result<Sending<P>, (Lost<P>, PieceFault)>
    requires announced { sending.left ≡ part_len piece.now }
    requires len { B.size source.old ≡ piece.now.kept.source_len }
    requires told { IsChecked (B.content source.old) (Ok piece.now.kept) }
    ensures sent { IfOk result (λ s.
        AreSent (ArePart (B.content source.old) piece.now) (P.told sending.port) (P.told s.port)) }
    ensures left { IfOk result (λ s. s.left ≡ 0) }
    ensures lines { IfOk result (λ s. s.lines ≡ sending.lines) }
    ensures same { IfOk result (λ s. P.lent s.port ≡ P.lent sending.port) }
    ensures same_lost { IfErr result (λ e. P.lent e.0 ≡ P.lent sending.port) }
    ensures given_up { IfErr result (λ e. HasGivenUp (P.told sending.port) (P.told e.0)) }
    ensures link { IfErr result (λ e. e.1 ≡ PieceFault.Out →
        Rose (P.told sending.port).faults (P.told e.0).faults) }
    ensures read { IfErr result (λ e. e.1 ≡ PieceFault.Read →
        Rose (B.faults source.old) (B.faults source.new)) }
    ensures content { B.content source.new ≡ B.content source.old }
    ensures size { B.size source.new ≡ B.size source.old }
    ensures source_same { B.lent source.new ≡ B.lent source.old }
    ensures read_later { B.faults source.old ≤ B.faults source.new }
{
    let parts = sending.into_parts();
    match send_since::<P, Brand, B>(parts, piece, source) {
        Ok(sending) => Ok(sending),
        Err(fault) => Err(fault),
    }
}
