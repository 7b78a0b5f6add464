//! Tables that a product brings are downloaded, and super is updated by them.
ghost use Rattle.std.specs.Prelude.{◌≡◌, ◌≤◌, ◌<◌, [], length, Some, IsTrue, IfOk, IfErr, IfSome};
ghost use Rattle.fb_frame.specs.Causes.{Rose};
ghost use Rattle.fb_message.specs.CommandText.{UpdateSuper};
ghost use Rattle.dev_model.specs.declared.step.Step.TheVariants.{Table};
ghost use Rattle.fb_link.specs.Seen.{seen};
ghost use Rattle.flash_plan.specs.Plans.{tables_in};
ghost use Rattle.flash_plan.specs.Products.{holds_tables};
ghost use Rattle.wire_told.specs.Answered.{Free};
ghost use Rattle.wire_told.specs.Peers.{OfLink};
ghost use Rattle.host_driver.specs.HeardLast.{HeardThen};
ghost use Rattle.host_driver.specs.LinkOuts.{IsSending, HasGivenUp, data_by};
ghost use Rattle.host_driver.specs.PutPieces.{AreSent, AreLoaded, GoesOn, IsUnloaded};
ghost use Rattle.host_driver.specs.Stepping.{Serving, NoFiles, IsStepped, IsStopped};
ghost use Rattle.host_driver.specs.Taking.{tables_cost, IsTablesWire};

use crate::before::Before;
use crate::drive::DriveError;
use crate::link_out::LinkOut;
use crate::load_piece::{announce, conclude};
use crate::step::take;
use fb_frame::name::Name;
use fb_frame::sink::Sink;
use fb_link::port::Port;
use fb_link::states::{InParts, Lost, Ready, Sending};
use fb_message::command::Command;
use sparse_image::out::Out;
use std::marker::Brand;

/// Sends bytes as all the data of a download that began with what `F` says.
#[tactic(auto, using(crate::proofs::PieceLemmas::sends_bytes))]
fn send_bytes_since<P: Port, F: Before>(
    parts: InParts<P>,
    bytes: &[u8],
) -> Result<Sending<P>, Lost<P>>
    requires begun { IsSending F.before (P.told parts.port) parts.left }
    requires unsent { IfSome (data_by F.before.peer (P.told parts.port).peer []) (λ x. x ≡ []) }
    requires few { parts.lines < 10000 }
    requires announced { parts.left ≡ length bytes.now }
    ensures sent { IfOk result (λ s. AreSent (λ x. x ≡ bytes.now) F.before (P.told s.port)) }
    ensures left { IfOk result (λ s. s.left ≡ 0) }
    ensures lines { IfOk result (λ s. s.lines ≡ parts.lines) }
    ensures same { IfOk result (λ s. P.lent s.port ≡ P.lent parts.port) }
    ensures same_lost { IfErr result (λ lost. P.lent lost ≡ P.lent parts.port) }
    ensures given_up { IfErr result (λ lost. HasGivenUp F.before (P.told lost)) }
    ensures link { IfErr result (λ lost. Rose (P.told parts.port).faults (P.told lost).faults) }
{
    let mut out = LinkOut::<P, F>::new(parts);
    match out.put(bytes) {
        Ok(()) => match out.finish() {
            Ok(sending) => Ok(sending),
            Err(broken) => Err(broken.0),
        },
        Err(_) => Err(out.abandon()),
    }
}

/// Sends bytes as the data of a download that announced so many. After a fault of the link the connection is
/// given up.
#[tactic(auto, using(crate::proofs::PieceLemmas::begins))]
fn send_bytes<P: Port>(sending: Sending<P>, bytes: &[u8]) -> Result<Sending<P>, Lost<P>>
    requires announced { sending.left ≡ length bytes.now }
    ensures sent { IfOk result (λ s.
        AreSent (λ x. x ≡ bytes.now) (P.told sending.port) (P.told s.port)) }
    ensures left { IfOk result (λ s. s.left ≡ 0) }
    ensures lines { IfOk result (λ s. s.lines ≡ sending.lines) }
    ensures same { IfOk result (λ s. P.lent s.port ≡ P.lent sending.port) }
    ensures same_lost { IfErr result (λ lost. P.lent lost ≡ P.lent sending.port) }
    ensures given_up { IfErr result (λ lost. HasGivenUp (P.told sending.port) (P.told lost)) }
    ensures link { IfErr result (λ lost. Rose (P.told sending.port).faults (P.told lost).faults) }
{
    let parts = sending.into_parts();
    match send_bytes_since::<P, Brand>(parts, bytes) {
        Ok(sending) => Ok(sending),
        Err(lost) => Err(lost),
    }
}

/// Downloads bytes.
#[tactic(auto, using(crate::proofs::LoadLemmas::loads))]
fn load_bytes<P: Port, S: Sink>(
    ready: Ready<P>,
    bytes: &[u8],
    shown: &mut S,
) -> Result<Ready<P>, (Lost<P>, DriveError)>
    requires few { length bytes.now ≤ 131072 }
    requires free { Free (P.told ready).peer }
    requires fits { OfLink (λ w. length bytes.now ≤ w.device.max) (P.told ready).peer }
    ensures loaded { IfOk result (λ r. AreLoaded (λ x. x ≡ bytes.now) (P.told ready) (P.told r)) }
    ensures goes { IfOk result (λ r.
        GoesOn (seen (P.told ready) (S.text shown.old)) (seen (P.told r) (S.text shown.new))) }
    ensures unloaded { IfErr result (λ e. IsUnloaded NoFiles (HeardThen (P.told ready).heard [])
        (seen (P.told ready) (S.text shown.old)) (seen (P.told e.0) (S.text shown.new)) e.1) }
    ensures same { IfOk result (λ r. P.lent r ≡ P.lent ready) }
    ensures same_lost { IfErr result (λ e. P.lent e.0 ≡ P.lent ready) }
    ensures shown_later { S.faults shown.old ≤ S.faults shown.new }
    ensures output { IfErr result (λ e.
        e.1 ≡ DriveError.Output → Rose (S.faults shown.old) (S.faults shown.new)) }
{
    let sending = match announce(ready, bytes.len() as u32, shown) {
        Ok(sending) => sending,
        Err(stop) => return Err(stop),
    };
    match send_bytes(sending, bytes) {
        Ok(sending) => match conclude(sending, shown) {
            Ok(ready) => Ok(ready),
            Err(stop) => Err(stop),
        },
        Err(lost) => Err((lost, DriveError::Link)),
    }
}

/// Updates super, of this name, by the tables of an image of an empty super.
#[tactic(auto, using(crate::proofs::DriveTables::updates))]
pub(crate) fn take_tables<P: Port, S: Sink>(
    ready: Ready<P>,
    name: &Name,
    wipe: bool,
    image: &[u8],
    shown: &mut S,
) -> Result<Ready<P>, (Lost<P>, DriveError)>
    requires tables { IsTrue (holds_tables image.now) }
    requires few { length image.now ≤ 131072 }
    requires serving { Serving tables_cost (P.told ready).peer }
    requires fits { OfLink (λ w. length image.now ≤ w.device.max) (P.told ready).peer }
    requires own { OfLink (λ w. w.device.super_name ≡ Some name.now) (P.told ready).peer }
    ensures stepped { IfOk result (λ r. IsStepped tables_cost
        (IsTablesWire name.now wipe image.now (P.told ready).peer) (Table (tables_in (Some image.now)) wipe)
        (seen (P.told ready) (S.text shown.old)) (seen (P.told r) (S.text shown.new))) }
    ensures stopped { IfErr result (λ e. IsStopped NoFiles (Table (tables_in (Some image.now)) wipe)
        (seen (P.told ready) (S.text shown.old)) (seen (P.told e.0) (S.text shown.new)) e.1) }
    ensures same { IfOk result (λ r. P.lent r ≡ P.lent ready) }
    ensures same_lost { IfErr result (λ e. P.lent e.0 ≡ P.lent ready) }
    ensures shown_later { S.faults shown.old ≤ S.faults shown.new }
    ensures output { IfErr result (λ e.
        e.1 ≡ DriveError.Output → Rose (S.faults shown.old) (S.faults shown.new)) }
{
    match load_bytes(ready, image, shown) {
        Ok(ready) => match take(ready, &Command::UpdateSuper(*name, wipe), shown) {
            Ok(ready) => Ok(ready),
            Err(stop) => Err(stop),
        },
        Err(stop) => Err(stop),
    }
}
