//! A host in small: it opens a connection, asks twice and downloads, and its clauses say what
//! that leaves, by the clauses of the typed states alone.
ghost use Rattle.std.specs.Prelude.{◌≡◌, ℕ, ◌+◌, ◌<◌, ◌≤◌, ◌^◌, length, Some, IsTrue, IfSome};
ghost use Rattle.fb_link.specs.Answers.{port_of};
ghost use Rattle.wire_told.specs.Answered.{Stays, Free, Sound};
ghost use Rattle.wire_told.specs.Exchanges.{FreeFor};
ghost use Rattle.wire_told.specs.Peers.{OfLink};
ghost use Rattle.wire_told.specs.Ports.{Kept};

use fb_frame::sink::Sink;
use fb_link::port::Port;
use fb_link::states::{Answer, Lost, Ready};
use fb_message::command::Command;

/// Asks for a variable, and goes on where it is told.
#[tactic(auto, using(crate::proofs::CallerLemmas::asks))]
fn ask<P: Port + Drop, S: Sink>(ready: Ready<P>, name: &[u8], shown: &mut S) -> Option<Ready<P>>
    requires free { Free (P.told ready).peer }
    requires short { length name.now ≤ 4089 }
    ensures kept { IfSome result (λ next. Kept (P.told ready) (P.told next)) }
    ensures stays { IfSome result (λ next. Stays (P.told ready).peer (P.told next).peer) }
    ensures free { IfSome result (λ next. (spare : ℕ) → FreeFor (4104 + spare) (P.told ready).peer →
        FreeFor spare (P.told next).peer) }
{
    match ready.command(&Command::GetVar(name), shown) {
        Answer::Okay(next, _line) => Some(next),
        _other => None,
    }
}

/// Downloads the bytes in one frame.
#[tactic(auto, using(crate::proofs::CallerLemmas::downloads))]
fn download<P: Port + Drop, S: Sink>(
    ready: Ready<P>,
    bytes: &[u8],
    shown: &mut S,
) -> Option<Ready<P>>
    requires free { Free (P.told ready).peer }
    requires some { 0 < length bytes.now }
    requires small { length bytes.now ≤ 65536 }
    ensures kept { IfSome result (λ next. Kept (P.told ready) (P.told next)) }
    ensures stays { IfSome result (λ next. Stays (P.told ready).peer (P.told next).peer) }
    ensures loaded { IfSome result (λ next. OfLink (λ w. w.loaded ≡ Some bytes.now) (P.told next).peer) }
    ensures free { IfSome result (λ next. (spare : ℕ) →
        FreeFor (4104 + (8 + length bytes.now + spare)) (P.told ready).peer →
        FreeFor spare (P.told next).peer) }
{
    let sending = match ready.command(&Command::Download(bytes.len() as u32), shown) {
        Answer::Load(sending) => sending,
        _other => return None,
    };
    let Ok(sending) = sending.write(bytes) else {
        return None;
    };
    match sending.finish(shown) {
        Answer::Okay(next, _line) => Some(next),
        _other => None,
    }
}

/// Begins a connection, asks twice and downloads the bytes.
#[tactic(auto, using(crate::proofs::CallerLemmas::calls))]
pub(crate) fn load<P: Port + Drop, S: Sink>(
    port: P,
    bytes: &[u8],
    shown: &mut S,
) -> Option<Ready<P>>
    requires aimed { IsTrue (P.told port).aimed }
    requires sound { Sound (P.told port).peer }
    requires some { 0 < length bytes.now }
    requires small { length bytes.now ≤ 65536 }
    ensures kept { IfSome result (λ next. Kept (P.told port) (P.told next)) }
    ensures stays { IfSome result (λ next. Stays (P.told port).peer (P.told next).peer) }
    ensures loaded { IfSome result (λ next. OfLink (λ w. w.loaded ≡ Some bytes.now) (P.told next).peer) }
    ensures free { IfSome result (λ next. FreeFor (2 ^ 60) (P.told next).peer) }
{
    let Ok(ready) = Lost::new(port).connect() else {
        return None;
    };
    let ready = ask(ready, b"slot-count", shown)?;
    let ready = ask(ready, b"max-download-size", shown)?;
    let next = download(ready, bytes, shown)?;
    Some(next)
}
