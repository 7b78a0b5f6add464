//! Sessions over a device, and the gates that connections come in by.
#![tactic(auto)]

ghost use Rattle.device_session.specs.Calls.{OneConnection, LockedConnection};

mod framer;
pub mod gate;
pub mod inlet;
pub mod outbox;
pub mod responder;
pub mod room;
pub mod script_gate;
pub mod serving;
pub mod session;
mod talk;
pub mod tcp_gate;
#[cfg(test)]
mod tests;

/// Laws of a connection's calls, over the message machine.
#[tactic(auto, using(crate::proofs::CallLemmas::connections))]
pub fn laws()
    ensures one_connection { OneConnection }
    ensures locked_connection { LockedConnection }
{}
