//! The connection with which an attempt begins.
ghost use Rattle.std.specs.Prelude.{◌≡◌, length, IsTrue, IfOk, IfErr};
ghost use Rattle.wire_told.specs.Answered.{Sound};
ghost use Rattle.host_driver.specs.Beginning.{IsBegun, IsUnbegun};

use crate::drive::DriveError;
use crate::step::stopped;
use fb_link::link_error::LinkError;
use fb_link::port::Port;
use fb_link::states::{Lost, Ready};

/// For contracts alone: these are four bytes.
fn know_length(four: [u8; 4])
    ensures { length four ≡ 4 }
{}

/// For contracts alone: a handshake has four bytes.
fn know_four(error: &LinkError)
    ensures { (four : _) → error.now ≡ LinkError.BadHandshake four → length four ≡ 4 }
{
    if let LinkError::BadHandshake(four) = error {
        know_length(*four);
    }
}

/// Begins a connection.
pub fn begin<P: Port>(link: Lost<P>) -> Result<Ready<P>, (Lost<P>, DriveError)>
    requires aimed { IsTrue (P.told link).aimed }
    requires sound { Sound (P.told link).peer }
    ensures same { IfOk result (λ r. P.lent r ≡ P.lent link) }
    ensures same_lost { IfErr result (λ e. P.lent e.0 ≡ P.lent link) }
    ensures begun { IfOk result (λ r. IsBegun (P.told link) (P.told r)) }
    ensures unbegun { IfErr result (λ e. IsUnbegun (P.told link) (P.told e.0) e.1) }
{
    match link.connect() {
        Ok(ready) => Ok(ready),
        Err(failed) => {
            let (lost, error) = failed;
            know_four(&error);
            Err((lost, stopped(error)))
        }
    }
}

/// Begins another connection in place of this one.
pub fn renew<P: Port>(ready: Ready<P>) -> Result<Ready<P>, (Lost<P>, DriveError)>
    requires aimed { IsTrue (P.told ready).aimed }
    ensures same { IfOk result (λ r. P.lent r ≡ P.lent ready) }
    ensures same_lost { IfErr result (λ e. P.lent e.0 ≡ P.lent ready) }
    ensures begun { IfOk result (λ r. IsBegun (P.told ready) (P.told r)) }
    ensures unbegun { IfErr result (λ e. IsUnbegun (P.told ready) (P.told e.0) e.1) }
{
    begin(ready.hang_up())
}
