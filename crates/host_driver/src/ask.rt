//! A question to a device.
ghost use Rattle.std.specs.Prelude.{◌≡◌, ◌≤◌, length, IfOk, IfErr};
ghost use Rattle.fb_frame.specs.Causes.{Rose};
ghost use Rattle.fb_link.specs.Seen.{seen};
ghost use Rattle.host_driver.specs.Asking.{IsAsked, IsUnasked};
ghost use Rattle.host_driver.specs.Stepping.{Serving};

use crate::drive::DriveError;
use crate::step::stopped;
use fb_frame::sink::Sink;
use fb_link::port::Port;
use fb_link::states::{Answer, Lost, Ready};
use fb_message::command::Command;
use fb_message::line::Line;

/// Asks for a variable: its text, or the text of the refusal to tell it. Each line before it is shown.
pub fn ask<P: Port, S: Sink>(
    ready: Ready<P>,
    name: &[u8],
    shown: &mut S,
) -> Result<(Ready<P>, Result<Line, Line>), (Lost<P>, DriveError)>
    requires short { length name.now ≤ 4089 }
    requires serving { Serving 4104 (P.told ready).peer }
    ensures same { IfOk result (λ r. P.lent r.0 ≡ P.lent ready) }
    ensures same_lost { IfErr result (λ e. P.lent e.0 ≡ P.lent ready) }
    ensures asked { IfOk result (λ r. IsAsked name.now r.1
        (seen (P.told ready) (S.text shown.old)) (seen (P.told r.0) (S.text shown.new))) }
    ensures unasked { IfErr result (λ e. IsUnasked name.now
        (seen (P.told ready) (S.text shown.old)) (seen (P.told e.0) (S.text shown.new)) e.1) }
    ensures shown_later { S.faults shown.old ≤ S.faults shown.new }
    ensures output { IfErr result (λ e.
        e.1 ≡ DriveError.Output → Rose (S.faults shown.old) (S.faults shown.new)) }
{
    match ready.command(&Command::GetVar(name), shown) {
        Answer::Okay(ready, text) => Ok((ready, Ok(text))),
        Answer::Fail(ready, text) => Ok((ready, Err(text))),
        Answer::Load(_) => unreachable!(),
        Answer::Broken(lost, error) => Err((lost, stopped(error))),
        Answer::Unshown(lost) => Err((lost, DriveError::Output)),
    }
}
