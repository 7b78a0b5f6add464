//! A question: the port is aimed, a connection begun, and a variable asked for.
ghost use Rattle.std.specs.Prelude.{◌≡◌, ◌≤◌, length, Some, IsTrue, IfErr, option_map};
ghost use Rattle.fb_frame.specs.Causes.{Rose};
ghost use Rattle.wire_told.specs.Answered.{Sound};
ghost use Rattle.wire_told.specs.Told.{IsBarred};
ghost use Rattle.fb_link.specs.Seen.{seen};
ghost use Rattle.fb_link.specs.Targets.{place_of};
ghost use Rattle.host_driver.specs.Jobs.{Folder, outside};
ghost use Rattle.host_words.specs.Requests.{GetVar};
ghost use Rattle.host_top.specs.Acts.{HasAsked, IsAnswered, answer_verdict};
ghost use Rattle.host_top.specs.Ending.{Ends};
ghost use Rattle.host_top.specs.Hosted.{Lasts};
ghost use Rattle.host_top.specs.LineParts.{verdict_in};

use crate::report::{end, end_any};
use crate::stops::{aim_verdict, stop_verdict};
use crate::verdict::Verdict;
use fb_frame::sink::Sink;
use fb_link::port::{Port, Target};
use fb_link::states::Lost;
use fb_message::line::Line;
use host_driver::ask::ask;
use host_driver::begin::begin;
use host_driver::drive::DriveError;
use std::alloc::Global;

/// Connects, asks for a variable, and hangs up. Each line before the answer is shown.
fn question<P: Port, S: Sink>(
    port: P,
    name: &[u8],
    out: &mut S,
) -> (Lost<P>, Result<Result<Line, Line>, DriveError>)
    requires aimed { IsTrue (P.told port).aimed }
    requires sound { Sound (P.told port).peer }
    requires unbarred { IsBarred (P.told port).peer → ⊥ }
    requires short { length name.now ≤ 4089 }
    ensures same { P.lent result.0 ≡ P.lent port }
    ensures answered { IsAnswered name.now (seen (P.told port) (S.text out.old))
        (seen (P.told result.0) (S.text out.new)) result.1 }
    ensures later { S.faults out.old ≤ S.faults out.new }
    ensures output { IfErr result.1 (λ e. e ≡ DriveError.Output →
        Rose (S.faults out.old) (S.faults out.new)) }
{
    let ready = match begin(Lost::new(port)) {
        Ok(ready) => ready,
        Err(unbegun) => {
            let (lost, error) = unbegun;
            return (lost, Err(error));
        }
    };
    match ask(ready, name, out) {
        Ok(asked) => {
            let (ready, answer) = asked;
            (ready.hang_up(), Ok(answer))
        }
        Err(unasked) => {
            let (lost, error) = unasked;
            (lost, Err(error))
        }
    }
}

/// What the last line tells of a question: nothing where the output failed before it.
fn answer_verdict(answer: &Result<Result<Line, Line>, DriveError>) -> Option<Verdict<'_>>
    ensures { option_map verdict_in result ≡ answer_verdict answer.now }
{
    match answer {
        Ok(Ok(text)) => Some(Verdict::Told(text.bytes())),
        Ok(Err(refusal)) => Some(Verdict::Refusing(refusal.bytes())),
        Err(error) => stop_verdict(error),
    }
}

/// Asks for a variable over a port that is aimed, and puts the last line. Answers the status.
fn ask_port<P: Port, S: Sink>(name: &[u8], port: &mut P, out: &mut S) -> u8
    requires aimed { IsTrue (P.told port.old).aimed }
    requires sound { Sound (P.told port.old).peer }
    requires unbarred { IsBarred (P.told port.old).peer → ⊥ }
    requires short { length name.now ≤ 4089 }
    ensures same { P.lent port.new ≡ P.lent port.old }
    ensures asked { (f : Folder) → HasAsked name.now
        (outside (P.told port.old) f (S.text out.old) (S.faults out.old))
        (outside (P.told port.new) f (S.text out.new) (S.faults out.new)) result }
    ensures later { S.faults out.old ≤ S.faults out.new }
{
    let (link, answer) = question(&mut *port, name, out);
    let _port = link.into_port();
    end_any(answer_verdict(&answer), out)
}

/// Asks the device that the target stands for for a variable, and puts the last line. Answers the status.
pub(crate) fn get_var<P: Port, S: Sink>(
    alloc: Global,
    target: &Target<'_>,
    name: &[u8],
    port: &mut P,
    out: &mut S,
) -> u8
    requires short { length name.now ≤ 4089 }
    ensures same { P.lent port.new ≡ P.lent port.old }
    ensures ends { (f : Folder) → Ends (Some (GetVar (place_of target.now) name.now))
        (outside (P.told port.old) f (S.text out.old) (S.faults out.old))
        (outside (P.told port.new) f (S.text out.new) (S.faults out.new)) result }
    ensures lasts { (f : Folder) → Lasts
        (outside (P.told port.old) f (S.text out.old) (S.faults out.old))
        (outside (P.told port.new) f (S.text out.new) (S.faults out.new)) }
{
    match port.aim(alloc, target) {
        Ok(()) => ask_port(name, port, out),
        Err(error) => end(aim_verdict(&error), out),
    }
}
