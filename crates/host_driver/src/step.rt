//! A step of a plan by its command.
ghost use Rattle.std.specs.Prelude.{◌≡◌, ◌≤◌, ◌<◌, ◌^◌, ℕ, IsTrue, IfOk, IfErr, is_some, option_map, List};
ghost use Rattle.fb_frame.specs.Causes.{Rose};
ghost use Rattle.fb_frame.specs.NameText.{IsName};
ghost use Rattle.fb_message.specs.CommandText.{command_value, spelling};
ghost use Rattle.fb_frame.specs.declared.tables.Tables.{Tables};
ghost use Rattle.dev_model.specs.declared.cells.Cell.{Cell};
ghost use Rattle.dev_model.specs.declared.step.Step.{Step};
ghost use Rattle.fb_link.specs.Seen.{seen};
ghost use Rattle.flash_plan.specs.Plans.{step_of};
ghost use Rattle.host_driver.specs.Commands.{takes_step, command_for};
ghost use Rattle.host_driver.specs.Stepping.{Serving, IsCommandAt, IsStepped, IsStopped, stop_of};
ghost use Rattle.host_driver.specs.Stepping.{NoFiles, IsAlone};
ghost use Rattle.host_driver.specs.Wires.{command_wire};

use crate::drive::DriveError;
use fb_frame::name::Name;
use fb_frame::sink::Sink;
use fb_link::link_error::LinkError;
use fb_link::port::Port;
use fb_link::states::{Answer, Lost, Ready};
use fb_message::command::Command;
use fb_message::packet::Packet;
use flash_plan::plan::Order;

/// What a lost connection is to an installation.
pub fn stopped(error: LinkError) -> DriveError
    ensures { result ≡ stop_of error }
{
    match error {
        LinkError::Link => DriveError::Link,
        LinkError::Ended => DriveError::Ended,
        LinkError::BadHandshake(four) => DriveError::Peer(Packet::of(&four)),
        LinkError::BadLength(n) => DriveError::Peer(Packet::of(&n.to_be_bytes())),
        LinkError::BadReply(reply) => DriveError::Peer(reply),
        LinkError::TooManyInfos => DriveError::TooManyInfos,
    }
}

/// For contracts alone: a name is one.
fn know_name(name: &Name)
    ensures { IsName name.now }
{
    let _ = name.bytes();
}

/// For contracts alone: a name is one, and a size fits.
fn know_sized(name: &Name, size: u64)
    ensures name { IsName name.now }
    ensures size { size < 2 ^ 64 }
{
    know_name(name);
}

/// For contracts alone: a step's command has a spelling, since its name is one.
#[tactic(auto, using(crate::proofs::TakeLemmas::spells))]
fn know_spelled(command: &Command<'_>)
    requires step { IsTrue (takes_step (command_value command.now)) }
    ensures spelled { IsTrue (is_some (spelling (command_value command.now))) }
{
    match command {
        Command::SetActive(_) => {}
        Command::Reboot(_) => {}
        Command::Flash(name) => know_name(name),
        Command::Erase(name) => know_name(name),
        Command::UpdateSuper(name, _) => know_name(name),
        Command::Resize(name, size) => know_sized(name, *size),
        _ => unreachable!(),
    }
}

/// Takes a step by its command: sends it and hears the replies, of which each line is shown.
pub fn take<P: Port, S: Sink>(
    ready: Ready<P>,
    command: &Command<'_>,
    shown: &mut S,
) -> Result<Ready<P>, (Lost<P>, DriveError)>
    requires step { IsTrue (takes_step (command_value command.now)) }
    requires serving { Serving 4104 (P.told ready).peer }
    ensures same { IfOk result (λ r. P.lent r ≡ P.lent ready) }
    ensures same_lost { IfErr result (λ e. P.lent e.0 ≡ P.lent ready) }
    ensures stepped { IfOk result (λ r. (step : Step) →
        IsCommandAt (command_value command.now) step (P.told ready).peer →
        IsStepped 4104 (λ bytes. bytes ≡ command_wire (command_value command.now)) step
        (seen (P.told ready) (S.text shown.old)) (seen (P.told r) (S.text shown.new))) }
    ensures stopped { IfErr result (λ e. (step : Step) →
        IsCommandAt (command_value command.now) step (P.told ready).peer →
        IsStopped NoFiles step
        (seen (P.told ready) (S.text shown.old)) (seen (P.told e.0) (S.text shown.new)) e.1) }
    ensures shown_later { S.faults shown.old ≤ S.faults shown.new }
    ensures output { IfErr result (λ e.
        e.1 ≡ DriveError.Output → Rose (S.faults shown.old) (S.faults shown.new)) }
{
    know_spelled(command);
    match ready.command(command, shown) {
        Answer::Okay(ready, _) => Ok(ready),
        Answer::Fail(ready, text) => Err((ready.hang_up(), DriveError::Refused(text))),
        Answer::Broken(lost, error) => Err((lost, stopped(error))),
        Answer::Load(_) => unreachable!(),
        Answer::Unshown(lost) => Err((lost, DriveError::Output)),
    }
}

/// The command of a step that takes one alone; an image and tables are downloaded before theirs.
pub fn command_for(order: &Order) -> Option<Command<'static>>
    ensures { option_map command_value result ≡ command_for order.now }
{
    match order {
        Order::Active(slot) => Some(Command::SetActive(*slot)),
        Order::Resize(name, size) => Some(Command::Resize(*name, *size)),
        Order::Wipe(name) => Some(Command::Erase(*name)),
        Order::Boot(what) => Some(Command::Reboot(*what)),
        Order::Put(_, _) => None,
        Order::Table(_, _) => None,
    }
}

/// Takes a step that is one command: a slot made active, a new length, an erasure or a reboot.
#[tactic(auto, using(crate::proofs::OrderLemmas::orders))]
pub fn take_alone<P: Port, S: Sink>(
    ready: Ready<P>,
    order: &Order,
    shown: &mut S,
) -> Result<Ready<P>, (Lost<P>, DriveError)>
    requires alone { IsTrue (is_some (command_for order.now)) }
    requires serving { Serving 4104 (P.told ready).peer }
    ensures same { IfOk result (λ r. P.lent r ≡ P.lent ready) }
    ensures same_lost { IfErr result (λ e. P.lent e.0 ≡ P.lent ready) }
    ensures stepped { IfOk result (λ r. (images : List (List Cell)) (tables : Tables) →
        IsStepped 4104 (IsAlone order.now) (step_of images tables order.now)
        (seen (P.told ready) (S.text shown.old)) (seen (P.told r) (S.text shown.new))) }
    ensures stopped { IfErr result (λ e. (images : List (List Cell)) (tables : Tables) →
        IsStopped NoFiles (step_of images tables order.now)
        (seen (P.told ready) (S.text shown.old)) (seen (P.told e.0) (S.text shown.new)) e.1) }
    ensures shown_later { S.faults shown.old ≤ S.faults shown.new }
    ensures output { IfErr result (λ e.
        e.1 ≡ DriveError.Output → Rose (S.faults shown.old) (S.faults shown.new)) }
{
    match command_for(order) {
        Some(command) => take(ready, &command, shown),
        None => unreachable!(),
    }
}
