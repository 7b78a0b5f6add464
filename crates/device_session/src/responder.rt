//! A device that answers what comes in.
ghost use Rattle.std.specs.Prelude.{◌≡◌, ℕ, ◌≤◌, ◌<◌, [], ◌++◌, length, Some, IsTrue};
ghost use Rattle.fb_message.specs.CommandText.{command_value};
ghost use Rattle.dev_model.specs.Partitions.{is_fastboot};
ghost use Rattle.wire_model.specs.Wire as wire;
ghost use Rattle.device_engine.specs.Replied.{none_framed};
ghost use Rattle.device_engine.specs.Running.{held_of, order, loaded_value, answer, IsTyped, IsInOrder};
ghost use Rattle.device_engine.specs.Running.{Ran, Follows, StaysLocked};
ghost use Rattle.device_session.specs.Answering.{ended, order_in, side, RunsOrder, AwaitsDue};
ghost use Rattle.device_session.specs.Answering.{Obeys, IsReady, HearsBy};

use crate::inlet::{Came, Inlet};
use crate::outbox::Outbox;
use core::mem::replace_with;
use dev_disk::disk::Disk;
use device_engine::device::{Device, Loaded, Next};
use device_engine::replies::Replies;
use fb_message::command::{Command, read_command};
use fb_message::line::Line;
use fb_message::reply::Reply;

/// A device, and what it answered.
#[derive(Drop)]
pub struct Responder<K: Disk> {
    pub device: Device<K>,
    pub outbox: Outbox,
}

/// What was downloaded last.
fn loaded_in(inlet: &Inlet) -> Loaded<'_>
    ensures loaded { loaded_value result ≡ inlet.now.loaded }
{
    match inlet.loaded() {
        Some(bytes) => Loaded::Bytes(bytes),
        None => Loaded::Nothing,
    }
}

/// Runs a command on a device that runs fastboot.
fn run_command<K: Disk>(
    device: Device<K>,
    command: &Command<'_>,
    loaded: &Loaded<'_>,
    replies: &mut Replies,
) -> Next<K>
    requires typed { IsTyped device }
    requires fastboot { IsTrue (is_fastboot (held_of device).device.mode) }
    requires empty { replies.old ≡ none_framed }
    ensures ran { Ran K.told (held_of device) (held_of result.device)
        (order loaded.now (command_value command.now)) (answer replies.new result.due result.closes) }
    ensures follows { Follows K.told K.lent (held_of device) result.device }
    ensures locked { StaysLocked K.told (held_of device) (held_of result.device) }
{
    match device {
        Device::Bootloader(device) => device.run(command, loaded, replies),
        Device::Userspace(device) => device.run(command, loaded, replies),
        Device::Gone(_) | Device::Halted(_) => unreachable!(),
    }
}

/// Answers the end of a download of which no bytes are due.
fn end_download(replies: &mut Replies, due: Option<u32>)
    requires room { due ≡ Some 0 → replies.old.count < 1024 }
    ensures ended { replies.new.frames ≡ ended due replies.old.frames }
{
    if let Some(0) = due {
        replies.push(&Reply::Okay(text_of(b"")));
    }
}

/// The text of these bytes.
fn text_of(bytes: &[u8]) -> Line
    requires short { length bytes.now ≤ 252 }
    ensures text { result ≡ bytes.now }
{
    match Line::read(bytes) {
        Some(text) => text,
        None => unreachable!(),
    }
}

/// Awaits the data of a download of which this much is due.
fn await_due(inlet: &mut Inlet, due: Option<u32>)
    requires command { inlet.old.phase ≡ wire.Command }
    requires nothing { inlet.old.rest ≡ [] }
    requires room { (count : ℕ) → due ≡ Some count → count ≤ inlet.old.room }
    ensures awaits { AwaitsDue due inlet.old inlet.new }
{
    if let Some(count) = due {
        inlet.await_data(count);
    }
}

impl<K: Disk> Responder<K> {
    /// Runs the command that came last. Answers how many bytes of a download are due, and whether the
    /// connection closes. Where no bytes are due, the download's end is answered too.
    pub fn run(self, inlet: &Inlet) -> (Responder<K>, (Option<u32>, bool))
        requires typed { IsTyped self.device }
        requires fastboot { IsTrue (is_fastboot (held_of self.device).device.mode) }
        ensures runs { RunsOrder K.told self result.0 (order_in inlet.now) result.1 }
        ensures follows { Follows K.told K.lent (held_of self.device) result.0.device }
        ensures locked { StaysLocked K.told (held_of self.device) (held_of result.0.device) }
    {
        let Responder { device, outbox } = self;
        let mut replies = outbox.into_replies();
        let command = read_command(inlet.command());
        let next = run_command(device, &command, &loaded_in(inlet), &mut replies);
        end_download(&mut replies, next.due);
        let Next {
            device,
            due,
            closes,
        } = next;
        let outbox = Outbox::with_replies(replies);
        (Responder { device, outbox }, (due, closes))
    }

    /// Runs the command that came last, and awaits what is due. Answers whether the connection closes.
    fn obey(&mut self, inlet: &mut Inlet) -> bool
        requires command { inlet.old.phase ≡ wire.Command }
        requires nothing { inlet.old.rest ≡ [] }
        requires typed { IsTyped self.old.device }
        requires fastboot { IsTrue (is_fastboot (held_of self.old.device).device.mode) }
        requires room { (held_of self.old.device).device.max ≤ inlet.old.room }
        ensures obeys { Obeys K.told self.old self.new inlet.old inlet.new result }
        ensures follows { Follows K.told K.lent (held_of self.old.device) self.new.device }
        ensures locked { StaysLocked K.told (held_of self.old.device) (held_of self.new.device) }
    {
        let (due, closes) = replace_with(self, &*inlet, Responder::run);
        await_due(inlet, due);
        closes
    }

    /// Answers what came in, and says whether the connection closes.
    pub fn hear(&mut self, inlet: &mut Inlet, came: Came) -> bool
        requires typed { IsTyped self.old.device }
        requires fastboot { IsTrue (is_fastboot (held_of self.old.device).device.mode) }
        requires room { (held_of self.old.device).device.max ≤ inlet.old.room }
        requires in_order { IsInOrder K.told (held_of self.old.device) }
        requires ready { IsReady came inlet.old self.old.outbox }
        ensures hears { HearsBy K.told came (side self.old inlet.old) (side self.new inlet.new) result }
        ensures follows { Follows K.told K.lent (held_of self.old.device) self.new.device }
        ensures locked { StaysLocked K.told (held_of self.old.device) (held_of self.new.device) }
    {
        match came {
            Came::More => false,
            Came::Greeting(good) => !good,
            Came::TooLong => {
                self.outbox.say(&Reply::Fail(text_of(inlet.excess())));
                true
            }
            Came::Command => self.obey(inlet),
            Came::Data(whole) => {
                if whole {
                    self.outbox.say(&Reply::Okay(text_of(b"")));
                }
                false
            }
        }
    }
}
