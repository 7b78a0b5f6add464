//! A host over a scripted port: the state of its connection, and what each call brings.
ghost use Rattle.std.specs.Prelude.{◌<◌, ◌≤◌, length, IsTrue};

use crate::call::Call;
use crate::caller::load;
use crate::came::Came;
use fb_frame::memory_sink::MemorySink;
use fb_link::download::send_chunk;
use fb_link::port::{Port, Target};
use fb_link::script_port::ScriptPort;
use fb_link::states::{Answer, InParts, Lost, Ready, Sending};
use fb_message::command::Command;
use std::alloc::Global;

/// The state of the connection.
#[derive(Drop)]
pub enum Host {
    Lost(Lost<ScriptPort>),
    Ready(Ready<ScriptPort>),
    Sending(Sending<ScriptPort>),
    /// The port is gone.
    Gone,
}

impl Host {
    /// The port, where it isn't gone. A connection that is up ends.
    pub fn into_port(self) -> Option<ScriptPort> {
        match self {
            Host::Lost(lost) => Some(lost.into_port()),
            Host::Ready(ready) => Some(ready.hang_up().into_port()),
            Host::Sending(sending) => Some(sending.abandon().into_port()),
            Host::Gone => None,
        }
    }
}

/// What an answer leaves, and what it brings.
fn answered(answer: Answer<ScriptPort>) -> (Host, Came) {
    match answer {
        Answer::Okay(ready, line) => (Host::Ready(ready), Came::Okay(line)),
        Answer::Fail(ready, line) => (Host::Ready(ready), Came::Fail(line)),
        Answer::Load(sending) => {
            let left = sending.left();
            (Host::Sending(sending), Came::Load(left))
        }
        Answer::Broken(lost, error) => (Host::Lost(lost), Came::Broken(error)),
        Answer::Unshown(lost) => (Host::Lost(lost), Came::Is("unshown")),
    }
}

/// A call that doesn't belong to this state, or is other than it may be there.
fn unfit(host: Host) -> (Host, Came) {
    (host, Came::Is("unfit"))
}

/// Aims the port, and begins a connection.
fn connect(alloc: Global, lost: Lost<ScriptPort>) -> (Host, Came) {
    let mut port = lost.into_port();
    if port.aim(alloc, &Target::Image("script")).is_err() {
        return (Host::Lost(Lost::new(port)), Came::Is("astray"));
    }
    match Lost::new(port).connect() {
        Ok(ready) => (Host::Ready(ready), Came::Is("ready")),
        Err((lost, error)) => (Host::Lost(lost), Came::Broken(error)),
    }
}

/// Asks for a variable.
fn ask(ready: Ready<ScriptPort>, name: &[u8], shown: &mut MemorySink) -> (Host, Came) {
    if name.len() > 4_089 {
        return unfit(Host::Ready(ready));
    }
    answered(ready.command(&Command::GetVar(name), shown))
}

/// How many bytes are left to send.
fn wrote(sending: Sending<ScriptPort>) -> (Host, Came) {
    let left = sending.left();
    (Host::Sending(sending), Came::Left(left))
}

/// Whether so many bytes go into one frame, where so many are left.
fn fits(bytes: &[u8], left: u32) -> bool
    ensures some { IsTrue result → 0 < length bytes.now }
    ensures small { IsTrue result → length bytes.now ≤ 65536 }
    ensures within { IsTrue result → length bytes.now ≤ left }
{
    !bytes.is_empty() && bytes.len() <= 65_536 && bytes.len() <= left as usize
}

/// Sends the next bytes of a download.
fn write(sending: Sending<ScriptPort>, bytes: &[u8]) -> (Host, Came) {
    if !fits(bytes, sending.left()) {
        return unfit(Host::Sending(sending));
    }
    match sending.write(bytes) {
        Ok(sending) => wrote(sending),
        Err((lost, error)) => (Host::Lost(lost), Came::Broken(error)),
    }
}

/// Sends the next bytes of a download over the port itself.
fn write_apart(sending: Sending<ScriptPort>, bytes: &[u8]) -> (Host, Came) {
    if !fits(bytes, sending.left()) {
        return unfit(Host::Sending(sending));
    }
    let InParts {
        mut port,
        left,
        lines,
    } = sending.into_parts();
    if send_chunk(&mut port, left, bytes).is_err() {
        return (Host::Lost(Lost::new(port)), Came::Is("link"));
    }
    let left = left - bytes.len() as u32;
    wrote(Sending::from_parts(port, left, lines))
}

/// Hears the end of a download.
fn finish(sending: Sending<ScriptPort>, shown: &mut MemorySink) -> (Host, Came) {
    if sending.left() > 0 {
        return unfit(Host::Sending(sending));
    }
    answered(sending.finish(shown))
}

/// Begins a connection, asks twice, and downloads the bytes.
fn load_all(
    alloc: Global,
    lost: Lost<ScriptPort>,
    bytes: &[u8],
    shown: &mut MemorySink,
) -> (Host, Came) {
    let mut port = lost.into_port();
    let aimed = port.aim(alloc, &Target::Image("script"));
    if aimed.is_err() || !fits(bytes, u32::MAX) {
        return unfit(Host::Lost(Lost::new(port)));
    }
    match load(port, bytes, shown) {
        Some(ready) => (Host::Ready(ready), Came::Is("loaded")),
        None => (Host::Gone, Came::Is("not loaded")),
    }
}

/// Makes a call: the state after it, and what came of it.
pub fn step(alloc: Global, host: Host, call: Call<'_>, shown: &mut MemorySink) -> (Host, Came) {
    match host {
        Host::Lost(lost) => step_lost(alloc, lost, call, shown),
        Host::Ready(ready) => step_ready(ready, call, shown),
        Host::Sending(sending) => step_sending(sending, call, shown),
        Host::Gone => unfit(Host::Gone),
    }
}

fn step_lost(
    alloc: Global,
    lost: Lost<ScriptPort>,
    call: Call<'_>,
    shown: &mut MemorySink,
) -> (Host, Came) {
    match call {
        Call::Connect => connect(alloc, lost),
        Call::Load(bytes) => load_all(alloc, lost, bytes, shown),
        _ => unfit(Host::Lost(lost)),
    }
}

fn step_ready(ready: Ready<ScriptPort>, call: Call<'_>, shown: &mut MemorySink) -> (Host, Came) {
    match call {
        Call::GetVar(name) => ask(ready, name, shown),
        Call::Download(count) => answered(ready.command(&Command::Download(count), shown)),
        Call::HangUp => (Host::Lost(ready.hang_up()), Came::Is("lost")),
        _ => unfit(Host::Ready(ready)),
    }
}

fn step_sending(
    sending: Sending<ScriptPort>,
    call: Call<'_>,
    shown: &mut MemorySink,
) -> (Host, Came) {
    match call {
        Call::Write(bytes) => write(sending, bytes),
        Call::Apart(bytes) => write_apart(sending, bytes),
        Call::Finish => finish(sending, shown),
        Call::Abandon => (Host::Lost(sending.abandon()), Came::Is("lost")),
        _ => unfit(Host::Sending(sending)),
    }
}
