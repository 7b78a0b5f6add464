ghost use Rattle.std.specs.Prelude.{◌≡◌, ◌++◌, [], None, IfOk};
ghost use Rattle.fb_frame.specs.Greeting.{handshake, read_handshake};
ghost use Rattle.fb_message.specs.CommandText.{command_of};
ghost use Rattle.wire_model.specs.Says.{says};
ghost use Rattle.wire_model.specs.Wire.{answered, fails, fresh, greeted, heard, paid, received, too_long};
ghost use Rattle.wire_model.specs.Connections.{item_of, phase_of, wire_of};

use crate::item::Item;
use crate::replies::{fail, joined, okay};
use crate::says::says;
use dev_model::cells::ByteList;
use dev_model::copies::{copy_bytes, copy_dev};
use dev_model::device::Dev;
use fb_frame::greeting::{handshake, read_handshake};
use fb_frame::items::Items;
use fb_frame::memory::Memory;
use fb_message::command::read_command;
use std::alloc::Global;

/// What a connection awaits next: the handshake, a command, or the data of a download, of which so many
/// bytes are due and these have come (fastboot README, TCP).
#[derive(Debug, Drop)]
pub enum Phase {
    Shake,
    Command,
    Data(u32, ByteList),
}

/// A connection between two items: the device, what was downloaded last, what is awaited, all that was
/// written, and whether it closed.
#[derive(Debug, Drop)]
pub struct Connection {
    pub device: Dev,
    pub loaded: Option<ByteList>,
    pub phase: Phase,
    pub out: ByteList,
    pub closed: bool,
}

/// A connection that begins.
pub fn fresh(alloc: Global, dev: &Dev) -> Result<Connection, Memory>
    ensures { IfOk result (λ connection. wire_of connection ≡ fresh dev.now) }
{
    let device = copy_dev(alloc, dev)?;
    let out = copy_bytes(alloc, handshake(1).as_slice())?;
    Ok(Connection {
        device,
        loaded: None,
        phase: Phase::Shake,
        out,
        closed: false,
    })
}

/// The connection with these bytes written.
fn written(alloc: Global, mut connection: Connection, bytes: &[u8]) -> Result<Connection, Memory>
    ensures { IfOk result (λ next. next ≡ record connection { out = connection.out ++ bytes.now }) }
{
    let out = joined(alloc, connection.out.as_slice(), bytes)?;
    connection.out = Items::from_vec(out);
    Ok(connection)
}

/// FAIL, which ends the connection.
fn failed(alloc: Global, connection: Connection, text: &[u8]) -> Result<Connection, Memory>
    ensures { IfOk result (λ next. wire_of next ≡ fails text.now (wire_of connection)) }
{
    let reply = fail(alloc, text)?;
    let mut next = written(alloc, connection, reply.as_slice())?;
    next.closed = true;
    Ok(next)
}

/// Behind a handshake of any version the connection goes on.
fn greeted(mut connection: Connection, four: &[u8; 4]) -> Connection
    ensures { wire_of result ≡ greeted (read_handshake four.now) (wire_of connection) }
{
    if read_handshake(four).is_ok() {
        connection.phase = Phase::Command;
    } else {
        connection.closed = true;
    }
    connection
}

/// So many bytes are due and these have come: all of them are loaded, or more is awaited.
fn received(
    alloc: Global,
    mut connection: Connection,
    count: u32,
    got: ByteList,
) -> Result<Connection, Memory>
    ensures { IfOk result (λ next. wire_of next ≡ received count got (wire_of connection)) }
{
    if got.len() as u64 != count as u64 {
        connection.phase = Phase::Data(count, got);
        return Ok(connection);
    }
    let reply = okay(alloc, b"".as_slice())?;
    let mut next = written(alloc, connection, reply.as_slice())?;
    next.loaded = Some(got);
    next.phase = Phase::Command;
    Ok(next)
}

/// What follows from a command's payload.
fn answered(alloc: Global, connection: Connection, payload: &[u8]) -> Result<Connection, Memory>
    ensures { IfOk result (λ next. wire_of next ≡ answered
        (says connection.device connection.loaded (command_of payload.now)) (wire_of connection)) }
{
    let command = read_command(payload);
    let answer = says(alloc, &connection.device, &connection.loaded, &command)?;
    let mut next = written(alloc, connection, answer.out.as_slice())?;
    next.device = answer.device;
    next.loaded = answer.loaded;
    next.closed = answer.closed;
    match answer.due {
        None => Ok(next),
        Some(count) => received(alloc, next, count, Items::new(alloc)),
    }
}

/// What follows from a payload, which is a command or data.
fn paid(alloc: Global, connection: Connection, payload: &[u8]) -> Result<Connection, Memory>
    ensures { IfOk result (λ next. wire_of next ≡ paid (phase_of connection.phase) payload.now
        (wire_of connection)) }
{
    match &connection.phase {
        Phase::Shake => Ok(connection),
        Phase::Command => answered(alloc, connection, payload),
        Phase::Data(count, got) => {
            let count = *count;
            let all = joined(alloc, got.as_slice(), payload)?;
            received(alloc, connection, count, Items::from_vec(all))
        }
    }
}

/// Why a head is refused.
fn too_long(phase: &Phase) -> &'static [u8]
    ensures { result.now ≡ too_long (phase_of phase.now) }
{
    match phase {
        Phase::Data(_, _) => b"too much data".as_slice(),
        _ => b"command too long".as_slice(),
    }
}

/// What follows from an item.
pub fn heard(alloc: Global, connection: Connection, item: &Item<'_>) -> Result<Connection, Memory>
    ensures { IfOk result (λ next. wire_of next ≡ heard (item_of item.now) (wire_of connection)) }
{
    match item {
        Item::Greeting(four) => Ok(greeted(connection, four)),
        Item::TooLong => {
            let text = too_long(&connection.phase);
            failed(alloc, connection, text)
        }
        Item::Payload(payload) => paid(alloc, connection, payload),
    }
}
