ghost use Rattle.std.specs.Prelude.{◌≡◌, IfOk, length};
ghost use Rattle.wire_model.specs.Wire.{serves, settled};
ghost use Rattle.wire_model.specs.Connections.{served_of, wire_at, wire_of};

use crate::connection::{Connection, fresh, heard};
use crate::item::front;
use crate::served::Served1;
use dev_model::device::Dev;
use fb_frame::memory::Memory;
use std::alloc::Global;

/// The most bytes that a connection takes.
const LIMIT: usize = 0x4000_0000_0000_0000;

/// The connection when each item of the bytes was heard.
fn settled(alloc: Global, connection: Connection, bytes: &[u8]) -> Result<Connection, Memory>
    ensures { IfOk result (λ last. served_of (wire_of last)
        ≡ served_of (settled (length bytes.now) (wire_at bytes.now (length bytes.now) connection))) }
{
    let mut now = connection;
    let mut rest = bytes;
    for i in 0..bytes.len() {
        let Some((item, behind)) = front(&now.phase, rest) else {
            return Ok(now);
        };
        now = heard(alloc, now, &item)?;
        if now.closed {
            return Ok(now);
        }
        rest = behind;
    }
    Ok(now)
}

/// What a connection gives for these bytes: those that the device writes, the device after, and whether
/// the connection is closed (fastboot README, TCP). It is the slow program beside the definition, and
/// works on whole lists.
pub fn serves(alloc: Global, dev: &Dev, bytes: &[u8]) -> Result<Served1, Memory>
    ensures { IfOk result (λ served. served ≡ serves dev.now bytes.now) }
{
    let taken = &bytes[..bytes.len().min(LIMIT)];
    let first = fresh(alloc, dev)?;
    let last = settled(alloc, first, taken)?;
    Ok(Served1 {
        out: last.out,
        after: last.device,
        closed: last.closed || taken.len() == LIMIT,
    })
}
