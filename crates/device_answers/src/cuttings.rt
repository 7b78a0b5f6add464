ghost use Rattle.std.specs.Prelude.{◌≤◌};

use dev_disk::memory::MemoryDisk;
use dev_store::store::Store;
use device_engine::device::Device;
use device_session::room::Room;
use device_session::session::Session;
use std::alloc::{AllocError, Global};

/// How the bytes of a connection are cut.
#[derive(Clone, Copy)]
pub enum Cutting {
    Whole,
    Bytes,
    /// Into pieces of 1 to 97 bytes, drawn from a number.
    Drawn(u32),
}

impl Cutting {
    /// How long the next piece is, of so many bytes that are left.
    fn next(&mut self, left: usize) -> usize
        ensures { result ≤ left }
    {
        match self {
            Cutting::Whole => left,
            Cutting::Bytes => left.min(1),
            Cutting::Drawn(seed) => {
                let next = seed.wrapping_mul(1_664_525).wrapping_add(1_013_904_223);
                *seed = next;
                left.min((next >> 16) as usize % 97 + 1)
            }
        }
    }
}

/// What a connection gave: the bytes that were answered, whether it was closed, and the disk that it left.
#[derive(Drop)]
pub struct Answered {
    pub out: Vec<u8>,
    pub closed: bool,
    pub disk: MemoryDisk,
}

/// A session over the device of a disk's image. None where there is none.
fn begin(alloc: Global, disk: MemoryDisk) -> anyhow::Result<Option<Session<MemoryDisk>>> {
    let Ok(store) = Store::open(alloc, disk, "image") else {
        return Ok(None);
    };
    let room = Room::new(alloc, store.max_download())?;
    Ok(Some(Session::start(Device::new(store), room)))
}

/// Takes all that a session answered.
fn drain(session: &mut Session<MemoryDisk>, out: &mut Vec<u8>) -> Result<(), AllocError> {
    let answered = session.outbox();
    out.extend_from_slice(answered)?;
    let count = answered.len();
    session.drain(count);
    Ok(())
}

/// Feeds a piece, and takes what is answered each time that the session stops.
fn feed(
    session: &mut Session<MemoryDisk>,
    piece: &[u8],
    out: &mut Vec<u8>,
) -> Result<(), AllocError> {
    let mut rest = piece;
    for _ in 0..piece.len() {
        drain(session, out)?;
        let taken = session.feed(rest);
        rest = &rest[taken..];
    }
    drain(session, out)
}

/// What a session over a disk's image makes of bytes that are cut in this way. None where the disk has no image.
pub fn answers_of(
    alloc: Global,
    disk: MemoryDisk,
    sent: &[u8],
    cutting: Cutting,
) -> anyhow::Result<Option<Answered>> {
    let Some(mut session) = begin(alloc, disk)? else {
        return Ok(None);
    };
    let mut out = Vec::new(alloc);
    let mut cutting = cutting;
    let mut rest = sent;
    for _ in 0..sent.len() {
        let count = cutting.next(rest.len());
        feed(&mut session, &rest[..count], &mut out)?;
        rest = &rest[count..];
    }
    let closed = session.closed();
    let (device, _) = session.finish();
    Ok(Some(Answered {
        out,
        closed,
        disk: device.into_disk(),
    }))
}
