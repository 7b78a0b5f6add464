//! Serving connections one after another.
ghost use Rattle.std.specs.Prelude.{◌≡◌, ◌-◌, ◌<◌, ◌≤◌, IsTrue, IsFalse, IfSome, None, Option};
ghost use Rattle.fb_frame.specs.Told.{Both};
ghost use Rattle.dev_model.specs.Partitions.{is_fastboot};
ghost use Rattle.device_engine.specs.Running.{held_of, IsTyped, IsInOrder, Follows};
ghost use Rattle.device_session.specs.Gates.{Connections, GateTold, GateKept, IsAccepted};
ghost use Rattle.device_session.specs.Serving.{ServesNext, ServesGate, AcceptsCount, EndsBy};
ghost use Rattle.device_session.specs.Serving.{HaltsByDisk};
ghost use Rattle.device_session.specs.Talking.{GateCalm};

use crate::gate::Gate;
use crate::room::Room;
use crate::session::Session;
use crate::talk::talk;
use dev_disk::disk::Disk;
use device_engine::device::Device;

/// Why serving ended.
#[derive(Clone, Copy, Debug, PartialEq, Eq)]
pub enum ServeEnd {
    /// The device left fastboot.
    Left,
    /// As many connections as were asked for were served.
    Limit,
    /// No connection was left.
    NoMore,
    /// A connection couldn't be accepted.
    Gate,
    /// The device's disk failed.
    Halted,
}

/// What serving leaves: the device, the memory, how many connections were accepted, and why it ended.
#[derive(Drop)]
pub struct Served<K: Disk> {
    pub device: Device<K>,
    pub room: Room,
    pub connections: u32,
    pub end: ServeEnd,
}

/// Serves the connection that was accepted last, to its end.
fn serve_one<K: Disk, G: Gate>(device: Device<K>, room: Room, gate: &mut G) -> (Device<K>, Room)
    requires typed { IsTyped device }
    requires in_order { IsInOrder K.told (held_of device) }
    requires fastboot { IsTrue (is_fastboot (held_of device).device.mode) }
    requires room { (held_of device).device.max ≤ room }
    requires up { IsTrue (G.told gate.old).up }
    ensures serves { (before : Option Connections) → Both IsAccepted before (G.told gate.old).connections →
        Both (ServesNext K.told (held_of device) (held_of result.0)) before (G.told gate.new).connections }
    ensures follows { Follows K.told K.lent (held_of device) result.0 }
    ensures halts { HaltsByDisk K.told (held_of device) (held_of result.0) }
    ensures room { result.1 ≡ room }
    ensures calm { GateCalm (G.told gate.old) (G.told gate.new) }
    ensures lent { G.lent gate.new ≡ G.lent gate.old }
{
    let mut session = Session::start(device, room);
    talk(&mut session, gate);
    gate.hang_up();
    session.finish()
}

/// Why no further connection is accepted, with this many left of those that were asked for.
fn stop<K: Disk>(device: &Device<K>, left: u32) -> Option<ServeEnd>
    requires typed { IsTyped device.now }
    ensures stops { IfSome result (λ end. (before after : GateTold) →
        EndsBy end (held_of device.now).device.mode left before after) }
    ensures goes { result ≡ None → IsTrue (is_fastboot (held_of device.now).device.mode) }
    ensures more { result ≡ None → 0 < left }
{
    match device {
        Device::Halted(_) => Some(ServeEnd::Halted),
        Device::Gone(_) => Some(ServeEnd::Left),
        Device::Bootloader(_) | Device::Userspace(_) => {
            if left == 0 {
                Some(ServeEnd::Limit)
            } else {
                None
            }
        }
    }
}

/// Serves connections of the gate one after another, each to its end, at most this many. A fault of a read or
/// a write ends its connection alone.
pub fn serve<K: Disk, G: Gate>(
    device: Device<K>,
    room: Room,
    gate: &mut G,
    connections: u32,
) -> Served<K>
    requires typed { IsTyped device }
    requires in_order { IsInOrder K.told (held_of device) }
    requires room { (held_of device).device.max ≤ room }
    requires listening { IsTrue (G.told gate.old).listening }
    ensures served { ServesGate K.told (held_of device) (held_of result.device) (G.told gate.old)
        (G.told gate.new) }
    ensures count { AcceptsCount result.connections (G.told gate.old) (G.told gate.new) }
    ensures most { result.connections ≤ connections }
    ensures ends { EndsBy result.end (held_of result.device).device.mode (connections - result.connections)
        (G.told gate.old) (G.told gate.new) }
    ensures follows { Follows K.told K.lent (held_of device) result.device }
    ensures halts { HaltsByDisk K.told (held_of device) (held_of result.device) }
    ensures room { result.room ≡ room }
    ensures kept { GateKept (G.told gate.old) (G.told gate.new) }
    ensures lent { G.lent gate.new ≡ G.lent gate.old }
{
    let mut device = device;
    let mut room = room;
    let mut count = 0;
    loop {
        if let Some(end) = stop(&device, connections - count) {
            return Served {
                device,
                room,
                connections: count,
                end,
            };
        }
        match gate.accept() {
            Ok(true) => {}
            Ok(false) => return Served {
                device,
                room,
                connections: count,
                end: ServeEnd::NoMore,
            },
            Err(_) => return Served {
                device,
                room,
                connections: count,
                end: ServeEnd::Gate,
            },
        }
        let (next, back) = serve_one(device, room, gate);
        device = next;
        room = back;
        count += 1;
    }
}
