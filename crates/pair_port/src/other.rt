//! The other end of a port.
ghost use Rattle.std.specs.Prelude.{◌≡◌, IsTrue, IsFalse, OnOk, OnErr};
ghost use Rattle.std.specs.Result.{IsErrOf};
ghost use Rattle.fb_frame.specs.Causes.{Rose};
ghost use Rattle.dev_model.specs.declared.bad_image.BadImage.{BadImage};
ghost use Rattle.dev_model.specs.declared.device.Dev.{Dev};
ghost use Rattle.dev_store.specs.Opening.{IsAbsent, IsBadImage};
ghost use Rattle.dev_model.specs.Partitions.{is_fastboot};
ghost use Rattle.device_engine.specs.Running.{held_of, IsTyped};
ghost use Rattle.pair_port.specs.Calls.{OpensEnd, MissesEnd, BeginsEnd, OfHeld, IsUnready};
ghost use Rattle.pair_port.specs.Pairs.{Alone, disk_of, down};
ghost use Rattle.pair_port.specs.Ready.{end_of, IsTypedEnd, IsReadyEnd};

use crate::opening::{Opened, open_device};
use dev_disk::disk::Disk;
use device_engine::device::Device;
use device_session::room::Room;
use device_session::session::Session;
use fb_link::port::AimError;
use std::alloc::Global;

/// No device, a device apart with the memory for its sessions, or a session that is up.
#[derive(Drop)]
pub enum Other<K: Disk> {
    Alone(K),
    Down(Device<K>, Room),
    Up(Session<K>),
}

/// Whether the device runs fastboot.
fn runs_fastboot<K: Disk>(device: &Device<K>) -> bool
    requires typed { IsTyped device.now }
    ensures runs { result ≡ is_fastboot (held_of device.now).device.mode }
{
    match device {
        Device::Bootloader(_) | Device::Userspace(_) => true,
        Device::Gone(_) | Device::Halted(_) => false,
    }
}

impl<K: Disk> Other<K> {
    /// The disk.
    pub fn into_disk(self) -> K
        ensures disk { result ≡ disk_of (end_of self) }
    {
        match self {
            Other::Alone(disk) => disk,
            Other::Down(device, _) => device.into_disk(),
            Other::Up(session) => session.finish().0.into_disk(),
        }
    }

    /// Opens the image of a path.
    pub fn aim(self, target: (Global, &str)) -> (Other<K>, Result<(), AimError>)
        ensures opens { OnOk result.1 (OpensEnd K.told (end_of self) (end_of result.0) target.entry.1.now) }
        ensures ready { OnOk result.1 ((left : Dev) → IsReadyEnd K.told (end_of result.0) left) }
        ensures misses { OnErr result.1
            (MissesEnd K.told (end_of self) (end_of result.0) target.entry.1.now) }
        ensures typed { IsTypedEnd result.0 }
        ensures absent { IsErrOf result.1 AimError.NoTarget →
            IsAbsent (K.told (disk_of (end_of self))).files target.entry.1.now }
        ensures bad { (bad : BadImage) → IsErrOf result.1 (AimError.BadDevice bad) →
            IsBadImage (K.told (disk_of (end_of self))).files target.entry.1.now bad }
        ensures link { IsErrOf result.1 AimError.Link →
            Rose (K.told (disk_of (end_of self))).faults (K.told (disk_of (end_of result.0))).faults }
        ensures same { K.lent (disk_of (end_of result.0)) ≡ K.lent (disk_of (end_of self)) }
    {
        let (alloc, path) = target;
        match open_device(alloc, self.into_disk(), path) {
            Ok(Opened { device, room }) => (Other::Down(device, room), Ok(())),
            Err((disk, error)) => (Other::Alone(disk), Err(error)),
        }
    }

    /// Leaves the device.
    pub fn leave(self, _unused: ()) -> (Other<K>, ())
        ensures alone { end_of result.0 ≡ Alone (disk_of (end_of self)) }
        ensures typed { IsTypedEnd result.0 }
    {
        (Other::Alone(self.into_disk()), ())
    }

    /// Ends the connection, if one is up.
    pub fn down(self, _unused: ()) -> (Other<K>, ())
        requires typed { IsTypedEnd self }
        ensures down { end_of result.0 ≡ down (end_of self) }
        ensures typed { IsTypedEnd result.0 }
    {
        match self {
            Other::Alone(disk) => (Other::Alone(disk), ()),
            Other::Down(device, room) => (Other::Down(device, room), ()),
            Other::Up(session) => {
                let (device, room) = session.finish();
                (Other::Down(device, room), ())
            }
        }
    }

    /// Begins a connection with the device apart, and answers whether there is one now. There is exactly
    /// where the device is in a mode for it.
    pub fn up(self, _unused: ()) -> (Other<K>, bool)
        requires typed { IsTypedEnd self }
        requires apart { OfHeld (λ _. Unit {0}) (end_of self) }
        requires ready { (left : Dev) × IsReadyEnd K.told (end_of self) left }
        ensures begins { IsTrue result.1 → BeginsEnd (end_of self) (end_of result.0) }
        ensures bars { IsFalse result.1 → end_of result.0 ≡ end_of self }
        ensures unready { IsFalse result.1 → OfHeld IsUnready (end_of self) }
        ensures typed { IsTypedEnd result.0 }
    {
        match self {
            Other::Down(device, room) => {
                if runs_fastboot(&device) {
                    (Other::Up(Session::start(device, room)), true)
                } else {
                    (Other::Down(device, room), false)
                }
            }
            Other::Alone(_) | Other::Up(_) => unreachable!(),
        }
    }
}
