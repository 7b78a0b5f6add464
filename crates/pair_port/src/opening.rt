//! Opening the device of an image.
ghost use Rattle.std.specs.Prelude.{◌≡◌, IsTrue, IfOk, IfErr};
ghost use Rattle.fb_frame.specs.Causes.{Rose};
ghost use Rattle.dev_model.specs.declared.bad_image.BadImage.{BadImage};
ghost use Rattle.dev_model.specs.Partitions.{is_fastboot};
ghost use Rattle.dev_store.specs.Faults.{IsHonest};
ghost use Rattle.dev_store.specs.Held.{IsWhole};
ghost use Rattle.dev_store.specs.Opening.{IsAbsent, IsBadImage, OpensImage, LeavesImage, OthersKept};
ghost use Rattle.device_engine.specs.Running.{held_of, IsTyped};

use dev_disk::disk::Disk;
use dev_store::errors::OpenError;
use dev_store::store::Store;
use device_engine::device::Device;
use device_session::room::Room;
use fb_link::port::AimError;
use std::alloc::Global;

/// A device that was opened, and the memory for its sessions.
#[derive(Drop)]
pub struct Opened<K: Disk> {
    pub device: Device<K>,
    pub room: Room,
}

/// Why a port isn't aimed whose image isn't opened.
fn aim_error(error: OpenError) -> AimError
    ensures absent { result ≡ AimError.NoTarget → error ≡ OpenError.Absent }
    ensures bad { (bad : BadImage) → result ≡ AimError.BadDevice bad → error ≡ OpenError.Bad bad }
    ensures disk { result ≡ AimError.Link → error ≡ OpenError.Disk }
{
    match error {
        OpenError::Absent => AimError::NoTarget,
        OpenError::Bad(bad) => AimError::BadDevice(bad),
        OpenError::Disk => AimError::Link,
        OpenError::Memory => AimError::Memory,
    }
}

/// Opens the image of a path, and takes all memory that its device needs. The disk is handed back with each
/// error.
pub fn open_device<K: Disk>(alloc: Global, disk: K, path: &str) -> Result<Opened<K>, (K, AimError)>
    ensures opens { IfOk result (λ o. OpensImage (K.told disk)
        (K.told (held_of o.device).disk) path.now (held_of o.device).device) }
    ensures typed { IfOk result (λ o. IsTyped o.device) }
    ensures whole { IfOk result (λ o. IsWhole K.told (held_of o.device)) }
    ensures runs { IfOk result (λ o. IsTrue (is_fastboot (held_of o.device).device.mode)) }
    ensures room { IfOk result (λ o. o.room ≡ (held_of o.device).device.max) }
    ensures same { IfOk result (λ o. K.lent (held_of o.device).disk ≡ K.lent disk) }
    ensures absent { IfErr result (λ e. e.1 ≡ AimError.NoTarget → IsAbsent (K.told disk).files path.now) }
    ensures bad { (bad : BadImage) → IfErr result (λ e. e.1 ≡ AimError.BadDevice bad →
        IsBadImage (K.told disk).files path.now bad) }
    ensures link { IfErr result (λ e. e.1 ≡ AimError.Link →
        Rose (K.told disk).faults (K.told e.0).faults) }
    ensures left { IfErr result (λ e. IsHonest (K.told e.0).torn →
        LeavesImage (K.told disk) (K.told e.0) path.now) }
    ensures others { IfErr result (λ e. OthersKept (K.told disk) (K.told e.0) path.now) }
    ensures same_left { IfErr result (λ e. K.lent e.0 ≡ K.lent disk) }
{
    let store = match Store::open(alloc, disk, path) {
        Ok(store) => store,
        Err((disk, error)) => return Err((disk, aim_error(error))),
    };
    dev_store::laws();
    let device = Device::new(store);
    match Room::new(alloc, device.max_download()) {
        Ok(room) => Ok(Opened { device, room }),
        Err(_) => Err((device.into_disk(), AimError::Memory)),
    }
}
