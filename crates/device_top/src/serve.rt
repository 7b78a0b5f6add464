//! Serving the device of an image file.
ghost use Rattle.std.specs.Prelude.{◌≡◌, ◌≤◌, [], Some, IfOk, IfErr, IsTrue};
ghost use Rattle.dev_model.specs.Partitions.{is_fastboot};
ghost use Rattle.dev_store.specs.Held.{IsWhole, DiskKept};
ghost use Rattle.device_jobs.specs.Working.{output};
ghost use Rattle.device_engine.specs.Running.{held_of, IsTyped};
ghost use Rattle.device_words.specs.declared.request.DeviceWords.TheVariants.{Serve};
ghost use Rattle.device_top.specs.Working.{IsOpened, IsUnopened, service, HasRun, ServesFile};
ghost use Rattle.device_top.specs.Working.{sides, IsCall};

use crate::report::{ServeStop, ended_of, report_serving};
use dev_disk::disk::Disk;
use dev_store::store::Store;
use device_engine::device::Device;
use device_jobs::ended::opening_stop;
use device_jobs::job::JobError;
use device_session::gate::Gate;
use device_session::room::Room;
use device_session::serving::serve;
use fb_frame::sink::Sink;
use std::alloc::Global;

/// The device of an image, in the mode in which it opens.
fn open_device<K: Disk>(alloc: Global, disk: K, file: &str) -> Result<Device<K>, (K, JobError)>
    ensures opened { IfOk result (λ device. IsOpened K.told K.lent disk file.now (held_of device)) }
    ensures typed { IfOk result IsTyped }
    ensures unopened { IfErr result (λ e. IsUnopened file.now e.1 (K.told disk) (K.told e.0)) }
    ensures same { IfErr result (λ e. K.lent e.0 ≡ K.lent disk) }
{
    match Store::open(alloc, disk, file) {
        Ok(store) => Ok(Device::new(store)),
        Err(lost) => {
            let (disk, error) = lost;
            Err((disk, opening_stop(&error)))
        }
    }
}

/// The device of an image, and the memory of its connections.
fn prepare<K: Disk>(alloc: Global, disk: K, file: &str) -> Result<(Device<K>, Room), (K, JobError)>
    ensures opened { IfOk result (λ r. IsOpened K.told K.lent disk file.now (held_of r.0)) }
    ensures typed { IfOk result (λ r. IsTyped r.0) }
    ensures room { IfOk result (λ r. (held_of r.0).device.max ≤ r.1) }
    ensures unopened { IfErr result (λ e. IsUnopened file.now e.1 (K.told disk) (K.told e.0)) }
    ensures same { IfErr result (λ e. K.lent e.0 ≡ K.lent disk) }
{
    dev_store::laws();
    let device = match open_device(alloc, disk, file) {
        Ok(device) => device,
        Err(lost) => return Err(lost),
    };
    match Room::new(alloc, device.max_download()) {
        Ok(room) => Ok((device, room)),
        Err(_) => Err((device.into_disk(), JobError::Memory)),
    }
}

/// Serves a device at a port, to at most so many connections. No memory is taken.
fn serve_device<K: Disk, G: Gate>(
    device: Device<K>,
    room: Room,
    port: u16,
    connections: u32,
    gate: &mut G,
) -> (K, Result<u32, ServeStop>)
    requires typed { IsTyped device }
    requires whole { IsWhole K.told (held_of device) }
    requires fastboot { IsTrue (is_fastboot (held_of device).device.mode) }
    requires room { (held_of device).device.max ≤ room }
    ensures run { HasRun (held_of device).device (service [] port connections result.1)
        (K.told (held_of device).disk) (K.told result.0) (G.told gate.old, G.told gate.new) }
    ensures kept { DiskKept K.told K.lent (held_of device).disk result.0 }
    ensures lent { G.lent gate.new ≡ G.lent gate.old }
{
    let Ok(()) = gate.listen(port) else {
        return (device.into_disk(), Err(ServeStop::Gate));
    };
    let served = serve(device, room, gate, connections);
    let ended = ended_of(served.end, served.connections);
    (served.device.into_disk(), ended)
}

/// Serves the device of an image at a port.
fn serve_file<K: Disk, G: Gate>(
    alloc: Global,
    file: &str,
    port: u16,
    connections: u32,
    disk: K,
    gate: &mut G,
) -> (K, Result<u32, ServeStop>)
    ensures served { ServesFile (service file.now port connections result.1) (K.told disk) (K.told result.0)
        (G.told gate.old, G.told gate.new) }
    ensures same { K.lent result.0 ≡ K.lent disk }
    ensures lent { G.lent gate.new ≡ G.lent gate.old }
{
    match prepare(alloc, disk, file) {
        Ok((device, room)) => serve_device(device, room, port, connections, gate),
        Err((disk, error)) => (disk, Err(ServeStop::Unopened(error))),
    }
}

/// Serves the device that an image stands for at a port, to at most this many connections, one after another.
/// All memory is taken before the gate listens. Puts `served N` or the line of what went wrong, and answers
/// the status of the call.
pub(crate) fn serve_image<K: Disk, G: Gate, S: Sink>(
    alloc: Global,
    file: &str,
    port: u16,
    connections: u32,
    disk: &mut K,
    gate: &mut G,
    out: &mut S,
) -> u8
    ensures call { IsCall (Some (Serve file.now port connections)) result
        (sides (K.told disk.old) (G.told gate.old) (output (S.text out.old) (S.faults out.old)))
        (sides (K.told disk.new) (G.told gate.new) (output (S.text out.new) (S.faults out.new))) }
    ensures same { K.lent disk.new ≡ K.lent disk.old }
    ensures lent { G.lent gate.new ≡ G.lent gate.old }
{
    dev_store::laws();
    let served = serve_file(alloc, file, port, connections, &mut *disk, gate);
    report_serving(alloc, &served.1, out)
}
