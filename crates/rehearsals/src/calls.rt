//! The programs' top calls over real files.

use crate::cutting::Cutting;
use dev_disk::file::FileDisk;
use device_session::script_gate::ScriptGate;
use device_top::device::device_main;
use fb_frame::sink::Sink;
use flash_plan::folder_dir::FolderDir;
use host_top::host::host_main;
use pair_port::pair::PairPort;

/// Runs fbdevice with these words, over a gate by which nobody comes.
pub fn run_device<S: Sink>(rt: &HostRuntime, words: &[String], out: &mut S) -> anyhow::Result<u8> {
    let alloc = rt.alloc();
    let mut disk = FileDisk::new(rt);
    let mut gate = ScriptGate::new(alloc, Vec::new(alloc), Vec::new(alloc), Vec::new(alloc), 0)?;
    Ok(device_main(alloc, words, &mut disk, &mut gate, out))
}

/// Runs fbflash with these words, over connections that are cut and break so.
pub fn run_host<S: Sink>(
    rt: &HostRuntime,
    words: &[String],
    cutting: &mut Cutting,
    out: &mut S,
) -> anyhow::Result<u8> {
    let alloc = rt.alloc();
    let (sizes, breaks) = cutting.take(alloc)?;
    let mut dir = FolderDir::new(rt);
    let mut port = PairPort::new(FileDisk::new(rt), sizes, breaks);
    let status = host_main(alloc, words, &mut dir, &mut port, out);
    let _disk = port.into_disk();
    Ok(status)
}
