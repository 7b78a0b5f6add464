//! An installation over TCP: fbdevice serves in this process, and fbflash runs in another one.

use anyhow::bail;
use dev_disk::file::FileDisk;
use device_session::tcp_gate::TcpGate;
use device_top::device::device_main;
use fb_frame::write_sink::WriteSink;
use fb_link::tcp_port::TcpPort;
use flash_plan::folder_dir::FolderDir;
use host_top::host::host_main;
use std::alloc::Global;
use std::env;
use std::net::{Ipv4Addr, Net, OpenListener, TcpListener};
use std::process::{Abort, Child, Command, Processes, Stdio};

/// A process of bash's waits up to ten seconds until the port listens, which takes one connection, and then runs
/// this program with the words of fbflash.
const HOST: &str =
    "for i in {1..100}; do exec 3<>/dev/tcp/127.0.0.1/$0 && break; sleep 0.1; done 2>/dev/null
exec 3>&-
exec \"$1\" -s \"tcp:127.0.0.1:$0\" \"${@:2}\"";

/// A port of this machine at which nothing listens.
fn free_port<R: Net>(rt: &R) -> anyhow::Result<u16> {
    let listener = TcpListener::bind(rt, (Ipv4Addr::LOCALHOST, 0))?;
    Ok(listener.local_addr()?.port())
}

/// Starts fbflash with these words on a port of this machine.
fn start<R: Processes>(
    alloc: Global,
    rt: &R,
    port: &str,
    program: &str,
    words: &[String],
) -> anyhow::Result<Child<R::Started>> {
    let mut host = Command::new(alloc, "/bin/bash")?;
    host.arg("-c")?;
    host.arg(HOST)?;
    host.arg(port)?;
    host.arg(program)?;
    for word in words {
        host.arg(word.as_str())?;
    }
    Ok(host.stdout(Stdio::piped()).spawn(rt)?)
}

/// Serves an image to so many connections, the first of which only waits until it is, and shows what fbdevice
/// prints and its status, and then what fbflash prints, which has the other connections, and its status.
pub fn run_served(
    rt: &HostRuntime,
    count: &str,
    image: &str,
    words: &[String],
) -> anyhow::Result<()> {
    let alloc = rt.alloc();
    let port = format!(in alloc; "{}", free_port(rt)?)?;
    let Some(program) = env::args(rt)?.next() else {
        bail!("no name");
    };
    let host = start(alloc, rt, port.as_str(), program.as_str(), words)?;
    let mut serve = Vec::new(alloc);
    for word in [
        "serve",
        image,
        "--port",
        port.as_str(),
        "--connections",
        count,
    ] {
        serve.push(word.to_string(alloc)?)?;
    }
    let mut disk = FileDisk::new(rt);
    let mut gate = TcpGate::new(rt);
    let mut out = WriteSink::new(rt.stdout());
    let served = device_main(alloc, serve.as_slice(), &mut disk, &mut gate, &mut out);
    println!(rt; "{served}")?;
    let heard = host.wait_with_output(alloc)?;
    print!(rt; "{}", str::from_utf8(heard.stdout.as_slice())?)?;
    Ok(())
}

/// Runs fbflash with these words over TCP, and prints its status.
pub fn run_flash(rt: &HostRuntime, words: &[String]) -> anyhow::Result<()> {
    let mut dir = FolderDir::new(rt);
    let mut port = TcpPort::new(rt);
    let mut out = WriteSink::new(rt.stdout());
    let status = host_main(rt.alloc(), words, &mut dir, &mut port, &mut out);
    println!(rt; "{status}")?;
    Ok(())
}
