use dev_disk::file::FileDisk;
use dev_disk::memory::MemoryDisk;
use device_session::script_gate::ScriptGate;
use device_session::tcp_gate::TcpGate;
use device_top::device::device_main;
use fb_frame::memory_sink::MemorySink;
use std::alloc::{AllocError, Global};
use std::fs;
use std::net::{Ipv4Addr, Net, OpenListener, TcpListener};
use std::process::{Abort, Child, Command, Processes, Stdio};
use std::test::Fail;

const LAYOUT: &[u8; 87] =
    b"fbdevice 1\nproduct falcon\nserialno S1\nslots 0\nmax-download 131072\npartition boot 16384\n";

/// A host of bash's waits up to ten seconds until the port listens.
const WAIT: &str =
    "for i in {1..100}; do exec 3<>/dev/tcp/127.0.0.1/$0 && break; sleep 0.1; done 2>/dev/null";

/// It asks for the product, and prints the 22 bytes that it hears.
const ASK: &str = "printf 'FB01\\0\\0\\0\\0\\0\\0\\0\\016getvar:product' >&3 && head -c 22 <&3";

/// It goes away amid a download, of which it sent four bytes of eight, and comes again.
const LEAVE: &str = "printf 'FB01\\0\\0\\0\\0\\0\\0\\0\\021download:00000008' >&3
printf '\\0\\0\\0\\0\\0\\0\\0\\010abcd' >&3
exec 3>&-
exec 3<>/dev/tcp/127.0.0.1/$0";

/// What a host hears that asks for the product.
const HEARD: &[u8; 22] = b"FB01\0\0\0\0\0\0\0\nOKAYfalcon";

fn words(alloc: Global, texts: &[&str]) -> Result<Vec<String>, AllocError> {
    let mut words = Vec::new(alloc);
    for text in texts {
        words.push(text.to_string(alloc)?)?;
    }
    Ok(words)
}

/// A port of this machine at which nothing listens.
fn free_port<R: Net>(rt: &R) -> Result<u16, Fail> {
    let listener = TcpListener::bind(rt, (Ipv4Addr::LOCALHOST, 0))?;
    Ok(listener.local_addr()?.port())
}

/// Starts a host that does this.
fn start<R: Processes>(
    alloc: Global,
    rt: &R,
    port: &str,
    script: &str,
) -> Result<Child<R::Started>, Fail> {
    let mut host = Command::new(alloc, "/bin/bash")?;
    host.arg("-c")?;
    host.arg(script)?;
    host.arg(port)?;
    Ok(host.stdout(Stdio::piped()).spawn(rt)?)
}

/// Serves a new device to so many connections of a host that does this. Answers the last status with the printed
/// lines, and what the host prints.
fn served(rt: &HostRuntime, connections: &str, script: &str) -> Result<(String, Vec<u8>), Fail> {
    let alloc = rt.alloc();
    let mut disk = FileDisk::new(rt);
    let mut gate = TcpGate::new(rt);
    let mut out = MemorySink::new(alloc, 100)?;
    fs::write(rt, "plain.txt", LAYOUT.as_slice())?;
    let make = words(alloc, &["make", "plain.txt", "dev.img"])?;
    let _made = device_main(alloc, make.as_slice(), &mut disk, &mut gate, &mut out);
    let port = format!(in alloc; "{}", free_port(rt)?)?;
    let host = start(alloc, rt, port.as_str(), script)?;
    let list = [
        "serve",
        "dev.img",
        "--port",
        port.as_str(),
        "--connections",
        connections,
    ];
    let serve = words(alloc, list.as_slice())?;
    let status = device_main(alloc, serve.as_slice(), &mut disk, &mut gate, &mut out);
    let Ok(text) = str::from_utf8(out.text()) else {
        return Err(Fail::from("no text"));
    };
    let text = format!(in alloc; "{status} {text}")?;
    Ok((text, host.wait_with_output(alloc)?.stdout))
}

#[test]
fn serves_over_loopback(rt: HostRuntime) -> Result<(), Fail> {
    let script = format!(in rt.alloc(); "{WAIT}\n{ASK}")?;
    let (text, heard) = served(&rt, "1", script.as_str())?;
    assert_eq!(rt; text.as_str(), "0 made 28672\nserved 1\n");
    assert_eq!(rt; heard.as_slice(), HEARD.as_slice());
    Ok(())
}

#[test]
fn serves_on_after_a_break(rt: HostRuntime) -> Result<(), Fail> {
    let script = format!(in rt.alloc(); "{WAIT}\n{LEAVE}\n{ASK}")?;
    let (text, heard) = served(&rt, "2", script.as_str())?;
    assert_eq!(rt; text.as_str(), "0 made 28672\nserved 2\n");
    assert_eq!(rt; heard.as_slice(), HEARD.as_slice());
    Ok(())
}

#[test]
fn refuses_a_port_in_use(rt: HostRuntime) -> Result<(), Fail> {
    let alloc = rt.alloc();
    let other = TcpListener::bind(&rt, (Ipv4Addr::LOCALHOST, 0))?;
    let port = format!(in alloc; "{}", other.local_addr()?.port())?;
    let mut disk = FileDisk::new(&rt);
    let mut gate = TcpGate::new(&rt);
    let mut out = MemorySink::new(alloc, 100)?;
    fs::write(&rt, "plain.txt", LAYOUT.as_slice())?;
    let make = words(alloc, &["make", "plain.txt", "dev.img"])?;
    let made = device_main(alloc, make.as_slice(), &mut disk, &mut gate, &mut out);
    assert_eq!(rt; made, 0);
    let serve = words(alloc, &["serve", "dev.img", "--port", port.as_str()])?;
    let served = device_main(alloc, serve.as_slice(), &mut disk, &mut gate, &mut out);
    assert_eq!(rt; served, 6);
    assert_eq!(rt; out.text(), b"made 28672\nerror gate\n".as_slice());
    Ok(())
}
