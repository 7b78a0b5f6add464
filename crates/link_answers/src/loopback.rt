//! A port over TCP, whose other end is in this process too.
ghost use Rattle.std.specs.Prelude.{IsTrue, OnOk, IfOk};

use crate::escaped::print;
use fb_link::port::{AimError, LinkFault, Port, Target};
use fb_link::tcp_port::TcpPort;
use std::alloc::Global;
use std::io::{Read, Write};
use std::net::{Ipv4Addr, Net, TcpListener, TcpStream};
use std::time::Duration;

/// What a host asks, as a frame.
const QUESTION: &[u8] = b"\0\0\0\0\0\0\0\x0egetvar:version";

/// The other end of a connection, which waits for bytes no longer than ten seconds.
fn accept(listener: &TcpListener) -> anyhow::Result<TcpStream> {
    let (peer, _) = listener.accept()?;
    peer.set_read_timeout(Some(Duration::from_secs(10)))?;
    Ok(peer)
}

/// Prints what the peer gets.
fn print_got(rt: &HostRuntime, peer: &mut TcpStream, buf: &mut [u8]) -> anyhow::Result<()> {
    peer.read_exact(buf)?;
    print(rt, "sent", buf)
}

/// Prints what is heard of bytes that the peer says, none where it says none.
fn hear<R: Net + Drop>(
    rt: &HostRuntime,
    port: &mut TcpPort<R>,
    buf: &mut [u8],
) -> anyhow::Result<()>
    requires up { IsTrue (⟦<TcpPort<R> as Port>⟧.told port.old).up }
    ensures up { OnOk result (IsTrue (⟦<TcpPort<R> as Port>⟧.told port.new).up) }
{
    let n = port.recv(buf)?;
    print(rt, "heard", &buf[..n])
}

/// Sends a handshake and a question, each in one call.
fn ask<R: Net + Drop>(port: &mut TcpPort<R>) -> Result<(), LinkFault>
    requires up { IsTrue (⟦<TcpPort<R> as Port>⟧.told port.old).up }
    ensures up { OnOk result (IsTrue (⟦<TcpPort<R> as Port>⟧.told port.new).up) }
{
    port.send(b"FB01")?;
    port.send(QUESTION)?;
    Ok(())
}

/// A question and its answer, whole.
fn exchange<R: Net + Drop>(
    rt: &HostRuntime,
    port: &mut TcpPort<R>,
    peer: &mut TcpStream,
) -> anyhow::Result<()>
    requires up { IsTrue (⟦<TcpPort<R> as Port>⟧.told port.old).up }
    ensures up { OnOk result (IsTrue (⟦<TcpPort<R> as Port>⟧.told port.new).up) }
{
    peer.write_all(b"FB01\0\0\0\0\0\0\0\x07OKAY0.4")?;
    ask(port)?;
    print_got(rt, peer, &mut [0; 26])?;
    hear(rt, port, &mut [0; 19])
}

/// What comes in three calls with a buffer of two bytes.
fn hear_rest<R: Net + Drop>(rt: &HostRuntime, port: &mut TcpPort<R>) -> anyhow::Result<()>
    requires up { IsTrue (⟦<TcpPort<R> as Port>⟧.told port.old).up }
{
    hear(rt, port, &mut [0; 2])?;
    hear(rt, port, &mut [0; 2])?;
    hear(rt, port, &mut [0; 2])
}

/// Bytes that come in pieces, as they are sent and as a buffer of two bytes holds, and then the peer's end.
fn hear_pieces<R: Net + Drop>(
    rt: &HostRuntime,
    port: &mut TcpPort<R>,
    peer: TcpStream,
) -> anyhow::Result<()>
    requires up { IsTrue (⟦<TcpPort<R> as Port>⟧.told port.old).up }
{
    let mut peer = peer;
    peer.write_all(b"a")?;
    hear(rt, port, &mut [0; 2])?;
    peer.write_all(b"bcd")?;
    drop(peer);
    hear_rest(rt, port)
}

/// A port that is aimed at a port of this machine.
fn aimed<R: Net + Drop>(alloc: Global, net: R, number: u16) -> Result<TcpPort<R>, AimError>
    ensures aimed { IfOk result (λ p. IsTrue (⟦<TcpPort<R> as Port>⟧.told p).aimed) }
{
    let mut port = TcpPort::new(net);
    port.aim(alloc, &Target::Tcp("127.0.0.1", number))?;
    Ok(port)
}

/// A connection in which bytes go both ways, until the peer ends it.
fn carry(rt: &HostRuntime, listener: &TcpListener, number: u16) -> anyhow::Result<()> {
    let mut port = aimed(rt.alloc(), rt, number)?;
    port.connect()?;
    let mut peer = accept(listener)?;
    exchange(rt, &mut port, &mut peer)?;
    hear_pieces(rt, &mut port, peer)
}

/// Bytes for a peer that has gone. The system may take some before it knows.
fn send_to_gone<R: Net + Drop>(port: &mut TcpPort<R>) -> Result<(), LinkFault>
    requires up { IsTrue (⟦<TcpPort<R> as Port>⟧.told port.old).up }
{
    port.send(b"x")?;
    port.send(b"x")?;
    port.send(b"x")?;
    Ok(())
}

/// A connection in the place of another one, whose peer goes.
fn lose(rt: &HostRuntime, listener: &TcpListener, number: u16) -> anyhow::Result<()> {
    let mut port = aimed(rt.alloc(), rt, number)?;
    port.connect()?;
    drop(accept(listener)?);
    port.connect()?;
    drop(accept(listener)?);
    print_end(rt, "to a peer that has gone", &send_to_gone(&mut port))
}

/// A connection that nobody takes.
fn find_none(rt: &HostRuntime, number: u16) -> anyhow::Result<()> {
    let mut port = aimed(rt.alloc(), rt, number)?;
    print_end(rt, "to nobody", &port.connect())
}

/// Prints how a call ended.
fn print_end(rt: &HostRuntime, word: &str, end: &Result<(), LinkFault>) -> anyhow::Result<()> {
    print(
        rt,
        word,
        if end.is_ok() {
            b"ok".as_slice()
        } else {
            b"link".as_slice()
        },
    )
}

/// A connection, one whose peer goes at once, and one that nobody takes.
pub fn run(rt: &HostRuntime) -> anyhow::Result<()> {
    let listener = TcpListener::bind(rt, (Ipv4Addr::LOCALHOST, 0))?;
    let number = listener.local_addr()?.port();
    carry(rt, &listener, number)?;
    lose(rt, &listener, number)?;
    drop(listener);
    find_none(rt, number)
}
