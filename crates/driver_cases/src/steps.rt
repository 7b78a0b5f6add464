ghost use Rattle.std.specs.Prelude.{IfOk, IsTrue};

use fb_frame::memory_sink::MemorySink;
use fb_frame::name::Name;
use fb_frame::slot::Slot;
use fb_link::port::{Port, Target};
use fb_link::script_port::ScriptPort;
use fb_link::states::Lost;
use fb_message::command::{BootTarget, Command};
use flash_plan::plan::Order;
use host_driver::ask::ask;
use host_driver::begin::begin;
use host_driver::drive::DriveError;
use host_driver::lines::{put_retry, put_step};
use host_driver::log_port::LogPort;
use host_driver::step::take;
use std::alloc::Global;
use std::test::Fail;

/// An aimed port whose one connection gives these bytes, and none of whose calls fails.
fn aimed(alloc: Global, bytes: &[u8]) -> Result<ScriptPort, Fail>
    ensures { IfOk result (λ p. IsTrue (⟦<ScriptPort as Port>⟧.told p).aimed) }
{
    let mut connections = Vec::new(alloc);
    connections.push(bytes.to_vec(alloc)?)?;
    let mut port = ScriptPort::new(alloc, connections, Vec::new(alloc), Vec::new(alloc), 1000)?;
    port.aim(alloc, &Target::Image("script"))?;
    Ok(port)
}

/// What an erasure of `boot` comes to over a port with a log.
fn erase(alloc: Global, port: &mut LogPort<'_, ScriptPort>) -> Result<&'static str, Fail>
    requires { IsTrue (⟦<ScriptPort as Port>⟧.told port.old.port).aimed }
{
    let Some(name) = Name::read(b"boot") else {
        return Ok("no name");
    };
    let mut shown = MemorySink::new(alloc, 100)?;
    let Ok(ready) = begin(Lost::new(port)) else {
        return Ok("not connected");
    };
    Ok(match take(ready, &Command::Erase(name), &mut shown) {
        Ok(_) => "done",
        Err((_, DriveError::Link)) => "link",
        Err((_, DriveError::Refused(_))) => "refused",
        Err((_, DriveError::Peer(_))) => "peer",
        Err(_) => "other",
    })
}

#[test]
fn logs_what_is_sent(rt: HostRuntime) -> Result<(), Fail> {
    let okay = b"FB01\0\0\0\0\0\0\0\x04OKAY".as_slice();
    let whole = b"FB01\0\0\0\0\0\0\0\x0aerase:boot".as_slice();
    for (bytes, room, came, sent) in [
        (okay, 100, "done", whole),
        (okay, 22, "done", whole),
        (okay, 21, "link", b"FB01\0\0\0\0\0\0\0\x0a".as_slice()),
        (okay, 11, "link", b"FB01".as_slice()),
        (okay, 3, "not connected", b"".as_slice()),
        (
            b"FB01\0\0\0\0\0\0\0\x06FAILno".as_slice(),
            100,
            "refused",
            whole,
        ),
        (
            b"FB01\0\0\0\0\0\0\0\x0cDATA00000001".as_slice(),
            100,
            "peer",
            whole,
        ),
    ] {
        let mut buffer = [0; 100];
        let mut port = LogPort::new(aimed(rt.alloc(), bytes)?, &mut buffer[..room]);
        assert_eq!(rt; erase(rt.alloc(), &mut port)?, came);
        assert_eq!(rt; port.sent(), sent);
    }
    Ok(())
}

/// What a question comes to over a port, and the lines that it shows.
fn question(alloc: Global, port: ScriptPort) -> Result<(&'static str, String), Fail>
    requires { IsTrue (⟦<ScriptPort as Port>⟧.told port).aimed }
{
    let mut shown = MemorySink::new(alloc, 10)?;
    let Ok(ready) = begin(Lost::new(port)) else {
        return Ok(("not connected", String::new(alloc)));
    };
    let came = match ask(ready, b"version", &mut shown) {
        Ok((_, Ok(_))) => "text",
        Ok((_, Err(_))) => "refusal",
        Err((_, DriveError::Output)) => "output",
        Err((_, DriveError::Ended)) => "ended",
        Err(_) => "other",
    };
    Ok((
        came,
        String::from_str(alloc, str::from_utf8(shown.text())?)?,
    ))
}

#[test]
fn asks_for_a_variable(rt: HostRuntime) -> Result<(), Fail> {
    for (bytes, came, lines) in [
        (
            b"FB01\0\0\0\0\0\0\0\x06INFOhi\0\0\0\0\0\0\0\x05OKAYx".as_slice(),
            "text",
            "info: hi\n",
        ),
        (b"FB01\0\0\0\0\0\0\0\x06FAILno".as_slice(), "refusal", ""),
        (
            b"FB01\0\0\0\0\0\0\0\x0bINFOhi, you\0\0\0\0\0\0\0\x04OKAY".as_slice(),
            "output",
            "info: ",
        ),
        (b"FB01".as_slice(), "ended", ""),
        (b"FB00".as_slice(), "not connected", ""),
    ] {
        let (answer, shown) = question(rt.alloc(), aimed(rt.alloc(), bytes)?)?;
        assert_eq!(rt; answer, came);
        assert_eq!(rt; shown.as_str(), lines);
    }
    Ok(())
}

#[test]
fn prints_each_step(rt: HostRuntime) -> Result<(), Fail> {
    let Some(name) = Name::read(b"system_a") else {
        return Ok(());
    };
    for (order, line) in [
        (Order::Active(Slot::A), "set_active a\n"),
        (Order::Resize(name, 65536), "resize system_a 65536\n"),
        (Order::Put(name, 3), "flash system_a 4096\n"),
        (Order::Wipe(name), "erase system_a\n"),
        (Order::Table(name, false), "update-super system_a\n"),
        (Order::Table(name, true), "update-super system_a wipe\n"),
        (Order::Boot(BootTarget::System), "reboot system\n"),
        (Order::Boot(BootTarget::Bootloader), "reboot bootloader\n"),
        (Order::Boot(BootTarget::Fastboot), "reboot fastboot\n"),
        (Order::Boot(BootTarget::Recovery), "reboot recovery\n"),
    ] {
        let mut out = MemorySink::new(rt.alloc(), 100)?;
        let put = put_step(&order, 4096, &mut out);
        assert_eq!(rt; put.is_ok(), true);
        assert_eq!(rt; str::from_utf8(out.text())?, line);
    }
    let mut out = MemorySink::new(rt.alloc(), 100)?;
    let put = put_retry(3, &mut out);
    assert_eq!(rt; put.is_ok(), true);
    assert_eq!(rt; str::from_utf8(out.text())?, "retry 3\n");
    Ok(())
}
