ghost use Rattle.std.specs.Prelude.{◌≤◌, IfOk, IsTrue};

use crate::questions::file;
use fb_frame::memory_sink::MemorySink;
use fb_link::port::{Port, Target};
use fb_link::script_port::ScriptPort;
use fb_link::states::Lost;
use flash_plan::dir::ProductDir;
use flash_plan::inspect::inspect;
use flash_plan::memory_dir::MemoryDir;
use flash_plan::options::{Options, SlotChoice};
use host_driver::drive::{Drive, DriveError};
use host_driver::flash::flash;
use std::alloc::Global;
use std::test::Fail;

/// An aimed port whose connections give the handshake and then these replies, apart by line feeds.
fn answering(alloc: Global, connections: &[&str]) -> Result<ScriptPort, Fail>
    ensures { IfOk result (λ p. IsTrue (⟦<ScriptPort as Port>⟧.told p).aimed) }
{
    let mut all = Vec::new(alloc);
    for replies in connections {
        let mut bytes = b"FB01".to_vec(alloc)?;
        for reply in replies.split('\n') {
            bytes.extend_from_slice(&(reply.len() as u64).to_be_bytes())?;
            bytes.extend_from_slice(reply.as_bytes())?;
        }
        all.push(bytes)?;
    }
    let mut port = ScriptPort::new(alloc, all, Vec::new(alloc), Vec::new(alloc), 20_000)?;
    port.aim(alloc, &Target::Image("script"))?;
    Ok(port)
}

/// A folder of a product with one image of 4,096 bytes.
fn folder(alloc: Global) -> Result<MemoryDir, Fail> {
    let mut image = Vec::new(alloc);
    image.resize(4096, 0x11)?;
    let mut files = Vec::new(alloc);
    files.push(file(alloc, "android-info.txt", b"")?)?;
    files.push(file(alloc, "fastboot-info.txt", b"version 1\nflash boot\n")?)?;
    files.push(file(alloc, "boot.img", image.as_slice())?)?;
    Ok(MemoryDir::new(alloc, "out", files, Vec::new(alloc))?)
}

/// What an installation came to.
fn called(drive: &Drive<ScriptPort>) -> &'static str {
    match &drive.outcome {
        Ok(done) if done.steps == 2 && done.attempts == 1 => "done in one attempt",
        Ok(done) if done.steps == 2 && done.attempts == 2 => "done in two attempts",
        Ok(_) => "done otherwise",
        Err(DriveError::Refused(text)) if text.bytes() == b"locked".as_slice() => "refused",
        Err(DriveError::Ended) if drive.attempts == 1 => "ended in one attempt",
        Err(DriveError::Link) if drive.attempts == 2 => "no link in two attempts",
        Err(_) => "another end",
    }
}

/// What an installation over such connections came to, and what was printed, in one text.
fn flashed(alloc: Global, connections: &[&str], retries: u8) -> Result<Vec<u8>, Fail>
    requires { retries ≤ 9 }
{
    let port = answering(alloc, connections)?;
    let mut dir = folder(alloc)?;
    let Ok(true) = dir.enter(alloc, "out") else {
        return Err(Fail::from("no folder"));
    };
    let Ok(product) = inspect(alloc, &mut dir, false) else {
        return Err(Fail::from("no product"));
    };
    let options = Options {
        slot: SlotChoice::Current,
        wipe: false,
        skip_reboot: false,
        force: false,
        retries,
    };
    let mut shown = MemorySink::new(alloc, 200)?;
    let drive = flash(
        alloc,
        &product,
        &options,
        &mut dir,
        Lost::new(port),
        &mut shown,
    );
    let mut text = shown.text().to_vec(alloc)?;
    text.extend_from_slice(called(&drive).as_bytes())?;
    Ok(text)
}

#[test]
fn installs_over_a_link(rt: HostRuntime) -> Result<(), Fail> {
    let whole = "OKAY0\nOKAY131072\nOKAYno\nDATA00001000\nOKAY\nOKAY\nOKAY";
    let asked = "OKAY0\nOKAY131072";
    let broken = "OKAY0\nOKAY131072\nOKAYno\nDATA00001000\nOKAY";
    let again = "DATA00001000\nOKAY\nOKAY\nOKAY";
    let locked = "OKAY0\nOKAY131072\nOKAYno\nDATA00001000\nOKAY\nFAILlocked";
    assert_eq!(rt;
        flashed(rt.alloc(), &[whole], 0)?.as_slice(),
        b"flash boot 4096\nreboot system\ndone in one attempt".as_slice()
    );
    assert_eq!(rt;
        flashed(rt.alloc(), &[asked, whole], 1)?.as_slice(),
        b"retry 1\nflash boot 4096\nreboot system\ndone in two attempts".as_slice()
    );
    assert_eq!(rt;
        flashed(rt.alloc(), &[broken, again], 1)?.as_slice(),
        b"retry 1\nflash boot 4096\nreboot system\ndone in two attempts".as_slice()
    );
    assert_eq!(rt;
        flashed(rt.alloc(), &[locked, whole], 3)?.as_slice(),
        b"refused".as_slice()
    );
    assert_eq!(rt;
        flashed(rt.alloc(), &[broken], 0)?.as_slice(),
        b"ended in one attempt".as_slice()
    );
    assert_eq!(rt;
        flashed(rt.alloc(), &[broken], 1)?.as_slice(),
        b"retry 1\nno link in two attempts".as_slice()
    );
    Ok(())
}
