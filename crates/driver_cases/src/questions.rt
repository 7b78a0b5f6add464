ghost use Rattle.std.specs.Prelude.{IfOk, IsTrue};

use fb_frame::memory_sink::MemorySink;
use fb_link::port::{Port, Target};
use fb_link::script_port::ScriptPort;
use fb_link::states::{Lost, Ready};
use flash_plan::dir::ProductDir;
use flash_plan::inspect::inspect;
use flash_plan::memory_dir::{DirFile, MemoryDir};
use flash_plan::options::{Options, SlotChoice};
use flash_plan::plan::PlanKind;
use host_driver::begin::begin;
use host_driver::drive::DriveError;
use host_driver::prepare::{Prepared, prepare};
use std::alloc::Global;
use std::test::Fail;

/// An aimed port whose one connection gives the handshake and then these replies.
fn answering(alloc: Global, replies: &[&str]) -> Result<ScriptPort, Fail>
    ensures { IfOk result (λ p. IsTrue (⟦<ScriptPort as Port>⟧.told p).aimed) }
{
    let mut bytes = b"FB01".to_vec(alloc)?;
    for reply in replies {
        bytes.extend_from_slice(&(reply.len() as u64).to_be_bytes())?;
        bytes.extend_from_slice(reply.as_bytes())?;
    }
    let mut connections = Vec::new(alloc);
    connections.push(bytes)?;
    let mut port = ScriptPort::new(alloc, connections, Vec::new(alloc), Vec::new(alloc), 1000)?;
    port.aim(alloc, &Target::Image("script"))?;
    Ok(port)
}

pub(crate) fn file(alloc: Global, name: &str, bytes: &[u8]) -> Result<DirFile, Fail> {
    Ok(DirFile {
        name: name.to_string(alloc)?,
        bytes: bytes.to_vec(alloc)?,
    })
}

/// A folder of a product with two requirements and one task.
fn folder(alloc: Global) -> Result<MemoryDir, Fail> {
    let lines = b"require serialno=A1\nrequire secure=no\n";
    let mut files = Vec::new(alloc);
    files.push(file(alloc, "android-info.txt", lines)?)?;
    files.push(file(alloc, "fastboot-info.txt", b"version 1\nflash boot\n")?)?;
    files.push(file(alloc, "boot.img", b"an image")?)?;
    Ok(MemoryDir::new(alloc, "out", files, Vec::new(alloc))?)
}

/// What the end of an attempt is called.
fn called(error: &DriveError) -> &'static str {
    match error {
        DriveError::Requirement { line: 1, .. } => "the first line",
        DriveError::Requirement { line: 2, .. } => "the second line",
        DriveError::Plan {
            kind: PlanKind::NoPartition,
            ..
        } => "no partition",
        DriveError::Peer(_) => "peer",
        DriveError::Refused(_) => "refused",
        DriveError::Ended => "ended",
        _ => "other",
    }
}

/// What an attempt's front half came to.
fn came_to(
    answered: &Result<(Ready<ScriptPort>, Prepared), (Lost<ScriptPort>, DriveError)>,
) -> &'static str {
    match answered {
        Ok((_, prepared)) if prepared.plan.len() == 2 && prepared.max == 131_072 => "two steps",
        Ok(_) => "another plan",
        Err((_, error)) => called(error),
    }
}

/// What is prepared over a port, with or without the requirements.
fn prepared(alloc: Global, port: ScriptPort, force: bool) -> Result<&'static str, Fail>
    requires { IsTrue (⟦<ScriptPort as Port>⟧.told port).aimed }
{
    let mut dir = folder(alloc)?;
    let Ok(true) = dir.enter(alloc, "out") else {
        return Ok("no folder");
    };
    let Ok(product) = inspect(alloc, &mut dir, false) else {
        return Ok("no product");
    };
    let options = Options {
        slot: SlotChoice::Current,
        wipe: false,
        skip_reboot: false,
        force,
        retries: 0,
    };
    let Ok(ready) = begin(Lost::new(port)) else {
        return Ok("not connected");
    };
    let mut shown = MemorySink::new(alloc, 100)?;
    let answered = prepare(alloc, ready, &product, &options, &mut shown);
    Ok(came_to(&answered))
}

#[test]
fn decides_by_the_answers(rt: HostRuntime) -> Result<(), Fail> {
    let fit = ["OKAY0", "OKAY0x20000", "OKAYA1", "OKAYno", "OKAYno"];
    assert_eq!(rt;
        prepared(rt.alloc(), answering(rt.alloc(), &fit)?, false)?,
        "two steps"
    );
    let other = ["OKAY0", "OKAY0x20000", "OKAYA2"];
    assert_eq!(rt;
        prepared(rt.alloc(), answering(rt.alloc(), &other)?, false)?,
        "the first line"
    );
    let locked = ["FAILno", "OKAY131072", "OKAYA1", "OKAYyes"];
    assert_eq!(rt;
        prepared(rt.alloc(), answering(rt.alloc(), &locked)?, false)?,
        "the second line"
    );
    let forced = ["OKAY0", "OKAY131072", "OKAYno"];
    assert_eq!(rt;
        prepared(rt.alloc(), answering(rt.alloc(), &forced)?, true)?,
        "two steps"
    );
    Ok(())
}

#[test]
fn keeps_no_other_answer(rt: HostRuntime) -> Result<(), Fail> {
    let slots = ["OKAY3"];
    assert_eq!(rt;
        prepared(rt.alloc(), answering(rt.alloc(), &slots)?, false)?,
        "peer"
    );
    let small = ["OKAY0", "OKAY0x1ffff"];
    assert_eq!(rt;
        prepared(rt.alloc(), answering(rt.alloc(), &small)?, false)?,
        "peer"
    );
    let unknown = ["OKAY0", "FAILno"];
    assert_eq!(rt;
        prepared(rt.alloc(), answering(rt.alloc(), &unknown)?, false)?,
        "refused"
    );
    let kind = ["OKAY0", "OKAY131072", "OKAYmaybe"];
    assert_eq!(rt;
        prepared(rt.alloc(), answering(rt.alloc(), &kind)?, true)?,
        "peer"
    );
    let none = ["OKAY0", "OKAY131072", "FAILunknown variable"];
    assert_eq!(rt;
        prepared(rt.alloc(), answering(rt.alloc(), &none)?, true)?,
        "no partition"
    );
    let short = ["OKAY0", "OKAY131072"];
    assert_eq!(rt;
        prepared(rt.alloc(), answering(rt.alloc(), &short)?, true)?,
        "ended"
    );
    Ok(())
}
