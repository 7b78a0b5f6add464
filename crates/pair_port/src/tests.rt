ghost use Rattle.std.specs.Prelude.{◌≤◌, All, IfOk, length};

use crate::pair::PairPort;
use dev_disk::memory::MemoryDisk;
use dev_model::bad_image::BadImage;
use dev_store::layout::read_layout;
use dev_store::make::make;
use fb_link::port::{AimError, Port, Target};
use std::alloc::Global;
use std::test::Fail;

/// What a host says, its handshake and one command, and what the device answers.
#[derive(Clone, Copy)]
struct Talk {
    said: &'static [u8],
    answered: &'static [u8],
}

const VERSION: Talk = Talk {
    said: b"FB01\0\0\0\0\0\0\0\x0egetvar:version",
    answered: b"FB01\0\0\0\0\0\0\0\x07OKAY0.4",
};

const REBOOT: Talk = Talk {
    said: b"FB01\0\0\0\0\0\0\0\x06reboot",
    answered: b"FB01\0\0\0\0\0\0\0\x04OKAY",
};

/// A disk with the image of a plain device.
fn plain_disk(alloc: Global) -> Result<MemoryDisk, Fail> {
    let mut disk = MemoryDisk::new(alloc, Vec::new(alloc))?;
    let text =
        b"fbdevice 1\nproduct falcon\nserialno S1\nslots 0\nmax-download 131072\npartition boot 16384\n";
    let Ok(layout) = read_layout(alloc, text) else {
        return Err(Fail::from("a layout"));
    };
    make(alloc, &mut disk, "image", &layout, true)?;
    Ok(disk)
}

/// One size, or none for 0.
fn sizes_of(alloc: Global, size: u32) -> Result<Vec<u32>, Fail>
    ensures { IfOk result (λ v. All (λ size. 1 ≤ size) v.items) }
{
    let mut sizes = Vec::new(alloc);
    if size > 0 {
        sizes.push(size)?;
    }
    Ok(sizes)
}

/// A port over the plain device's disk, whose first connection breaks after this many bytes.
fn port_over(alloc: Global, size: u32, bound: Option<u64>) -> Result<PairPort<MemoryDisk>, Fail> {
    let mut breaks = Vec::new(alloc);
    breaks.push(bound)?;
    let mut disk = plain_disk(alloc)?;
    disk.add(alloc, "short", b"fbdevice 1")?;
    Ok(PairPort::new(disk, sizes_of(alloc, size)?, breaks))
}

/// What aiming at a target comes to.
fn aimed<P: Port>(alloc: Global, port: &mut P, target: Target<'_>) -> &'static str {
    match port.aim(alloc, &target) {
        Ok(()) => "aimed",
        Err(AimError::Link) => "link",
        Err(AimError::NoTarget) => "no target",
        Err(AimError::BadDevice(BadImage::ShortFile)) => "short",
        Err(AimError::BadDevice(_)) => "bad",
        Err(AimError::Memory) => "memory",
    }
}

/// Sends the bytes, and answers how many passed: all of them, or those before a call failed.
fn say(port: &mut PairPort<MemoryDisk>, bytes: &[u8]) -> usize
    ensures { result ≤ length bytes.now }
{
    let mut at = 0;
    while at < bytes.len() && port.is_up() {
        match port.pass(&bytes[at..]) {
            Ok(n) => at += n,
            Err(_) => return at,
        }
    }
    at
}

/// Receives these bytes in calls with room for five, and answers how many came before a call failed or gave
/// others.
fn hear(port: &mut PairPort<MemoryDisk>, bytes: &[u8]) -> usize
    ensures { result ≤ length bytes.now }
{
    let mut at = 0;
    while at < bytes.len() && port.is_up() {
        let mut buf = [0; 5];
        let room = buf.len().min(bytes.len() - at);
        match port.hear(&mut buf[..room]) {
            Ok(n) => {
                if n == 0 || buf[..n] != bytes[at..at + n] {
                    return at;
                }
                at += n;
            }
            Err(_) => return at,
        }
    }
    at
}

/// The first four bytes, or all where they are fewer, and those behind.
fn parted(bytes: &[u8]) -> (&[u8], &[u8]) {
    bytes.split_at(bytes.len().min(4))
}

/// One connection with a command and its answer, and how many bytes passed both ways.
fn exchange(port: &mut PairPort<MemoryDisk>, talk: Talk) -> usize {
    let (hello, command) = parted(talk.said);
    let (greeting, reply) = parted(talk.answered);
    let first = say(port, hello).saturating_add(hear(port, greeting));
    if first < 8 {
        return first;
    }
    first
        .saturating_add(say(port, command))
        .saturating_add(hear(port, reply))
}

/// Begins a connection where there is a device in a mode for it.
fn connects(port: &mut PairPort<MemoryDisk>) -> bool {
    port.is_aimed() && port.begin().is_ok()
}

#[test]
fn breaks_after_each_byte(rt: HostRuntime) -> Result<(), Fail> {
    let whole = VERSION.said.len() + VERSION.answered.len();
    for size in [0, 1, 7] {
        for bound in 0..whole + 1 {
            let mut port = port_over(rt.alloc(), size, Some(bound as u64))?;
            port.open(rt.alloc(), "image")?;
            assert!(rt; connects(&mut port));
            assert_eq!(rt; exchange(&mut port, VERSION), bound);
            assert_eq!(rt; port.is_up(), bound == whole);
            assert!(rt; connects(&mut port));
            assert_eq!(rt; exchange(&mut port, VERSION), whole);
        }
    }
    Ok(())
}

#[test]
fn aims_and_reboots(rt: HostRuntime) -> Result<(), Fail> {
    let mut port = port_over(rt.alloc(), 0, None)?;
    for (target, want) in [
        (Target::Image("none"), "no target"),
        (Target::Tcp("image", 5554), "no target"),
        (Target::Image("short"), "short"),
        (Target::Image("image"), "aimed"),
    ] {
        assert_eq!(rt; aimed(rt.alloc(), &mut port, target), want);
        assert_eq!(rt; port.is_aimed(), want == "aimed");
    }
    assert!(rt; connects(&mut port));
    assert_eq!(rt;
        exchange(&mut port, REBOOT),
        REBOOT.said.len() + REBOOT.answered.len()
    );
    assert!(rt; !connects(&mut port));
    assert_eq!(rt; port.broken(), 0);
    let disk = port.into_disk();
    assert_eq!(rt; disk.file("image").map(|file| file.len()), Some(28_672));
    Ok(())
}
