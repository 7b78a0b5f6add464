ghost use Rattle.std.specs.Prelude.{◌≤◌, IfOk, IsTrue};

use fb_frame::memory_sink::MemorySink;
use fb_frame::name::Name;
use fb_frame::word::Word;
use fb_link::port::{Port, Target};
use fb_link::script_port::ScriptPort;
use fb_link::states::Lost;
use host_driver::put::put;
use sparse_image::index::check;
use sparse_image::source::MemoryBytes;
use std::alloc::{AllocError, Global};
use std::test::Fail;

/// An aimed port with one connection, which gives these bytes.
fn aimed(alloc: Global, bytes: &[u8]) -> Result<ScriptPort, Fail>
    ensures { IfOk result (λ p. IsTrue (⟦<ScriptPort as Port>⟧.told p).aimed) }
{
    let mut connections = Vec::new(alloc);
    connections.push(bytes.to_vec(alloc)?)?;
    let mut port = ScriptPort::new(
        alloc,
        connections,
        Vec::new(alloc),
        Vec::new(alloc),
        200_000,
    )?;
    port.aim(alloc, &Target::Image("script"))?;
    Ok(port)
}

/// What is sent over a connection that gives these bytes, where 163,840 bytes 0x11 are put over `boot` in
/// pieces of at most `most` bytes.
fn sent(alloc: Global, most: u32, replies: &[u8]) -> Result<Vec<u8>, Fail>
    requires { 131072 ≤ most }
{
    let mut image = Vec::new(alloc);
    image.resize(163_840, 0x11)?;
    let mut source = MemoryBytes::new(image.as_slice());
    let Ok(index) = check(alloc, &mut source) else {
        return Err(Fail::from("no image"));
    };
    let Some(name) = Name::read(b"boot") else {
        return Err(Fail::from("no name"));
    };
    let Some(file) = Word::read(b"boot.img") else {
        return Err(Fail::from("no file"));
    };
    let mut shown = MemorySink::new(alloc, 0)?;
    let Ok(ready) = Lost::new(aimed(alloc, replies)?).connect() else {
        return Err(Fail::from("no connection"));
    };
    match put(ready, &name, &index, most, &file, &mut source, &mut shown) {
        Ok(ready) => Ok(ready.hang_up().into_port().sent(0).to_vec(alloc)?),
        Err(_) => Err(Fail::from("not put")),
    }
}

fn add_frame(out: &mut Vec<u8>, bytes: &[u8]) -> Result<(), AllocError> {
    out.extend_from_slice(&(bytes.len() as u64).to_be_bytes())?;
    out.extend_from_slice(bytes)
}

#[test]
fn sends_an_image_whole(rt: HostRuntime) -> Result<(), Fail> {
    let replies = b"FB01\0\0\0\0\0\0\0\x0cDATA00028000\0\0\0\0\0\0\0\x04OKAY\0\0\0\0\0\0\0\x04OKAY";
    let mut full = Vec::new(rt.alloc());
    full.resize(65_536, 0x11)?;
    let mut rest = Vec::new(rt.alloc());
    rest.resize(32_768, 0x11)?;
    let mut expected = b"FB01".to_vec(rt.alloc())?;
    add_frame(&mut expected, b"download:00028000")?;
    add_frame(&mut expected, full.as_slice())?;
    add_frame(&mut expected, full.as_slice())?;
    add_frame(&mut expected, rest.as_slice())?;
    add_frame(&mut expected, b"flash:boot")?;
    let sent = sent(rt.alloc(), 163_840, replies)?;
    assert!(rt; sent.as_slice() == expected.as_slice());
    Ok(())
}

#[test]
fn sends_an_image_in_pieces(rt: HostRuntime) -> Result<(), Fail> {
    let replies =
        b"FB01\0\0\0\0\0\0\0\x0cDATA0001f034\0\0\0\0\0\0\0\x04OKAY\0\0\0\0\0\0\0\x04OKAY\0\0\0\0\0\0\0\x0cDATA00009034\0\0\0\0\0\0\0\x04OKAY\0\0\0\0\0\0\0\x04OKAY";
    let sent = sent(rt.alloc(), 131_072, replies)?;
    assert_eq!(rt; sent.len(), 164_058);
    // the frames' heads, and the commands
    for (place, bytes) in [
        (0, b"FB01\0\0\0\0\0\0\0\x11download:0001f034".as_slice()),
        (29, b"\0\0\0\0\0\x01\0\0\x3a\xff\x26\xed".as_slice()),
        (65_573, b"\0\0\0\0\0\0\xf0\x34".as_slice()),
        (127_073, b"\0\0\0\0\0\0\0\x0aflash:boot".as_slice()),
        (
            127_091,
            b"\0\0\0\0\0\0\0\x11download:00009034\0\0\0\0\0\0\x90\x34\x3a\xff\x26\xed".as_slice(),
        ),
        (164_040, b"\0\0\0\0\0\0\0\x0aflash:boot".as_slice()),
    ] {
        assert_eq!(rt;
            sent.as_slice().get(place..place + bytes.len()),
            Some(bytes)
        );
    }
    Ok(())
}
