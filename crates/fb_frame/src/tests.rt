ghost use Rattle.std.specs.Prelude.{◌≡◌, ◌++◌, ◌∷◌, [], Some, None, OnOk, if◌then◌else◌, take};
ghost use Rattle.fb_frame.specs.Gathered.{Gathered};

use crate::deframer::{Deframer, Event};
use crate::digest::digest;
use crate::failures::Failures;
use crate::fields::{u16_at, u32_at, u64_at};
use crate::framing::{frame_head, head_length};
use crate::greeting::{handshake, read_handshake};
use crate::items::Items;
use crate::listener::{Listener, feed_all};
use crate::memory_sink::MemorySink;
use crate::name::Name;
use crate::number::{read_dec, read_hex8, write_hex8};
use crate::shown::add_shown;
use crate::sink::Sink;
use crate::slot::Slot;
use crate::word::Word;
use crate::write_sink::WriteSink;
use std::alloc::{AllocError, Global};
use std::io::{ErrorKind, Write};
use std::test::Fail;
use std::{fs, io, mem};

#[test]
fn reads_numbers(rt: HostRuntime) {
    for (text, want) in [
        (b"0".as_slice(), Some(0)),
        (b"2621440", Some(2_621_440)),
        (b"18446744073709551615", Some(18_446_744_073_709_551_615)),
        (b"18446744073709551616", None),
        (b"99999999999999999999", None),
        (b"100000000000000000000", None),
        (b"01", None),
        (b"+1", None),
        (b"", None),
    ] {
        assert_eq!(rt; read_dec(text), want);
    }
    for (text, want) in [
        (b"00000004".as_slice(), Some(4)),
        (b"deadbeef", Some(0xdead_beef)),
        (b"ffffffff", Some(4_294_967_295)),
        (b"0000000A", None),
        (b"000000004", None),
        (b"0000004", None),
        (b"0000000g", None),
    ] {
        assert_eq!(rt; read_hex8(text), want);
    }
    assert!(rt; write_hex8(0xdead_beef).as_slice() == b"deadbeef".as_slice());
}

#[test]
fn greets(rt: HostRuntime) {
    assert!(rt; handshake(1).as_slice() == b"FB01".as_slice());
    for (text, want) in [
        (b"FB01", 1),
        (b"FB02", 2),
        (b"FB99", 99),
        (b"FB00", 0),
        (b"FBx1", 0),
        (b"FC01", 0),
    ] {
        assert_eq!(rt; read_handshake(text).unwrap_or(0), want);
    }
}

#[test]
fn names_slots(rt: HostRuntime) -> Result<(), Fail> {
    let boot = Name::read(b"boot").ok_or("a name")?;
    let longest = b"abcdefghijklmnopqrstuvwxyz012345678";
    let long = Name::read(longest).ok_or("35 bytes")?;
    assert!(rt;
        Name::read(b"abcdefghijklmnopqrstuvwxyz0123456789").is_none(),
        "36 bytes"
    );
    assert!(rt; boot.with_slot(Slot::B) == Name::read(b"boot_b"));
    assert!(rt; long.with_slot(Slot::A).is_none());
    assert!(rt; Slot::A.other() == Slot::B);
    let word = Word::read(b"slot-count").ok_or("a word")?;
    assert!(rt; word.bytes() == b"slot-count".as_slice());
    Ok(())
}

#[test]
fn keeps_a_text(rt: HostRuntime) -> Result<(), Fail> {
    let mut sink = MemorySink::new(rt.alloc(), 8)?;
    assert!(rt; sink.put(b"done ").is_ok());
    assert!(rt; sink.put(b"3of3").is_err());
    assert!(rt; (&mut sink).put(b"3/3").is_ok());
    assert!(rt; sink.text() == b"done 3/3".as_slice());
    Ok(())
}

/// A writer that takes two bytes at a time, fails at its third write, and takes nothing after that.
#[derive(Drop)]
struct Failing {
    writes: u8,
    taken: [u8; 4],
}

impl Write for Failing {
    fn write(&mut self, buf: &[u8]) -> io::Result<usize> {
        match (self.writes, buf) {
            (0, [a, b, ..]) => {
                self.writes = 1;
                self.taken[0] = *a;
                self.taken[1] = *b;
                Ok(2)
            }
            (1, [a, b, ..]) => {
                self.writes = 2;
                self.taken[2] = *a;
                self.taken[3] = *b;
                Ok(2)
            }
            (2, _) => {
                self.writes = 3;
                Err(io::Error::from(ErrorKind::BrokenPipe))
            }
            _ => Ok(0),
        }
    }

    fn flush(&mut self) -> io::Result<()> {
        Ok(())
    }
}

#[test]
fn writes_until_a_fault(rt: HostRuntime) -> Result<(), Fail> {
    let mut writer = Failing {
        writes: 0,
        taken: [0; 4],
    };
    let mut sink = WriteSink::new(&mut writer);
    assert!(rt; sink.put(b"abcdef").is_err());
    assert!(rt; sink.put(b"gh").is_err());
    assert!(rt; writer.taken.as_slice() == b"abcd".as_slice());
    let mut file = WriteSink::new(fs::create(&rt, "lines")?);
    assert!(rt; file.put(b"one\n").is_ok());
    assert!(rt; file.put(b"two\n").is_ok());
    assert_eq!(rt; fs::read_to_string(&rt, "lines")?.as_str(), "one\ntwo\n");
    fs::remove_file(&rt, "lines")?;
    Ok(())
}

/// Gathers what it hears, until there is no memory.
#[derive(Drop)]
struct Gathering {
    telling: bool,
    lengths: Items<u64>,
    whole: Items<Items<u8>>,
    part: Items<u8>,
    alloc: Global,
}

impl Listener for Gathering {
    ghost told = { λ s. if s.telling
        then Some (record { lengths = s.lengths; whole = s.whole; part = s.part }) else None };

    fn note(&mut self, event: Event, taken: &[u8]) {
        let noted = match event {
            Event::More => Ok(()),
            Event::Length(len) => self.lengths.push(len),
            Event::Bytes => extend(&mut self.part, taken),
            Event::End => end_part(self.alloc, &mut self.whole, &mut self.part),
        };
        self.telling = self.telling && noted.is_ok();
    }
}

fn extend(part: &mut Items<u8>, taken: &[u8]) -> Result<(), AllocError>
    ensures { OnOk result (part.new ≡ part.old ++ taken.now) }
{
    for b in taken {
        part.push(*b)?;
    }
    Ok(())
}

fn end_part(
    alloc: Global,
    whole: &mut Items<Items<u8>>,
    part: &mut Items<u8>,
) -> Result<(), AllocError>
    ensures whole { OnOk result (whole.new ≡ whole.old ++ part.old ∷ []) }
    ensures part { part.new ≡ [] }
{
    let payload = mem::replace(part, Items::new(alloc));
    whole.push(payload)?;
    Ok(())
}

/// Frames of `OKAY0.4`, of nothing and of `a`, and a head of 5 with one byte, cut after each byte, after each
/// third or eighth, or not at all.
#[test]
fn hears_frames_in_any_pieces(rt: HostRuntime) -> Result<(), Fail> {
    let stream = b"\0\0\0\0\0\0\0\x07OKAY0.4\0\0\0\0\0\0\0\0\0\0\0\0\0\0\0\x01a\0\0\0\0\0\0\0\x05x";
    for size in [1, 3, 8, 64] {
        let mut heard = Gathering {
            telling: true,
            lengths: Items::new(rt.alloc()),
            whole: Items::new(rt.alloc()),
            part: Items::new(rt.alloc()),
            alloc: rt.alloc(),
        };
        let mut deframer = Deframer::new();
        for piece in stream.chunks(size) {
            feed_all(&mut deframer, &[piece], &mut heard);
        }
        assert!(rt; heard.telling);
        assert!(rt; heard.lengths.as_slice() == [7, 0, 1, 5].as_slice());
        assert_eq!(rt; heard.whole.len(), 3);
        assert!(rt; heard.part.as_slice() == b"x".as_slice());
        let [okay, empty, a] = heard.whole.as_slice() else {
            continue
        };
        assert!(rt; okay.as_slice() == b"OKAY0.4".as_slice());
        assert!(rt; empty.as_slice().is_empty());
        assert!(rt; a.as_slice() == b"a".as_slice());
    }
    assert!(rt; frame_head(7).as_slice() == b"\0\0\0\0\0\0\0\x07".as_slice());
    assert_eq!(rt; head_length(b"\0\0\0\0\0\x01\0\x02"), 65_538);
    Ok(())
}

/// The digest of `abc` in FIPS 180-4's examples.
const ABC: [u8; 32] = [
    0xba, 0x78, 0x16, 0xbf, 0x8f, 0x01, 0xcf, 0xea, 0x41, 0x41, 0x40, 0xde, 0x5d, 0xae, 0x22, 0x23,
    0xb0, 0x03, 0x61, 0xa3, 0x96, 0x17, 0x7a, 0x9c, 0xb4, 0x10, 0xff, 0x61, 0xf2, 0x00, 0x15, 0xad,
];

#[test]
fn digests_the_standards_example(rt: HostRuntime) {
    assert_eq!(rt; digest(b"abc").as_slice(), ABC.as_slice());
}

#[test]
fn shows_texts_and_reads_fields(rt: HostRuntime) -> Result<(), Fail> {
    let mut line = Vec::new(rt.alloc());
    line.extend_from_slice(b"info: ")?;
    add_shown(&mut line, b"a ~\x7f\n\xff")?;
    assert!(rt; line.as_slice() == b"info: a ~???".as_slice());
    let field = b"\xff\x01\x02\x03\x04\x05\x06\x07\x08";
    assert_eq!(rt; u16_at(field, 1), 0x0201);
    assert_eq!(rt; u32_at(field, 1), 0x0403_0201);
    assert_eq!(rt; u64_at(field, 1), 0x0807_0605_0403_0201);
    Ok(())
}

#[test]
fn counts_calls_that_fail(rt: HostRuntime) -> Result<(), Fail> {
    let mut numbered = Failures::new(vec![in rt.alloc(); 2, 4]?);
    for (bytes, passes) in [(0, true), (9, false), (9, true), (0, false), (0, true)] {
        assert_eq!(rt; numbered.pass(bytes).is_ok(), passes);
    }
    assert_eq!(rt; numbered.faults(), 2);
    let mut roomy = Failures::with_room(vec![in rt.alloc(); 1]?, 8);
    for (bytes, passes) in [
        (8, false),
        (5, true),
        (4, false),
        (0, true),
        (3, true),
        (1, false),
    ] {
        assert_eq!(rt; roomy.pass(bytes).is_ok(), passes);
    }
    assert_eq!(rt; roomy.faults(), 3);
    Ok(())
}
