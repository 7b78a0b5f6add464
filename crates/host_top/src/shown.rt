//! Texts of the outside, put as they are printed.
ghost use Rattle.std.specs.Prelude.{◌≡◌, ◌≤◌, length, take, OnOk, OnErr};
ghost use Rattle.fb_frame.specs.Causes.{HasCause};
ghost use Rattle.fb_frame.specs.Shown.{shown};
ghost use Rattle.fb_frame.specs.Sinks.{Grew, GrewPart};
ghost use Rattle.hex.specs.Hex.{encode_lower};

use fb_frame::shown::shown_byte;
use fb_frame::sink::{Sink, SinkFault};

/// How many bytes are put at once.
const ROOM: usize = 64;

/// How many kept bytes of a peer are printed.
const MOST_KEPT: usize = 32;

/// Writes the text as it is printed into the buffer's front.
fn print(text: &[u8], buf: &mut [u8; 64])
    requires short { length text.now ≤ 64 }
    ensures printed { take (length text.now) buf.new ≡ shown text.now }
{
    for i in 0..text.len() {
        buf[i] = shown_byte(text[i]);
    }
}

/// Puts a short text as it is printed.
fn put_window<S: Sink>(text: &[u8], out: &mut S) -> Result<(), SinkFault>
    requires short { length text.now ≤ 64 }
    ensures put { OnOk result (Grew (S.text out.old) (S.text out.new) (shown text.now)) }
    ensures part { OnErr result (GrewPart (S.text out.old) (S.text out.new) (shown text.now)) }
    ensures cause { HasCause (S.faults out.old) (S.faults out.new) result }
{
    let mut buf = [0; ROOM];
    print(text, &mut buf);
    out.put(&buf[..text.len()])
}

/// Puts a text as it is printed.
#[tactic(auto, using(fb_frame::proofs::SinkLemmas::sink_lines))]
pub(crate) fn put_shown<S: Sink>(text: &[u8], out: &mut S) -> Result<(), SinkFault>
    ensures put { OnOk result (Grew (S.text out.old) (S.text out.new) (shown text.now)) }
    ensures part { OnErr result (GrewPart (S.text out.old) (S.text out.new) (shown text.now)) }
    ensures cause { HasCause (S.faults out.old) (S.faults out.new) result }
{
    let mut at = 0;
    while at < text.len() {
        let end = at + ROOM.min(text.len() - at);
        put_window(&text[at..end], out)?;
        at = end;
    }
    Ok(())
}

/// The first kept bytes.
fn front(kept: &[u8]) -> &[u8]
    ensures front { result.now ≡ take 32 kept.now }
    ensures short { length result.now ≤ 32 }
{
    if kept.len() > MOST_KEPT {
        &kept[..MOST_KEPT]
    } else {
        kept
    }
}

/// Puts the first kept bytes in lower-case hexadecimal.
pub(crate) fn put_hex<S: Sink>(kept: &[u8], out: &mut S) -> Result<(), SinkFault>
    ensures put { OnOk result (Grew (S.text out.old) (S.text out.new) (encode_lower (take 32 kept.now))) }
    ensures part { OnErr result
        (GrewPart (S.text out.old) (S.text out.new) (encode_lower (take 32 kept.now))) }
    ensures cause { HasCause (S.faults out.old) (S.faults out.new) result }
{
    let kept = front(kept);
    let mut buf = [0; ROOM];
    let digits = &mut buf[..2 * kept.len()];
    let Ok(()) = hex::encode_to_slice(kept, digits) else {
        unreachable!();
    };
    out.put(digits)
}
