//! Frames that come in any pieces, each payload copied once, into the buffer where it stays.
ghost use Rattle.std.specs.Prelude.{◌≡◌, ℕ, ◌+◌, ◌<◌, ◌≤◌, [], ◌++◌, length, take, drop, vec_capacity};
ghost use Rattle.fb_frame.specs.Stages.{Head, Left};
ghost use Rattle.device_session.specs.Framer.{Stands, IsPayload, PaysOn, FramesOn, framing};

use fb_frame::deframer::{Deframer, Event};

/// What bytes made of a frame.
#[derive(Clone, Copy, Debug, PartialEq, Eq)]
pub enum Heard {
    /// It isn't whole yet.
    More,
    /// Its head gives more bytes than it may have.
    TooLong,
    /// It is whole, and its payload is in the buffer.
    Whole,
}

/// Adds bytes to a buffer that has room for them.
fn append(buffer: &mut Vec<u8>, bytes: &[u8])
    requires room { length buffer.old.items + length bytes.now ≤ vec_capacity buffer.old }
    ensures added { buffer.new.items ≡ buffer.old.items ++ bytes.now }
    ensures capacity { vec_capacity buffer.old ≤ vec_capacity buffer.new }
{
    match buffer.extend_from_slice(bytes) {
        Ok(()) => {}
        Err(_) => unreachable!(),
    }
}

/// Whether a payload is whole, of which nothing may be due any more.
fn end_of(deframer: &mut Deframer) -> Heard
    ensures whole { deframer.old ≡ Left 0 → (result ≡ Heard.Whole) × (deframer.new ≡ Head []) }
    ensures more { (count : ℕ) → deframer.old ≡ Left count → 0 < count →
        (result ≡ Heard.More) × (deframer.new ≡ Left count) }
{
    let (_, event) = deframer.feed(&[]);
    match event {
        Event::End => Heard::Whole,
        _ => Heard::More,
    }
}

/// Takes all of these bytes of a payload, which the deframer took already.
fn take_bytes(deframer: &mut Deframer, buffer: &mut Vec<u8>, bytes: &[u8]) -> Heard
    requires room { length buffer.old.items + length bytes.now ≤ vec_capacity buffer.old }
    ensures pays { (left : ℕ) → deframer.old ≡ Left left →
        PaysOn (left + length bytes.now) buffer.old.items bytes.now result deframer.new buffer.new.items }
    ensures capacity { vec_capacity buffer.old ≤ vec_capacity buffer.new }
{
    append(buffer, bytes);
    end_of(deframer)
}

/// Takes a front of the piece that is of a payload.
fn take_payload(deframer: &mut Deframer, buffer: &mut Vec<u8>, piece: &[u8]) -> (usize, Heard)
    requires due { IsPayload deframer.old }
    requires room { (count : ℕ) → deframer.old ≡ Left count →
        length buffer.old.items + count ≤ vec_capacity buffer.old }
    ensures within { result.0 ≤ length piece.now }
    ensures pays { (count : ℕ) → deframer.old ≡ Left count →
        PaysOn count buffer.old.items (take result.0 piece.now) result.1 deframer.new buffer.new.items }
    ensures capacity { vec_capacity buffer.old ≤ vec_capacity buffer.new }
{
    let (n, event) = deframer.feed(piece);
    match event {
        Event::End => (n, Heard::Whole),
        Event::Bytes => (n, take_bytes(deframer, buffer, &piece[..n])),
        _ => (n, Heard::More),
    }
}

/// Takes a front of the piece, up to the end of a frame of at most so many bytes, and answers how long it is
/// and what it makes of the frame. The payload comes into the buffer behind its first `base` bytes.
pub fn take_frame(
    deframer: &mut Deframer,
    buffer: &mut Vec<u8>,
    base: usize,
    most: u64,
    piece: &[u8],
) -> (usize, Heard)
    requires base { base ≤ length buffer.old.items }
    requires stands { Stands most deframer.old (drop base buffer.old.items) }
    requires room { base + most ≤ vec_capacity buffer.old }
    ensures within { result.0 ≤ length piece.now }
    ensures some { 0 < length piece.now → 0 < result.0 }
    ensures frames { FramesOn most (framing deframer.old base buffer.old.items) (take result.0 piece.now)
        result.1 (framing deframer.new base buffer.new.items) }
    ensures kept { take base buffer.new.items ≡ take base buffer.old.items }
    ensures long { base ≤ length buffer.new.items }
    ensures capacity { vec_capacity buffer.old ≤ vec_capacity buffer.new }
{
    let (n, event) = deframer.feed(piece);
    match event {
        Event::More => (n, Heard::More),
        Event::Length(len) => {
            if len > most {
                *deframer = Deframer::new();
                return (n, Heard::TooLong);
            }
            buffer.truncate(base);
            let (m, heard) = take_payload(deframer, buffer, &piece[n..]);
            (n + m, heard)
        }
        Event::Bytes => (n, take_bytes(deframer, buffer, &piece[..n])),
        Event::End => unreachable!(),
    }
}
