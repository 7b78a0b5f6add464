ghost use Rattle.std.specs.Prelude.{◌≡◌, ◌+◌, ◌≤◌, ◌<◌, ◌++◌, length, drop, decimal};
ghost use Rattle.std.specs.Fmt.{digits, digit_glyph};
ghost use Rattle.fb_frame.specs.Numbers.{size_text};
ghost use Rattle.arrayvec.specs.ArrayVec.{array_vec_len};

use arrayvec::ArrayVec;
use fb_message::line::Line;

/// A text that is being written, no longer than a reply's.
pub type Draft = ArrayVec<u8, 252>;

/// Appends bytes for which there is room.
pub fn add(draft: &mut Draft, bytes: &[u8])
    requires { array_vec_len draft.old + length bytes.now ≤ 252 }
    ensures { draft.new.items ≡ draft.old.items ++ bytes.now }
{
    match draft.try_extend_from_slice(bytes) {
        Ok(()) => {}
        Err(_) => unreachable!(),
    }
}

/// Puts the text in place of what the line held.
pub fn finish(draft: &Draft, line: &mut Line)
    ensures { line.new ≡ draft.now.items }
{
    match Line::read(draft.as_slice()) {
        Some(text) => *line = text,
        None => unreachable!(),
    }
}

/// A digit as it is written.
fn glyph(upper: bool, digit: u8) -> u8
    requires { digit < 16 }
    ensures { result ≡ digit_glyph upper digit }
{
    if digit < 10 {
        48 + digit
    } else if upper {
        55 + digit
    } else {
        87 + digit
    }
}

/// Writes a number's digits at the end of a buffer, and says where they begin.
fn write_digits(base: u8, upper: bool, number: u64, buffer: &mut [u8; 64]) -> usize
    requires some { 0 < base }
    requires few { base ≤ 16 }
    ensures digits { drop result buffer.new ≡ digits base upper number }
    ensures within { result ≤ 64 }
{
    let mut rest = number;
    for k in 0..64 {
        let at = 63 - k;
        buffer[at] = glyph(upper, (rest % base as u64) as u8);
        rest /= base as u64;
        if rest == 0 {
            return at;
        }
    }
    0
}

/// Appends a number's digits.
fn add_digits(draft: &mut Draft, base: u8, upper: bool, number: u64)
    requires some { 0 < base }
    requires few { base ≤ 16 }
    requires room { array_vec_len draft.old + length (digits base upper number) ≤ 252 }
    ensures { draft.new.items ≡ draft.old.items ++ digits base upper number }
{
    let mut buffer = [0; 64];
    let at = write_digits(base, upper, number, &mut buffer);
    add(draft, &buffer[at..]);
}

/// Appends a size.
pub fn add_size(draft: &mut Draft, size: u64)
    requires { array_vec_len draft.old + length (size_text size) ≤ 252 }
    ensures { draft.new.items ≡ draft.old.items ++ size_text size }
{
    add(draft, b"0x");
    add_digits(draft, 16, true, size);
}

/// Appends a small number.
pub fn add_decimal(draft: &mut Draft, number: u8)
    requires { array_vec_len draft.old + length (decimal number) ≤ 252 }
    ensures { draft.new.items ≡ draft.old.items ++ decimal number }
{
    add_digits(draft, 10, false, u64::from(number));
}
