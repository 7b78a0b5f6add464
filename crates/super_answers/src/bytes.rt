use fb_frame::digest::digest;
use std::alloc::{AllocError, Global};

/// The place and the number of a line of two numbers.
pub fn two_numbers(text: &str) -> Option<(usize, usize)> {
    let (first, second) = text.split_once(" ")?;
    let first = first.parse().ok()?;
    let second = second.parse().ok()?;
    Some((first, second))
}

fn digit_of(digit: u8) -> Option<u8> {
    match digit {
        b'0'..=b'9' => Some(digit - b'0'),
        b'a'..=b'f' => Some(digit - b'a' + 10),
        _ => None,
    }
}

/// The bytes of hexadecimal digits, two for each. None where there are others.
pub fn bytes_of(alloc: Global, text: &str) -> Result<Option<Vec<u8>>, AllocError> {
    let mut bytes = Vec::new(alloc);
    for pair in text.as_bytes().chunks(2) {
        let [high, low] = pair else {
            return Ok(None);
        };
        let (Some(high), Some(low)) = (digit_of(*high), digit_of(*low)) else {
            return Ok(None);
        };
        bytes.push(high % 16 * 16 + low % 16)?;
    }
    Ok(Some(bytes))
}

/// Puts other bytes at a place. False where they don't fit there.
pub fn put(bytes: &mut [u8], at: usize, new: &[u8]) -> bool {
    if at > bytes.len() || new.len() > bytes.len() - at {
        return false;
    }
    bytes[at..at + new.len()].copy_from_slice(new);
    true
}

/// Makes a digest anew that stands amid the bytes that it is of, and counts there as zeros. False where there are
/// too few bytes.
pub fn seal(bytes: &mut [u8], at: usize) -> bool {
    if !put(bytes, at, &[0; 32]) {
        return false;
    }
    let sum = digest(bytes);
    put(bytes, at, &sum)
}

/// Makes the digest of a table's lists anew, which lie behind its header of so many bytes.
pub fn seal_lists(table: &mut [u8], size: usize) -> bool {
    if size > table.len() {
        return false;
    }
    let lists = digest(&table[size..]);
    put(table, 48, &lists)
}

/// Makes the digest of a table's header anew, which has so many bytes.
pub fn seal_header(table: &mut [u8], size: usize) -> bool {
    size <= table.len() && seal(&mut table[..size], 12)
}
