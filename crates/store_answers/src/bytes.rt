use crate::kept::Place;
use crate::numbers::number;
use std::alloc::{AllocError, Global};

/// The bytes that pieces with one space between them spell. None where one is none.
pub fn bytes_of(
    alloc: Global,
    places: &[Place],
    text: &str,
) -> Result<Option<Vec<u8>>, AllocError> {
    let mut bytes = Vec::new(alloc);
    for piece in text.split(' ') {
        if !add_piece(alloc, places, &mut bytes, piece)? {
            return Ok(None);
        }
    }
    Ok(Some(bytes))
}

fn add_piece(
    alloc: Global,
    places: &[Place],
    bytes: &mut Vec<u8>,
    piece: &str,
) -> Result<bool, AllocError> {
    if let Some(text) = piece.strip_prefix("'") {
        bytes.extend_from_slice(text.as_bytes())?;
        return Ok(true);
    }
    if let Some((kind, text)) = piece.split_once(":") {
        return add_number(places, bytes, kind, text);
    }
    if let Some((count, digits)) = piece.split_once("*") {
        return add_again(alloc, bytes, count, digits);
    }
    add_digits(alloc, bytes, piece, 1)
}

/// A number of four or eight bytes, the lowest one first.
fn add_number(
    places: &[Place],
    bytes: &mut Vec<u8>,
    kind: &str,
    text: &str,
) -> Result<bool, AllocError> {
    let Some(number) = number(places, text) else {
        return Ok(false);
    };
    match (kind, u32::try_from(number)) {
        ("u32", Ok(short)) => bytes.extend_from_slice(&short.to_le_bytes())?,
        ("u64", _) => bytes.extend_from_slice(&number.to_le_bytes())?,
        _ => return Ok(false),
    }
    Ok(true)
}

fn add_again(
    alloc: Global,
    bytes: &mut Vec<u8>,
    count: &str,
    digits: &str,
) -> Result<bool, AllocError> {
    match count.parse() {
        Ok(count) => add_digits(alloc, bytes, digits, count),
        Err(_) => Ok(false),
    }
}

/// The bytes of hexadecimal digits, so often.
fn add_digits(
    alloc: Global,
    bytes: &mut Vec<u8>,
    digits: &str,
    count: u32,
) -> Result<bool, AllocError> {
    let Ok(piece) = hex::decode(alloc, digits) else {
        return Ok(false);
    };
    add_bytes(bytes, piece.as_slice(), count)?;
    Ok(true)
}

fn add_bytes(bytes: &mut Vec<u8>, piece: &[u8], count: u32) -> Result<(), AllocError> {
    for _ in 0..count {
        bytes.extend_from_slice(piece)?;
    }
    Ok(())
}
