use std::alloc::{AllocError, Global};
use std::fs;
use std::rt::Files;

/// The payload that a line of a host's frame describes. None where it's no such line.
pub fn payload_of<R: Files + Alloc<A = Global>>(
    rt: &R,
    word: &str,
    text: &str,
) -> anyhow::Result<Option<Vec<u8>>> {
    match word {
        "sends" => Ok(Some(Vec::from_slice(rt.alloc(), text.as_bytes())?)),
        "sends-times" => Ok(repeated(rt.alloc(), text)?),
        "sends-file" => Ok(Some(fs::read(rt, text)?)),
        "sends-sized" => sized(rt, text),
        "sends-spoilt" => spoilt(rt, text),
        _ => Ok(None),
    }
}

/// A byte so often, as `4096 z` says.
fn repeated(alloc: Global, text: &str) -> Result<Option<Vec<u8>>, AllocError> {
    let Some((count, byte)) = text.split_once(" ") else {
        return Ok(None);
    };
    let (Ok(count), [byte]) = (count.parse(), byte.as_bytes()) else {
        return Ok(None);
    };
    let mut payload = Vec::new(alloc);
    payload.resize(count, *byte)?;
    Ok(Some(payload))
}

/// A file, cut or filled up with zeros to so many bytes, as `sparse.img 4163` says.
fn sized<R: Files + Alloc<A = Global>>(rt: &R, text: &str) -> anyhow::Result<Option<Vec<u8>>> {
    let Some((file, count)) = text.split_once(" ") else {
        return Ok(None);
    };
    let Ok(count) = count.parse() else {
        return Ok(None);
    };
    let mut payload = fs::read(rt, file)?;
    payload.resize(count, 0)?;
    Ok(Some(payload))
}

/// A file with another byte at a place, both as numbers, as `sparse.img 26 1` says.
fn spoilt<R: Files + Alloc<A = Global>>(rt: &R, text: &str) -> anyhow::Result<Option<Vec<u8>>> {
    let Some((file, change)) = text.split_once(" ") else {
        return Ok(None);
    };
    let Some((place, byte)) = change_of(change) else {
        return Ok(None);
    };
    let mut payload = fs::read(rt, file)?;
    let Some(spoilt) = payload.get_mut(place) else {
        return Ok(None);
    };
    *spoilt = byte;
    Ok(Some(payload))
}

fn change_of(text: &str) -> Option<(usize, u8)> {
    let (place, byte) = text.split_once(" ")?;
    let place = place.parse().ok()?;
    let byte = byte.parse().ok()?;
    Some((place, byte))
}
