//! The files of a rehearsal.

use anyhow::bail;
use std::alloc::{AllocError, Global};
use std::fs;
use std::io::ErrorKind;
use std::rt::Files;

/// What a file holds, nothing where there is none.
fn held<R: Files + Alloc<A = Global>>(rt: &R, file: &str) -> anyhow::Result<Vec<u8>> {
    match fs::read(rt, file) {
        Ok(bytes) => Ok(bytes),
        Err(error) if error.kind() == ErrorKind::NotFound => Ok(Vec::new(rt.alloc())),
        Err(error) => Err(error.into()),
    }
}

/// So many times the byte is put behind what a file holds.
fn append<R: Files + Alloc<A = Global>>(
    rt: &R,
    file: &str,
    count: usize,
    byte: u8,
) -> anyhow::Result<()> {
    let mut bytes = held(rt, file)?;
    let most = bytes.len().saturating_add(count);
    bytes.resize(most, byte)?;
    fs::write(rt, file, bytes.as_slice())?;
    Ok(())
}

/// The words, with a space between each two, and a line feed.
fn push_line(bytes: &mut Vec<u8>, words: &[String]) -> Result<(), AllocError> {
    let mut first = true;
    for word in words {
        if !first {
            bytes.push(b' ')?;
        }
        bytes.extend_from_slice(word.as_str().as_bytes())?;
        first = false;
    }
    bytes.push(b'\n')?;
    Ok(())
}

/// A line is put behind what a file holds.
fn append_text<R: Files + Alloc<A = Global>>(
    rt: &R,
    file: &str,
    words: &[String],
) -> anyhow::Result<()> {
    let mut bytes = held(rt, file)?;
    push_line(&mut bytes, words)?;
    fs::write(rt, file, bytes.as_slice())?;
    Ok(())
}

/// A file with another byte at a place.
fn spoil<R: Files + Alloc<A = Global>>(
    rt: &R,
    file: &str,
    place: usize,
    byte: u8,
) -> anyhow::Result<()> {
    let mut bytes = fs::read(rt, file)?;
    if let Some(spoilt) = bytes.get_mut(place) {
        *spoilt = byte;
    }
    fs::write(rt, file, bytes.as_slice())?;
    Ok(())
}

/// The first bytes of a file.
fn cut<R: Files + Alloc<A = Global>>(rt: &R, file: &str, count: usize) -> anyhow::Result<()> {
    let mut bytes = fs::read(rt, file)?;
    bytes.truncate(count);
    fs::write(rt, file, bytes.as_slice())?;
    Ok(())
}

/// Changes a file as a word says.
pub fn change<R: Files + Alloc<A = Global>>(
    rt: &R,
    word: &str,
    words: &[String],
) -> anyhow::Result<()> {
    match (word, words) {
        ("append", [file, count, byte]) => append(
            rt,
            file.as_str(),
            count.as_str().parse::<usize>()?,
            byte.as_str().parse::<u8>()?,
        ),
        ("text", [file, text @ ..]) => append_text(rt, file.as_str(), text),
        ("spoil", [file, place, byte]) => spoil(
            rt,
            file.as_str(),
            place.as_str().parse::<usize>()?,
            byte.as_str().parse::<u8>()?,
        ),
        ("cut", [file, count]) => cut(rt, file.as_str(), count.as_str().parse::<usize>()?),
        ("copy", [file, other]) => {
            fs::copy(rt, file.as_str(), other.as_str())?;
            Ok(())
        }
        ("remove", [file]) => {
            fs::remove_file(rt, file.as_str())?;
            Ok(())
        }
        _ => bail!("no such line"),
    }
}
