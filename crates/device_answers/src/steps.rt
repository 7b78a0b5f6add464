use crate::device_lines::mode_of;
use dev_model::device::{Dev, Logical, Physical};
use dev_model::sparse::image;
use dev_model::step::Step;
use dev_model::steps::run;
use fb_frame::name::Name;
use std::alloc::Global;
use std::fs;
use std::rt::Files;

/// A put of a file's image over a partition, as `boot sparse.img` says.
fn put<R: Files + Alloc<A = Global>>(rt: &R, text: &str) -> anyhow::Result<Option<Step>> {
    let Some((name, file)) = text.split_once(" ") else {
        return Ok(None);
    };
    let Some(name) = Name::read(name.as_bytes()) else {
        return Ok(None);
    };
    let file = fs::read(rt, file)?;
    match image(rt.alloc(), file.as_slice())? {
        Some(cells) => Ok(Some(Step::Put(name, cells))),
        None => Ok(None),
    }
}

/// A partition that gets so many bytes, as `y 131073` says.
fn resize(text: &str) -> Option<Step> {
    let (name, size) = text.split_once(" ")?;
    let name = Name::read(name.as_bytes())?;
    let size = size.parse().ok()?;
    Some(Step::Resize(name, size))
}

fn wipe(text: &str) -> Option<Step> {
    Some(Step::Wipe(Name::read(text.as_bytes())?))
}

fn boot(text: &str) -> Option<Step> {
    Some(Step::Boot(mode_of(text)?))
}

/// The step that a line says. None where it's no such line.
pub fn step_of<R: Files + Alloc<A = Global>>(
    rt: &R,
    word: &str,
    text: &str,
) -> anyhow::Result<Option<Step>> {
    match word {
        "puts" => put(rt, text),
        "resizes" => Ok(resize(text)),
        "wipes" => Ok(wipe(text)),
        "boots" => Ok(boot(text)),
        _ => Ok(None),
    }
}

fn same_physical(ours: &[Physical], others: &[Physical]) -> bool {
    ours.len() == others.len()
        && ours.iter().zip(others).all(|(a, b)| a.name == b.name
            && a.bytes.as_slice() == b.bytes.as_slice())
}

fn same_logical(ours: &[Logical], others: &[Logical]) -> bool {
    ours.len() == others.len()
        && ours.iter().zip(others).all(|(a, b)| a.name == b.name
            && a.bytes.as_slice() == b.bytes.as_slice())
}

/// Whether the steps lead from one device to the other, as far as partitions, lock and mode tell.
pub fn lead(alloc: Global, steps: &[Step], before: &Dev, after: &Dev) -> anyhow::Result<bool> {
    match run(alloc, steps, before)? {
        None => Ok(false),
        Some(dev) => Ok(
            dev.mode == after.mode
                && dev.locked == after.locked
                && same_physical(dev.physical.as_slice(), after.physical.as_slice())
                && same_logical(dev.logical.as_slice(), after.logical.as_slice()),
        ),
    }
}
