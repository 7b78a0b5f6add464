use crate::bytes::bytes_of;
use crate::disks::{IMAGE, disk_without};
use crate::kept::Kept;
use crate::layout_words::say_fail;
use crate::numbers::number_and;
use crate::world::{Answer, Failing, World, say};
use dev_disk::disk::Disk;
use dev_disk::file::FileDisk;
use dev_store::layout::{Layout, read_layout};
use dev_store::make::make;
use std::alloc::Global;
use std::fs;
use std::fs::File;
use std::rt::Files;

/// Where an image is made as a real file.
const REAL: &str = "real.img";

/// Whether a lock is open, by its name.
pub fn is_unlocked(text: &str) -> Option<bool> {
    match text {
        "locked" => Some(false),
        "unlocked" => Some(true),
        _ => None,
    }
}

/// Makes the image as a real file, and answers how long it is where it holds the bytes at the place.
fn make_real<R: Files<File = File> + Alloc<A = Global>>(
    rt: &R,
    layout: &Layout,
    unlocked: bool,
    place: u64,
    bytes: &[u8],
) -> Answer {
    let alloc = rt.alloc();
    let mut disk = FileDisk::new(rt);
    if let Err(e) = make(alloc, &mut disk, REAL, layout, unlocked) {
        return Ok(Some(format!(in alloc; "{e:?}")?));
    }
    let Some(size) = disk.open(REAL)? else {
        return say(alloc, "Absent");
    };
    let mut held = Vec::from_slice(alloc, bytes)?;
    if place > size || size - place < held.len() as u64 {
        return say(alloc, "too short");
    }
    disk.read_at(place, held.as_mut_slice())?;
    if held.as_slice() == bytes {
        Ok(Some(size.to_string(alloc)?))
    } else {
        say(alloc, "other bytes")
    }
}

impl World {
    /// Takes a line that makes an image.
    pub fn making_word<R: Files<File = File> + Alloc<A = Global>>(
        &mut self,
        rt: &R,
        kept: &Kept,
        word: &str,
        text: &str,
    ) -> Answer {
        match word {
            "make" => self.make(rt.alloc(), text),
            "make-real" => self.make_real(rt, kept, text),
            _ => Ok(None),
        }
    }

    fn make(&mut self, alloc: Global, text: &str) -> Answer {
        let Some(unlocked) = is_unlocked(text) else {
            return Ok(None);
        };
        self.store = None;
        match read_layout(alloc, &self.layout) {
            Ok(layout) => self.make_image(alloc, &layout, unlocked),
            Err(fail) => say_fail(alloc, &fail),
        }
    }

    fn make_image(&mut self, alloc: Global, layout: &Layout, unlocked: bool) -> Answer {
        let call = self.next_call();
        let mut disk = disk_without(alloc, call)?;
        let made = make(alloc, &mut disk, IMAGE, layout, unlocked);
        self.set_disk(disk);
        match made {
            Ok(()) => say(alloc, "Ok"),
            Err(e) => Ok(Some(format!(in alloc; "{e:?}")?)),
        }
    }

    /// The call of the next disk that fails, counted from its first one; 0 is none.
    fn next_call(&mut self) -> u64 {
        match self.failing {
            Failing::First => {
                self.failing = Failing::No;
                self.may_fail = true;
                self.call
            }
            _ => 0,
        }
    }

    fn make_real<R: Files<File = File> + Alloc<A = Global>>(
        &self,
        rt: &R,
        kept: &Kept,
        text: &str,
    ) -> Answer {
        let (lock, rest) = text.split_once(" ").unwrap_or((text, ""));
        let (Some(unlocked), Some((place, text))) = (
            is_unlocked(lock),
            number_and(kept.places(), rest),
        ) else {
            return Ok(None);
        };
        let Some(bytes) = bytes_of(rt.alloc(), kept.places(), text)? else {
            return Ok(None);
        };
        let layout = match read_layout(rt.alloc(), &self.layout) {
            Ok(layout) => layout,
            Err(fail) => return say_fail(rt.alloc(), &fail),
        };
        let answer = make_real(rt, &layout, unlocked, place, &bytes)?;
        fs::remove_file(rt, REAL)?;
        Ok(answer)
    }
}
