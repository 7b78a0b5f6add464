use crate::bytes::bytes_of;
use crate::kept::Kept;
use crate::numbers::{size, size_and, three_sizes};
use crate::world::{Answer, World, say, say_whether};
use fb_frame::digest::digest;
use std::alloc::{AllocError, Global};

/// The bytes of a range, none where it passes their end.
fn range(bytes: &[u8], from: usize, count: usize) -> Option<&[u8]> {
    bytes.get(from..from.checked_add(count)?)
}

/// Puts bytes over those from a place on. None where they would pass the end.
fn put(file: &mut Vec<u8>, place: usize, bytes: &[u8]) -> Option<()> {
    let end = place.checked_add(bytes.len())?;
    if end > file.len() {
        return None;
    }
    file[place..end].copy_from_slice(bytes);
    Some(())
}

/// Turns the lowest bit of the byte at a place. None where that is past the end.
fn turn(file: &mut Vec<u8>, place: usize) -> Option<()> {
    let byte = file.get_mut(place)?;
    *byte ^= 1;
    Some(())
}

/// The number of four bytes at a place, the lowest one first.
fn number_at(bytes: &[u8], place: usize) -> Option<usize> {
    let [a, b, c, d] = range(bytes, place, 4)? else {
        return None;
    };
    usize::try_from(u32::from_le_bytes([*a, *b, *c, *d])).ok()
}

/// Writes both digests of the table at a place, whose header tells its own size and that of the lists
/// (liblp metadata_format.h, LpMetadataHeader). None where they pass the end.
fn seal(file: &mut Vec<u8>, place: usize) -> Option<()> {
    let header = number_at(file, place.checked_add(8)?)?;
    let size = number_at(file, place.checked_add(44)?)?;
    let lists = digest(range(file, place.checked_add(header)?, size)?);
    put(file, place.checked_add(48)?, &lists)?;
    put(file, place.checked_add(12)?, &[0; 32])?;
    let sum = digest(range(file, place, header)?);
    put(file, place.checked_add(12)?, &sum)
}

/// Where two lists of bytes differ first; none where they are the same.
pub fn first_difference(ours: &[u8], others: &[u8]) -> Option<usize> {
    let mut place = 0;
    while place < ours.len() {
        match others.get(place) {
            Some(other) if *other == ours[place] => place += 1,
            _ => return Some(place),
        }
    }
    if place < others.len() {
        Some(place)
    } else {
        None
    }
}

impl World {
    /// Takes a line on the file.
    pub fn file_word(&mut self, alloc: Global, kept: &Kept, word: &str, text: &str) -> Answer {
        let answer = self.change_word(alloc, kept, word, text)?;
        if answer.is_some() {
            return Ok(answer);
        }
        self.look_word(alloc, kept, word, text)
    }

    /// Takes a line that changes the file.
    fn change_word(&mut self, alloc: Global, kept: &Kept, word: &str, text: &str) -> Answer {
        match word {
            "blank" => self.blank(alloc, kept, text),
            "put" => self.put(alloc, kept, text),
            "turn" => self.turn(alloc, kept, text),
            "cut" => self.cut(alloc, kept, text),
            "copy" => self.copy(alloc, kept, text),
            "take" => self.take_from(alloc, kept, text),
            "sum" => self.sum(alloc, kept, text),
            "seal" => self.seal(alloc, kept, text),
            _ => Ok(None),
        }
    }

    /// Takes a line that looks at the file.
    fn look_word(&mut self, alloc: Global, kept: &Kept, word: &str, text: &str) -> Answer {
        match word {
            "holds" => self.holds(alloc, kept, text),
            "is" => self.is(alloc, kept, text),
            "length" => self.length(alloc, kept),
            "digest" => self.digest(alloc, kept),
            _ => Ok(None),
        }
    }

    fn blank(&mut self, alloc: Global, kept: &Kept, text: &str) -> Answer {
        let Some(count) = size(kept.places(), text) else {
            return Ok(None);
        };
        self.close();
        let mut file = Vec::new(alloc);
        file.resize(count, 0)?;
        self.set_file(file);
        say(alloc, "Ok")
    }

    /// Puts bytes into the file.
    fn put_at(&mut self, alloc: Global, kept: &Kept, place: usize, bytes: &[u8]) -> Answer {
        let mut file = self.take_file(alloc, kept)?;
        let is_put = put(&mut file, place, bytes).is_some();
        self.set_file(file);
        say_whether(alloc, is_put, "past the end")
    }

    fn put(&mut self, alloc: Global, kept: &Kept, text: &str) -> Answer {
        let Some((place, text)) = size_and(kept.places(), text) else {
            return Ok(None);
        };
        let Some(bytes) = bytes_of(alloc, kept.places(), text)? else {
            return Ok(None);
        };
        self.put_at(alloc, kept, place, &bytes)
    }

    fn turn(&mut self, alloc: Global, kept: &Kept, text: &str) -> Answer {
        let Some(place) = size(kept.places(), text) else {
            return Ok(None);
        };
        let mut file = self.take_file(alloc, kept)?;
        let is_turned = turn(&mut file, place).is_some();
        self.set_file(file);
        say_whether(alloc, is_turned, "past the end")
    }

    fn cut(&mut self, alloc: Global, kept: &Kept, text: &str) -> Answer {
        let Some(count) = size(kept.places(), text) else {
            return Ok(None);
        };
        match self.bytes_at(alloc, kept, 0, count)? {
            None => say(alloc, "past the end"),
            Some(front) => {
                self.set_file(front);
                say(alloc, "Ok")
            }
        }
    }

    fn copy(&mut self, alloc: Global, kept: &Kept, text: &str) -> Answer {
        let Some((from, count, to)) = three_sizes(kept.places(), text) else {
            return Ok(None);
        };
        match self.bytes_at(alloc, kept, from, count)? {
            None => say(alloc, "past the end"),
            Some(bytes) => self.put_at(alloc, kept, to, &bytes),
        }
    }

    fn sum(&mut self, alloc: Global, kept: &Kept, text: &str) -> Answer {
        let Some((from, count, to)) = three_sizes(kept.places(), text) else {
            return Ok(None);
        };
        match self.bytes_at(alloc, kept, from, count)? {
            None => say(alloc, "past the end"),
            Some(bytes) => self.put_at(alloc, kept, to, &digest(&bytes)),
        }
    }

    fn seal(&mut self, alloc: Global, kept: &Kept, text: &str) -> Answer {
        let Some(place) = size(kept.places(), text) else {
            return Ok(None);
        };
        let mut file = self.take_file(alloc, kept)?;
        let is_sealed = seal(&mut file, place).is_some();
        self.set_file(file);
        say_whether(alloc, is_sealed, "past the end")
    }

    /// A range of the file, none where it passes the end.
    fn bytes_at(
        &mut self,
        alloc: Global,
        kept: &Kept,
        from: usize,
        count: usize,
    ) -> Result<Option<Vec<u8>>, AllocError> {
        self.close();
        match range(self.file(kept), from, count) {
            None => Ok(None),
            Some(bytes) => Ok(Some(Vec::from_slice(alloc, bytes)?)),
        }
    }

    fn take_from(&mut self, alloc: Global, kept: &Kept, text: &str) -> Answer {
        let Some((name, place)) = text.split_once(" ") else {
            return Ok(None);
        };
        let (Some(image), Some((from, rest))) = (kept.image(name), size_and(kept.places(), place))
        else {
            return Ok(None);
        };
        let Some(count) = size(kept.places(), rest) else {
            return Ok(None);
        };
        match range(&image.file, from, count) {
            None => say(alloc, "past the end"),
            Some(bytes) => self.put_at(alloc, kept, from, bytes),
        }
    }

    fn holds(&mut self, alloc: Global, kept: &Kept, text: &str) -> Answer {
        let Some((place, text)) = size_and(kept.places(), text) else {
            return Ok(None);
        };
        let Some(bytes) = bytes_of(alloc, kept.places(), text)? else {
            return Ok(None);
        };
        self.close();
        let is_held = range(self.file(kept), place, bytes.len()).is_some_and(
            |held| first_difference(held, &bytes).is_none(),
        );
        say_whether(alloc, is_held, "other bytes")
    }

    fn is(&mut self, alloc: Global, kept: &Kept, name: &str) -> Answer {
        let Some(image) = kept.image(name) else {
            return say(alloc, "not kept");
        };
        self.close();
        match first_difference(self.file(kept), &image.file) {
            None => say(alloc, "Ok"),
            Some(place) => Ok(Some(format!(in alloc; "other at {place}")?)),
        }
    }

    fn length(&mut self, alloc: Global, kept: &Kept) -> Answer {
        self.close();
        Ok(Some(self.file(kept).len().to_string(alloc)?))
    }

    fn digest(&mut self, alloc: Global, kept: &Kept) -> Answer {
        self.close();
        let sum = digest(self.file(kept));
        Ok(Some(hex::encode(alloc, sum)?))
    }
}
