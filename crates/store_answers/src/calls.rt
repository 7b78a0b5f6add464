use crate::bytes::bytes_of;
use crate::disks::{IMAGE, opening_calls};
use crate::file_words::first_difference;
use crate::kept::Kept;
use crate::numbers::number;
use crate::open_store::OpenStore;
use crate::states::state_of;
use crate::world::{Answer, Failing, World, say, say_result, say_whether};
use fb_frame::memory::Memory;
use fb_frame::name::Name;
use std::alloc::{AllocError, Global};

/// A partition, a place in it, and bytes.
#[derive(Drop)]
struct PartBytes {
    name: Name,
    at: u64,
    bytes: Vec<u8>,
}

/// The first word, and what stands after it.
fn first_word(text: &str) -> (&str, &str) {
    text.split_once(" ").unwrap_or((text, ""))
}

/// A partition, and a number.
fn name_and_size(kept: &Kept, text: &str) -> Option<(Name, u64)> {
    let (name, size) = first_word(text);
    let size = number(kept.places(), size)?;
    let name = Name::read(name.as_bytes())?;
    Some((name, size))
}

/// A partition, a place in it, and bytes, as `boot 0 'hello` tells them.
fn part_bytes(alloc: Global, kept: &Kept, text: &str) -> Result<Option<PartBytes>, AllocError> {
    let (name, rest) = first_word(text);
    let (at, text) = first_word(rest);
    let Some(at) = number(kept.places(), at) else {
        return Ok(None);
    };
    let Some(bytes) = bytes_of(alloc, kept.places(), text)? else {
        return Ok(None);
    };
    let Some(name) = Name::read(name.as_bytes()) else {
        return Ok(None);
    };
    Ok(Some(PartBytes { name, at, bytes }))
}

/// How many bytes four bytes fill, and these as a number, the lowest one first.
fn four_bytes(alloc: Global, kept: &Kept, text: &str) -> Result<Option<(u64, u32)>, AllocError> {
    let (length, text) = first_word(text);
    let Some(length) = number(kept.places(), length) else {
        return Ok(None);
    };
    let Some(bytes) = bytes_of(alloc, kept.places(), text)? else {
        return Ok(None);
    };
    match bytes.as_slice() {
        [a, b, c, d] => Ok(Some((length, u32::from_le_bytes([*a, *b, *c, *d])))),
        _ => Ok(None),
    }
}

impl World {
    /// Takes a line that opens a store, closes it, or calls it.
    pub fn call_word(&mut self, alloc: Global, kept: &Kept, word: &str, text: &str) -> Answer {
        match (word, text) {
            ("open", "") => return self.open(alloc, kept, IMAGE),
            ("open-path", path) => return self.open(alloc, kept, path),
            ("close", "") => {
                self.close();
                return say(alloc, "Ok");
            }
            _ => {}
        }
        let answer = self.part_word(alloc, kept, word, text)?;
        if answer.is_some() {
            return Ok(answer);
        }
        self.table_word(alloc, kept, word, text)
    }

    /// Takes a line that calls a store on bytes of a partition, or on its state.
    fn part_word(&mut self, alloc: Global, kept: &Kept, word: &str, text: &str) -> Answer {
        match word {
            "reads" => self.read(alloc, kept, text),
            "write" => self.write(alloc, kept, text),
            "fill" => self.fill(alloc, kept, text),
            "set-state" => self.set_state(alloc, text),
            "sync" => self.sync(alloc),
            _ => Ok(None),
        }
    }

    /// Takes a line that calls a store on its table.
    fn table_word(&mut self, alloc: Global, kept: &Kept, word: &str, text: &str) -> Answer {
        match word {
            "create" => self.create(alloc, kept, text),
            "create-many" => self.create_many(alloc, text),
            "resize" => self.resize(alloc, kept, text),
            "delete" => self.delete(alloc, text),
            "install" => self.install(alloc, kept, text),
            _ => Ok(None),
        }
    }

    /// The call of the next disk that fails, counted from its first one; 0 is none.
    fn opening_call(&mut self, alloc: Global, kept: &Kept) -> Result<u64, Memory> {
        let call = match self.failing {
            Failing::No => 0,
            Failing::First => self.call,
            Failing::Later => self.call.saturating_add(self.count_opening(alloc, kept)?),
        };
        self.failing = Failing::No;
        Ok(call)
    }

    /// How many calls the opening takes.
    fn count_opening(&mut self, alloc: Global, kept: &Kept) -> Result<u64, Memory> {
        if let Some(calls) = self.opening {
            return Ok(calls);
        }
        let calls = opening_calls(alloc, self.file(kept))?;
        self.opening = Some(calls);
        Ok(calls)
    }

    fn open(&mut self, alloc: Global, kept: &Kept, path: &str) -> Answer {
        self.close();
        let call = self.opening_call(alloc, kept)?;
        let disk = self.take_disk(alloc, kept, call)?;
        match OpenStore::open(alloc, disk, path) {
            Ok(open) => {
                self.store = Some(open);
                say(alloc, "Ok")
            }
            Err((disk, e)) => {
                self.set_disk(disk);
                Ok(Some(format!(in alloc; "{e:?}")?))
            }
        }
    }

    /// Reads bytes, and says whether they are these.
    fn read(&mut self, alloc: Global, kept: &Kept, text: &str) -> Answer {
        let Some(part) = part_bytes(alloc, kept, text)? else {
            return Ok(None);
        };
        let Some(open) = self.store.take() else {
            return say(alloc, "shut");
        };
        let mut read = Vec::new(alloc);
        read.resize(part.bytes.len(), 9)?;
        let (answer, open) = open.read(&part.name, part.at, read.as_mut_slice());
        self.store = Some(open);
        if answer.is_err() {
            return say_result(alloc, answer);
        }
        let is_read = first_difference(&read, &part.bytes).is_none();
        say_whether(alloc, is_read, "other bytes")
    }

    fn write(&mut self, alloc: Global, kept: &Kept, text: &str) -> Answer {
        let Some(part) = part_bytes(alloc, kept, text)? else {
            return Ok(None);
        };
        let Some(open) = self.store.take() else {
            return say(alloc, "shut");
        };
        self.end(alloc, open.write(&part.name, part.at, &part.bytes))
    }

    fn fill(&mut self, alloc: Global, kept: &Kept, text: &str) -> Answer {
        let (name, rest) = first_word(text);
        let (at, rest) = first_word(rest);
        let Some(at) = number(kept.places(), at) else {
            return Ok(None);
        };
        let Some((length, pattern)) = four_bytes(alloc, kept, rest)? else {
            return Ok(None);
        };
        let Some(name) = Name::read(name.as_bytes()) else {
            return Ok(None);
        };
        let Some(open) = self.store.take() else {
            return say(alloc, "shut");
        };
        self.end_or(alloc, open.fill(&name, at, length, pattern))
    }

    fn create(&mut self, alloc: Global, kept: &Kept, text: &str) -> Answer {
        let Some((name, size)) = name_and_size(kept, text) else {
            return Ok(None);
        };
        let Some(open) = self.store.take() else {
            return say(alloc, "shut");
        };
        self.end(alloc, open.create(&name, size))
    }

    /// Makes partitions without bytes, as `3 x` says, which are `x0`, `x1` and `x2`, up to the first refusal.
    fn create_many(&mut self, alloc: Global, text: &str) -> Answer {
        let Some((count, front)) = text.split_once(" ") else {
            return Ok(None);
        };
        let Ok(count) = count.parse::<u32>() else {
            return Ok(None);
        };
        for number in 0..count {
            let name = format!(in alloc; "{front}{number}")?;
            let answer = self.create_empty(alloc, name.as_str())?;
            if answer.as_ref().is_none_or(|answer| answer.as_str() != "Ok") {
                return Ok(answer);
            }
        }
        say(alloc, "Ok")
    }

    fn create_empty(&mut self, alloc: Global, name: &str) -> Answer {
        let Some(name) = Name::read(name.as_bytes()) else {
            return Ok(None);
        };
        let Some(open) = self.store.take() else {
            return say(alloc, "shut");
        };
        self.end(alloc, open.create(&name, 0))
    }

    fn resize(&mut self, alloc: Global, kept: &Kept, text: &str) -> Answer {
        let Some((name, size)) = name_and_size(kept, text) else {
            return Ok(None);
        };
        let Some(open) = self.store.take() else {
            return say(alloc, "shut");
        };
        self.end(alloc, open.resize(&name, size))
    }

    fn delete(&mut self, alloc: Global, text: &str) -> Answer {
        let Some(name) = Name::read(text.as_bytes()) else {
            return Ok(None);
        };
        let Some(open) = self.store.take() else {
            return say(alloc, "shut");
        };
        self.end(alloc, open.delete(&name))
    }

    fn install(&mut self, alloc: Global, kept: &Kept, text: &str) -> Answer {
        let Some((name, how)) = text.split_once(" ") else {
            return Ok(None);
        };
        let wipe = match how {
            "keep" => false,
            "wipe" => true,
            _ => return Ok(None),
        };
        let Some(image) = kept.image(name) else {
            return say(alloc, "not kept");
        };
        let Some(open) = self.store.take() else {
            return say(alloc, "shut");
        };
        self.end(alloc, open.install(&image.file, wipe))
    }

    fn set_state(&mut self, alloc: Global, text: &str) -> Answer {
        let Some(state) = state_of(text) else {
            return Ok(None);
        };
        let Some(open) = self.store.take() else {
            return say(alloc, "shut");
        };
        self.end_or(alloc, open.set_state(&state))
    }

    fn sync(&mut self, alloc: Global) -> Answer {
        let Some(open) = self.store.take() else {
            return say(alloc, "shut");
        };
        self.end(alloc, open.sync())
    }
}
