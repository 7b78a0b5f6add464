use crate::disks::{disk_with, image_of, keeps_other};
use crate::kept::{Image, Kept};
use crate::open_store::{After, OpenStore, Outcome};
use dev_disk::memory::MemoryDisk;
use dev_store::errors::StoreError;
use fb_frame::memory::Memory;
use std::alloc::{AllocError, Global};
use std::fs::File;
use std::mem;
use std::rt::Files;

/// What a line answers; none where it isn't understood.
pub type Answer = anyhow::Result<Option<String>>;

/// Which call of the next disk fails.
#[derive(Clone, Copy)]
pub enum Failing {
    No,
    First,
    Later,
}

/// Where the bytes of a file lie: in memory of its own, among what cases kept, or on a disk.
#[derive(Drop)]
enum Source {
    Own(Vec<u8>),
    Kept(usize),
    Disk(MemoryDisk),
}

/// What a case works on: the text of a layout, a file, and a store over it, where one is open. `call` is the
/// one that fails of a disk, where a line lets it. `opening` is how many calls of the disk the opening took
/// after which one fails, once they are counted.
#[derive(Drop)]
pub struct World {
    pub layout: Vec<u8>,
    pub store: Option<OpenStore>,
    pub failing: Failing,
    pub call: u64,
    pub opening: Option<u64>,
    file: Source,
    pub may_fail: bool,
    others_kept: bool,
}

pub fn say(alloc: Global, answer: &str) -> Answer {
    Ok(Some(String::from_str(alloc, answer)?))
}

/// `Ok` where something is so, and the other text else.
pub fn say_whether(alloc: Global, is_so: bool, other: &str) -> Answer {
    say(alloc, if is_so { "Ok" } else { other })
}

/// The answer of a call on a store.
pub fn say_result(alloc: Global, answer: Result<(), StoreError>) -> Answer {
    match answer {
        Ok(()) => say(alloc, "Ok"),
        Err(error) => Ok(Some(format!(in alloc; "{error:?}")?)),
    }
}

impl World {
    /// No layout, and an empty file.
    pub fn new(alloc: Global, call: u64, opening: Option<u64>) -> World {
        World {
            layout: Vec::new(alloc),
            store: None,
            failing: Failing::No,
            call,
            opening,
            file: Source::Own(Vec::new(alloc)),
            may_fail: false,
            others_kept: true,
        }
    }

    /// Does what a line says.
    pub fn take<R: Files<File = File> + Alloc<A = Global>>(
        &mut self,
        rt: &R,
        kept: &mut Kept,
        text: &str,
    ) -> Answer {
        let (word, rest) = text.split_once(" ").unwrap_or((text, ""));
        let answer = self.answer(rt, kept, word, rest)?;
        if self.others_kept {
            Ok(answer)
        } else {
            say(rt.alloc(), "another file has changed")
        }
    }

    fn answer<R: Files<File = File> + Alloc<A = Global>>(
        &mut self,
        rt: &R,
        kept: &mut Kept,
        word: &str,
        text: &str,
    ) -> Answer {
        let alloc = rt.alloc();
        let answer = self.kept_word(alloc, kept, word, text)?;
        if answer.is_some() {
            return Ok(answer);
        }
        let answer = self.layout_word(alloc, kept, word, text)?;
        if answer.is_some() {
            return Ok(answer);
        }
        let answer = self.making_word(rt, kept, word, text)?;
        if answer.is_some() {
            return Ok(answer);
        }
        let answer = self.file_word(alloc, kept, word, text)?;
        if answer.is_some() {
            return Ok(answer);
        }
        let answer = self.call_word(alloc, kept, word, text)?;
        if answer.is_some() {
            return Ok(answer);
        }
        self.query_word(alloc, word, text)
    }

    fn kept_word(&mut self, alloc: Global, kept: &mut Kept, word: &str, text: &str) -> Answer {
        match word {
            "keeps" => self.keep(alloc, kept, text)?,
            "from" => return self.begin_with(alloc, kept, text),
            "fails" if self.call > 0 => self.failing = Failing::First,
            "fails-later" if self.call > 0 => self.failing = Failing::Later,
            _ => return Ok(None),
        }
        say(alloc, "Ok")
    }

    fn keep(&mut self, alloc: Global, kept: &mut Kept, name: &str) -> Result<(), AllocError> {
        self.close();
        let file = Vec::from_slice(alloc, self.file(kept))?;
        kept.keep(Image {
            name: String::from_str(alloc, name)?,
            layout: Vec::from_slice(alloc, &self.layout)?,
            file,
        })
    }

    fn begin_with(&mut self, alloc: Global, kept: &Kept, name: &str) -> Answer {
        self.close();
        let Some(place) = kept.find(name) else {
            return say(alloc, "not kept");
        };
        if let Some(image) = kept.image_at(place) {
            self.layout = Vec::from_slice(alloc, &image.layout)?;
        }
        self.file = Source::Kept(place);
        say(alloc, "Ok")
    }

    /// The bytes of the file as it was closed last.
    pub fn file<'a>(&'a self, kept: &'a Kept) -> &'a [u8] {
        match &self.file {
            Source::Own(bytes) => bytes.as_slice(),
            Source::Kept(place) => kept.image_at(*place).map_or(b"", |image| &image.file),
            Source::Disk(disk) => image_of(disk),
        }
    }

    /// The file has these bytes.
    pub fn set_file(&mut self, bytes: Vec<u8>) {
        self.file = Source::Own(bytes);
    }

    /// Gives the bytes of the file, closed, and leaves it empty.
    pub fn take_file(&mut self, alloc: Global, kept: &Kept) -> Result<Vec<u8>, AllocError> {
        self.close();
        match mem::replace(&mut self.file, Source::Own(Vec::new(alloc))) {
            Source::Own(bytes) => Ok(bytes),
            Source::Kept(place) => {
                let bytes = kept
                    .image_at(place)
                    .map_or(b"".as_slice(), |image| &image.file);
                Vec::from_slice(alloc, bytes)
            }
            Source::Disk(disk) => Vec::from_slice(alloc, image_of(&disk)),
        }
    }

    /// A disk with the file, whose call of this number fails: the one on which it lies, where no call of it
    /// fails any more.
    pub fn take_disk(
        &mut self,
        alloc: Global,
        kept: &Kept,
        call: u64,
    ) -> Result<MemoryDisk, Memory> {
        let is_new = call > 0 || self.may_fail;
        self.may_fail = call > 0;
        if is_new {
            return disk_with(alloc, self.file(kept), call);
        }
        match mem::replace(&mut self.file, Source::Own(Vec::new(alloc))) {
            Source::Disk(disk) => Ok(disk),
            other => {
                self.file = other;
                disk_with(alloc, self.file(kept), 0)
            }
        }
    }

    /// The file is what a disk holds.
    pub fn set_disk(&mut self, disk: MemoryDisk) {
        if !keeps_other(&disk) {
            self.others_kept = false;
        }
        self.file = Source::Disk(disk);
    }

    /// Closes the store, where one is open.
    pub fn close(&mut self) {
        if let Some(open) = self.store.take() {
            self.set_disk(open.close());
        }
    }

    /// What a call answers, with what it leaves.
    pub fn end(&mut self, alloc: Global, outcome: Outcome) -> Answer {
        let (answer, after) = outcome;
        match after {
            After::Open(open) => self.store = Some(open),
            After::Closed(disk) => self.set_disk(disk),
        }
        say_result(alloc, answer)
    }

    /// What a call answers, or that the store can't be called so.
    pub fn end_or(&mut self, alloc: Global, outcome: Result<Outcome, OpenStore>) -> Answer {
        match outcome {
            Ok(outcome) => self.end(alloc, outcome),
            Err(open) => {
                self.store = Some(open);
                say(alloc, "unfit")
            }
        }
    }
}
