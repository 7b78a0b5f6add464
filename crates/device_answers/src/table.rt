use crate::device_lines::{no_device, set_device};
use crate::image::image_of;
use crate::session::Session;
use dev_model::device::Dev;
use std::alloc::Global;
use std::fmt;
use std::rt::Files;

/// A table as far as it was read: the device that it describes, and the session that isn't at its end.
///
/// The lines of a device come first, and then sessions, each of which begins with its title and meets the
/// device as it was described. What isn't as the table says is printed.
#[derive(Drop)]
pub struct Table<'a> {
    file: &'a str,
    lines: u64,
    device: Dev,
    image: Option<Vec<u8>>,
    session: Option<Session>,
    sessions: u64,
    held: u64,
}

impl fmt::Display for Table<'_> {
    fn fmt<W: fmt::Write>(&self, f: &mut fmt::Formatter<W>) -> fmt::Result {
        write!(
            f,
            "{}: {} of {} sessions are held",
            self.file, self.held, self.sessions
        )
    }
}

impl<'a> Table<'a> {
    pub fn new(alloc: Global, file: &'a str) -> Table<'a> {
        Table {
            file,
            lines: 0,
            device: no_device(alloc),
            image: None,
            session: None,
            sessions: 0,
            held: 0,
        }
    }

    /// Reads the next line.
    pub fn take<R: Files + Print + Alloc<A = Global>>(
        &mut self,
        rt: &R,
        line: &str,
    ) -> anyhow::Result<()> {
        self.lines = self.lines.saturating_add(1);
        if line.is_empty() || line.starts_with("#") {
            return Ok(());
        }
        let (word, text) = line.split_once(" ").unwrap_or((line, ""));
        if word == "session" && !text.is_empty() {
            self.end(rt)?;
            self.session = Some(Session::new(rt.alloc(), text)?);
            return Ok(());
        }
        if !self.take_word(rt, word, text)? {
            println!(rt; "{}, line {}: not understood", self.file, self.lines)?;
        }
        Ok(())
    }

    /// Takes a line into the session, or into the device where none began. False where it's none of theirs.
    fn take_word<R: Files + Alloc<A = Global>>(
        &mut self,
        rt: &R,
        word: &str,
        text: &str,
    ) -> anyhow::Result<bool> {
        match &mut self.session {
            Some(session) => session.take(rt, word, text),
            None if word == "image" && text.is_empty() => self.take_image(rt.alloc()),
            None => set_device(rt.alloc(), &mut self.device, word, text),
        }
    }

    /// Makes an image that stands for the device. False where there is none.
    fn take_image(&mut self, alloc: Global) -> anyhow::Result<bool> {
        self.image = image_of(alloc, &self.device)?;
        Ok(self.image.is_some())
    }

    /// Holds the session that was read last, where there is one.
    pub fn end<R: Print + Alloc<A = Global>>(&mut self, rt: &R) -> anyhow::Result<()> {
        let Some(session) = self.session.take() else {
            return Ok(());
        };
        self.sessions = self.sessions.saturating_add(1);
        let image = self.image.as_ref().map(|image| image.as_slice());
        match session.flaw(rt.alloc(), &self.device, image)? {
            Some(flaw) => println!(rt; "{}, {}: {flaw}", self.file, session.title)?,
            None => self.held = self.held.saturating_add(1),
        }
        Ok(())
    }
}
