use crate::case::{Case, Line};
use crate::kept::Kept;
use std::alloc::Global;
use std::fmt;
use std::fs::File;
use std::rt::Files;

/// A table as far as it was read: the case that isn't at its end, and how many were and are held, with how
/// many answers. What isn't as the table says is printed.
#[derive(Drop)]
pub struct Table<'a> {
    file: &'a str,
    lines: u64,
    case: Option<Case<'a>>,
    cases: u64,
    held: u64,
    answers: u64,
    alloc: Global,
}

impl fmt::Display for Table<'_> {
    fn fmt<W: fmt::Write>(&self, f: &mut fmt::Formatter<W>) -> fmt::Result {
        write!(
            f,
            "{}: {} of {} cases are held, by {} answers",
            self.file, self.held, self.cases, self.answers
        )
    }
}

impl<'a> Table<'a> {
    pub fn new(alloc: Global, file: &'a str) -> Table<'a> {
        Table {
            file,
            lines: 0,
            case: None,
            cases: 0,
            held: 0,
            answers: 0,
            alloc,
        }
    }

    /// Reads the next line.
    pub fn take<R: Files<File = File> + Print + Alloc<A = Global>>(
        &mut self,
        rt: &R,
        kept: &mut Kept,
        text: &'a str,
    ) -> anyhow::Result<()> {
        self.lines = self.lines.saturating_add(1);
        if text.is_empty() || text.starts_with("#") {
            return Ok(());
        }
        if let Some(title) = text.strip_prefix("case ") {
            self.end(rt, kept)?;
            self.case = Some(Case::new(self.alloc, title));
            return Ok(());
        }
        if !self.take_line(kept, text)? {
            println!(rt; "{}, line {}: not understood", self.file, self.lines)?;
        }
        Ok(())
    }

    /// Takes a place's name, or a line into the case. False where no case began.
    fn take_line(&mut self, kept: &mut Kept, text: &'a str) -> anyhow::Result<bool> {
        if let Some(place) = text.strip_prefix("place ") {
            return Ok(kept.take_place(self.alloc, place)?);
        }
        let Some(case) = &mut self.case else {
            return Ok(false);
        };
        let number = self.lines;
        case.lines.push(Line { number, text })?;
        Ok(true)
    }

    /// Meets the case that was read last, where there is one.
    pub fn end<R: Files<File = File> + Print + Alloc<A = Global>>(
        &mut self,
        rt: &R,
        kept: &mut Kept,
    ) -> anyhow::Result<()> {
        let Some(mut case) = self.case.take() else {
            return Ok(());
        };
        self.cases = self.cases.saturating_add(1);
        let flaw = case.flaw(rt, kept)?;
        self.answers = self.answers.saturating_add(case.answers);
        match flaw {
            Some(flaw) => println!(rt; "{}, {}: {flaw}", self.file, case.title)?,
            None => self.held = self.held.saturating_add(1),
        }
        Ok(())
    }
}
