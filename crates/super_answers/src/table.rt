use crate::case::{Case, Taken};
use std::alloc::Global;
use std::fmt;
use std::rt::Files;

/// A table as far as it was read. What isn't as it says is printed.
#[derive(Drop)]
pub struct Table<'a> {
    file: &'a str,
    lines: u64,
    case: Option<Case>,
    cases: u64,
    checks: u64,
    held: u64,
}

impl fmt::Display for Table<'_> {
    fn fmt<W: fmt::Write>(&self, f: &mut fmt::Formatter<W>) -> fmt::Result {
        write!(
            f,
            "{}: {} cases, {} of {} lines hold",
            self.file, self.cases, self.held, self.checks
        )
    }
}

impl<'a> Table<'a> {
    pub fn new(file: &'a str) -> Table<'a> {
        Table {
            file,
            lines: 0,
            case: None,
            cases: 0,
            checks: 0,
            held: 0,
        }
    }

    /// Reads the next line.
    pub fn take<R: Files + Print + Alloc<A = Global>>(
        &mut self,
        rt: &R,
        line: &str,
    ) -> anyhow::Result<()> {
        self.lines = self.lines.saturating_add(1);
        if line.is_empty() || line.starts_with("#") {
            return Ok(());
        }
        let (word, text) = line.split_once(" ").unwrap_or((line, ""));
        if word == "case" && !text.is_empty() {
            self.cases = self.cases.saturating_add(1);
            self.case = Some(Case::new(rt.alloc()));
            return Ok(());
        }
        match self.take_word(rt, word, text)? {
            Taken::Holds(holds) => self.count(rt, holds),
            Taken::No => {
                println!(rt; "{}, line {}: not understood", self.file, self.lines)?;
                Ok(())
            }
        }
    }

    fn take_word<R: Files + Alloc<A = Global>>(
        &mut self,
        rt: &R,
        word: &str,
        text: &str,
    ) -> anyhow::Result<Taken> {
        match &mut self.case {
            Some(case) => case.take(rt, word, text),
            None => Ok(Taken::No),
        }
    }

    fn count<R: Print>(&mut self, rt: &R, holds: bool) -> anyhow::Result<()> {
        self.checks = self.checks.saturating_add(1);
        if holds {
            self.held = self.held.saturating_add(1);
        } else {
            println!(rt; "{}, line {}: it is otherwise", self.file, self.lines)?;
        }
        Ok(())
    }
}
