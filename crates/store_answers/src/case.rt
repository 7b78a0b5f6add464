use crate::kept::Kept;
use crate::world::World;
use std::alloc::Global;
use std::fmt;
use std::fs::File;
use std::rt::Files;

/// A line of a table.
#[derive(Clone, Copy)]
pub struct Line<'a> {
    pub number: u64,
    pub text: &'a str,
}

/// The first line of a case that isn't as it says, the call of the disk that failed, and what was answered;
/// nothing where the line isn't understood.
#[derive(Drop)]
pub struct Flaw {
    line: u64,
    call: u64,
    answer: Option<String>,
}

impl fmt::Display for Flaw {
    fn fmt<W: fmt::Write>(&self, f: &mut fmt::Formatter<W>) -> fmt::Result {
        write!(f, "line {}", self.line)?;
        if self.call > 0 {
            write!(f, ", with call {} failing,", self.call)?;
        }
        match &self.answer {
            Some(answer) => write!(f, " answers {answer}"),
            None => write!(f, " isn't understood"),
        }
    }
}

/// A case: its lines, how many of them answered, and how many calls the opening took of a store that
/// fails later.
#[derive(Drop)]
pub struct Case<'a> {
    pub title: &'a str,
    pub lines: Vec<Line<'a>>,
    pub answers: u64,
    opening: Option<u64>,
}

/// The calls of a disk that a line lets fail, as `fails 1-12` or `fails-later 3` say.
fn failing_calls(text: &str) -> Option<(u64, u64)> {
    let (word, calls) = text.split_once(" ")?;
    if word != "fails" && word != "fails-later" {
        return None;
    }
    let (first, last) = calls.split_once("-").unwrap_or((calls, calls));
    Some((first.parse().ok()?, last.parse().ok()?))
}

/// Whether the answer is one of those that the line wants.
fn is_wanted(wants: &str, answer: &str) -> bool {
    wants.split(" or ").any(|want| want == answer)
}

impl<'a> Case<'a> {
    /// A case without lines.
    pub fn new(alloc: Global, title: &'a str) -> Case<'a> {
        Case {
            title,
            lines: Vec::new(alloc),
            answers: 0,
            opening: None,
        }
    }

    /// The calls of a disk that fail, one at a time; 0 is none.
    fn calls(&self) -> (u64, u64) {
        for line in &self.lines {
            if let Some(calls) = failing_calls(line.text) {
                return calls;
            }
        }
        (0, 0)
    }

    /// The first line that isn't as it says, with each of the calls failing.
    pub fn flaw<R: Files<File = File> + Alloc<A = Global>>(
        &mut self,
        rt: &R,
        kept: &mut Kept,
    ) -> anyhow::Result<Option<Flaw>> {
        let (first, last) = self.calls();
        for call in first..=last {
            let flaw = self.flaw_with(rt, kept, call)?;
            if flaw.is_some() {
                return Ok(flaw);
            }
        }
        Ok(None)
    }

    /// The first line that isn't as it says, with one call failing.
    fn flaw_with<R: Files<File = File> + Alloc<A = Global>>(
        &mut self,
        rt: &R,
        kept: &mut Kept,
        call: u64,
    ) -> anyhow::Result<Option<Flaw>> {
        let mut world = World::new(rt.alloc(), call, self.opening);
        for line in &self.lines {
            let (act, wants) = line.text.split_once(" -> ").unwrap_or((line.text, "Ok"));
            let answer = world.take(rt, kept, act)?;
            if !answer
                .as_ref()
                .is_some_and(|answer| is_wanted(wants, answer.as_str()))
            {
                let number = line.number;
                return Ok(Some(Flaw {
                    line: number,
                    call,
                    answer,
                }));
            }
            self.answers = self.answers.saturating_add(1);
        }
        self.opening = world.opening;
        Ok(None)
    }
}
