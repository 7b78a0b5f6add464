use crate::bytes::{bytes_of, put, seal, seal_header, seal_lists, two_numbers};
use crate::lines::Lines;
use crate::read::{Verdict, geometry, image, table, tables};
use std::alloc::Global;
use std::fs;
use std::rt::Files;

/// A case: its bytes, and what was read of them last.
#[derive(Drop)]
pub struct Case {
    bytes: Vec<u8>,
    lines: Lines,
}

/// Whether a line of a case is understood, and then whether it is as it says.
#[derive(Clone, Copy)]
pub enum Taken {
    No,
    Holds(bool),
}

impl Case {
    pub fn new(alloc: Global) -> Case {
        Case {
            bytes: Vec::new(alloc),
            lines: Lines::new(alloc),
        }
    }

    /// Takes a line of a case.
    pub fn take<R: Files + Alloc<A = Global>>(
        &mut self,
        rt: &R,
        word: &str,
        text: &str,
    ) -> anyhow::Result<Taken> {
        match word {
            "line" => Ok(Taken::Holds(self.lines.next_is(text))),
            "end" => Ok(Taken::Holds(text.is_empty() && self.lines.at_end())),
            "file" => {
                self.bytes = fs::read(rt, text)?;
                Ok(Taken::Holds(true))
            }
            _ => match self.read(rt.alloc(), word)? {
                Some(verdict) => Ok(Taken::Holds(verdict.is(rt.alloc(), text)?)),
                None => self.change(rt.alloc(), word, text),
            },
        }
    }

    /// Reads the bytes as a line says. None where it's no such line.
    fn read(&mut self, alloc: Global, word: &str) -> anyhow::Result<Option<Verdict>> {
        let mut lines = Lines::new(alloc);
        let bytes = self.bytes.as_slice();
        let verdict = match word {
            "geometry" => geometry(bytes, &mut lines)?,
            "table" => table(alloc, bytes, &mut lines)?,
            "image" => image(alloc, bytes, &mut lines)?,
            "tables" => tables(alloc, bytes, &mut lines)?,
            _ => return Ok(None),
        };
        self.lines = lines;
        Ok(Some(verdict))
    }

    /// Changes the bytes as a line says.
    fn change(&mut self, alloc: Global, word: &str, text: &str) -> anyhow::Result<Taken> {
        let is_done = match word {
            "from" => self.leave_out(alloc, text)?,
            "long" => self.lengthen(text)?,
            "put" => self.put(alloc, text)?,
            "seal-geometry" => text.is_empty() && seal(&mut self.bytes, 8),
            "seal-header" => self.seal_header(text),
            "seal-table" => self.seal_table(text),
            _ => false,
        };
        match is_done {
            true => Ok(Taken::Holds(true)),
            false => Ok(Taken::No),
        }
    }

    fn leave_out(&mut self, alloc: Global, text: &str) -> anyhow::Result<bool> {
        let Ok(at) = text.parse::<usize>() else {
            return Ok(false);
        };
        let Some((_, rest)) = self.bytes.as_slice().split_at_checked(at) else {
            return Ok(false);
        };
        self.bytes = Vec::from_slice(alloc, rest)?;
        Ok(true)
    }

    fn lengthen(&mut self, text: &str) -> anyhow::Result<bool> {
        let Ok(count) = text.parse::<usize>() else {
            return Ok(false);
        };
        self.bytes.resize(count, 0)?;
        Ok(true)
    }

    fn put(&mut self, alloc: Global, text: &str) -> anyhow::Result<bool> {
        let Some((at, digits)) = text.split_once(" ") else {
            return Ok(false);
        };
        let (Ok(at), Some(new)) = (at.parse::<usize>(), bytes_of(alloc, digits)?) else {
            return Ok(false);
        };
        Ok(put(&mut self.bytes, at, new.as_slice()))
    }

    fn seal_header(&mut self, text: &str) -> bool {
        let Some((at, size)) = two_numbers(text) else {
            return false;
        };
        match self.bytes.as_mut_slice().split_at_mut_checked(at) {
            Some((_, table)) => seal_header(table, size),
            None => false,
        }
    }

    fn seal_table(&mut self, text: &str) -> bool {
        let Some((at, size)) = two_numbers(text) else {
            return false;
        };
        match self.bytes.as_mut_slice().split_at_mut_checked(at) {
            Some((_, table)) => seal_lists(table, size) && seal_header(table, size),
            None => false,
        }
    }
}
