use crate::bytes::bytes_of;
use crate::kept::Kept;
use crate::world::{Answer, World, say};
use dev_store::layout::{Layout, LayoutFail, read_layout};
use std::alloc::{AllocError, Global};
use std::str;

/// The first bad line of a layout, and what is wrong with it.
pub fn say_fail(alloc: Global, fail: &LayoutFail) -> Answer {
    match fail {
        LayoutFail::Bad(bad) => Ok(Some(format!(in alloc; "{} {:?}", bad.line, bad.kind)?)),
        LayoutFail::Memory => say(alloc, "Memory"),
    }
}

fn show_vars(alloc: Global, layout: &Layout, shown: &mut String) -> anyhow::Result<()> {
    for variable in layout.vars() {
        let name = str::from_utf8(variable.name.bytes())?;
        let text = str::from_utf8(variable.text.as_slice())?;
        shown.push_str(format!(in alloc; " {name}={text}")?.as_str())?;
    }
    Ok(())
}

fn show_physical(alloc: Global, layout: &Layout, shown: &mut String) -> anyhow::Result<()> {
    for part in layout.physical() {
        let name = str::from_utf8(part.name.bytes())?;
        shown.push_str(format!(in alloc; " {name}:{}", part.size)?.as_str())?;
    }
    Ok(())
}

fn show_super(alloc: Global, layout: &Layout, shown: &mut String) -> anyhow::Result<()> {
    if let Some(part) = layout.super_part() {
        let name = str::from_utf8(part.name.bytes())?;
        let (size, unit, max_size, slots) = (part.size, part.unit, part.max_size, part.slots);
        let text = format!(in alloc; " {name}:{size}/{unit}/{max_size}/{slots}")?;
        shown.push_str(text.as_str())?;
    }
    Ok(())
}

/// Product, serial number, slots and longest download, then variables, partitions and super.
fn show_layout(alloc: Global, layout: &Layout) -> anyhow::Result<String> {
    let product = str::from_utf8(layout.product())?;
    let serial = str::from_utf8(layout.serial())?;
    let (slots, most) = (layout.slots(), layout.max_download());
    let mut shown = format!(in alloc; "{product} {serial} {slots} {most}")?;
    show_vars(alloc, layout, &mut shown)?;
    show_physical(alloc, layout, &mut shown)?;
    show_super(alloc, layout, &mut shown)?;
    Ok(shown)
}

impl World {
    /// Takes a line on the layout.
    pub fn layout_word(&mut self, alloc: Global, kept: &Kept, word: &str, text: &str) -> Answer {
        match word {
            "layout" => self.add_line(text.as_bytes())?,
            "layout-bytes" => return self.add_bytes(alloc, kept, text),
            "layout-lines" => return self.add_lines(alloc, text),
            "layout-length" => return Ok(Some(self.layout.len().to_string(alloc)?)),
            "reads-layout" => return self.read_size(alloc),
            "layout-says" => return self.read_all(alloc),
            _ => return Ok(None),
        }
        say(alloc, "Ok")
    }

    fn add_line(&mut self, line: &[u8]) -> Result<(), AllocError> {
        self.layout.extend_from_slice(line)?;
        self.layout.extend_from_slice(b"\n")?;
        Ok(())
    }

    fn add_bytes(&mut self, alloc: Global, kept: &Kept, text: &str) -> Answer {
        let Some(bytes) = bytes_of(alloc, kept.places(), text)? else {
            return Ok(None);
        };
        self.layout.extend_from_slice(&bytes)?;
        say(alloc, "Ok")
    }

    /// Lines as `64 var text` says, which are `var n0 text` to `var n63 text`.
    fn add_lines(&mut self, alloc: Global, text: &str) -> Answer {
        let Some((count, line)) = text.split_once(" ") else {
            return Ok(None);
        };
        let (Ok(count), Some((word, end))) = (count.parse::<u32>(), line.split_once(" ")) else {
            return Ok(None);
        };
        for number in 0..count {
            let line = format!(in alloc; "{word} n{number} {end}")?;
            self.add_line(line.as_bytes())?;
        }
        say(alloc, "Ok")
    }

    fn read_size(&self, alloc: Global) -> Answer {
        match read_layout(alloc, &self.layout) {
            Ok(layout) => Ok(Some(layout.image_size().to_string(alloc)?)),
            Err(fail) => say_fail(alloc, &fail),
        }
    }

    fn read_all(&self, alloc: Global) -> Answer {
        match read_layout(alloc, &self.layout) {
            Ok(layout) => Ok(Some(show_layout(alloc, &layout)?)),
            Err(fail) => say_fail(alloc, &fail),
        }
    }
}
