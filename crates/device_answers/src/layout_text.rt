use dev_model::device::{Dev, Physical};
use std::alloc::{AllocError, Global};

/// A text of lines that end with a line feed.
#[derive(Drop)]
pub struct Lines {
    alloc: Global,
    pub text: Vec<u8>,
}

impl Lines {
    fn new(alloc: Global) -> Lines {
        Lines {
            alloc,
            text: Vec::new(alloc),
        }
    }

    /// Begins a line with a word.
    fn begin(&mut self, word: &str) -> Result<(), AllocError> {
        self.text.extend_from_slice(word.as_bytes())
    }

    fn add(&mut self, word: &[u8]) -> Result<(), AllocError> {
        self.text.extend_from_slice(b" ")?;
        self.text.extend_from_slice(word)
    }

    fn add_number(&mut self, number: u64) -> anyhow::Result<()> {
        let digits = format!(in self.alloc; "{number}")?;
        self.add(digits.as_bytes())?;
        Ok(())
    }

    fn end(&mut self) -> Result<(), AllocError> {
        self.text.extend_from_slice(b"\n")
    }
}

fn add_texts(lines: &mut Lines, dev: &Dev) -> Result<(), AllocError> {
    lines.begin("fbdevice 1\nproduct")?;
    lines.add(dev.product.as_slice())?;
    lines.begin("\nserialno")?;
    lines.add(dev.serial.as_slice())?;
    lines.end()
}

fn add_numbers(lines: &mut Lines, dev: &Dev) -> anyhow::Result<()> {
    lines.begin("slots")?;
    lines.add_number(dev.slots as u64)?;
    lines.begin("\nmax-download")?;
    lines.add_number(dev.max as u64)?;
    lines.end()?;
    Ok(())
}

fn add_variables(lines: &mut Lines, dev: &Dev) -> Result<(), AllocError> {
    for variable in dev.vars.as_slice() {
        lines.begin("var")?;
        lines.add(variable.name.bytes())?;
        lines.add(variable.text.as_slice())?;
        lines.end()?;
    }
    Ok(())
}

fn add_partition(lines: &mut Lines, part: &Physical) -> anyhow::Result<()> {
    lines.begin("partition")?;
    lines.add(part.name.bytes())?;
    lines.add_number(part.bytes.as_slice().len() as u64)?;
    lines.end()?;
    Ok(())
}

fn add_super(lines: &mut Lines, dev: &Dev) -> anyhow::Result<()> {
    let Some(name) = &dev.super_name else {
        return Ok(());
    };
    lines.begin("super")?;
    lines.add(name.bytes())?;
    lines.add_number(dev.super_size)?;
    lines.add_number(dev.unit as u64)?;
    lines.add_number(dev.geometry.max_size as u64)?;
    lines.add_number(dev.geometry.slots as u64)?;
    lines.end()?;
    Ok(())
}

/// The layout text of a device.
pub fn layout_text(alloc: Global, dev: &Dev) -> anyhow::Result<Vec<u8>> {
    let mut lines = Lines::new(alloc);
    add_texts(&mut lines, dev)?;
    add_numbers(&mut lines, dev)?;
    add_variables(&mut lines, dev)?;
    for part in dev.physical.as_slice() {
        add_partition(&mut lines, part)?;
    }
    add_super(&mut lines, dev)?;
    Ok(lines.text)
}
