//! Says what command lines ask for. A line of the input is a program and its words, each after one space.
#![tactic(auto)]

use device_words::words::device_words;
use host_words::words::host_words;
use std::alloc::{AllocError, Global};
use std::io::{BufRead, BufReader};

/// The words of a line after the program's name.
fn words_of(alloc: Global, line: &str) -> Result<Vec<String>, AllocError> {
    let mut words = Vec::new(alloc);
    for word in line.split(' ').skip(1) {
        words.push(word.to_string(alloc)?)?;
    }
    Ok(words)
}

fn show_host(alloc: Global, words: &[String]) -> Result<String, AllocError> {
    match host_words(alloc, words) {
        Ok(asked) => format!(in alloc; "{asked:?}"),
        Err(error) => format!(in alloc; "{error}"),
    }
}

fn show_device(alloc: Global, words: &[String]) -> Result<String, AllocError> {
    match device_words(alloc, words) {
        Ok(asked) => format!(in alloc; "{asked:?}"),
        Err(error) => format!(in alloc; "{error}"),
    }
}

fn main(rt: HostRuntime) -> anyhow::Result<()> {
    let alloc = rt.alloc();
    for line in BufReader::new(alloc, rt.reader())?.lines(alloc) {
        let line = line?;
        let words = words_of(alloc, line.as_str())?;
        let shown = if line.starts_with("fbdevice") {
            show_device(alloc, words.as_slice())?
        } else {
            show_host(alloc, words.as_slice())?
        };
        println!(rt; "{shown}")?;
    }
    Ok(())
}
