//! The words of fbflash's command line.
#![tactic(auto)]

ghost use Rattle.host_words.specs.Rows.{Rows};

mod command;
mod options;
pub mod request;
pub mod target;
pub mod words;

/// Worked examples of what words ask for.
pub fn rows()
    ensures { Rows }
{}
