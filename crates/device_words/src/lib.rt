//! The words of fbdevice's command line.
#![tactic(auto)]

ghost use Rattle.device_words.specs.Rows.{Rows};

mod command;
pub mod request;
pub mod words;

/// Worked examples of what words ask for.
pub fn rows()
    ensures { Rows }
{}
