//! The words of a command line: the arguments of a simple command, its matches, and texts and numbers
//! among them.
#![tactic(auto)]

pub mod arguments;
pub mod command;
pub mod error;
pub mod found;
pub mod text;
