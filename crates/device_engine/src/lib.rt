//! The device's typed modes, the replies to one command, and the commands that work on the store.
#![tactic(auto)]

pub mod device;
mod getvar;
mod part_commands;
mod put_runs;
pub mod replies;
mod replying;
mod run;
mod starting;
mod state_commands;
mod table_commands;
mod told;
mod working;
