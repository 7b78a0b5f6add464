//! A self-test of fbflash: an installation of a product drawn by a number, on a device in memory.
#![tactic(auto)]

pub mod host;
pub mod sample;
