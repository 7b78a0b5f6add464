//! A product drawn by a number: its files, and the layout of the device that it is for.
#![tactic(auto)]

pub mod draws;
pub mod files;
mod metadata;
mod raw;
mod sparse;
