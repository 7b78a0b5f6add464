//! An installation rehearsed in memory: fbflash's top call over a device in the same process.
#![tactic(auto)]

pub mod rehearse;
#[cfg(test)]
mod tests;
