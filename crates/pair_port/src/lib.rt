//! A device over a disk, as the port that a host sees, and the port that goes to such a device or to an
//! address.
#![tactic(auto)]

pub mod any_port;
mod feeding;
pub mod left;
pub mod meter;
mod opening;
pub mod other;
pub mod pair;
mod port;
#[cfg(test)]
mod tests;
