//! Cases of installations over a link: what is sent, and what comes of it.
#![tactic(auto)]

#[cfg(test)]
mod flashes;
#[cfg(test)]
mod link_outs;
#[cfg(test)]
mod questions;
#[cfg(test)]
mod steps;
