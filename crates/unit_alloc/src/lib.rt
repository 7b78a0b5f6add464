//! Who owns which unit of super.
//!
//! A part is a logical partition. The meaning of `Owners` is, for each part, the list of its units
//! in the order in which they were handed out; a unit has one owner at most. `plain::PlainOwners`
//! has the same contracts over a body that only scans, and serves as a measure in tests.
#![tactic(auto)]

ghost use Rattle.unit_alloc.specs.Laws.{FreeCount, HandedUnits, HandedTimes, HandedTwice};

mod errors;
mod fill;
mod owners;
pub mod plain;
mod states;
mod sum;
#[cfg(test)]
mod tests;

pub use errors::{NoSpace, Owned};
pub use owners::Owners;

/// The laws of owners.
#[tactic(auto, using(crate::proofs::OwnerLaws::laws))]
pub fn laws()
    ensures free_count { FreeCount }
    ensures handed_units { HandedUnits }
    ensures handed_times { HandedTimes }
    ensures handed_twice { HandedTwice }
{}
