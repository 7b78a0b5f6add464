use thiserror::Error;

/// A part has the unit already.
#[derive(Clone, Copy, Debug, PartialEq, Eq, Error)]
#[error("the unit has an owner")]
pub struct Owned;

/// Fewer units are free than were asked for.
#[derive(Clone, Copy, Debug, PartialEq, Eq, Error)]
#[error("not enough free units")]
pub struct NoSpace;
