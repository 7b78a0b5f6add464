use std::alloc::AllocError;
use thiserror::Error;

/// There was not enough memory.
#[derive(Debug, Drop, Error)]
#[error("out of memory")]
pub struct Memory;

impl From<AllocError> for Memory {
    fn from(_: AllocError) -> Memory {
        Memory
    }
}
