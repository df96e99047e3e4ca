//! Want of memory, the one answer that may come anywhere.

use std::alloc::{AllocError, AllocFailed};
use thiserror::Error;

/// Want of memory: a growth that the allocator refused.
#[derive(Clone, Copy, Debug, Error, PartialEq, Eq)]
#[error("out of memory")]
pub struct OutOfMemory;

/// What a call that allocates gives.
pub type Mem<T> = Result<T, OutOfMemory>;

impl From<AllocError> for OutOfMemory {
    fn from(_: AllocError) -> OutOfMemory {
        OutOfMemory
    }
}

impl<T: Drop> From<AllocFailed<T>> for OutOfMemory {
    fn from(_: AllocFailed<T>) -> OutOfMemory {
        OutOfMemory
    }
}
