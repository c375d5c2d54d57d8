//! Want of memory, the one answer that is always free.

use std::alloc::{AllocError, AllocFailed};

/// Memory was wanting. Each call says what it leaves then, mostly all as it was but for spare room.
#[derive(Clone, Copy, Debug, PartialEq, Eq)]
pub struct NoMemory;

/// A value, or want of memory.
pub type Mem<T> = Result<T, NoMemory>;

impl From<AllocError> for NoMemory {
    fn from(_: AllocError) -> NoMemory {
        NoMemory
    }
}

impl<T: Drop> From<AllocFailed<T>> for NoMemory {
    fn from(_: AllocFailed<T>) -> NoMemory {
        NoMemory
    }
}
