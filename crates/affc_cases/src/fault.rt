//! Why a line of a row isn't done.
use std::alloc::{AllocError, AllocFailed};

#[derive(Clone, Copy)]
pub enum Fault {
    /// No line of a row.
    Malformed,
    /// A file that is named isn't read.
    Unread,
    Memory,
}

impl From<AllocError> for Fault {
    fn from(_error: AllocError) -> Fault {
        Fault::Memory
    }
}

impl<T: Drop> From<AllocFailed<T>> for Fault {
    fn from(_error: AllocFailed<T>) -> Fault {
        Fault::Memory
    }
}
