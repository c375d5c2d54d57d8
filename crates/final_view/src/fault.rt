//! Why a view wasn't written.

/// Why a view wasn't written to its end.
#[derive(Clone, Copy, Debug, PartialEq, Eq)]
pub enum ViewFault {
    /// A write failed. The sink has a front of the bytes, and its count of faults rose.
    Sink,
    /// Memory was wanting. Nothing was written.
    NoMemory,
}
