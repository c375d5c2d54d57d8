//! What undoing would undo, and why it may be refused.

/// The records that a call of undoing passes.
#[derive(Clone, Copy, Debug, PartialEq, Eq)]
pub struct Plan {
    /// The serial number of the newest of them.
    pub first: u64,
    /// The serial number of the oldest of them.
    pub last: u64,
    /// How many of them aren't boundaries.
    pub count: usize,
}

/// Why undoing is refused.
#[derive(Clone, Copy, Debug, PartialEq, Eq)]
pub enum Refused {
    /// Recording is off.
    Disabled,
    /// No record is pending.
    Nothing,
    /// A place of a record lies outside the bounds; the serial number of the first such record.
    Outside(u64),
}
