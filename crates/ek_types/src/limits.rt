//! The limits of a run that more than one crate counts by. What would pass one is refused, and nothing is changed then.

/// The most buffers that are ever made.
pub const MOST_BUFFERS: u32 = 256;

/// The most markers that are ever made.
pub const MOST_MARKERS: u32 = 65_536;

/// The most overlays that are ever made.
pub const MOST_OVERLAYS: u32 = 65_536;

/// The most processes that are ever made. A wait has a place for each.
pub const MOST_PROCESSES: u32 = 256;

/// The most bytes that one read of a child's output gives.
pub const MOST_READ: usize = 4096;

/// The most rounds of a wait, and how many it has where none are given.
pub const MOST_ROUNDS: u32 = 1000;
