//! Markers by number: places outside the texts that move with every change.
#![tactic(auto)]

mod cell;
mod change;
mod choice;
mod markers;
mod part;
mod room;
mod search;
mod slot;

pub use markers::Markers;
pub use room::Room;
