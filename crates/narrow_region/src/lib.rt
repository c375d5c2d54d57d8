//! The accessible portion of a buffer with point in it, and the places that blocks of a script keep.
#![tactic(auto)]

mod bounds;
mod kept;

pub use bounds::Bounds;
pub use kept::{Saved, SavedStack};
