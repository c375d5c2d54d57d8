//! The undo records of a buffer: what is recorded, what is pending, and what undoing a few groups would undo.
#![tactic(auto)]

mod laws;
mod plan;
mod rec;
mod records;
mod undo;
mod walk;

pub use laws::{cutting_ends_within_the_limits, the_oldest_group_goes_with_its_boundary};
pub use plan::{Plan, Refused};
pub use rec::Rec;
pub use undo::Undo;
