//! The state of a wait: which process is to be asked next, and what the wait answers in the end.
#![tactic(auto)]

mod aims;
mod rounds;

pub use aims::Aim;
pub use rounds::{Step, Wait};
