//! A run with the handlers that the program brings along, and its end as a failure that the program tells.
#![tactic(auto)]

mod failure;
mod shipped;

pub use failure::{Failure, result_of};
pub use shipped::run_shipped;
