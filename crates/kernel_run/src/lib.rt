//! A kernel, and the run of a script on it.
#![tactic(auto)]

mod kernel;
mod run;

pub use kernel::Kernel;
pub use kernel_steps::Stop;
