//! What a run keeps. Each question and each change that the steps of a run make is an equation on the machine's state
//! here.
#![tactic(auto)]

mod blocks;
mod buffers;
mod changes;
mod equal;
mod handlers;
mod hearing;
mod kernel;
mod manner;
mod native_names;
mod place;
mod program;
mod questions;
mod refusals;
mod scopes;
mod setting;
mod starting;
mod steps;
mod telling;
mod told;
mod words;

pub use kernel::KernelState;
pub use program::RunProgram;
