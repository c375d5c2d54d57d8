//! The run of a script: forms, calls, changes with their hooks, handlers, waits. Each function goes
//! through the steps that the plain machine takes for the same piece of work, whatever stands
//! behind it.
#![tactic(auto)]

mod arguments;
mod calls;
mod changes;
mod ending;
mod forms;
mod handlers;
mod kernel;
mod processes;
mod program;
mod reply;
mod script;
mod stepped;
mod stop;
mod waits;

pub use ending::finish;
pub use forms::{run_forms, run_top};
pub use kernel::{Block, Command, Entry, Heard, Kept, Kernel, Kind, Manner};
pub use program::Program;
pub use script::run_script;
pub use stepped::Stepped;
pub use stop::{Halt, Stop};
