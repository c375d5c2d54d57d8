//! The processes of a run by number: names, handlers, states, and the decoder of each one's output.
#![tactic(auto)]

mod laws;
mod names;
mod place;
mod process;
mod processes;

pub use laws::{answers_stand, changes_stand, output_stands, processes_stand};
pub use place::Place;
pub use process::{Filter, Process, Status};
pub use processes::Processes;
