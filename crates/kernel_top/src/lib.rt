//! The top call: from the words of the command line and the bytes of a source to the lines of a run.
#![tactic(auto)]

mod checking;
mod gathered;
mod laws;
mod reading;
mod recording;
mod replaying;
mod running;
mod session;
mod status;
mod summing;
mod top;
mod unseen;
mod viewing;

pub use command_words::drill_of;
pub use laws::a_recorded_run_is_replayed;
pub use line_drill::{drill, host_of_drill};
pub use status::Status;
pub use top::run;
