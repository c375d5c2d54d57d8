//! The drill by which the program measures itself: a script, and a host in memory with its one child.
#![tactic(auto)]

mod counted_reads;
mod drill_child;
mod drill_script;
mod drilling;

pub use drilling::{drill, host_of_drill, script_of_drill};
