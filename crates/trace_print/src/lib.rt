//! Prints values, the lines of a run, and its dump. Nothing here takes memory.
#![tactic(auto)]

mod buffer_dump;
mod escapes;
mod gap;
mod kind;
mod line;
mod names;
mod number;
mod object;
mod objects_dump;
mod property;
mod runs;
mod string;
mod symbol;
mod text;
mod value;

pub use kind::Kind;
pub use line::{dump, entry, exit, kill, reply};
pub use names::Names;
