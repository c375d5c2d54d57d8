//! What the words of the command line ask for.
#![tactic(auto)]

mod commands;
mod session_words;
mod words;

pub use commands::{Command, command_of};
pub use session_words::SessionWords;
pub use words::drill_of;
