//! Line sessions: a child that is run and started again until it ends well, its output gathered in one buffer.
#![tactic(auto)]

mod asking;
mod command;
mod filter;
mod output;
mod replies;
mod restarting;
mod script;
mod sentinel;
mod session;

pub use session::LineSession;
