//! Exchanges as text, a line for each, and a host that answers as a list of exchanges has it.
#![tactic(auto)]

mod asking;
mod course;
mod exchange;
mod hex;
mod journal;
mod line;
mod lined;
mod pieces;
mod replay;
mod reply;

pub use journal::{JournalFault, LONGEST_SESSION, Transcript, read_journal, read_transcript};
pub use line::write_journal;
pub use lined::LinedHost;
pub use replay::Replay;
