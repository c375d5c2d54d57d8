//! From an answer of the host to the one filter or sentinel that is entered with it. All memory is taken before the
//! question, so that nothing read is lost.
#![tactic(auto)]

mod answers;
mod asking;
mod entry;
mod slot;
mod taken;
mod told;

pub use answers::{ended, enter};
pub use asking::{Heard, hear, kill};
pub use entry::Entry;
pub use slot::{Slot, ready};
pub use taken::{take_answer, take_kill};
