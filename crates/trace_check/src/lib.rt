//! A checker of transcripts: the plain machine's flat list of work, run one step at a time over a journal.
#![tactic(auto)]

mod arguments;
mod asks;
mod calls;
mod changes;
mod checking;
mod comparing;
mod ending;
mod forms;
mod handlers;
mod item;
mod machine;
mod processes;
mod replies;
mod turn;
mod waiting;
mod waits;
mod work;

pub use checking::{Verdict, check};
pub use item::{Item, Target};
pub use machine::Machine;
pub use turn::{StepFault, Turn};
pub use waiting::Waiting;
pub use work::Work;
