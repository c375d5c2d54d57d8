//! The calls on texts and on undo: changes that are prepared, and then committed.
#![tactic(auto)]

mod change;
mod commits;
pub mod inserts;
pub mod property_changes;
mod read_only;
pub mod replies;
pub mod texts;
pub mod undo;
pub mod undo_more;

pub use change::{Change, Committed, Pieces, Prepared, What};
pub use commits::{commit, commit_at};
pub use texts::prepare_output;
