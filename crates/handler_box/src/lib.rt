//! Natives as boxed objects, and the handlers that the program brings along.
#![tactic(auto)]

mod asking;
mod boxed;
mod drop_filter;
mod handler;
mod insert_filter;
mod note_sentinel;
mod replies;

pub use boxed::Boxed;
pub use drop_filter::DropFilter;
pub use handler::Handler;
pub use insert_filter::InsertFilter;
pub use note_sentinel::NoteSentinel;
