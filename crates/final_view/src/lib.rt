//! A buffer as it would be seen: without its hidden characters, with the strings of its overlays.
#![tactic(auto)]

mod buffer_view;
mod characters;
mod edges;
mod fault;
mod mark;
mod show;
mod strings;
mod sweep;

pub use buffer_view::view;
pub use fault::ViewFault;
